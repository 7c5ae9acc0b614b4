//! All bits of a slice, and a range of them, as windows; and a range as a view.
ghost use Rattle.std.specs.Prelude.{◌≡◌, ◌-◌, ◌*◌, ◌≤◌, length, map};
ghost use Rattle.bitvec_base.specs.Memory.{HasWindow, list_in, memory_bits};
ghost use Rattle.bitvec_base.specs.Window.{max_bits};
ghost use Rattle.bitvec_in_place.specs.Ranges.{HasBits, bits_in};
ghost use Rattle.bitvec_slice.specs.Views.{seen};

use bitvec_base::{BitOrder, Window};
use bitvec_slice::BitSlice;
use bitvec_store::BitStore;
use std::ops::Range;

/// The window of a range of the elements' bits. Condition: they are at most `MAX_BITS`, and the range lies in them.
#[tactic(auto, using(crate::proofs::Windows::spans))]
pub(crate) fn span_in<T: BitStore, O: BitOrder>(elements: &[T], range: Range<usize>) -> Window
    requires range { HasBits T.BITS (length elements.now) range.start range.end }
    ensures window { HasWindow T.BITS (map T.value elements.now) result }
    ensures is { result ≡ record { start = range.start; len = range.end - range.start } }
    ensures bits { list_in T.BITS O.at (map T.value elements.now) result ≡ bits_in (memory_bits T.BITS O.at (map T.value elements.now)) range.start range.end }
{
    Window {
        start: range.start,
        len: range.end - range.start,
    }
}

/// The bits of a range as a view, of which questions are asked. Condition: as for [`span_in`].
#[tactic(auto, using(crate::proofs::Windows::spans))]
#[inline(always)]
pub(crate) fn part_in<T: BitStore, O: BitOrder>(
    elements: &[T],
    range: Range<usize>,
) -> BitSlice<'_, T, O>
    requires range { HasBits T.BITS (length elements.now) range.start range.end }
    ensures bits { (seen result).bits ≡ bits_in (memory_bits T.BITS O.at (map T.value elements.now)) range.start range.end }
    ensures start { (seen result).window.start ≡ range.start }
    ensures len { (seen result).window.len ≡ range.end - range.start }
{
    BitSlice::from_parts(elements, range.start, range.end - range.start)
}

/// The window of all bits of the elements. Condition: they are at most `MAX_BITS`.
#[tactic(auto, using(crate::proofs::Windows::spans))]
pub(crate) fn whole_in<T: BitStore, O: BitOrder>(elements: &[T]) -> Window
    requires { T.BITS * length elements.now ≤ max_bits }
    ensures window { HasWindow T.BITS (map T.value elements.now) result }
    ensures is { result ≡ record { start = 0; len = T.BITS * length elements.now } }
    ensures bits { list_in T.BITS O.at (map T.value elements.now) result ≡ memory_bits T.BITS O.at (map T.value elements.now) }
{
    Window {
        start: 0,
        len: T::BITS as usize * elements.len(),
    }
}
