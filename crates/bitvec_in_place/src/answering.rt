//! The bits of a range as a closure answers them.
ghost use Rattle.std.specs.Prelude.{◌≡◌, ◌-◌, length, map};
ghost use Rattle.bitvec_base.specs.Memory.{memory_bits};
ghost use Rattle.bitvec_domain.specs.Asked.{CallableBelow, CallableOnBits, FillsWith, RefillsWith};
ghost use Rattle.bitvec_in_place.specs.Ranges.{ChangesOnly, HasBits, bits_in};

use crate::spans::span_in;
use bitvec_domain::{fill_with_in, for_each_in};
use bitvec_engine::SliceOrder;
use bitvec_store::BitStore;
use std::ops::Range;

/// Makes each bit of a range what `f` answers for its index in the range, in ascending order from 0 on. Conditions: the
/// slice has at most `MAX_BITS` bits, the range lies in them, and `f` may be called so.
pub fn fill_with<T: BitStore, O: SliceOrder, F: FnMut(usize) -> bool>(
    elements: &mut [T],
    range: Range<usize>,
    f: F,
)
    requires range { HasBits T.BITS (length elements.old) range.start range.end }
    requires callable { CallableBelow F.FnMut f (range.end - range.start) }
    ensures answers { FillsWith F.FnMut f (bits_in (memory_bits T.BITS O.at (map T.value elements.new)) range.start range.end) }
    ensures outside { ChangesOnly range.start range.end (memory_bits T.BITS O.at (map T.value elements.old)) (memory_bits T.BITS O.at (map T.value elements.new)) }
    ensures len { length elements.new ≡ length elements.old }
{
    let window = span_in::<T, O>(&*elements, range);
    fill_with_in::<T, O, F>(elements, window, f);
}

/// Makes each bit of a range what `f` answers for its index in the range and the bit that stands there, in ascending
/// order from 0 on. Conditions: as for [`fill_with`].
pub fn for_each<T: BitStore, O: SliceOrder, F: FnMut(usize, bool) -> bool>(
    elements: &mut [T],
    range: Range<usize>,
    f: F,
)
    requires range { HasBits T.BITS (length elements.old) range.start range.end }
    requires callable { CallableOnBits F.FnMut f (bits_in (memory_bits T.BITS O.at (map T.value elements.old)) range.start range.end) }
    ensures answers { RefillsWith F.FnMut f (bits_in (memory_bits T.BITS O.at (map T.value elements.old)) range.start range.end)
        (bits_in (memory_bits T.BITS O.at (map T.value elements.new)) range.start range.end) }
    ensures outside { ChangesOnly range.start range.end (memory_bits T.BITS O.at (map T.value elements.old)) (memory_bits T.BITS O.at (map T.value elements.new)) }
    ensures len { length elements.new ≡ length elements.old }
{
    let window = span_in::<T, O>(&*elements, range);
    for_each_in::<T, O, F>(elements, window, f);
}
