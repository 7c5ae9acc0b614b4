//! The bits of a range exchanged with those of a view of any element type and order.
#![tactic(auto, unfolding(crate::specs::Ranges::bits_in))]

ghost use Rattle.std.specs.Prelude.{◌≡◌, ◌-◌, length, map};
ghost use Rattle.bitvec_base.specs.Memory.{memory_bits};
ghost use Rattle.bitvec_base.specs.Window.{write_at};
ghost use Rattle.bitvec_slice.specs.Views.{seen_mut};
ghost use Rattle.bitvec_slice.specs.Writes.{WritesBits};
ghost use Rattle.bitvec_in_place.specs.Ranges.{HasBits, bits_in};

use crate::spans::span_in;
use bitvec_base::BitOrder;
use bitvec_elements::swap_with_in;
use bitvec_engine::SliceOrder;
use bitvec_slice::{BitSliceMut, Sealed, ViewMut};
use bitvec_store::BitStore;
use std::ops::Range;

/// Exchanges the bits of a range with those of a view. Condition: the slice has at most `MAX_BITS` bits, the range lies in
/// them, and the view is as long.
pub fn swap_with<T: BitStore, O: SliceOrder, U: BitStore, P: BitOrder>(
    elements: &mut [T],
    range: Range<usize>,
    other: &mut BitSliceMut<'_, U, P>,
)
    requires range { HasBits T.BITS (length elements.old) range.start range.end }
    requires long { (seen_mut other.old).window.len ≡ range.end - range.start }
    ensures bits { memory_bits T.BITS O.at (map T.value elements.new) ≡ write_at (memory_bits T.BITS O.at (map T.value elements.old)) range.start (seen_mut other.old).bits }
    ensures len { length elements.new ≡ length elements.old }
    ensures other_bits { WritesBits other.old other.new (bits_in (memory_bits T.BITS O.at (map T.value elements.old)) range.start range.end) }
{
    let window = other.window();
    let part = span_in::<T, O>(&*elements, range);
    swap_with_in::<T, O, U, P>(elements, part, other.elements_mut(Sealed), window);
}
