//! Each bit of a range set, cleared or flipped.
#![tactic(auto, unfolding(crate::specs::Ranges::bits_in, crate::specs::Ranges::filled, crate::specs::Ranges::flipped))]

ghost use Rattle.std.specs.Prelude.{◌≡◌, length, map};
ghost use Rattle.bitvec_base.specs.Memory.{memory_bits};
ghost use Rattle.bitvec_in_place.specs.Ranges.{HasBits, filled, flipped};

use crate::spans::span_in;
use bitvec_elements::{fill_in, invert_in};
use bitvec_engine::SliceOrder;
use bitvec_store::BitStore;
use std::ops::Range;

/// Makes each bit of a range `bit`: `fill` of that part as a view. Condition: the slice has at most `MAX_BITS`
/// bits, and the range lies in them.
///
/// ```
/// in_place::fill::<u8, Lsb0>(&mut bytes, 20..40, true);
/// ```
pub fn fill<T: BitStore, O: SliceOrder>(elements: &mut [T], range: Range<usize>, bit: bool)
    requires range { HasBits T.BITS (length elements.old) range.start range.end }
    ensures bits { memory_bits T.BITS O.at (map T.value elements.new) ≡ filled (memory_bits T.BITS O.at (map T.value elements.old)) range.start range.end bit }
    ensures len { length elements.new ≡ length elements.old }
{
    let window = span_in::<T, O>(&*elements, range);
    fill_in::<T, O>(elements, window, bit);
}

/// Flips each bit of a range: `invert` of that part as a view. Condition: as for [`fill`].
///
/// ```
/// in_place::invert::<u8, Lsb0>(&mut bytes, 30..50);
/// ```
pub fn invert<T: BitStore, O: SliceOrder>(elements: &mut [T], range: Range<usize>)
    requires range { HasBits T.BITS (length elements.old) range.start range.end }
    ensures bits { memory_bits T.BITS O.at (map T.value elements.new) ≡ flipped (memory_bits T.BITS O.at (map T.value elements.old)) range.start range.end }
    ensures len { length elements.new ≡ length elements.old }
{
    let window = span_in::<T, O>(&*elements, range);
    invert_in::<T, O>(elements, window);
}
