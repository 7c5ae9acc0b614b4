//! The bits of a range moved: reversed, rotated, shifted; and those of a range copied to another place or exchanged.
#![tactic(auto, unfolding(crate::specs::Ranges::bits_in, crate::specs::Ranges::edited))]

ghost use Rattle.std.specs.Prelude.{◌≡◌, ◌-◌, ◌≤◌, length, map, reverse as reversal};
ghost use Rattle.bitvec_base.specs.Lists.{copied_within, rotated_left, rotated_right, shifted_end, shifted_start};
ghost use Rattle.bitvec_base.specs.Memory.{memory_bits};
ghost use Rattle.bitvec_in_place.specs.Ranges.{HasBits, edited};
ghost use Rattle.bitvec_in_place.specs.Rooms.{HasRoom};
ghost use Rattle.bitvec_within.specs.Swaps.{LieApart, swapped_within};

use crate::spans::{span_in, whole_in};
use bitvec_engine::SliceOrder;
use bitvec_store::BitStore;
use bitvec_within::{
    copy_within_in, reverse_in, rotate_left_in, rotate_right_in, shift_end_in, shift_start_in,
    swap_within_in,
};
use std::ops::Range;

/// Puts the bits of a range in the opposite order. Condition: the slice has at most `MAX_BITS` bits, and the range
/// lies in them.
pub fn reverse<T: BitStore, O: SliceOrder>(elements: &mut [T], range: Range<usize>)
    requires range { HasBits T.BITS (length elements.old) range.start range.end }
    ensures bits { memory_bits T.BITS O.at (map T.value elements.new) ≡ edited reversal (memory_bits T.BITS O.at (map T.value elements.old)) range.start range.end }
    ensures len { length elements.new ≡ length elements.old }
{
    let window = span_in::<T, O>(&*elements, range);
    reverse_in::<T, O>(elements, window);
}

/// Rotates the bits of a range so that the one at its index `by` comes first. Condition: as for [`reverse`], and `by` is
/// at most the range's length.
///
/// ```
/// in_place::rotate_left::<u8, Lsb0>(&mut bytes, 40..60, 3);
/// ```
pub fn rotate_left<T: BitStore, O: SliceOrder>(elements: &mut [T], range: Range<usize>, by: usize)
    requires range { HasBits T.BITS (length elements.old) range.start range.end }
    requires bound { by ≤ range.end - range.start }
    ensures bits { memory_bits T.BITS O.at (map T.value elements.new) ≡ edited (rotated_left by) (memory_bits T.BITS O.at (map T.value elements.old)) range.start range.end }
    ensures len { length elements.new ≡ length elements.old }
{
    let window = span_in::<T, O>(&*elements, range);
    rotate_left_in::<T, O>(elements, window, by);
}

/// Rotates the bits of a range so that its last `by` come first. Condition: as for [`rotate_left`].
pub fn rotate_right<T: BitStore, O: SliceOrder>(elements: &mut [T], range: Range<usize>, by: usize)
    requires range { HasBits T.BITS (length elements.old) range.start range.end }
    requires bound { by ≤ range.end - range.start }
    ensures bits { memory_bits T.BITS O.at (map T.value elements.new) ≡ edited (rotated_right by) (memory_bits T.BITS O.at (map T.value elements.old)) range.start range.end }
    ensures len { length elements.new ≡ length elements.old }
{
    let window = span_in::<T, O>(&*elements, range);
    rotate_right_in::<T, O>(elements, window, by);
}

/// Shifts the bits of a range by `by` places towards its start: the first `by` are lost, and as many zeros follow the
/// others. Condition: as for [`rotate_left`].
pub fn shift_start<T: BitStore, O: SliceOrder>(elements: &mut [T], range: Range<usize>, by: usize)
    requires range { HasBits T.BITS (length elements.old) range.start range.end }
    requires bound { by ≤ range.end - range.start }
    ensures bits { memory_bits T.BITS O.at (map T.value elements.new) ≡ edited (shifted_start by) (memory_bits T.BITS O.at (map T.value elements.old)) range.start range.end }
    ensures len { length elements.new ≡ length elements.old }
{
    let window = span_in::<T, O>(&*elements, range);
    shift_start_in::<T, O>(elements, window, by);
}

/// Shifts the bits of a range by `by` places towards its end: the last `by` are lost, and as many zeros stand before the
/// others. Condition: as for [`rotate_left`].
pub fn shift_end<T: BitStore, O: SliceOrder>(elements: &mut [T], range: Range<usize>, by: usize)
    requires range { HasBits T.BITS (length elements.old) range.start range.end }
    requires bound { by ≤ range.end - range.start }
    ensures bits { memory_bits T.BITS O.at (map T.value elements.new) ≡ edited (shifted_end by) (memory_bits T.BITS O.at (map T.value elements.old)) range.start range.end }
    ensures len { length elements.new ≡ length elements.old }
{
    let window = span_in::<T, O>(&*elements, range);
    shift_end_in::<T, O>(elements, window, by);
}

/// Copies the bits of a range to `dest` on, also where they overlap. Condition: the slice has at most `MAX_BITS` bits,
/// `start <= end`, and both the bits read and those written are among them.
#[tactic(auto, using(crate::proofs::Windows::wholes))]
pub fn copy_within<T: BitStore, O: SliceOrder>(elements: &mut [T], src: Range<usize>, dest: usize)
    requires room { HasRoom T.BITS (length elements.old) src.start src.end dest }
    ensures bits { memory_bits T.BITS O.at (map T.value elements.new) ≡ copied_within src.start src.end dest (memory_bits T.BITS O.at (map T.value elements.old)) }
    ensures len { length elements.new ≡ length elements.old }
{
    let window = whole_in::<T, O>(&*elements);
    copy_within_in::<T, O>(elements, window, src, dest);
}

/// Exchanges the bits of a range with as many from `dest` on. Condition: as for [`copy_within`], and the two ranges lie
/// apart.
#[tactic(auto, using(crate::proofs::Windows::wholes))]
pub fn swap_within<T: BitStore, O: SliceOrder>(elements: &mut [T], src: Range<usize>, dest: usize)
    requires room { HasRoom T.BITS (length elements.old) src.start src.end dest }
    requires apart { LieApart src.start src.end dest }
    ensures bits { memory_bits T.BITS O.at (map T.value elements.new) ≡ swapped_within src.start src.end dest (memory_bits T.BITS O.at (map T.value elements.old)) }
    ensures len { length elements.new ≡ length elements.old }
{
    let window = whole_in::<T, O>(&*elements);
    swap_within_in::<T, O>(elements, window, src, dest);
}
