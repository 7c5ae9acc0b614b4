//! One range of a slice's bits combined with another range of them.
#![tactic(auto, using(crate::proofs::Windows::wholes))]

ghost use Rattle.std.specs.Prelude.{◌≡◌, length, map};
ghost use Rattle.bitvec_base.specs.Memory.{memory_bits};
ghost use Rattle.bitvec_in_place.specs.Rooms.{HasRoom};
ghost use Rattle.bitvec_words.specs.Operator.{operator};
ghost use Rattle.bitvec_words.specs.declared.operator.BitOp.TheVariants.{And, AndNot, Or, Xor};
ghost use Rattle.bitvec_within.specs.Combined.{combined_within};

use crate::spans::whole_in;
use bitvec_engine::SliceOrder;
use bitvec_store::BitStore;
use bitvec_within::combine_within_in;
use bitvec_words::BitOp;
use std::ops::Range;

/// Combines as many bits from `dest` on as a range has with those of the range, by "and", as both stood before the
/// call. Condition: the slice has at most `MAX_BITS` bits, `start <= end`, and both the bits read and those written
/// are among them.
pub fn and_within<T: BitStore, O: SliceOrder>(elements: &mut [T], src: Range<usize>, dest: usize)
    requires room { HasRoom T.BITS (length elements.old) src.start src.end dest }
    ensures bits { memory_bits T.BITS O.at (map T.value elements.new) ≡ combined_within (operator And) src.start src.end dest (memory_bits T.BITS O.at (map T.value elements.old)) }
    ensures len { length elements.new ≡ length elements.old }
{
    let window = whole_in::<T, O>(&*elements);
    combine_within_in::<T, O>(elements, window, src, dest, BitOp::And);
}

/// Combines as many bits from `dest` on as a range has with those of the range, by "or", as both stood before the
/// call. Condition: as for [`and_within`].
pub fn or_within<T: BitStore, O: SliceOrder>(elements: &mut [T], src: Range<usize>, dest: usize)
    requires room { HasRoom T.BITS (length elements.old) src.start src.end dest }
    ensures bits { memory_bits T.BITS O.at (map T.value elements.new) ≡ combined_within (operator Or) src.start src.end dest (memory_bits T.BITS O.at (map T.value elements.old)) }
    ensures len { length elements.new ≡ length elements.old }
{
    let window = whole_in::<T, O>(&*elements);
    combine_within_in::<T, O>(elements, window, src, dest, BitOp::Or);
}

/// Combines as many bits from `dest` on as a range has with those of the range, by "xor", as both stood before the
/// call. Condition: as for [`and_within`].
pub fn xor_within<T: BitStore, O: SliceOrder>(elements: &mut [T], src: Range<usize>, dest: usize)
    requires room { HasRoom T.BITS (length elements.old) src.start src.end dest }
    ensures bits { memory_bits T.BITS O.at (map T.value elements.new) ≡ combined_within (operator Xor) src.start src.end dest (memory_bits T.BITS O.at (map T.value elements.old)) }
    ensures len { length elements.new ≡ length elements.old }
{
    let window = whole_in::<T, O>(&*elements);
    combine_within_in::<T, O>(elements, window, src, dest, BitOp::Xor);
}

/// Clears each of the bits from `dest` on, as many as a range has, where the one at its index in the range is 1, as
/// both stood before the call. Condition: as for [`and_within`].
pub fn and_not_within<T: BitStore, O: SliceOrder>(
    elements: &mut [T],
    src: Range<usize>,
    dest: usize,
)
    requires room { HasRoom T.BITS (length elements.old) src.start src.end dest }
    ensures bits { memory_bits T.BITS O.at (map T.value elements.new) ≡ combined_within (operator AndNot) src.start src.end dest (memory_bits T.BITS O.at (map T.value elements.old)) }
    ensures len { length elements.new ≡ length elements.old }
{
    let window = whole_in::<T, O>(&*elements);
    combine_within_in::<T, O>(elements, window, src, dest, BitOp::AndNot);
}
