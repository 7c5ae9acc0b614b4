//! A bit put among the first bits of a slice, and one taken out of them, as of a `Vec` of bits that has more room.
#![tactic(auto, using(crate::proofs::Cursors::moved))]

ghost use Rattle.std.specs.Prelude.{◌≡◌, ◌+◌, ◌<◌, ◌≤◌, false, length, map, slice_index_or};
ghost use Rattle.bitvec_base.specs.Memory.{memory_bits};
ghost use Rattle.bitvec_in_place.specs.Inserted.{inserted, removed};
ghost use Rattle.bitvec_in_place.specs.Ranges.{HasBits};

use crate::bits::{get, set};
use crate::moving::copy_within;
use bitvec_engine::SliceOrder;
use bitvec_store::BitStore;

/// Puts a bit among the first `len` bits, before the one at an index or at their end. Those from there on move one
/// place on, the last of them to the place `len`; every other bit stays. So it is `Vec::insert` on the first `len` bits.
/// Conditions: the slice has at most `MAX_BITS` bits, more than `len` of them, and `index <= len`.
///
/// ```
/// in_place::insert::<u32, Lsb0>(words, len, index, bit);
/// ```
pub fn insert<T: BitStore, O: SliceOrder>(elements: &mut [T], len: usize, index: usize, bit: bool)
    requires room { HasBits T.BITS (length elements.old) 0 (len + 1) }
    requires bound { index ≤ len }
    ensures bits { memory_bits T.BITS O.at (map T.value elements.new) ≡ inserted (memory_bits T.BITS O.at (map T.value elements.old)) len index bit }
    ensures len { length elements.new ≡ length elements.old }
{
    copy_within::<T, O>(elements, index..len, index + 1);
    set::<T, O>(elements, index, bit);
}

/// Takes the bit at an index out of the first `len`, and gives it. Those behind it move one place back; the place of the
/// last of them keeps its bit, as does every other. So it is `Vec::remove` on the first `len` bits. Conditions: the slice
/// has at most `MAX_BITS` bits, at least `len` of them, and `index < len`.
pub fn remove<T: BitStore, O: SliceOrder>(elements: &mut [T], len: usize, index: usize) -> bool
    requires room { HasBits T.BITS (length elements.old) 0 len }
    requires bound { index < len }
    ensures value { result ≡ slice_index_or (memory_bits T.BITS O.at (map T.value elements.old)) index false }
    ensures bits { memory_bits T.BITS O.at (map T.value elements.new) ≡ removed (memory_bits T.BITS O.at (map T.value elements.old)) len index }
    ensures len { length elements.new ≡ length elements.old }
{
    let bit = get::<T, O>(&*elements, index);
    copy_within::<T, O>(elements, index + 1..len, index);
    bit
}
