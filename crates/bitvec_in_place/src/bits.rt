//! Single bits.
#![tactic(auto, using(crate::proofs::Windows::wholes))]

ghost use Rattle.std.specs.Prelude.{◌≡◌, ◌+◌, false, length, map, slice_index_or, slice_set};
ghost use Rattle.std.specs.List.{swap as swapped};
ghost use Rattle.bitvec_base.specs.Memory.{memory_bits};
ghost use Rattle.bitvec_in_place.specs.Ranges.{HasBits};

use crate::spans::whole_in;
use bitvec_base::BitOrder;
use bitvec_domain::{replace_in, set_in, swap_in};
use bitvec_engine::SliceOrder;
use bitvec_slice::BitSlice;
use bitvec_store::BitStore;

/// The bit at an index. Condition: the slice has at most `MAX_BITS` bits, and the index is below their number.
///
/// ```
/// let bytes = drawn(number);
/// in_place::get::<u8, Lsb0>(&bytes, place)
/// ```
pub fn get<T: BitStore, O: SliceOrder>(elements: &[T], index: usize) -> bool
    requires range { HasBits T.BITS (length elements.now) index (index + 1) }
    ensures { result ≡ slice_index_or (memory_bits T.BITS O.at (map T.value elements.now)) index false }
{
    BitSlice::<T, O>::from_slice(elements)[index]
}

/// Makes the bit at an index `bit`. Condition: as for [`get`].
///
/// ```
/// let mut bytes = [0u8; 8];
/// in_place::set::<u8, Lsb0>(&mut bytes, 3, true);
/// ```
pub fn set<T: BitStore, O: BitOrder>(elements: &mut [T], index: usize, bit: bool)
    requires range { HasBits T.BITS (length elements.old) index (index + 1) }
    ensures bits { memory_bits T.BITS O.at (map T.value elements.new) ≡ slice_set (memory_bits T.BITS O.at (map T.value elements.old)) index bit }
    ensures len { length elements.new ≡ length elements.old }
{
    let window = whole_in::<T, O>(&*elements);
    set_in::<T, O>(elements, window, index, bit);
}

/// Makes the bit at an index `bit`, and gives the old one. Condition: as for [`get`].
pub fn replace<T: BitStore, O: SliceOrder>(elements: &mut [T], index: usize, bit: bool) -> bool
    requires range { HasBits T.BITS (length elements.old) index (index + 1) }
    ensures value { result ≡ slice_index_or (memory_bits T.BITS O.at (map T.value elements.old)) index false }
    ensures bits { memory_bits T.BITS O.at (map T.value elements.new) ≡ slice_set (memory_bits T.BITS O.at (map T.value elements.old)) index bit }
    ensures len { length elements.new ≡ length elements.old }
{
    let window = whole_in::<T, O>(&*elements);
    replace_in::<T, O>(elements, window, index, bit)
}

/// Exchanges the bits at two indices, which may be one. Condition: as for [`get`], of both.
pub fn swap<T: BitStore, O: SliceOrder>(elements: &mut [T], first: usize, second: usize)
    requires first { HasBits T.BITS (length elements.old) first (first + 1) }
    requires second { HasBits T.BITS (length elements.old) second (second + 1) }
    ensures bits { memory_bits T.BITS O.at (map T.value elements.new) ≡ swapped (memory_bits T.BITS O.at (map T.value elements.old)) first second }
    ensures len { length elements.new ≡ length elements.old }
{
    let window = whole_in::<T, O>(&*elements);
    swap_in::<T, O>(elements, window, first, second);
}
