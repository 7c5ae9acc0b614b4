//! Questions about a range of bits: how many are 1, and where the first or the last 1 or 0 is.
ghost use Rattle.std.specs.Prelude.{◌≡◌, count_by, false, length, map, not, true};
ghost use Rattle.bitvec_base.specs.Lists.{first_place, last_place};
ghost use Rattle.bitvec_base.specs.Memory.{memory_bits};
ghost use Rattle.bitvec_in_place.specs.Ranges.{HasBits, bits_in};

use crate::spans::part_in;
use bitvec_engine::SliceOrder;
use bitvec_query::BitQueries;
use bitvec_store::BitStore;
use std::ops::Range;

/// How many bits of a range are 1. Condition: the slice has at most `MAX_BITS` bits, and the range lies in them.
pub fn count_ones<T: BitStore, O: SliceOrder>(elements: &[T], range: Range<usize>) -> usize
    requires range { HasBits T.BITS (length elements.now) range.start range.end }
    ensures { result ≡ count_by (λ bit. bit) (bits_in (memory_bits T.BITS O.at (map T.value elements.now)) range.start range.end) }
{
    part_in::<T, O>(elements, range).count_ones()
}

/// How many bits of a range are 0. Condition: as for [`count_ones`].
pub fn count_zeros<T: BitStore, O: SliceOrder>(elements: &[T], range: Range<usize>) -> usize
    requires range { HasBits T.BITS (length elements.now) range.start range.end }
    ensures { result ≡ count_by not (bits_in (memory_bits T.BITS O.at (map T.value elements.now)) range.start range.end) }
{
    part_in::<T, O>(elements, range).count_zeros()
}

/// The index in a range of its first 1, if it has one. Condition: as for [`count_ones`].
pub fn first_one<T: BitStore, O: SliceOrder>(elements: &[T], range: Range<usize>) -> Option<usize>
    requires range { HasBits T.BITS (length elements.now) range.start range.end }
    ensures { result ≡ first_place true (bits_in (memory_bits T.BITS O.at (map T.value elements.now)) range.start range.end) }
{
    part_in::<T, O>(elements, range).first_one()
}

/// The index in a range of its last 1, if it has one. Condition: as for [`count_ones`].
pub fn last_one<T: BitStore, O: SliceOrder>(elements: &[T], range: Range<usize>) -> Option<usize>
    requires range { HasBits T.BITS (length elements.now) range.start range.end }
    ensures { result ≡ last_place true (bits_in (memory_bits T.BITS O.at (map T.value elements.now)) range.start range.end) }
{
    part_in::<T, O>(elements, range).last_one()
}

/// The index in a range of its first 0, if it has one. Condition: as for [`count_ones`].
pub fn first_zero<T: BitStore, O: SliceOrder>(elements: &[T], range: Range<usize>) -> Option<usize>
    requires range { HasBits T.BITS (length elements.now) range.start range.end }
    ensures { result ≡ first_place false (bits_in (memory_bits T.BITS O.at (map T.value elements.now)) range.start range.end) }
{
    part_in::<T, O>(elements, range).first_zero()
}

/// The index in a range of its last 0, if it has one. Condition: as for [`count_ones`].
pub fn last_zero<T: BitStore, O: SliceOrder>(elements: &[T], range: Range<usize>) -> Option<usize>
    requires range { HasBits T.BITS (length elements.now) range.start range.end }
    ensures { result ≡ last_place false (bits_in (memory_bits T.BITS O.at (map T.value elements.now)) range.start range.end) }
{
    part_in::<T, O>(elements, range).last_zero()
}
