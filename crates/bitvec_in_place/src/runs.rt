//! How many bits at an end of a range are 1, or 0.
ghost use Rattle.std.specs.Prelude.{◌≡◌, length, map, not};
ghost use Rattle.std.specs.List.{prefix_len, suffix_len};
ghost use Rattle.bitvec_base.specs.Memory.{memory_bits};
ghost use Rattle.bitvec_in_place.specs.Ranges.{HasBits, bits_in};

use crate::spans::part_in;
use bitvec_engine::SliceOrder;
use bitvec_query::BitQueries;
use bitvec_store::BitStore;
use std::ops::Range;

/// How many bits at the start of a range are 1. Condition: the slice has at most `MAX_BITS` bits, and the range lies in
/// them.
pub fn leading_ones<T: BitStore, O: SliceOrder>(elements: &[T], range: Range<usize>) -> usize
    requires range { HasBits T.BITS (length elements.now) range.start range.end }
    ensures { result ≡ prefix_len (λ bit. bit) (bits_in (memory_bits T.BITS O.at (map T.value elements.now)) range.start range.end) }
{
    part_in::<T, O>(elements, range).leading_ones()
}

/// How many bits at the start of a range are 0. Condition: as for [`leading_ones`].
pub fn leading_zeros<T: BitStore, O: SliceOrder>(elements: &[T], range: Range<usize>) -> usize
    requires range { HasBits T.BITS (length elements.now) range.start range.end }
    ensures { result ≡ prefix_len not (bits_in (memory_bits T.BITS O.at (map T.value elements.now)) range.start range.end) }
{
    part_in::<T, O>(elements, range).leading_zeros()
}

/// How many bits at the end of a range are 1. Condition: as for [`leading_ones`].
pub fn trailing_ones<T: BitStore, O: SliceOrder>(elements: &[T], range: Range<usize>) -> usize
    requires range { HasBits T.BITS (length elements.now) range.start range.end }
    ensures { result ≡ suffix_len (λ bit. bit) (bits_in (memory_bits T.BITS O.at (map T.value elements.now)) range.start range.end) }
{
    part_in::<T, O>(elements, range).trailing_ones()
}

/// How many bits at the end of a range are 0. Condition: as for [`leading_ones`].
pub fn trailing_zeros<T: BitStore, O: SliceOrder>(elements: &[T], range: Range<usize>) -> usize
    requires range { HasBits T.BITS (length elements.now) range.start range.end }
    ensures { result ≡ suffix_len not (bits_in (memory_bits T.BITS O.at (map T.value elements.now)) range.start range.end) }
{
    part_in::<T, O>(elements, range).trailing_zeros()
}
