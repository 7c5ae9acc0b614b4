//! Whether some or all bits of a range are 1.
ghost use Rattle.std.specs.Prelude.{◌≡◌, ◌&&◌, length, map, not};
ghost use Rattle.std.specs.List.{list_all, list_any};
ghost use Rattle.bitvec_base.specs.Memory.{memory_bits};
ghost use Rattle.bitvec_in_place.specs.Ranges.{HasBits, bits_in};

use crate::spans::part_in;
use bitvec_engine::SliceOrder;
use bitvec_query::BitQueries;
use bitvec_store::BitStore;
use std::ops::Range;

/// Whether some bit of a range is 1. An empty range has none. Condition: the slice has at most `MAX_BITS` bits, and the
/// range lies in them.
pub fn any<T: BitStore, O: SliceOrder>(elements: &[T], range: Range<usize>) -> bool
    requires range { HasBits T.BITS (length elements.now) range.start range.end }
    ensures { result ≡ list_any (λ bit. bit) (bits_in (memory_bits T.BITS O.at (map T.value elements.now)) range.start range.end) }
{
    part_in::<T, O>(elements, range).any()
}

/// Whether every bit of a range is 1, as in an empty range. Condition: as for [`any`].
pub fn all<T: BitStore, O: SliceOrder>(elements: &[T], range: Range<usize>) -> bool
    requires range { HasBits T.BITS (length elements.now) range.start range.end }
    ensures { result ≡ list_all (λ bit. bit) (bits_in (memory_bits T.BITS O.at (map T.value elements.now)) range.start range.end) }
{
    part_in::<T, O>(elements, range).all()
}

/// Whether no bit of a range is 1, as in an empty range. Condition: as for [`any`].
pub fn not_any<T: BitStore, O: SliceOrder>(elements: &[T], range: Range<usize>) -> bool
    requires range { HasBits T.BITS (length elements.now) range.start range.end }
    ensures { result ≡ not (list_any (λ bit. bit) (bits_in (memory_bits T.BITS O.at (map T.value elements.now)) range.start range.end)) }
{
    part_in::<T, O>(elements, range).not_any()
}

/// Whether some bit of a range is 0. An empty range has none. Condition: as for [`any`].
pub fn not_all<T: BitStore, O: SliceOrder>(elements: &[T], range: Range<usize>) -> bool
    requires range { HasBits T.BITS (length elements.now) range.start range.end }
    ensures { result ≡ not (list_all (λ bit. bit) (bits_in (memory_bits T.BITS O.at (map T.value elements.now)) range.start range.end)) }
{
    part_in::<T, O>(elements, range).not_all()
}

/// Whether some bit of a range is 1 and some bit is 0. Condition: as for [`any`].
pub fn some<T: BitStore, O: SliceOrder>(elements: &[T], range: Range<usize>) -> bool
    requires range { HasBits T.BITS (length elements.now) range.start range.end }
    ensures { result ≡ (list_any (λ bit. bit) (bits_in (memory_bits T.BITS O.at (map T.value elements.now)) range.start range.end)
        && not (list_all (λ bit. bit) (bits_in (memory_bits T.BITS O.at (map T.value elements.now)) range.start range.end))) }
{
    part_in::<T, O>(elements, range).some()
}
