//! The bits of a range compared with those of a view of any element type and order.
ghost use Rattle.std.specs.Prelude.{◌≡◌, length, map};
ghost use Rattle.std.specs.Cmp.Lexicographic.{slice_cmp};
ghost use Rattle.std.specs.Ordering.{bool_cmp};
ghost use Rattle.bitvec_base.specs.Lists.{is_prefix, is_suffix, same_bits, stands_in};
ghost use Rattle.bitvec_base.specs.Memory.{memory_bits};
ghost use Rattle.bitvec_slice.specs.Views.{seen};
ghost use Rattle.bitvec_in_place.specs.Ranges.{HasBits, bits_in};

use crate::spans::part_in;
use bitvec_base::BitOrder;
use bitvec_engine::SliceOrder;
use bitvec_query::BitQueries;
use bitvec_slice::BitSlice;
use bitvec_store::BitStore;
use std::cmp::Ordering;
use std::ops::Range;

/// Whether a view has the bits of a range. Condition: the slice has at most `MAX_BITS` bits, and the range lies in them.
pub fn eq_bits<T: BitStore, O: SliceOrder, U: BitStore, P: BitOrder>(
    elements: &[T],
    range: Range<usize>,
    other: BitSlice<'_, U, P>,
) -> bool
    requires range { HasBits T.BITS (length elements.now) range.start range.end }
    ensures { result ≡ same_bits (bits_in (memory_bits T.BITS O.at (map T.value elements.now)) range.start range.end) (seen other.entry).bits }
{
    part_in::<T, O>(elements, range).eq_bits(other)
}

/// How the bits of a range compare with those of a view, in the order of lists of truth values. Condition: as for
/// [`eq_bits`].
pub fn cmp_bits<T: BitStore, O: SliceOrder, U: BitStore, P: BitOrder>(
    elements: &[T],
    range: Range<usize>,
    other: BitSlice<'_, U, P>,
) -> Ordering
    requires range { HasBits T.BITS (length elements.now) range.start range.end }
    ensures { result ≡ slice_cmp bool_cmp (bits_in (memory_bits T.BITS O.at (map T.value elements.now)) range.start range.end) (seen other.entry).bits }
{
    part_in::<T, O>(elements, range).cmp_bits(other)
}

/// Whether the bits of a range begin with the needle's. They always begin with an empty one. Condition: as for
/// [`eq_bits`].
pub fn starts_with<T: BitStore, O: SliceOrder, U: BitStore, P: BitOrder>(
    elements: &[T],
    range: Range<usize>,
    needle: BitSlice<'_, U, P>,
) -> bool
    requires range { HasBits T.BITS (length elements.now) range.start range.end }
    ensures { result ≡ is_prefix (seen needle.entry).bits (bits_in (memory_bits T.BITS O.at (map T.value elements.now)) range.start range.end) }
{
    part_in::<T, O>(elements, range).starts_with(needle)
}

/// Whether the bits of a range end with the needle's. They always end with an empty one. Condition: as for [`eq_bits`].
pub fn ends_with<T: BitStore, O: SliceOrder, U: BitStore, P: BitOrder>(
    elements: &[T],
    range: Range<usize>,
    needle: BitSlice<'_, U, P>,
) -> bool
    requires range { HasBits T.BITS (length elements.now) range.start range.end }
    ensures { result ≡ is_suffix (seen needle.entry).bits (bits_in (memory_bits T.BITS O.at (map T.value elements.now)) range.start range.end) }
{
    part_in::<T, O>(elements, range).ends_with(needle)
}

/// Whether the needle's bits occur in a range, from some index on; those of an empty needle always do. Condition: as for
/// [`eq_bits`].
pub fn contains<T: BitStore, O: SliceOrder, U: BitStore, P: BitOrder>(
    elements: &[T],
    range: Range<usize>,
    needle: BitSlice<'_, U, P>,
) -> bool
    requires range { HasBits T.BITS (length elements.now) range.start range.end }
    ensures { result ≡ stands_in (seen needle.entry).bits (bits_in (memory_bits T.BITS O.at (map T.value elements.now)) range.start range.end) }
{
    part_in::<T, O>(elements, range).contains(needle)
}
