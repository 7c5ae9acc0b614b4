//! One part of a view as the source of an edit, another as its target.
ghost use Rattle.std.specs.Prelude.{◌≡◌, ◌+◌, ◌*◌, ◌<◌, ◌≤◌, ◌||◌, false, slice_index_or};
ghost use Rattle.bitvec.specs.Operators.{or_within};
ghost use Rattle.bitvec.specs.Views.{seen_mut};
ghost use Rattle.bitvec.specs.Writes.{WritesBits};

use bitvec::prelude::*;

/// Gives a row of a matrix of bits the ones of another too. Condition: both rows, of `width` bits, are there.
pub fn or_row<T: BitStore, O: SliceOrder>(
    bits: &mut BitSliceMut<'_, T, O>,
    width: usize,
    source: usize,
    target: usize,
)
    requires source { source * width + width ≤ (seen_mut bits.old).window.len }
    requires target { target * width + width ≤ (seen_mut bits.old).window.len }
    ensures { WritesBits bits.old bits.new
        (or_within (source * width) (source * width + width) (target * width) (seen_mut bits.old).bits) }
{
    let _bits = bits.len();
    bits.or_within(source * width..source * width + width, target * width);
}

/// Gives a row of a matrix of bits the ones of another too, and tells one of its bits: it is 1 if either row's was.
#[tactic(auto, using(bitvec::specs::Laws::overlaid))]
pub fn joined_bit<T: BitStore, O: SliceOrder>(
    bits: &mut BitSliceMut<'_, T, O>,
    width: usize,
    column: usize,
) -> bool
    requires rows { 2 * width ≤ (seen_mut bits.old).window.len }
    requires column { column < width }
    ensures { result ≡ (slice_index_or (seen_mut bits.old).bits (width + column) false || slice_index_or (seen_mut bits.old).bits column false) }
{
    or_row(bits, width, 0, 1);
    bits[width + column]
}
