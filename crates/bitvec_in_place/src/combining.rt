//! The bits of a range and those of a view of any element type and order.
#![tactic(auto, unfolding(crate::specs::Ranges::bits_in, crate::specs::Ranges::joined))]

ghost use Rattle.std.specs.Prelude.{◌≡◌, ◌-◌, length, map};
ghost use Rattle.bitvec_base.specs.Memory.{memory_bits};
ghost use Rattle.bitvec_base.specs.Window.{write_at};
ghost use Rattle.bitvec_slice.specs.Views.{seen};
ghost use Rattle.bitvec_words.specs.Operator.{operator};
ghost use Rattle.bitvec_words.specs.declared.operator.BitOp.TheVariants.{And, AndNot, Or, Xor};
ghost use Rattle.bitvec_in_place.specs.Ranges.{HasBits, joined};

use crate::spans::span_in;
use bitvec_base::BitOrder;
use bitvec_elements::{combine_in, copy_from_in};
use bitvec_engine::SliceOrder;
use bitvec_slice::BitSlice;
use bitvec_store::BitStore;
use bitvec_words::BitOp;
use std::ops::Range;

/// Copies the bits of a view to a range. Condition: the slice has at most `MAX_BITS` bits, the range lies in them, and the
/// view is as long.
pub fn copy_from<T: BitStore, O: BitOrder, U: BitStore, P: BitOrder>(
    elements: &mut [T],
    range: Range<usize>,
    source: BitSlice<'_, U, P>,
)
    requires range { HasBits T.BITS (length elements.old) range.start range.end }
    requires long { (seen source).window.len ≡ range.end - range.start }
    ensures bits { memory_bits T.BITS O.at (map T.value elements.new) ≡ write_at (memory_bits T.BITS O.at (map T.value elements.old)) range.start (seen source.entry).bits }
    ensures len { length elements.new ≡ length elements.old }
{
    let from = source.window();
    let window = span_in::<T, O>(&*elements, range);
    copy_from_in::<T, O, U, P>(elements, window, source.elements(), from);
}

/// Combines each bit of a range with the one at its index in a view, by "and". The view counts as 0 past its end.
/// Condition: the slice has at most `MAX_BITS` bits, and the range lies in them.
pub fn and_bits<T: BitStore, O: SliceOrder, U: BitStore, P: BitOrder>(
    elements: &mut [T],
    range: Range<usize>,
    source: BitSlice<'_, U, P>,
)
    requires range { HasBits T.BITS (length elements.old) range.start range.end }
    ensures bits { memory_bits T.BITS O.at (map T.value elements.new) ≡ joined (operator And) (memory_bits T.BITS O.at (map T.value elements.old)) range.start range.end (seen source.entry).bits }
    ensures len { length elements.new ≡ length elements.old }
{
    combine::<T, O, U, P>(elements, range, source, BitOp::And);
}

/// Combines each bit of a range with the one at its index in a view, by "or". The view counts as 0 past its end.
/// Condition: as for [`and_bits`].
pub fn or_bits<T: BitStore, O: SliceOrder, U: BitStore, P: BitOrder>(
    elements: &mut [T],
    range: Range<usize>,
    source: BitSlice<'_, U, P>,
)
    requires range { HasBits T.BITS (length elements.old) range.start range.end }
    ensures bits { memory_bits T.BITS O.at (map T.value elements.new) ≡ joined (operator Or) (memory_bits T.BITS O.at (map T.value elements.old)) range.start range.end (seen source.entry).bits }
    ensures len { length elements.new ≡ length elements.old }
{
    combine::<T, O, U, P>(elements, range, source, BitOp::Or);
}

/// Combines each bit of a range with the one at its index in a view, by "xor". The view counts as 0 past its end.
/// Condition: as for [`and_bits`].
pub fn xor_bits<T: BitStore, O: SliceOrder, U: BitStore, P: BitOrder>(
    elements: &mut [T],
    range: Range<usize>,
    source: BitSlice<'_, U, P>,
)
    requires range { HasBits T.BITS (length elements.old) range.start range.end }
    ensures bits { memory_bits T.BITS O.at (map T.value elements.new) ≡ joined (operator Xor) (memory_bits T.BITS O.at (map T.value elements.old)) range.start range.end (seen source.entry).bits }
    ensures len { length elements.new ≡ length elements.old }
{
    combine::<T, O, U, P>(elements, range, source, BitOp::Xor);
}

/// Clears each bit of a range where the one at its index in a view is 1. The view counts as 0 past its end.
/// Condition: as for [`and_bits`].
pub fn and_not_bits<T: BitStore, O: SliceOrder, U: BitStore, P: BitOrder>(
    elements: &mut [T],
    range: Range<usize>,
    source: BitSlice<'_, U, P>,
)
    requires range { HasBits T.BITS (length elements.old) range.start range.end }
    ensures bits { memory_bits T.BITS O.at (map T.value elements.new) ≡ joined (operator AndNot) (memory_bits T.BITS O.at (map T.value elements.old)) range.start range.end (seen source.entry).bits }
    ensures len { length elements.new ≡ length elements.old }
{
    combine::<T, O, U, P>(elements, range, source, BitOp::AndNot);
}

/// Combines each bit of a range with the one at its index in a view, which counts as 0 past its end. Condition: as for
/// [`and_bits`].
fn combine<T: BitStore, O: SliceOrder, U: BitStore, P: BitOrder>(
    elements: &mut [T],
    range: Range<usize>,
    source: BitSlice<'_, U, P>,
    op: BitOp,
)
    requires range { HasBits T.BITS (length elements.old) range.start range.end }
    ensures bits { memory_bits T.BITS O.at (map T.value elements.new) ≡ joined (operator op) (memory_bits T.BITS O.at (map T.value elements.old)) range.start range.end (seen source.entry).bits }
    ensures len { length elements.new ≡ length elements.old }
{
    let from = source.window();
    let window = span_in::<T, O>(&*elements, range);
    combine_in::<T, O, U, P>(elements, window, source.elements(), from, op);
}
