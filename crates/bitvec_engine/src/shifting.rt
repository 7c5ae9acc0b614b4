//! The bits of a window reversed, rotated or shifted, as the order does it; all other bits of the memory stay.
ghost use Rattle.std.specs.Prelude.{◌+◌, ◌-◌, ◌≤◌, reverse as reversed};
ghost use Rattle.bitvec_base.specs.Lists.{rotated_left, rotated_right, shifted_end, shifted_start};
ghost use Rattle.bitvec_base.specs.Memory.{Edits, HasWindow};
ghost use Rattle.bitvec_cells.specs.Access.{CostsAtMost};
ghost use Rattle.bitvec_cells.specs.Cost.{edit_loads, fill_loads, reverse_loads, reverse_stores, rotate_loads, rotate_stores, touched_count, write_stores};

use crate::slice_order::SliceOrder;
use bitvec_base::Window;
use bitvec_cells::{Cells, CellsRead};
use bitvec_store::BitStore;
use bitvec_words::fill;

/// Reverses the bits of a window: [`SliceOrder::block_reverse`], out of line, since a rotation calls it three times.
pub fn reverse<O: SliceOrder, C: Cells>(cells: &mut C, window: Window)
    requires { HasWindow C.Elem.BITS (C.numbers cells.old) window }
    ensures writes { Edits C.Elem.BITS O.at (C.numbers cells.old) (C.numbers cells.new) window reversed }
    ensures cost { CostsAtMost C.CellsRead cells.old cells.new
        (reverse_loads C.Elem.BITS O.WORDS window.len) (reverse_stores C.Elem.BITS O.WORDS window.len) }
{
    O::block_reverse::<C>(cells, window);
}

/// Rotates the bits of a window so that the bit at `by` comes first: `rotate_left` of `bitvec`'s `BitSlice`.
/// Condition: the memory has at most `MAX_BITS` bits, the window lies in it, and `by` is at most the window's length.
/// It costs three reversals: of the first `by` bits, of the others, and of all.
pub fn rotate_left<O: SliceOrder, C: Cells>(cells: &mut C, window: Window, by: usize)
    requires window { HasWindow C.Elem.BITS (C.numbers cells.old) window }
    requires bound { by ≤ window.len }
    ensures writes { Edits C.Elem.BITS O.at (C.numbers cells.old) (C.numbers cells.new) window (rotated_left by) }
    ensures cost { CostsAtMost C.CellsRead cells.old cells.new
        (rotate_loads C.Elem.BITS O.WORDS by window.len) (rotate_stores C.Elem.BITS O.WORDS by window.len) }
{
    reverse::<O, C>(cells, window.range(0, by));
    reverse::<O, C>(cells, window.range(by, window.len));
    reverse::<O, C>(cells, window);
}

/// Rotates the bits of a window so that the last `by` come first: `rotate_right` of `bitvec`'s `BitSlice`. Condition
/// and cost: as for [`rotate_left`], by the bits that are not the last `by`.
pub fn rotate_right<O: SliceOrder, C: Cells>(cells: &mut C, window: Window, by: usize)
    requires window { HasWindow C.Elem.BITS (C.numbers cells.old) window }
    requires bound { by ≤ window.len }
    ensures writes { Edits C.Elem.BITS O.at (C.numbers cells.old) (C.numbers cells.new) window (rotated_right by) }
    ensures cost { CostsAtMost C.CellsRead cells.old cells.new
        (rotate_loads C.Elem.BITS O.WORDS (window.len - by) window.len) (rotate_stores C.Elem.BITS O.WORDS (window.len - by) window.len) }
{
    rotate_left::<O, C>(cells, window, window.len - by);
}

/// Shifts the bits of a window by `by` places towards its start: the first `by` are lost, and as many zeros follow
/// the others: `shift_start` of `bitvec`'s `BitSlice`. Condition: as for [`rotate_left`]. It costs a copy of the bits
/// kept and a fill of `by` bits.
pub fn shift_start<O: SliceOrder, C: Cells>(cells: &mut C, window: Window, by: usize)
    requires window { HasWindow C.Elem.BITS (C.numbers cells.old) window }
    requires bound { by ≤ window.len }
    ensures writes { Edits C.Elem.BITS O.at (C.numbers cells.old) (C.numbers cells.new) window (shifted_start by) }
    ensures cost { let kept = window.len - by in
        CostsAtMost C.CellsRead cells.old cells.new (edit_loads C.Elem.BITS O.WORDS kept + fill_loads by)
        (write_stores C.Elem.BITS O.WORDS kept + touched_count C.Elem.BITS (window.start + kept) by) }
{
    let kept = window.len - by;
    O::block_copy_within::<C>(cells, window, by, window.len, 0);
    fill::<O, C>(cells, window.range(kept, window.len), false);
}

/// Shifts the bits of a window by `by` places towards its end: the last `by` are lost, and as many zeros stand before
/// the others: `shift_end` of `bitvec`'s `BitSlice`. Condition and cost: as for [`shift_start`].
pub fn shift_end<O: SliceOrder, C: Cells>(cells: &mut C, window: Window, by: usize)
    requires window { HasWindow C.Elem.BITS (C.numbers cells.old) window }
    requires bound { by ≤ window.len }
    ensures writes { Edits C.Elem.BITS O.at (C.numbers cells.old) (C.numbers cells.new) window (shifted_end by) }
    ensures cost { let kept = window.len - by in
        CostsAtMost C.CellsRead cells.old cells.new (edit_loads C.Elem.BITS O.WORDS kept + fill_loads by)
        (write_stores C.Elem.BITS O.WORDS kept + touched_count C.Elem.BITS window.start by) }
{
    O::block_copy_within::<C>(cells, window, 0, window.len - by, by);
    fill::<O, C>(cells, window.range(0, by), false);
}
