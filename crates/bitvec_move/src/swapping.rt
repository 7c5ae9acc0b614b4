//! The bits of two windows of one element width and order, exchanged.
ghost use Rattle.std.specs.Prelude.{true};
ghost use Rattle.bitvec_base.specs.Spans.{HasSpan};
ghost use Rattle.bitvec_cells.specs.Access.{CostsAtMost};
ghost use Rattle.bitvec_cells.specs.Cost.{edit_loads, write_stores};
ghost use Rattle.bitvec_words.specs.Moves.{SwapsWindows};

use crate::swapping_equal::swap_equal;
use crate::swapping_shifted::swap_shifted;
use bitvec_base::{BitOrder, Window};
use bitvec_cells::{Cells, CellsRead};
use bitvec_store::BitStore;
use bitvec_words::WordOrder;

/// Exchanges the bits of two windows of two memories of the same elements. Condition: each memory
/// has at most `MAX_BITS` bits, each window lies in its memory, and the windows are as long. On both
/// sides it loads and stores each element that the window touches once.
#[inline(always)]
pub fn swap<O: WordOrder, C: Cells, D: Cells + CellsRead<Elem = C::Elem>>(
    left: &mut C,
    left_window: Window,
    right: &mut D,
    right_window: Window,
)
    requires { HasSpan C.Elem.BITS (C.numbers left.old) (D.numbers right.old) left_window right_window }
    ensures swaps { SwapsWindows C.Elem.BITS O.at (C.numbers left.old) (C.numbers left.new) (D.numbers right.old) (D.numbers right.new) left_window right_window }
    ensures cost { CostsAtMost C.CellsRead left.old left.new (edit_loads C.Elem.BITS true left_window.len) (write_stores C.Elem.BITS true left_window.len) }
    ensures right_cost { CostsAtMost D.CellsRead right.old right.new (edit_loads C.Elem.BITS true left_window.len) (write_stores C.Elem.BITS true left_window.len) }
{
    if left_window.len == 0 {
        return;
    }
    if left_window.phase::<C::Elem>() == right_window.phase::<C::Elem>() {
        swap_equal::<O, C, D>(left, left_window, right, right_window);
    } else {
        swap_shifted::<O, C, D>(left, left_window, right, right_window);
    }
}
