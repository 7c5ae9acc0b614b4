//! How `HiLo` works on whole windows: by elements as they are where the windows begin at the same index of an element, else
//! bit by bit.
#![tactic(auto, using(bitvec_cells::specs::CostLaws::in_steps, bitvec_cells::specs::CostLaws::enough, bitvec_store::specs::WidthLaws::width_some))]

ghost use Rattle.std.specs.Prelude.{false};

use crate::slice_order::SliceOrder;
use bitvec_base::{HiLo, Window};
use bitvec_cells::{Cells, CellsRead};
use bitvec_passes::{
    bits_copy_within, bits_reverse, elements_copy, elements_eq, elements_op, elements_swap,
};
use bitvec_words::BitOp;

impl SliceOrder for HiLo {
    ghost WORDS = { false };

    const WORDS: bool = false;

    fn block_eq<C: CellsRead, D: CellsRead<Elem = C::Elem>>(
        left: &mut C,
        left_window: Window,
        right: &mut D,
        right_window: Window,
    ) -> bool {
        elements_eq::<Self, C, D>(left, left_window, right, right_window)
    }

    fn block_copy<C: Cells, D: CellsRead<Elem = C::Elem>>(
        left: &mut C,
        to: Window,
        right: &mut D,
        from: Window,
    ) {
        elements_copy::<Self, C, D>(left, to, right, from);
    }

    fn block_swap<C: Cells, D: Cells + CellsRead<Elem = C::Elem>>(
        left: &mut C,
        left_window: Window,
        right: &mut D,
        right_window: Window,
    ) {
        elements_swap::<Self, C, D>(left, left_window, right, right_window);
    }

    fn block_copy_within<C: Cells>(
        cells: &mut C,
        window: Window,
        from: usize,
        to: usize,
        dest: usize,
    ) {
        bits_copy_within::<Self, C>(cells, window, from, to, dest);
    }

    fn block_op<C: Cells, D: CellsRead<Elem = C::Elem>>(
        left: &mut C,
        to: Window,
        right: &mut D,
        from: Window,
        op: BitOp,
    ) {
        elements_op::<Self, C, D>(left, to, right, from, op);
    }

    fn block_reverse<C: Cells>(cells: &mut C, window: Window) {
        bits_reverse::<Self, C>(cells, window);
    }
}
