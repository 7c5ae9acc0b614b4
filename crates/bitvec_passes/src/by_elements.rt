//! Bit operations on whole windows of one element type, under any order: by elements as they are where
//! the windows begin at the same index of an element, else bit by bit. `HiLo` goes so.
#![tactic(auto, using(bitvec_cells::specs::CostLaws::in_steps, bitvec_cells::specs::CostLaws::enough, bitvec_store::specs::WidthLaws::width_some))]

ghost use Rattle.std.specs.Prelude.{◌≡◌, false};
ghost use Rattle.bitvec_base.specs.Lists.{combined, same_bits};
ghost use Rattle.bitvec_base.specs.Memory.{HasWindow, Writes, list_in};
ghost use Rattle.bitvec_base.specs.Spans.{HasSpan};
ghost use Rattle.bitvec_cells.specs.Access.{CostsAtMost, OnlyReadsAtMost};
ghost use Rattle.bitvec_cells.specs.Cost.{edit_loads, equal_loads, read_loads, write_loads, write_stores};
ghost use Rattle.bitvec_words.specs.Operator.{operator};

use crate::by_bits::{bits_copy, bits_eq, bits_op, bits_swap};
use bitvec_base::{BitOrder, Window};
use bitvec_cells::{Cells, CellsRead};
use bitvec_combine::{combine_equal, combine_zeros, copy_equal, equal_unshifted};
use bitvec_move::swap_equal;
use bitvec_store::BitStore;
use bitvec_words::BitOp;

/// Copies the bits of a window of another memory of the same elements: `block_copy` of an order
/// without `WORDS`. Conditions and cost are those of `block_copy`.
pub fn elements_copy<O: BitOrder, C: Cells, D: CellsRead<Elem = C::Elem>>(
    left: &mut C,
    to: Window,
    right: &mut D,
    from: Window,
)
    requires { HasSpan C.Elem.BITS (C.numbers left.old) (D.numbers right.old) to from }
    ensures writes { Writes C.Elem.BITS O.at (C.numbers left.old) (C.numbers left.new) to
        (list_in C.Elem.BITS O.at (D.numbers right.old) from) }
    ensures cost { CostsAtMost C.CellsRead left.old left.new (write_loads C.Elem.BITS false to.len) (write_stores C.Elem.BITS false to.len) }
    ensures right { OnlyReadsAtMost D.CellsRead right.old right.new (read_loads C.Elem.BITS false to.len) }
{
    if to.len > 0 && to.phase::<C::Elem>() == from.phase::<C::Elem>() {
        copy_equal::<O, C, D>(left, to, right, from);
    } else {
        bits_copy::<O, O, C, D>(left, to, right, from);
    }
}

/// Exchanges the bits of two windows of two memories of the same elements: `block_swap` of an order
/// without `WORDS`. Conditions and cost are those of `block_swap`.
pub fn elements_swap<O: BitOrder, C: Cells, D: Cells + CellsRead<Elem = C::Elem>>(
    left: &mut C,
    left_window: Window,
    right: &mut D,
    right_window: Window,
)
    requires { HasSpan C.Elem.BITS (C.numbers left.old) (D.numbers right.old) left_window right_window }
    ensures writes { Writes C.Elem.BITS O.at (C.numbers left.old) (C.numbers left.new) left_window
        (list_in C.Elem.BITS O.at (D.numbers right.old) right_window) }
    ensures cost { CostsAtMost C.CellsRead left.old left.new (edit_loads C.Elem.BITS false left_window.len) (write_stores C.Elem.BITS false left_window.len) }
    ensures right_writes { Writes C.Elem.BITS O.at (D.numbers right.old) (D.numbers right.new) right_window
        (list_in C.Elem.BITS O.at (C.numbers left.old) left_window) }
    ensures right_cost { CostsAtMost D.CellsRead right.old right.new (edit_loads C.Elem.BITS false left_window.len) (write_stores C.Elem.BITS false left_window.len) }
{
    if left_window.len > 0 && left_window.phase::<C::Elem>() == right_window.phase::<C::Elem>() {
        swap_equal::<O, C, D>(left, left_window, right, right_window);
    } else {
        bits_swap::<O, O, C, D>(left, left_window, right, right_window);
    }
}

/// Replaces each bit of a window by what the operator makes of it and the one at its index in a
/// window of another memory of the same elements, which counts as 0 past that window's end:
/// `block_op` of an order without `WORDS`. Conditions and cost are those of `block_op`.
pub fn elements_op<O: BitOrder, C: Cells, D: CellsRead<Elem = C::Elem>>(
    left: &mut C,
    to: Window,
    right: &mut D,
    from: Window,
    op: BitOp,
)
    requires window { HasWindow C.Elem.BITS (C.numbers left.old) to }
    requires right_window { HasWindow C.Elem.BITS (D.numbers right.old) from }
    ensures writes { Writes C.Elem.BITS O.at (C.numbers left.old) (C.numbers left.new) to
        (combined (operator op) (list_in C.Elem.BITS O.at (C.numbers left.old) to) (list_in C.Elem.BITS O.at (D.numbers right.old) from)) }
    ensures cost { CostsAtMost C.CellsRead left.old left.new (edit_loads C.Elem.BITS false to.len) (write_stores C.Elem.BITS false to.len) }
    ensures right { OnlyReadsAtMost D.CellsRead right.old right.new (read_loads C.Elem.BITS false to.len) }
{
    let met = to.len.min(from.len);
    if met > 0 && to.phase::<C::Elem>() == from.phase::<C::Elem>() {
        let (first, other) = (to.until(to.len - met), from.until(from.len - met));
        combine_equal::<O, C, D>(left, first, right, other, op);
        combine_zeros::<O, C>(left, to.after(met), op);
    } else {
        bits_op::<O, O, C, D>(left, to, right, from, op);
    }
}

/// Whether two windows of the same elements have the same bits: `block_eq` of an order without
/// `WORDS`. Conditions and cost are those of `block_eq`.
#[inline(always)]
pub fn elements_eq<O: BitOrder, C: CellsRead, D: CellsRead<Elem = C::Elem>>(
    left: &mut C,
    left_window: Window,
    right: &mut D,
    right_window: Window,
) -> bool
    requires window { HasWindow C.Elem.BITS (C.numbers left.old) left_window }
    requires right_window { HasWindow C.Elem.BITS (D.numbers right.old) right_window }
    ensures value { result ≡ same_bits (list_in C.Elem.BITS O.at (C.numbers left.old) left_window)
        (list_in C.Elem.BITS O.at (D.numbers right.old) right_window) }
    ensures reads { OnlyReadsAtMost C.CellsRead left.old left.new (equal_loads C.Elem.BITS false left_window.len right_window.len) }
    ensures right { OnlyReadsAtMost D.CellsRead right.old right.new (equal_loads C.Elem.BITS false left_window.len right_window.len) }
{
    let len = left_window.len;
    let has_one_phase = left_window.phase::<C::Elem>() == right_window.phase::<C::Elem>();
    if len > 0 && len == right_window.len && has_one_phase {
        equal_unshifted::<O, C, D>(left, left_window, right, right_window)
    } else {
        bits_eq::<O, O, C, D>(left, left_window, right, right_window)
    }
}
