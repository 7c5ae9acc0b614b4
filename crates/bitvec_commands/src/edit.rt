//! Commands that change their list by itself.
ghost use Rattle.std.specs.Prelude.{◌≡◌, Bool, List};
ghost use Rattle.bitvec_base.specs.Memory.{HasWindow};
ghost use Rattle.bitvec_commands.specs.Commands.{op_row};
ghost use Rattle.bitvec_commands.specs.Follows.{Follows};
ghost use Rattle.bitvec_commands.specs.Groups.{Edit, FitsList, Move, group};

use crate::{Op, Reply};
use bitvec_base::Window;
use bitvec_cells::{Cells, replace_bit, swap_bits};
use bitvec_engine::{SliceOrder, rotate_left, rotate_right, shift_end, shift_start};
use bitvec_store::BitStore;
use bitvec_words::{fill, invert};

/// An edit of bits where they stand, in the list that a window holds, whatever the right list.
/// Condition: as for [`query`], with the indices that are named.
///
/// [`query`]: crate::query::query
pub(crate) fn edit<O: SliceOrder, C: Cells>(cells: &mut C, target: Window, op: Op) -> Reply
    requires window { HasWindow C.Elem.BITS (C.numbers cells.old) target }
    requires group { group op ≡ Edit }
    requires fits { FitsList target.len op }
    ensures { (right : List Bool) → Follows C.CellsRead C.Elem.BITS O.at O.WORDS (op_row right target.len op) target cells.old cells.new result }
{
    match op {
        Op::Set(index, bit) => {
            let _old = replace_bit::<O, C>(cells, target, index, bit);
        }
        Op::Replace(index, bit) => {
            return Reply::Bit(replace_bit::<O, C>(cells, target, index, bit));
        }
        Op::Swap(first, second) => swap_bits::<O, C>(cells, target, first, second),
        Op::Fill(bit) => fill::<O, C>(cells, target, bit),
        Op::Invert => invert::<O, C>(cells, target),
        _ => unreachable!(),
    }
    Reply::Done
}

/// An edit that moves bits to other places of the list that a window holds, whatever the right
/// list. Condition: as for [`edit`], with the amount or the ranges that are named.
pub(crate) fn rearrange<O: SliceOrder, C: Cells>(cells: &mut C, target: Window, op: Op) -> Reply
    requires window { HasWindow C.Elem.BITS (C.numbers cells.old) target }
    requires group { group op ≡ Move }
    requires fits { FitsList target.len op }
    ensures { (right : List Bool) → Follows C.CellsRead C.Elem.BITS O.at O.WORDS (op_row right target.len op) target cells.old cells.new result }
{
    match op {
        Op::Reverse => O::block_reverse::<C>(cells, target),
        Op::ShiftStart(by) => shift_start::<O, C>(cells, target, by),
        Op::ShiftEnd(by) => shift_end::<O, C>(cells, target, by),
        Op::RotateLeft(by) => rotate_left::<O, C>(cells, target, by),
        Op::RotateRight(by) => rotate_right::<O, C>(cells, target, by),
        Op::CopyWithin(from, to, dest) => {
            O::block_copy_within::<C>(cells, target, from, to, dest);
        }
        _ => unreachable!(),
    }
    Reply::Done
}
