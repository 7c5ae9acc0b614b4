//! One command.
ghost use Rattle.bitvec_base.specs.Memory.{HasWindow, list_in};
ghost use Rattle.bitvec_commands.specs.Commands.{op_row};
ghost use Rattle.bitvec_commands.specs.Follows.{FollowsBoth};
ghost use Rattle.bitvec_commands.specs.Groups.{FitsList, FitsRight};

use crate::edit::{edit, rearrange};
use crate::query::query;
use crate::right::{combine, compare};
use crate::{Op, Reply};
use bitvec_base::Window;
use bitvec_cells::{Cells, CellsRead};
use bitvec_engine::SliceOrder;
use bitvec_store::BitStore;

/// One command on the list that `target` holds, beside the right list that `source` holds: it
/// replies, and leaves in `target` the list after it. Condition: each memory has at most `MAX_BITS`
/// bits, each window lies in its memory, and the command isn't refused ([`command_refusal`]).
///
/// [`command_refusal`]: crate::command_refusal
pub fn carry_out<O, C, D>(
    cells: &mut C,
    target: Window,
    right: &mut D,
    source: Window,
    op: Op,
) -> Reply
where
    O: SliceOrder,
    C: Cells,
    D: CellsRead<Elem = C::Elem>,
    requires window { HasWindow C.Elem.BITS (C.numbers cells.old) target }
    requires right_window { HasWindow C.Elem.BITS (D.numbers right.old) source }
    requires fits { FitsList target.len op }
    requires fits_right { FitsRight source.len op }
    ensures { let row = op_row (list_in C.Elem.BITS O.at (D.numbers right.old) source) target.len op in
        FollowsBoth C.CellsRead D.CellsRead C.Elem.BITS O.at O.WORDS row target cells.old cells.new right.old right.new result }
{
    match op {
        Op::Get(_)
        | Op::CountOnes
        | Op::CountZeros
        | Op::FirstOne
        | Op::FirstZero
        | Op::LastOne
        | Op::LastZero
        | Op::Any
        | Op::All => query::<O, C>(cells, target, op),
        Op::Set(..) | Op::Replace(..) | Op::Swap(..) | Op::Fill(_) | Op::Invert => {
            edit::<O, C>(cells, target, op)
        }
        Op::Reverse
        | Op::ShiftStart(_)
        | Op::ShiftEnd(_)
        | Op::RotateLeft(_)
        | Op::RotateRight(_)
        | Op::CopyWithin(..) => rearrange::<O, C>(cells, target, op),
        Op::CopyFrom(_) | Op::And(_) | Op::Or(_) | Op::Xor(_) => {
            combine::<O, C, D>(cells, target, right, source, op)
        }
        Op::Eq(_) | Op::Cmp(_) | Op::StartsWith(_) | Op::EndsWith(_) | Op::Contains(_) => {
            compare::<O, C, D>(cells, target, right, source, op)
        }
    }
}
