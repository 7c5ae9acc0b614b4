//! Commands that ask about their list.
ghost use Rattle.std.specs.Prelude.{◌≡◌, Bool, List};
ghost use Rattle.bitvec_base.specs.Memory.{HasWindow};
ghost use Rattle.bitvec_commands.specs.Commands.{op_row};
ghost use Rattle.bitvec_commands.specs.Follows.{Answers};
ghost use Rattle.bitvec_commands.specs.Groups.{FitsList, Query, group};

use crate::{Op, Reply};
use bitvec_base::Window;
use bitvec_cells::{CellsRead, get_bit};
use bitvec_engine::{SliceOrder, all, any};
use bitvec_store::BitStore;
use bitvec_words::{count, count_zeros};

/// A query about the list that a window holds, whatever the right list. Condition: the memory has
/// at most `MAX_BITS` bits, the window lies in it, and the index that is named in its list.
pub(crate) fn query<O: SliceOrder, C: CellsRead>(cells: &mut C, target: Window, op: Op) -> Reply
    requires window { HasWindow C.Elem.BITS (C.numbers cells.old) target }
    requires group { group op ≡ Query }
    requires fits { FitsList target.len op }
    ensures { (right : List Bool) → Answers C.CellsRead C.Elem.BITS O.at O.WORDS (op_row right target.len op) target cells.old cells.new result }
{
    match op {
        Op::Get(index) => Reply::Bit(get_bit::<O, C>(cells, target, index)),
        Op::CountOnes => Reply::Count(count::<O, C>(cells, target)),
        Op::CountZeros => Reply::Count(count_zeros::<O, C>(cells, target)),
        Op::FirstOne => Reply::Index(O::scan_first::<C>(cells, target, true)),
        Op::FirstZero => Reply::Index(O::scan_first::<C>(cells, target, false)),
        Op::LastOne => Reply::Index(O::scan_last::<C>(cells, target, true)),
        Op::LastZero => Reply::Index(O::scan_last::<C>(cells, target, false)),
        Op::Any => Reply::Bit(any::<O, C>(cells, target)),
        Op::All => Reply::Bit(all::<O, C>(cells, target)),
        _ => unreachable!(),
    }
}
