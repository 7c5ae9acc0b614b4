//! One step of a run with numbers.
ghost use Rattle.std.specs.Prelude.{◌≡◌, ◌-◌, ◌≤◌, Bool, List, IfNone};
ghost use Rattle.bitvec_base.specs.Memory.{HasWindow};
ghost use Rattle.bitvec_commands.specs.Follows.{Follows};
ghost use Rattle.bitvec_commands.specs.Rows.{or_else, range_lies, unless};
ghost use Rattle.bitvec_commands.specs.declared.command.Refusal.{Refusal};
ghost use Rattle.bitvec_run.specs.FieldRows.{field_outcome, field_row, width_refusal};
ghost use Rattle.bitvec_run.specs.Fits.{FitsTransfer, IsTransfer};

use crate::{FieldOp, FieldStep, RunStep, Step};
use bitvec_base::Window;
use bitvec_cells::{Cells, CellsRead};
use bitvec_commands::{Refusal, Reply};
use bitvec_engine::SliceOrder;
use bitvec_numbers::FieldOrder;
use bitvec_store::BitStore;

impl<O: SliceOrder + FieldOrder> RunStep<O> for FieldStep {
    ghost outcome = { field_outcome O.HIGH };

    fn carry_out<C, D>(self, cells: &mut C, window: Window, right: &mut D, source: Window) -> Reply
    where
        C: Cells,
        D: CellsRead<Elem = C::Elem>,
    {
        let FieldStep { from, to, op } = self;
        if let FieldOp::Plain(op) = op {
            let plain = Step { from, to, op };
            return <Step as RunStep<O>>::carry_out::<C, D>(plain, cells, window, right, source);
        }
        match transfer_refusal(from, to, window.len) {
            Some(refusal) => Reply::Refused(refusal),
            None => transfer::<O, C>(cells, window.range(from, to), op),
        }
    }
}

/// The first condition of a load or store that fails, if one does, on a window of `len` bits.
fn transfer_refusal(from: usize, to: usize, len: usize) -> Option<Refusal>
    ensures refusal { result ≡ or_else (unless (range_lies len from to) Refusal.Range) (width_refusal (to - from)) }
    ensures fits { IfNone result (FitsTransfer len from to) }
{
    if from > to || to > len {
        return Some(Refusal::Range);
    }
    if from == to || to - from > 128 {
        return Some(Refusal::Width);
    }
    None
}

/// A load or store of the number of the bits that `target` holds, of which there are 1 to 128.
/// Condition: the memory has at most `MAX_BITS` bits, and the window lies in it.
fn transfer<O, C>(cells: &mut C, target: Window, op: FieldOp) -> Reply
where
    O: SliceOrder + FieldOrder,
    C: Cells,
    requires window { HasWindow C.Elem.BITS (C.numbers cells.old) target }
    requires bound { target.len ≤ 128 }
    requires field { IsTransfer op }
    ensures { (right : List Bool) → Follows C.CellsRead C.Elem.BITS O.at O.WORDS (field_row O.HIGH C.Elem.BITS target.start right target.len op) target cells.old cells.new result }
{
    match op {
        FieldOp::LoadLe => Reply::Number(O::load_le::<C>(cells, target)),
        FieldOp::LoadBe => Reply::Number(O::load_be::<C>(cells, target)),
        FieldOp::StoreLe(number) => {
            O::store_le::<C>(cells, target, number);
            Reply::Done
        }
        FieldOp::StoreBe(number) => {
            O::store_be::<C>(cells, target, number);
            Reply::Done
        }
        FieldOp::Plain(_) => unreachable!(),
    }
}
