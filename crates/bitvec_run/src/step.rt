//! One step of a run.
ghost use Rattle.std.specs.Prelude.{◌≡◌, Bool, List, length, IfNone};
ghost use Rattle.bitvec_run.specs.Fits.{StepFits};
ghost use Rattle.bitvec_run.specs.Runs.{step_outcome, step_row};

use crate::RunStep;
use bitvec_base::Window;
use bitvec_cells::{Cells, CellsRead};
use bitvec_commands::{Op, Refusal, Reply, command_refusal};
use bitvec_engine::SliceOrder;
use bitvec_store::BitStore;

/// One command of a run, on the bits `from` up to, without, `to` of the run's window.
#[derive(Clone, Copy, PartialEq, Eq, Debug)]
pub struct Step {
    /// The first bit of the sub-range, in the window.
    pub from: usize,
    /// The end of the sub-range, in the window.
    pub to: usize,
    /// What is done there.
    pub op: Op,
}

impl<O: SliceOrder> RunStep<O> for Step {
    ghost outcome = { λ b s. step_outcome };

    fn carry_out<C, D>(self, cells: &mut C, window: Window, right: &mut D, source: Window) -> Reply
    where
        C: Cells,
        D: CellsRead<Elem = C::Elem>,
    {
        match step_refusal(self, window.len, source.len) {
            Some(refusal) => Reply::Refused(refusal),
            None => {
                let target = window.range(self.from, self.to);
                bitvec_commands::carry_out::<O, C, D>(cells, target, right, source, self.op)
            }
        }
    }
}

/// The first condition of a step that fails, if one does, on a window of `len` bits beside a right
/// list of `source_len`.
#[tactic(auto, unfolding(crate::specs::Runs::step_row))]
fn step_refusal(step: Step, len: usize, source_len: usize) -> Option<Refusal>
    ensures refusal { (right : List Bool) → length right ≡ source_len → result ≡ (step_row right len step).refusal }
    ensures fits { IfNone result (StepFits len source_len step) }
{
    if step.from > step.to || step.to > len {
        return Some(Refusal::Range);
    }
    command_refusal(step.op, step.to - step.from, source_len)
}
