//! The loop over the steps of a run, whatever a step is.
ghost use Rattle.std.specs.Prelude.{◌≡◌};
ghost use Rattle.bitvec_base.specs.Memory.{FitsMaxBits};
ghost use Rattle.bitvec_run.specs.Runs.{RunsOrFails, whole_window};

use crate::{RunError, RunStep};
use bitvec_base::Window;
use bitvec_cells::{Cells, CellsRead, fits_max_bits, has_window};
use bitvec_commands::Reply;
use bitvec_engine::SliceOrder;
use bitvec_store::BitStore;
use std::alloc::Allocator;

/// Runs steps through a window of a memory, as [`run`](crate::run) does commands.
pub(crate) fn run_steps<O, S, A, C, D>(
    alloc: A,
    cells: &mut C,
    window: Window,
    right: &mut D,
    steps: &[S],
) -> Result<Vec<Reply, A>, RunError>
where
    O: SliceOrder,
    S: RunStep<O>,
    A: Allocator,
    C: Cells,
    D: CellsRead<Elem = C::Elem>,
    ensures { RunsOrFails C.CellsRead D.CellsRead (S.outcome C.Elem.BITS window.start) C.Elem.BITS O.at O.WORDS window steps.now
        cells.old cells.new right.old right.new result }
{
    if !has_window(cells, window) {
        return Err(RunError::Window);
    }
    if !fits_max_bits(right) {
        return Err(RunError::Right);
    }
    let Ok(mut replies) = Vec::with_capacity(alloc, steps.len()) else {
        return Err(RunError::Memory);
    };
    let source = whole(right);
    for next in steps {
        replies.push_reserved(next.carry_out::<C, D>(cells, window, right, source));
    }
    Ok(replies)
}

/// All bits of a memory. Condition: it has at most `MAX_BITS`.
pub fn whole<D: CellsRead>(memory: &D) -> Window
    requires { FitsMaxBits D.Elem.BITS (D.numbers memory.now) }
    ensures { result ≡ whole_window D.Elem.BITS (D.numbers memory.now) }
{
    Window {
        start: 0,
        len: memory.len() * D::Elem::BITS as usize,
    }
}
