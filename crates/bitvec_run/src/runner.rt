//! Runs of whole lists of commands.
ghost use Rattle.bitvec_run.specs.Runs.{RunsOrFails, step_outcome};

use crate::running::run_steps;
use crate::{RunError, Step};
use bitvec_base::Window;
use bitvec_cells::{Cells, CellsRead};
use bitvec_commands::Reply;
use bitvec_engine::SliceOrder;
use bitvec_store::BitStore;
use std::alloc::Allocator;

/// Runs commands through a window of a memory.
///
/// The replies, one a step, are those of the plain list of the window's bits under the order, and
/// the memory afterwards is the memory before with the window holding the list after the last
/// step. Right windows lie in the `right` memory, which stays. A step whose condition fails is
/// answered by [`Reply::Refused`], changes nothing and costs nothing; the run goes on. The loads
/// and stores of both accessors grow by at most the sum of the steps' costs.
///
/// Errors, tested in this order, after each of which both accessors are as before, with no load or
/// store made: [`RunError::Window`] exactly where the memory has more than `MAX_BITS` bits or the
/// window does not lie in it; [`RunError::Right`] exactly where the right memory has more than
/// `MAX_BITS` bits; [`RunError::Memory`] where there is no room for the replies, which is never so
/// for no steps.
pub fn run<O, A, C, D>(
    alloc: A,
    cells: &mut C,
    window: Window,
    right: &mut D,
    steps: &[Step],
) -> Result<Vec<Reply, A>, RunError>
where
    O: SliceOrder,
    A: Allocator,
    C: Cells,
    D: CellsRead<Elem = C::Elem>,
    ensures { RunsOrFails C.CellsRead D.CellsRead step_outcome C.Elem.BITS O.at O.WORDS window steps.now
        cells.old cells.new right.old right.new result }
{
    run_steps::<O, Step, A, C, D>(alloc, cells, window, right, steps)
}
