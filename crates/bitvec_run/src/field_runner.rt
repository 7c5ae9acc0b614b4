//! Runs of whole lists of commands, those with numbers among them.
ghost use Rattle.bitvec_run.specs.FieldRows.{field_outcome};
ghost use Rattle.bitvec_run.specs.Runs.{RunsOrFails};

use crate::running::run_steps;
use crate::{FieldStep, RunError};
use bitvec_base::Window;
use bitvec_cells::{Cells, CellsRead};
use bitvec_commands::Reply;
use bitvec_engine::SliceOrder;
use bitvec_numbers::FieldOrder;
use bitvec_store::BitStore;
use std::alloc::Allocator;

/// Runs commands through a window of a memory, loads and stores of numbers among them: [`run`](crate::run)
/// with [`FieldStep`] in place of its steps.
///
/// The replies, one a step, are those of the plain list of the window's bits under the order, and
/// the memory afterwards is the memory before with the window holding the list after the last step.
/// The segments of a number are its bits cut at the edges of the memory's elements. Right windows,
/// refused steps, costs and errors are as for `run`.
pub fn run_fields<O, A, C, D>(
    alloc: A,
    cells: &mut C,
    window: Window,
    right: &mut D,
    steps: &[FieldStep],
) -> Result<Vec<Reply, A>, RunError>
where
    O: SliceOrder + FieldOrder,
    A: Allocator,
    C: Cells,
    D: CellsRead<Elem = C::Elem>,
    ensures { RunsOrFails C.CellsRead D.CellsRead (field_outcome O.HIGH C.Elem.BITS window.start) C.Elem.BITS O.at O.WORDS window steps.now
        cells.old cells.new right.old right.new result }
{
    run_steps::<O, FieldStep, A, C, D>(alloc, cells, window, right, steps)
}
