//! Runs of whole lists of steps.
ghost use Rattle.std.specs.Prelude.{◌≡◌, length, map};
ghost use Rattle.bitvec_run.specs.Runs.{CanRun};
ghost use Rattle.bitvec_checked_run.specs.Runs.{FitRoom, Runs, RunsSteps, are_steps, steps_status};
ghost use Rattle.bitvec_checked.specs.Statuses.{bits_from};

use crate::operations::OPERATIONS;
use crate::replies::RawReply;
use crate::steps::RawStep;
use bitvec_base::{Lsb0, Msb0, Window};
use bitvec_cells::{Cells, CellsRead, Exclusive, Shared};
use bitvec_checked::{DONE, LSB0, memories_status, or_next};
use bitvec_engine::SliceOrder;
use bitvec_numbers::FieldOrder;
use bitvec_run::{FieldStep, RunStep, whole};
use bitvec_store::BitStore;

/// A step has the number of no operation.
pub const OP: u32 = 12;
/// A run has fewer places for replies than steps.
pub const ROOM: u32 = 13;

/// Carries out steps on a window, one after the other, with all bits of the right memory as the right
/// list, and writes the reply to each. A step whose condition fails changes nothing and is told in its
/// reply; the run goes on.
pub fn run<T: BitStore>(
    order: u32,
    elements: &mut [T],
    start: usize,
    len: usize,
    right: &[T],
    steps: &[RawStep],
    replies: &mut [RawReply],
) -> u32
    ensures { Runs order T.BITS T.value (bits_from start len) elements.old elements.new right.now steps.now replies.old replies.new result }
{
    let window = Window { start, len };
    let status = or_next(
        memories_status(order, elements, window, right),
        steps_status(steps, replies.len()),
    );
    if status == DONE {
        match order {
            LSB0 => run_in::<T, Lsb0>(elements, window, right, steps, replies),
            _ => run_in::<T, Msb0>(elements, window, right, steps, replies),
        }
    }
    status
}

/// Whether each step has an operation, and each a place for its reply.
fn steps_status(steps: &[RawStep], room: usize) -> u32
    ensures status { result ≡ steps_status steps.now room }
    ensures fit { result ≡ 0 → FitRoom steps.now room }
{
    if !are_steps(steps) {
        OP
    } else if steps.len() > room {
        ROOM
    } else {
        DONE
    }
}

/// Whether each step has an operation.
fn are_steps(steps: &[RawStep]) -> bool
    ensures { result ≡ are_steps steps.now }
{
    steps.iter().all(|step| step.op < OPERATIONS)
}

/// The run under one order. Conditions: each memory has at most `MAX_BITS` bits, the window lies in its
/// memory, and each step has an operation and a place for its reply.
fn run_in<T: BitStore, O: SliceOrder + FieldOrder>(
    elements: &mut [T],
    window: Window,
    right: &[T],
    steps: &[RawStep],
    replies: &mut [RawReply],
)
    requires memories { CanRun T.BITS (map T.value elements.old) window (map T.value right.now) }
    requires fit { FitRoom steps.now (length replies.old) }
    ensures { RunsSteps O.HIGH T.BITS O.at window steps.now (map T.value right.now)
        (map T.value elements.old) (map T.value elements.new) replies.old replies.new }
{
    let mut cells = Exclusive::new(elements);
    let mut beside = Shared::new(right);
    run_steps::<O, Exclusive<T>, Shared<T>>(&mut cells, window, &mut beside, steps, replies);
}

/// Runs the steps through accessors.
fn run_steps<O, C, D>(
    cells: &mut C,
    window: Window,
    right: &mut D,
    steps: &[RawStep],
    replies: &mut [RawReply],
)
where
    O: SliceOrder + FieldOrder,
    C: Cells,
    D: CellsRead<Elem = C::Elem>,
    requires memories { CanRun C.Elem.BITS (C.numbers cells.old) window (D.numbers right.old) }
    requires fit { FitRoom steps.now (length replies.old) }
    ensures runs { RunsSteps O.HIGH C.Elem.BITS O.at window steps.now (D.numbers right.old)
        (C.numbers cells.old) (C.numbers cells.new) replies.old replies.new }
    ensures borrow { C.borrow cells.new ≡ C.borrow cells.old }
{
    let source = whole(right);
    for index in 0..steps.len() {
        let next = steps[index].step();
        let reply = <FieldStep as RunStep<O>>::carry_out::<C, D>(
            next, cells, window, right, source,
        );
        replies[index] = RawReply::new(reply);
    }
}
