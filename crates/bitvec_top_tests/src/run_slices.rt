//! A run on slices, and the row that several tests share.
use bitvec_base::Window;
use bitvec_cells::{Exclusive, Shared};
use bitvec_commands::{Op, Reply};
use bitvec_engine::SliceOrder;
use bitvec_run::{RunError, Step, run};
use bitvec_store::BitStore;
use std::alloc::Allocator;

/// A bit set in each of four nibbles, and their count.
pub(crate) fn four_nibbles() -> [Step; 5] {
    steps!([
        (0, 4, Op::Set(0, true)),
        (4, 8, Op::Set(1, true)),
        (8, 12, Op::Set(2, true)),
        (12, 16, Op::Set(3, true)),
        (0, 16, Op::CountOnes),
    ])
}

/// What those steps reply.
pub(crate) const FOUR_NIBBLES_REPLIES: [Reply; 5] = [
    Reply::Done,
    Reply::Done,
    Reply::Done,
    Reply::Done,
    Reply::Count(4),
];

/// A row of a table of steps: from, up to, and the command.
pub(crate) type StepRow = (usize, usize, Op);

/// The step of a row.
pub(crate) fn step(row: StepRow) -> Step {
    let (from, to, op) = row;
    Step { from, to, op }
}

/// A run through a window of a slice; the right memory is a slice too.
pub(crate) fn answer<T: BitStore, O: SliceOrder, A: Allocator>(
    alloc: A,
    elements: &mut [T],
    window: Window,
    right: &[T],
    steps: &[Step],
) -> Result<Vec<Reply, A>, RunError> {
    let mut left = Exclusive::new(elements);
    let mut source = Shared::new(right);
    run::<O, A, _, _>(alloc, &mut left, window, &mut source, steps)
}
