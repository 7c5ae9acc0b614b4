//! How many loads and stores a run makes.
use crate::run_slices::{StepRow, step};
use bitvec_base::{Lsb0, Window};
use bitvec_cells::{Exclusive, Shared};
use bitvec_commands::Op;
use bitvec_run::run;
use bitvec_test_support::Counted;
use std::alloc::Global;

/// The bytes of the window.
fn ones() -> [u8; 512] {
    [0xFF; 512]
}

const RIGHT_BYTES: [u8; 4] = [0x0F; 4];

const WINDOW: Window = Window {
    start: 0,
    len: 4096,
};

/// A right window from a bit inside an element on.
fn right_bits(len: usize) -> Window {
    Window { start: 3, len }
}

/// Whether a run of one step is made, and takes at most so many loads, stores, and loads of the right memory.
fn takes(alloc: Global, row: StepRow, most: (u64, u64, u64)) -> bool {
    let (most_loads, most_stores, most_right) = most;
    let mut bytes = ones();
    let mut cells = Counted::new(Exclusive::new(&mut bytes));
    let mut right = Counted::new(Shared::new(&RIGHT_BYTES));
    let steps = [step(row)];
    run::<Lsb0, _, _, _>(alloc, &mut cells, WINDOW, &mut right, &steps).is_ok()
        && cells.loads() <= most_loads
        && cells.stores() <= most_stores
        && right.loads() <= most_right
        && right.stores() == 0
}

#[test]
fn a_query_loads_each_element_once(rt: HostRuntime) {
    for (row, most) in [
        ((0, 4096, Op::CountOnes), (512, 0, 0)),
        ((3, 4093, Op::LastZero), (512, 0, 0)),
        ((64, 72, Op::CountZeros), (1, 0, 0)),
        ((67, 75, Op::CountOnes), (2, 0, 0)),
        ((67, 67, Op::CountOnes), (0, 0, 0)),
        ((67, 75, Op::FirstZero), (2, 0, 0)),
        ((67, 75, Op::All), (2, 0, 0)),
        ((60, 80, Op::Get(19)), (1, 0, 0)),
    ] {
        assert!(rt; takes(rt.alloc(), row, most), "{row:?}");
    }
}

// A step of up to 64 bits touches at most nine bytes; what is written loads two more. A reversal
// takes a step more.
#[test]
fn an_edit_takes_few_loads_and_stores(rt: HostRuntime) {
    for (row, most) in [
        ((60, 80, Op::Set(0, true)), (1, 1, 0)),
        ((60, 80, Op::Replace(0, true)), (2, 1, 0)),
        ((60, 80, Op::Swap(0, 19)), (4, 2, 0)),
        ((67, 4000, Op::Fill(true)), (2, 492, 0)),
        ((3, 21, Op::Fill(true)), (2, 3, 0)),
        ((67, 67, Op::Fill(true)), (0, 0, 0)),
        ((67, 75, Op::Invert), (2, 2, 0)),
        ((67, 83, Op::Reverse), (22, 18, 0)),
        ((67, 83, Op::ShiftStart(4)), (13, 11, 0)),
        ((67, 83, Op::ShiftEnd(4)), (13, 10, 0)),
        ((67, 83, Op::ShiftEnd(16)), (2, 3, 0)),
        ((67, 83, Op::RotateLeft(4)), (66, 54, 0)),
        ((67, 83, Op::RotateRight(4)), (66, 54, 0)),
        ((67, 83, Op::CopyWithin(0, 8, 4)), (11, 9, 0)),
    ] {
        assert!(rt; takes(rt.alloc(), row, most), "{row:?}");
    }
}

// A step of up to 64 bits loads at most nine bytes a side, and what is written two more.
#[test]
fn a_right_window_takes_few_loads(rt: HostRuntime) {
    for (row, most) in [
        ((67, 83, Op::CopyFrom(right_bits(16))), (2, 9, 9)),
        ((67, 83, Op::And(right_bits(8))), (11, 9, 9)),
        ((67, 83, Op::Or(right_bits(16))), (11, 9, 9)),
        ((67, 83, Op::Xor(right_bits(24))), (11, 9, 9)),
        ((67, 83, Op::Eq(right_bits(16))), (9, 0, 9)),
        ((67, 83, Op::Eq(right_bits(8))), (0, 0, 0)),
        ((67, 83, Op::Cmp(right_bits(8))), (8, 0, 8)),
        ((67, 83, Op::StartsWith(right_bits(8))), (9, 0, 9)),
        ((67, 83, Op::EndsWith(right_bits(8))), (9, 0, 9)),
        ((67, 83, Op::Contains(right_bits(8))), (81, 0, 81)),
        ((67, 83, Op::Contains(right_bits(24))), (0, 0, 0)),
    ] {
        assert!(rt; takes(rt.alloc(), row, most), "{row:?}");
    }
}

#[test]
fn a_refused_step_costs_nothing(rt: HostRuntime) {
    for row in [
        (0, 4097, Op::CountOnes),
        (3, 2, Op::Fill(true)),
        (60, 80, Op::Set(20, true)),
        (60, 80, Op::Swap(0, 20)),
        (60, 80, Op::ShiftEnd(21)),
        (60, 80, Op::RotateLeft(21)),
        (60, 80, Op::CopyWithin(0, 21, 0)),
        (60, 80, Op::CopyWithin(0, 20, 1)),
        (60, 80, Op::CopyFrom(right_bits(19))),
        (60, 80, Op::And(right_bits(30))),
        (60, 80, Op::Contains(right_bits(30))),
    ] {
        assert!(rt; takes(rt.alloc(), row, (0, 0, 0)), "{row:?}");
    }
}
