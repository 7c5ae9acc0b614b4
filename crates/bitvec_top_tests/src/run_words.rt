//! Worked rows of what goes by words: the memory afterwards, within so many loads and stores.
use crate::run_slices::{StepRow, step};
use bitvec_base::{Lsb0, Msb0, Window};
use bitvec_cells::{Exclusive, Shared};
use bitvec_commands::{Op, Reply};
use bitvec_engine::SliceOrder;
use bitvec_run::run;
use bitvec_store::BitStore;
use bitvec_test_support::Counted;
use std::alloc::Global;

/// So many loads and stores of the memory, and loads of the right memory.
#[derive(Clone, Copy)]
struct Most {
    loads: u64,
    stores: u64,
    right_loads: u64,
}

const fn at_most(loads: u64, stores: u64, right_loads: u64) -> Most {
    Most {
        loads,
        stores,
        right_loads,
    }
}

/// Whether a run of one step on all bits of some elements replies so, and takes at most so many loads
/// and stores.
fn takes<T: BitStore, O: SliceOrder>(
    alloc: Global,
    elements: &mut [T],
    right: &[T],
    row: StepRow,
    most: Most,
    reply: Reply,
) -> bool {
    let window = Window {
        start: 0,
        len: row.1,
    };
    let mut cells = Counted::new(Exclusive::new(elements));
    let mut source = Counted::new(Shared::new(right));
    match run::<O, _, _, _>(alloc, &mut cells, window, &mut source, &[step(row)]) {
        Ok(replies) => {
            replies.as_slice() == [reply].as_slice()
                && cells.loads() <= most.loads
                && cells.stores() <= most.stores
                && source.loads() <= most.right_loads
        }
        Err(_) => false,
    }
}

#[test]
fn a_move_goes_by_words(rt: HostRuntime) {
    let most = at_most(22, 18, 0);
    let later = (0, 80, Op::CopyWithin(0, 70, 3));
    let earlier = (0, 80, Op::CopyWithin(3, 73, 0));
    for (copy, after) in [
        (later, [0x09u8, 0, 0, 0, 0, 0, 0, 0, 0x01, 0]),
        (earlier, [0u8, 0, 0, 0, 0, 0, 0, 0x04, 0, 0]),
    ] {
        let mut bytes = [0x01u8, 0, 0, 0, 0, 0, 0, 0x20, 0, 0];
        assert!(rt; takes::<u8, Lsb0>(rt.alloc(), &mut bytes, &[], copy, most, Reply::Done));
        assert!(rt; bytes == after);
    }
    let mut bytes = [0x80u8, 0, 0, 0, 0, 0, 0, 0x04, 0, 0];
    assert!(rt; takes::<u8, Msb0>(rt.alloc(), &mut bytes, &[], later, most, Reply::Done));
    assert!(rt; bytes == [0x90u8, 0, 0, 0, 0, 0, 0, 0, 0x80, 0]);
}

#[test]
fn a_turn_goes_by_words(rt: HostRuntime) {
    let reversed = [0x4000_0000_0000_0000, 0x8000_0000_0000_0000];
    for (op, most, after) in [
        (Op::Reverse, at_most(12, 6, 0), reversed),
        (Op::RotateLeft(64), at_most(28, 14, 0), [2, 1]),
    ] {
        let mut pair = [1u64, 2];
        assert!(rt;
            takes::<u64, Lsb0>(rt.alloc(), &mut pair, &[], (0, 128, op), most, Reply::Done)
        );
        assert!(rt; pair == after);
    }
    let mut halves = [7u64; 64];
    halves[0] = 1;
    halves[33] = 2;
    let rotate = (0, 4096, Op::RotateLeft(2048));
    let most = at_most(524, 262, 0);
    assert!(rt; takes::<u64, Lsb0>(rt.alloc(), &mut halves, &[], rotate, most, Reply::Done));
    let mut after = [7u64; 64];
    after[32] = 1;
    after[1] = 2;
    assert!(rt; halves == after);
}

// 128 bits are two steps, each of which touches at most two wide elements.
#[test]
fn two_windows_are_gone_over_by_words(rt: HostRuntime) {
    let mut elements = [0xFFFF_FFFFu32; 5];
    let other = Window { start: 1, len: 130 };
    let and = (0, 130, Op::And(other));
    let right = [0x5555_5555u32; 5];
    assert!(rt;
        takes::<u32, Lsb0>(
            rt.alloc(),
            &mut elements,
            &right,
            and,
            at_most(15, 9, 9),
            Reply::Done,
        )
    );
    let half = 0xAAAA_AAAA;
    assert!(rt; elements == [half, half, half, half, 0xFFFF_FFFE]);
    let mut wide = [0u128; 2];
    let other = Window { start: 3, len: 128 };
    let copy = (64, 192, Op::CopyFrom(other));
    assert!(rt;
        takes::<u128, Lsb0>(
            rt.alloc(),
            &mut wide,
            &[u128::MAX; 2],
            copy,
            at_most(4, 4, 4),
            Reply::Done,
        )
    );
    assert!(rt; wide == [u128::MAX << 64, u128::MAX >> 64]);
    let eq = (3, 67, Op::Eq(Window { start: 5, len: 64 }));
    let ones = [0xFFu8; 9];
    assert!(rt;
        takes::<u8, Lsb0>(
            rt.alloc(),
            &mut [0xFF; 9],
            &ones,
            eq,
            at_most(9, 0, 9),
            Reply::Bit(true),
        )
    );
}
