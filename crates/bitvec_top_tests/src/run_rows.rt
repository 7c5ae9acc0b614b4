//! Worked rows: what a run replies, and the memory that it leaves.
use crate::run_slices::{FOUR_NIBBLES_REPLIES, answer, four_nibbles};
use bitvec_base::{HiLo, Lsb0, Window};
use bitvec_commands::{Op, Refusal, Reply};
use bitvec_engine::SliceOrder;
use bitvec_run::{RunError, Step};
use bitvec_store::BitStore;
use std::alloc::Global;

#[derive(Drop)]
struct Row<'a> {
    window: Window,
    right: &'a [u8],
    steps: &'a [Step],
    replies: &'a [Reply],
    after: &'a [u8],
}

/// Whether a run was made, and replies so.
fn replies_so(replies: Result<Vec<Reply>, RunError>, wanted: &[Reply]) -> bool {
    match replies {
        Ok(replies) => replies.as_slice() == wanted,
        Err(_) => false,
    }
}

/// Whether a run was made, replies as a row says, and leaves these elements.
fn agrees<O: SliceOrder>(alloc: Global, elements: &mut [u8], row: &Row) -> bool {
    let replies = answer::<u8, O, _>(alloc, elements, row.window, row.right, row.steps);
    replies_so(replies, row.replies) && &*elements == row.after
}

/// Whether elements have these numbers.
fn are<T: BitStore>(elements: &[T], numbers: &[u128]) -> bool {
    let mut agree = elements.len() == numbers.len();
    for (element, number) in elements.iter().zip(numbers) {
        agree &= element.to_u128() == *number;
    }
    agree
}

/// Whether the row of four nibbles replies so in elements that are zero, and leaves these numbers there.
fn four_nibbles_agree<T: BitStore>(alloc: Global, elements: &mut [T], after: &[u128]) -> bool {
    let window = Window { start: 0, len: 16 };
    let replies = answer::<T, Lsb0, _>(alloc, elements, window, &[], &four_nibbles());
    replies_so(replies, &FOUR_NIBBLES_REPLIES) && are(elements, after)
}

#[test]
fn a_bit_of_each_nibble_is_set_and_counted(rt: HostRuntime) {
    assert!(rt; four_nibbles_agree(rt.alloc(), &mut [0u8, 0], &[0x21, 0x84]));
    assert!(rt; four_nibbles_agree(rt.alloc(), &mut [0u16], &[0x8421]));
    assert!(rt; four_nibbles_agree(rt.alloc(), &mut [0u32, 0], &[0x8421, 0]));
    assert!(rt; four_nibbles_agree(rt.alloc(), &mut [0u64], &[0x8421]));
    assert!(rt; four_nibbles_agree(rt.alloc(), &mut [0usize, 0], &[0x8421, 0]));
}

#[test]
fn a_refused_step_changes_nothing_and_the_next_follows(rt: HostRuntime) {
    let row = Row {
        window: Window { start: 3, len: 4 },
        right: &[],
        steps: &steps!([
            (0, 4, Op::CountOnes),
            (1, 5, Op::Get(0)),
            (0, 4, Op::Get(4)),
            (3, 2, Op::Set(0, false)),
            (0, 4, Op::Set(4, false)),
            (0, 4, Op::CountOnes),
        ]),
        replies: &[
            Reply::Count(4),
            Reply::Refused(Refusal::Range),
            Reply::Refused(Refusal::Index),
            Reply::Refused(Refusal::Range),
            Reply::Refused(Refusal::Index),
            Reply::Count(4),
        ],
        after: &[0xFF],
    };
    assert!(rt; agrees::<Lsb0>(rt.alloc(), &mut [0xFF], &row));
}

#[test]
fn places_follow_the_order(rt: HostRuntime) {
    let bits = [false, true, false, true, true, false, true, false];
    for (index, bit) in bits.into_iter().enumerate() {
        let row = Row {
            window: Window { start: 0, len: 8 },
            right: &[],
            steps: &steps!([(0, 8, Op::Get(index))]),
            replies: &[Reply::Bit(bit)],
            after: &[0xA5],
        };
        assert!(rt; agrees::<HiLo>(rt.alloc(), &mut [0xA5], &row));
    }
}

#[test]
fn the_first_place_of_an_order_is_read(rt: HostRuntime) {
    let row = Row {
        window: Window { start: 0, len: 8 },
        right: &[],
        steps: &steps!([(0, 8, Op::Get(0))]),
        replies: &[Reply::Bit(true)],
        after: &[0x10],
    };
    assert!(rt; agrees::<HiLo>(rt.alloc(), &mut [0x10], &row));
}

#[test]
fn a_memory_may_be_empty_and_a_window_may_lie_at_its_end(rt: HostRuntime) {
    let empty = Row {
        window: Window { start: 0, len: 0 },
        right: &[],
        steps: &steps!([(0, 0, Op::CountOnes), (0, 1, Op::Get(0))]),
        replies: &[Reply::Count(0), Reply::Refused(Refusal::Range)],
        after: &[],
    };
    assert!(rt; agrees::<Lsb0>(rt.alloc(), &mut [], &empty));
    let end = Row {
        window: Window { start: 16, len: 0 },
        right: &[],
        steps: &steps!([(0, 0, Op::CountOnes)]),
        replies: &[Reply::Count(0)],
        after: &[0x5A, 0xC3],
    };
    assert!(rt; agrees::<Lsb0>(rt.alloc(), &mut [0x5A, 0xC3], &end));
}
