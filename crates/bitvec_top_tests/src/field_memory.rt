//! A run with numbers for whose replies there is no room.
use bitvec_base::{Lsb0, Window};
use bitvec_cells::{Exclusive, Shared};
use bitvec_commands::Reply;
use bitvec_run::{FieldOp, FieldStep, RunError, run_fields};
use bitvec_test_support::Refusing;
use std::alloc::{Allocator, Global};
use std::mem::size_of;

/// How many replies a run through two bytes gives; nothing where memory is refused.
fn count_replies<A: Allocator + Drop>(
    alloc: A,
    elements: &mut [u8; 2],
    steps: &[FieldStep],
) -> Option<usize> {
    let mut memory = Exclusive::new(elements);
    let mut right = Shared::new(&[]);
    let window = Window { start: 0, len: 16 };
    match run_fields::<Lsb0, _, _, _>(alloc, &mut memory, window, &mut right, steps) {
        Ok(replies) => Some(replies.len()),
        Err(RunError::Memory) => None,
        Err(_) => Some(99),
    }
}

/// A run of two steps where so many requests are granted: how many replies it gives, of how many bytes the requests were,
/// and the elements afterwards.
fn store_twice(alloc: Global, granted: u64) -> (Option<usize>, u64, [u8; 2]) {
    let step = FieldStep {
        from: 4,
        to: 12,
        op: FieldOp::StoreLe(235),
    };
    let refusing = Refusing::new(alloc, granted);
    let mut elements = [0x00, 0x00];
    let count = count_replies(&refusing, &mut elements, &[step, step]);
    (count, refusing.bytes(), elements)
}

#[test]
fn a_run_asks_once_and_changes_nothing_where_it_is_refused(rt: HostRuntime) {
    let bytes = 2 * size_of::<Reply>() as u64;
    assert!(rt; store_twice(rt.alloc(), 0) == (None, 0, [0x00, 0x00]));
    assert!(rt; store_twice(rt.alloc(), 1) == (Some(2), bytes, [0xB0, 0x0E]));
}

#[test]
fn a_run_of_no_steps_asks_for_nothing(rt: HostRuntime) {
    let refusing = Refusing::new(rt.alloc(), 0);
    let mut elements = [0x5A, 0xC3];
    let count = count_replies(&refusing, &mut elements, &[]);
    assert!(rt; (count, elements, refusing.granted_all()) == (Some(0), [0x5A, 0xC3], true));
}
