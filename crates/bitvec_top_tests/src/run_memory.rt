//! A run for whose replies there is no room.
use crate::run_slices::{FOUR_NIBBLES_REPLIES, answer, four_nibbles};
use bitvec_base::{Lsb0, Window};
use bitvec_run::RunError;
use bitvec_test_support::Refusing;
use std::alloc::Global;
use std::mem::size_of_val;

const WINDOW: Window = Window { start: 0, len: 16 };

/// Whether a run asks for as many bytes as its replies take, and makes them; or is refused, and changes
/// nothing.
fn asks_once(refusing: &Refusing<Global>, granted: u64) -> bool {
    let mut elements = [0x00u8, 0x00];
    match answer::<_, Lsb0, _>(refusing, &mut elements, WINDOW, &[], &four_nibbles()) {
        Ok(replies) => {
            granted > 0
                && replies.as_slice() == FOUR_NIBBLES_REPLIES.as_slice()
                && elements == [0x21, 0x84]
        }
        Err(error) => granted == 0 && error == RunError::Memory && elements == [0x00, 0x00],
    }
}

#[test]
fn a_run_asks_once_and_changes_nothing_where_it_is_refused(rt: HostRuntime) {
    for granted in 0..3 {
        let refusing = Refusing::new(rt.alloc(), granted);
        assert!(rt; asks_once(&refusing, granted), "at {granted}");
        assert!(rt; refusing.granted() == granted.min(1));
        let bytes = size_of_val(&FOUR_NIBBLES_REPLIES) as u64;
        assert!(rt; refusing.bytes() == granted.min(1) * bytes);
    }
}

/// Whether a run of no steps is made, and changes nothing.
fn replies_nothing(alloc: &Refusing<Global>) -> bool {
    let mut elements = [0x5Au8, 0xC3];
    match answer::<_, Lsb0, _>(alloc, &mut elements, WINDOW, &[], &[]) {
        Ok(replies) => replies.is_empty() && elements == [0x5A, 0xC3],
        Err(_) => false,
    }
}

#[test]
fn a_run_of_no_steps_asks_for_nothing(rt: HostRuntime) {
    let refusing = Refusing::new(rt.alloc(), 0);
    assert!(rt; replies_nothing(&refusing));
    assert!(rt; refusing.granted_all());
}
