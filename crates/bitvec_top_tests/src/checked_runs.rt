//! A run: what each step replies, and what its window holds afterwards.
use bitvec_checked::{DONE, LSB0, MSB0};
use bitvec_checked_run::{OP, OPERATIONS, ROOM, RawReply, RawStep, run};

fn step(op: u32, to: usize, first: usize, second: usize) -> RawStep {
    RawStep {
        from: 0,
        to,
        first,
        second,
        third: 0,
        op,
        bit: 1,
    }
}

/// A reply that no step gives.
const NOTHING: RawReply = RawReply {
    low: 7,
    high: 7,
    kind: 7,
    status: 7,
};

/// Whether a reply has this kind, these low bits and this status.
fn says(reply: RawReply, kind: u32, low: u64, status: u32) -> bool {
    reply.kind == kind && reply.low == low && reply.status == status
}

#[test]
fn a_run_replies_to_each_step(rt: HostRuntime) {
    let mut bytes = [0x12u8, 0x34, 0x56];
    let mut replies = [NOTHING; 3];
    // the bit 0, bits past the window, the right bits 0 to 17 copied there
    let steps = [step(0, 18, 0, 0), step(5, 19, 0, 0), step(12, 18, 0, 18)];
    let right = [0xF8, 0x00, 0x0A];
    assert!(rt; run(MSB0, &mut bytes, 3, 18, &right, &steps, &mut replies) == DONE);
    assert!(rt; bytes == [0x1F, 0x00, 0x06]);
    let [first, second, third] = replies;
    assert!(rt; says(first, 1, 1, DONE) && says(second, 6, 0, 1) && says(third, 0, 0, DONE));
}

#[test]
fn a_number_of_a_step_has_its_low_half_first(rt: HostRuntime) {
    let mut bytes = [0u8; 9];
    let steps = [step(31, 72, 0x0807_0605_0403_0201, 9)];
    assert!(rt; run(LSB0, &mut bytes, 0, 72, &[], &steps, &mut [NOTHING]) == DONE);
    assert!(rt; bytes == [1, 2, 3, 4, 5, 6, 7, 8, 9]);
}

#[test]
fn steps_without_operation_or_room_are_refused(rt: HostRuntime) {
    let mut bytes = [0x12u8, 0x34, 0x56];
    let statuses = [
        run(
            MSB0,
            &mut bytes,
            3,
            18,
            &[],
            &[step(OPERATIONS, 0, 0, 0)],
            &mut [NOTHING],
        ),
        run(MSB0, &mut bytes, 3, 18, &[], &[step(0, 18, 0, 0)], &mut []),
    ];
    assert!(rt; statuses == [OP, ROOM]);
}
