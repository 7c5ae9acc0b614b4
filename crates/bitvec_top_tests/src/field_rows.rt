//! Worked rows of runs with numbers.
use bitvec_base::{Lsb0, Msb0, Window};
use bitvec_cells::{Exclusive, Shared};
use bitvec_commands::{Op, Refusal, Reply};
use bitvec_engine::SliceOrder;
use bitvec_numbers::FieldOrder;
use bitvec_run::{FieldOp, FieldStep, run_fields};
use bitvec_store::BitStore;
use bitvec_test_support::Counted;
use std::alloc::Global;

fn step(from: usize, to: usize, op: FieldOp) -> FieldStep {
    FieldStep { from, to, op }
}

/// The first bits of a memory.
const fn first(len: usize) -> Window {
    Window { start: 0, len }
}

/// Whether a run through a window of some elements is made, answers so, and takes at most so many loads and so many
/// stores.
fn answers<T: BitStore, O: SliceOrder + FieldOrder>(
    alloc: Global,
    elements: &mut [T],
    window: Window,
    steps: &[FieldStep],
    wanted: &[Reply],
    most: u64,
) -> bool {
    let mut memory = Counted::new(Exclusive::new(elements));
    let mut right = Shared::new(&[]);
    match run_fields::<O, _, _, _>(alloc, &mut memory, window, &mut right, steps) {
        Ok(replies) => {
            replies.as_slice() == wanted && memory.loads() <= most && memory.stores() <= most
        }
        Err(_) => false,
    }
}

#[test]
fn a_number_takes_its_elements_once(rt: HostRuntime) {
    let mut elements = [0x03u8, 0xC0, 0xFF];
    let steps = [step(2, 14, FieldOp::StoreLe(0xABC))];
    assert!(rt;
        answers::<_, Lsb0>(
            rt.alloc(),
            &mut elements,
            first(24),
            &steps,
            &[Reply::Done],
            2
        )
    );
    assert!(rt; elements == [0xF3, 0xEA, 0xFF]);
}

#[test]
fn numbers_are_loaded_stored_and_refused(rt: HostRuntime) {
    let mut elements = [0xB4u8, 0x6E];
    let steps = [
        step(4, 12, FieldOp::LoadLe),
        step(4, 12, FieldOp::LoadBe),
        step(2, 7, FieldOp::StoreLe(300)),
        step(2, 7, FieldOp::LoadLe),
        step(3, 3, FieldOp::LoadBe),
        step(0, 8, FieldOp::Plain(Op::CountOnes)),
    ];
    let wanted = [
        Reply::Number(235),
        Reply::Number(190),
        Reply::Done,
        Reply::Number(12),
        Reply::Refused(Refusal::Width),
        Reply::Count(3),
    ];
    assert!(rt; answers::<_, Lsb0>(rt.alloc(), &mut elements, first(16), &steps, &wanted, 99));
    assert!(rt; elements == [0xB0, 0x6E]);
}

#[test]
fn a_field_has_at_most_128_bits(rt: HostRuntime) {
    let mut elements = [1u8, 0, 0, 0, 0, 0, 0, 0, 0, 0, 0, 0, 0, 0, 0, 0x80, 0xFF];
    let steps = [step(0, 129, FieldOp::LoadLe), step(0, 128, FieldOp::LoadLe)];
    let wanted = [
        Reply::Refused(Refusal::Width),
        Reply::Number(0x8000_0000_0000_0000_0000_0000_0000_0001),
    ];
    assert!(rt; answers::<_, Lsb0>(rt.alloc(), &mut elements, first(136), &steps, &wanted, 99));
}

#[test]
fn a_number_across_two_wide_elements(rt: HostRuntime) {
    let mut elements = [0u128; 2];
    let steps = [
        step(64, 192, FieldOp::StoreBe(1)),
        step(64, 192, FieldOp::LoadLe),
    ];
    let wanted = [Reply::Done, Reply::Number(18_446_744_073_709_551_616)];
    assert!(rt; answers::<_, Lsb0>(rt.alloc(), &mut elements, first(256), &steps, &wanted, 99));
    assert!(rt; elements == [0, 1]);
}

// The window has the digits 2345678 of the first element and 9AB of the second. The bits 20 to 36 of it are the
// digits 78 and 9A.
#[test]
fn numbers_across_two_elements(rt: HostRuntime) {
    let steps = [
        step(0, 40, FieldOp::LoadBe),
        step(0, 40, FieldOp::LoadLe),
        step(20, 36, FieldOp::StoreLe(0xF_ABCD)),
        step(20, 36, FieldOp::LoadLe),
        step(20, 36, FieldOp::LoadBe),
        step(20, 36, FieldOp::StoreBe(0x1234)),
        step(7, 7, FieldOp::LoadLe),
        step(0, 8, FieldOp::Plain(Op::CountOnes)),
    ];
    let replies = [
        Reply::Number(0x23_4567_89AB),
        Reply::Number(0x9A_B234_5678),
        Reply::Done,
        Reply::Number(0xABCD),
        Reply::Number(0xCDAB),
        Reply::Done,
        Reply::Refused(Refusal::Width),
        Reply::Count(3),
    ];
    let mut elements = [0x1234_5678u32, 0x9ABC_DEF0];
    let after = [0x1234_5612, 0x34BC_DEF0];
    let window = Window { start: 4, len: 40 };
    assert!(rt; answers::<_, Msb0>(rt.alloc(), &mut elements, window, &steps, &replies, 99));
    assert!(rt; elements == after);
}
