//! When a run isn't made, and what its errors print.
use crate::run_slices::{answer, four_nibbles};
use bitvec_base::{Lsb0, Window};
use bitvec_run::RunError;
use bitvec_test_support::prints;

#[test]
fn a_window_outside_is_an_error(rt: HostRuntime) {
    for (start, len) in [
        (10, 7),
        (17, 0),
        (0, 17),
        (16, 1),
        (usize::MAX, 1),
        (1, usize::MAX),
    ] {
        let mut elements = [0x5Au8, 0xC3];
        let window = Window { start, len };
        let outcome = answer::<_, Lsb0, _>(rt.alloc(), &mut elements, window, &[], &four_nibbles());
        assert!(rt; outcome.err() == Some(RunError::Window), "({start}, {len})");
        assert!(rt; elements == [0x5A, 0xC3], "({start}, {len})");
    }
}

#[test]
fn an_error_prints_its_text(rt: HostRuntime) {
    let table = [
        (RunError::Window, "run error: window"),
        (RunError::Right, "run error: right"),
        (RunError::Memory, "run error: memory"),
    ];
    for (error, text) in table {
        assert!(rt; prints(rt.alloc(), &error, text));
    }
}
