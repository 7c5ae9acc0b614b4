//! Want of memory.
use bitrecord::bits::Window;
use bitrecord::{Layout, LayoutError};
use bitvec_test_support::Refusing;
use std::alloc::Global;

/// Whether a layout is made with no request refused, or the one that was is told.
fn is_made(refusing: &Refusing<Global>) -> bool {
    let fields = [Window { start: 0, len: 3 }, Window { start: 3, len: 7 }];
    match Layout::new(refusing, 16, &fields) {
        Ok(layout) => layout.len() == 2 && refusing.granted() > 0 && refusing.granted_all(),
        Err(why) => why == LayoutError::Memory && refusing.refused() == 1,
    }
}

#[test]
fn each_growth_that_is_refused_is_told(rt: HostRuntime) {
    for granted in 0..10 {
        assert!(rt; is_made(&Refusing::new(rt.alloc(), granted)));
    }
}
