//! A window by the elements of its memory.
use bitvec_base::{Part, Window, elements_of};

/// A part's element and where it begins and ends there.
fn place_of(part: Part) -> [usize; 3] {
    [part.element, part.from, part.to]
}

#[test]
fn parts_of_a_window(rt: HostRuntime) {
    let window = Window { start: 11, len: 18 };
    assert!(rt; [window.element::<u8>(), window.phase::<u8>()] == [1, 3]);
    assert!(rt; [window.element::<u16>(), window.phase::<u16>()] == [0, 11]);
    assert!(rt; place_of(window.first_part::<u8>()) == [1, 3, 8]);
    assert!(rt; place_of(window.last_part::<u8>()) == [3, 0, 5]);
}

#[test]
fn whole_elements_of_a_window(rt: HostRuntime) {
    let window = Window { start: 16, len: 18 };
    let (first, count) = window.whole_elements::<u8>();
    assert!(rt; [first, count, elements_of::<u32>(100)] == [2, 2, 3]);
    assert!(rt; place_of(window.tail_part::<u8>()) == [4, 0, 2]);
}
