//! Where the first bit and the last bit of a window are that is sought, and its first bits as a word: no element is loaded twice.
use bitvec_base::{HiLo, Lsb0, Msb0, Window};
use bitvec_engine::SliceOrder;
use bitvec_test_support::Counted;
use bitvec_test_support::cells::{Shared, has_window};

/// Whether the only 0 of bits 3 to 20 is at this index of them, found from either end by three loads at most, and those of
/// the first byte are five ones, found by one load.
fn stands_at<O: SliceOrder>(bytes: &[u8; 3], index: usize) -> bool {
    let window = Window { start: 3, len: 18 };
    let mut cells = Counted::new(Shared::new(bytes));
    if !has_window(&cells, window) {
        return false;
    }
    let (word, count) = O::load_front(&mut cells, window);
    let front = (O::lowest_first(word), count, cells.loads());
    let first = O::find_first(&mut cells, window, false);
    let last = O::scan_last(&mut cells, window, false);
    front == (31, 5, 1) && (first, last) == (Some(index), Some(index)) && cells.loads() <= 7
}

#[test]
fn the_first_bits_and_the_first_zero_are_found(rt: HostRuntime) {
    let bytes = [0x9F, 0xFF, 0xEF];
    assert!(rt; stands_at::<Msb0>(&bytes, 16) && stands_at::<HiLo>(&bytes, 13));
}

/// Whether the first 1 of a block of 256 bits is at this index, found by one load of each element.
fn stands<O: SliceOrder>(elements: &[u16; 16], index: usize) -> bool {
    let window = Window { start: 0, len: 256 };
    let mut cells = Counted::new(Shared::new(elements));
    has_window(&cells, window)
        && O::find_first(&mut cells, window, true) == Some(index)
        && cells.loads() == 16
}

#[test]
fn a_block_is_put_in_the_order(rt: HostRuntime) {
    let mut elements = [0u16; 16];
    elements[5] = 0x0140;
    assert!(rt; stands::<Lsb0>(&elements, 86) && stands::<Msb0>(&elements, 87));
}
