//! What is printed of writable views and of walks over bits.

use bitvec_base::Lsb0;
use bitvec_slice::{BitSlice, BitSliceMut};
use bitvec_test_support::{prints, shows};
use std::alloc::Global;

/// Whether a writable view prints so by `{}` and `{:?}`, and equals another.
fn view_shows(alloc: Global, elements: &mut [u8; 1], others: &mut [u8; 1], text: &str) -> bool {
    let view = BitSliceMut::<u8, Lsb0>::from_slice_mut(elements);
    prints(alloc, &view, text)
        && shows(alloc, &view, text)
        && view == BitSliceMut::<u8, Lsb0>::from_slice_mut(others)
}

/// Whether a walk over bits shows so behind the first one, as it is and by references, and one by values.
fn walks_show(alloc: Global, view: BitSlice<'_, u8, Lsb0>, texts: [&str; 3]) -> [bool; 3] {
    let mut walk = view.iter();
    let _first = walk.next();
    [
        shows(alloc, &walk, texts[0]),
        shows(alloc, &walk.by_refs(), texts[1]),
        shows(alloc, &view.iter().by_vals(), texts[2]),
    ]
}

#[test]
fn views_and_walks_print_what_is_left(rt: HostRuntime) {
    let text = "[1, 0, 0, 0, 0, 1, 0, 1]";
    assert!(rt; view_shows(rt.alloc(), &mut [0xA1], &mut [0xA1], text));
    let view = BitSlice::<u8, Lsb0>::from_slice(&[0b1101]).into_part(0..5);
    let texts = [
        "Iter([0, 1, 1, 0])",
        "BitRefIter([0, 1, 1, 0])",
        "BitValIter([1, 0, 1, 1, 0])",
    ];
    assert!(rt; walks_show(rt.alloc(), view, texts) == [true; 3]);
}
