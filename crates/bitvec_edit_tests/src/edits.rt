//! Edits of views: what the user's elements are afterwards, the bits outside the view among them.
ghost use Rattle.std.specs.Prelude.{◌≡◌, ◌≤◌};

use bitvec_base::{HiLo, Lsb0, Msb0};
use bitvec_edit::BitEdits;
use bitvec_engine::SliceOrder;
use bitvec_query::BitQueries;
use bitvec_slice::{BitSlice, BitSliceMut};

/// Three bytes of which the bits `from` up to `to` were filled, if there are as many.
fn filled<O: SliceOrder>(from: usize, to: usize) -> [u8; 3] {
    let mut elements = [0; 3];
    if let Some(mut part) = BitSliceMut::<u8, O>::from_slice_mut(&mut elements).get_mut(from..to) {
        part.fill(true);
    }
    elements
}

/// Three elements of which the bits 16 to 79 were flipped, and of these flips 24 to 39 again.
fn inverted_twice() -> [u32; 3] {
    let mut elements = [0; 3];
    let view = BitSliceMut::<u32, Lsb0>::from_slice_mut(&mut elements).into_part(16..80);
    let mut part = !view;
    if let Some(middle) = part.get_mut(24..40) {
        let _middle = !middle;
    }
    elements
}

/// Fills the bits before an index, flips the second byte, and then sets its first bit.
fn edit_parts(elements: &mut [u8; 2], index: usize)
    requires { index ≤ 16 }
{
    let mut view = BitSliceMut::<u8, Lsb0>::from_slice_mut(elements);
    {
        let mut front = view.part_mut(0..index);
        front.fill(true);
    }
    if let Some(mut inner) = view.get_mut(8..16) {
        inner.invert();
        inner.as_mut().set(0, true);
    }
}

/// Edits a view of five bits, by one call a number.
fn edit_five<V: BitEdits<u8, Lsb0>>(five: &mut V, kind: usize)
    requires { (V.shows five.old).window.len ≡ 5 }
{
    match kind {
        0 => five.rotate_left(2),
        1 => five.rotate_right(2),
        2 => five.copy_within(5..5, 5),
        3 => five.swap(0, 4),
        5 => five.shift_start(5),
        6 => five.fill(true),
        7 => {
            five.fill_with(|index| index % 2 == 0);
            five.for_each(|index, bit| bit != (index == 0));
        }
        8 => five.copy_within(1..5, 0),
        9 => five.shift_end(1),
        10 => five.swap_within(0..2, 3),
        11 => five.set_unchecked(0, true),
        12 => five.swap_unchecked(0, 3),
        13 => five.copy_within_unchecked(3..5, 0),
        14 => {
            let _old = five.replace(1, false);
        }
        15 => five.and_within(0..3, 2),
        16 => five.or_within(0..3, 2),
        17 => five.xor_within(1..4, 2),
        18 => five.and_not_within(0..3, 2),
        _ => {
            let _old = five.replace_unchecked(4, false);
        }
    }
}

/// Edits the first five bits of a byte, or the middle three of them.
fn edit_byte(bytes: &mut [u8; 1], kind: usize) {
    let mut five = BitSliceMut::<u8, Lsb0>::from_slice_mut(bytes).into_part(0..5);
    if kind == 4 {
        five.part_mut(1..4).reverse();
    } else {
        edit_five(&mut five, kind);
    }
}

// The last three bits stay.
#[test]
fn five_bits_are_edited(rt: HostRuntime) {
    for (kind, before, after) in [
        (0, 0xF2, 0xF4),
        (1, 0xF4, 0xF2),
        (2, 0xF2, 0xF2),
        (3, 0xF2, 0xE3),
        (4, 0xE3, 0xE9),
        (5, 0xF2, 0xE0),
        (6, 0xE0, 0xFF),
        (7, 0xFF, 0xF4),
        (8, 0xF5, 0xFA),
        (9, 0xFA, 0xF4),
        (10, 0xFA, 0xF3),
        (11, 0xF2, 0xF3),
        (12, 0xF1, 0xF8),
        (13, 0xF8, 0xFB),
        (14, 0xFB, 0xF9),
        (15, 0xF2, 0xE2),
        (16, 0xF2, 0xFA),
        (17, 0xF2, 0xF6),
        (18, 0xF5, 0xE1),
        (19, 0xF9, 0xE9),
    ] {
        let mut bytes = [before];
        edit_byte(&mut bytes, kind);
        assert!(rt; bytes == [after], "{kind}");
    }
}

#[test]
fn edits_of_parts_leave_the_neighbours(rt: HostRuntime) {
    let by_order = [
        filled::<Lsb0>(3, 21),
        filled::<Msb0>(3, 21),
        filled::<HiLo>(0, 3),
    ];
    assert!(rt; by_order == [[0xF8, 0xFF, 0x1F], [0x1F, 0xFF, 0xF8], [0x70, 0, 0]]);
    let elements = inverted_twice();
    assert!(rt; elements == [0xFFFF_0000, 0xFF00_00FF, 0x0000_FFFF]);
    let view = BitSlice::<u32, Lsb0>::from_slice(&elements);
    assert!(rt; (view.count_ones(), view.count_zeros()) == (48, 48));
    let mut edited = [0x00u8, 0x80];
    edit_parts(&mut edited, 10);
    assert!(rt; edited == [0xFF, 0x7D]);
}
