//! Calls that leave open what the view is afterwards: what they lend of the bits 3 up to 21 of three
//! bytes is flipped; then every other bit is as before, and the view stands where it stood.
ghost use Rattle.std.specs.Prelude.{◌≤◌};

use bitvec_base::{Lsb0, Window};
use bitvec_edit::BitEdits;
use bitvec_slice::BitSliceMut;
use bitvec_test_support::{MEMORIES, bits_of, flipped};

/// Flips the bit that a call lends, if it does.
fn flip_bit(view: &mut BitSliceMut<'_, u8, Lsb0>, kind: usize) {
    let bit = match kind {
        6 => view.first_mut(),
        7 => view.last_mut(),
        _ => view.get_mut(9),
    };
    if let Some(mut bit) = bit {
        let old = *bit;
        bit.set(!old);
    }
}

/// Flips the part that a call lends, if it does.
fn flip_part(part: Option<BitSliceMut<'_, u8, Lsb0>>) {
    if let Some(mut part) = part {
        part.invert();
    }
}

/// Flips a side of a cut, the bits before an index or those from it on, if they share no element.
fn flip_side(view: &mut BitSliceMut<'_, u8, Lsb0>, mid: usize, is_front: bool) {
    if mid > view.len() {
        return;
    }
    if let Some((mut front, mut rest)) = view.split_apart_mut(mid) {
        if is_front {
            front.invert();
        } else {
            rest.invert();
        }
    }
}

/// Flips a bit, or the bits from an index on, by the unchecked call.
fn flip_unchecked(view: &mut BitSliceMut<'_, u8, Lsb0>, is_bit: bool) {
    if view.len() < 12 {
        return;
    }
    if is_bit {
        let mut bit = view.get_unchecked_mut(6);
        let old = *bit;
        bit.set(!old);
    } else {
        view.get_unchecked_mut(12..).invert();
    }
}

/// Flips what a call lends, by one call a number: a range of one index up to another, and so forth.
fn flip_lent(view: &mut BitSliceMut<'_, u8, Lsb0>, kind: usize, first: usize, end: usize) {
    match kind {
        0 => flip_part(view.get_mut(first..end)),
        1 => flip_part(view.get_mut(first..)),
        2 => flip_part(view.get_mut(..end)),
        3 => flip_part(view.get_mut(..)),
        4 => flip_part(view.get_mut(first..=end)),
        5 => flip_part(view.get_mut(..=end)),
        6..=8 => flip_bit(view, kind),
        9 => flip_unchecked(view, first == 6),
        10 => flip_side(view, end, true),
        _ => flip_side(view, first, false),
    }
}

/// Flips what a call lends of the bits 3 up to 21, and says where the view stands then.
fn flip_in(bytes: &mut [u8; 3], kind: usize, first: usize, end: usize) -> Window {
    let mut view = BitSliceMut::<u8, Lsb0>::from_slice_mut(bytes).into_part(3..21);
    flip_lent(&mut view, kind, first, end);
    view.window()
}

/// Sets the bits before an index among the bits 3 up to 13, if the two sides share no element: whether they don't.
fn set_front(bytes: &mut [u8; 2], mid: usize) -> bool
    requires { mid ≤ 10 }
{
    let mut view = BitSliceMut::<u8, Lsb0>::from_slice_mut(bytes).into_part(3..13);
    match view.split_apart_mut(mid) {
        Some((mut front, _rest)) => {
            front.fill(true);
            true
        }
        None => false,
    }
}

// A cut is there at the edge of an element, and where one side has no bits.
#[test]
fn sides_that_share_no_element(rt: HostRuntime) {
    for (mid, is_there, bytes) in [
        (0, true, [0x00, 0x00]),
        (4, false, [0x00, 0x00]),
        (5, true, [0xF8, 0x00]),
        (10, true, [0xF8, 0x1F]),
    ] {
        let mut elements = [0u8, 0];
        assert!(rt;
            (set_front(&mut elements, mid), elements) == (is_there, bytes),
            "{mid}"
        );
    }
}

// Each call lends the bits from one place of the bytes up to another.
#[test]
fn what_is_lent_is_flipped_and_all_else_stays(rt: HostRuntime) {
    for bytes in MEMORIES {
        for (kind, first, end, from, to) in [
            (6, 0, 0, 3, 4),
            (7, 0, 0, 20, 21),
            (8, 0, 0, 12, 13),
            (1, 19, 0, 0, 0),
            (0, 2, 9, 5, 12),
            (4, 7, 13, 10, 17),
            (1, 11, 0, 14, 21),
            (2, 0, 4, 3, 7),
            (5, 0, 8, 3, 12),
            (3, 0, 0, 3, 21),
            (9, 6, 0, 9, 10),
            (9, 12, 0, 15, 21),
            (10, 0, 5, 3, 8),
            (11, 5, 0, 8, 21),
            (11, 0, 0, 3, 21),
            (11, 7, 0, 0, 0),
        ] {
            let mut after = bytes;
            let window = flip_in(&mut after, kind, first, end);
            assert!(rt; bits_of(after) == flipped(bytes, from, to), "{kind}");
            assert!(rt; window == Window { start: 3, len: 18 }, "{kind}");
        }
    }
}
