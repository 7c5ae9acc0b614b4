//! Calls that lend a part of a view if the view has it: of the bits 3 up to 21 of three bytes what is lent is flipped, and
//! every other bit is as before. Where nothing is lent, every bit is.

use bitvec_base::Lsb0;
use bitvec_edit::BitEdits;
use bitvec_slice::{BitSliceMut, Lent};
use bitvec_test_support::{MEMORIES, bits_of, flipped};

/// Flips what was lent, if anything was.
fn flip_some(lent: Lent<BitSliceMut<'_, u8, Lsb0>>) {
    if lent.is_none() {
        return;
    }
    if let Some(mut part) = lent.some() {
        part.invert();
    }
}

/// Flips the bit at an index through a reference, if it is lent.
fn flip_bit(view: &mut BitSliceMut<'_, u8, Lsb0>, index: usize) {
    if let Some(mut bit) = view.get_lent(index).bit() {
        let old = *bit;
        bit.set(!old);
    }
}

/// Flips what a call lends, by one call a number: a range of one index up to another, and so forth.
fn flip_by(view: &mut BitSliceMut<'_, u8, Lsb0>, kind: usize, first: usize, end: usize) {
    match kind {
        0 => flip_some(view.get_lent(first..end)),
        1 => flip_some(view.get_lent(first..)),
        2 => flip_some(view.get_lent(..end)),
        3 => flip_some(view.get_lent(..)),
        4 => flip_some(view.get_lent(first..=end)),
        5 => flip_some(view.get_lent(..=end)),
        6 => flip_bit(view, first),
        7 => flip_some(view.first_lent()),
        8 => flip_some(view.last_lent()),
        _ => {
            if let Some(mut part) = view.get_lent(2..9).some() {
                part.invert();
            }
        }
    }
}

/// Flips what a call lends of the bits 3 up to 21, and says whether it lends anything by `is_some`.
fn flip_in(bytes: &mut [u8; 3], kind: usize, first: usize, end: usize) -> bool {
    let mut view = BitSliceMut::<u8, Lsb0>::from_slice_mut(bytes).into_part(3..21);
    flip_by(&mut view, kind, first, end);
    view.get_lent(0..1).is_some()
}

// Each call lends the bits from one place of the bytes up to another. The last five lend nothing.
#[test]
fn what_is_lent_is_flipped_and_all_else_stays(rt: HostRuntime) {
    for bytes in MEMORIES {
        for (kind, first, end, from, to) in [
            (9, 0, 0, 5, 12),
            (1, 11, 0, 14, 21),
            (2, 0, 4, 3, 7),
            (3, 0, 0, 3, 21),
            (4, 7, 13, 10, 17),
            (5, 0, 8, 3, 12),
            (6, 7, 0, 10, 11),
            (7, 0, 0, 3, 4),
            (8, 0, 0, 20, 21),
            (0, 2, 19, 0, 0),
            (1, 19, 0, 0, 0),
            (5, 0, 18, 0, 0),
            (6, 18, 0, 0, 0),
            (4, 7, usize::MAX, 0, 0),
        ] {
            let mut after = bytes;
            assert!(rt; flip_in(&mut after, kind, first, end), "{kind}");
            assert!(rt; bits_of(after) == flipped(bytes, from, to), "{kind}");
        }
    }
}
