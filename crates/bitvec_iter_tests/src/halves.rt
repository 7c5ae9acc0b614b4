//! Halves of a view.
ghost use Rattle.std.specs.Prelude.{◌≤◌};

use crate::walked::with_ones;
use bitvec_base::{Lsb0, Window};
use bitvec_edit::BitEdits;
use bitvec_engine::SliceOrder;
use bitvec_iter::{HalvesMut, PieceCallsMut};
use bitvec_slice::BitSliceMut;
use bitvec_test_support::MEMORIES;

/// Sets the bits before `mid`, and clears those from it on.
fn paint<O: SliceOrder>(bytes: &mut [u8; 1], mid: usize)
    requires { mid ≤ 8 }
{
    let mut view = BitSliceMut::<u8, O>::from_slice_mut(bytes);
    let mut halves = view.split_at_mut(mid);
    {
        let mut left = halves.left_mut();
        left.fill(true);
    }
    {
        let mut right = halves.right_mut();
        right.fill(false);
    }
}

/// Sets the left half or the right one, if there are two, and says how many bits both have and how many the left one.
fn set_half(halves: Option<HalvesMut<'_, u8, Lsb0>>, is_left: bool) -> Option<(usize, usize)> {
    match halves {
        Some(mut halves) => {
            if is_left {
                halves.left_mut().fill(true);
            } else {
                halves.right_mut().fill(true);
            }
            Some((halves.len(), halves.mid()))
        }
        None => None,
    }
}

/// Sets one of the halves around the first bit, the last one or the index 7 of the bits 3 up to 21, and says how many bits
/// the halves have and where all stand then.
fn set_around(bytes: &mut [u8; 3], kind: usize, is_left: bool) -> (Option<(usize, usize)>, Window) {
    let mut view = BitSliceMut::<u8, Lsb0>::from_slice_mut(bytes).into_part(3..21);
    let lens = match kind {
        0 => set_half(view.split_first_mut(), is_left),
        1 => set_half(view.split_last_mut(), is_left),
        _ => set_half(Some(view.split_at_unchecked_mut(7)), is_left),
    };
    (lens, view.window())
}

#[test]
fn both_halves_are_lent(rt: HostRuntime) {
    let mut bytes = [0xF0];
    paint::<Lsb0>(&mut bytes, 4);
    assert!(rt; bytes == [0x0F]);
    for bytes in MEMORIES {
        for (kind, is_left, mid, wanted) in [
            (0, true, 1, [0x08, 0x00, 0x00]),
            (0, false, 1, [0xF0, 0xFF, 0x1F]),
            (1, true, 17, [0xF8, 0xFF, 0x0F]),
            (1, false, 17, [0x00, 0x00, 0x10]),
            (2, true, 7, [0xF8, 0x03, 0x00]),
            (2, false, 7, [0x00, 0xFC, 0x1F]),
        ] {
            let mut after = bytes;
            let window = Window { start: 3, len: 18 };
            assert!(rt; set_around(&mut after, kind, is_left) == (Some((18, mid)), window));
            assert!(rt; after == with_ones(bytes, wanted), "{kind}");
        }
    }
}
