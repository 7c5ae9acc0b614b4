//! Walks that lend from both ends by calls after which the walk is known: each piece that is lent is filled, and the
//! bytes then have its bits.

use bitvec_base::Lsb0;
use bitvec_edit::BitEdits;
use bitvec_iter::PieceCallsMut;
use bitvec_slice::{BitSliceMut, Lent};

/// Fills what a call lends, and says whether it lends anything.
fn fill(lent: Lent<BitSliceMut<'_, u8, Lsb0>>) -> bool {
    match lent.some() {
        Some(mut piece) => {
            piece.fill(true);
            true
        }
        None => false,
    }
}

/// Fills chunks of three bits by each call, and tells which calls lend one, the last two from a walk that has none left.
fn fill_chunks(bytes: &mut [u8; 2]) -> [bool; 6] {
    let mut view = BitSliceMut::<u8, Lsb0>::from_slice_mut(bytes);
    let mut chunks = view.chunks_mut(3);
    [
        fill(chunks.next_lent()),
        fill(chunks.next_back_lent()),
        fill(chunks.nth_lent(1)),
        fill(chunks.nth_back_lent(1)),
        fill(chunks.next_lent()),
        fill(chunks.nth_back_lent(usize::MAX)),
    ]
}

/// Sets bits by each call, and tells which calls lend one, the last past the end.
fn fill_bits(bytes: &mut [u8; 1]) -> [bool; 5] {
    let mut view = BitSliceMut::<u8, Lsb0>::from_slice_mut(bytes);
    let mut bits = view.iter_mut();
    [
        fill(bits.next_lent()),
        fill(bits.next_back_lent()),
        fill(bits.nth_lent(1)),
        fill(bits.nth_back_lent(1)),
        fill(bits.nth_lent(2)),
    ]
}

// The six chunks are the bits 0 up to 3, 6, 9, 12, 15 and 16: the first, the last, the third and the fourth come.
#[test]
fn pieces_are_lent_from_both_ends_and_behind_others(rt: HostRuntime) {
    let (mut chunks, mut bits) = ([0x00; 2], [0x00]);
    assert!(rt; fill_chunks(&mut chunks) == [true, true, true, true, false, false]);
    assert!(rt; fill_bits(&mut bits) == [true, true, true, true, false]);
    assert!(rt; (chunks, bits) == ([0xC7, 0x8F], [0xA5]));
}
