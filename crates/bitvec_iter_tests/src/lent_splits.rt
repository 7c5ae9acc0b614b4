//! Writable splits of bits at ones, whose pieces are lent, and flipped. Of the bits 3 up to 21 of three bytes
//! twelve are called for, some past the end: then the pieces, how often the predicate was asked, and the bytes
//! are those of the plain list, whose ones stay.
ghost use Rattle.std.specs.Prelude.{◌*◌, ◌≤◌, length};
ghost use Rattle.bitvec_base.specs.Window.{max_bits};

use bitvec_base::{BitOrder, Lsb0, Msb0};
use bitvec_lent_split::SplitCallsMut;
use bitvec_slice::BitSliceMut;
use bitvec_store::BitStore;
use bitvec_test_support::MEMORIES;

/// Flips what a call lends, and notes how many bits it has, and one more, as two digits.
fn flip_lent(noted: u128, piece: Option<BitSliceMut<'_, u8, Lsb0>>) -> u128 {
    match piece {
        Some(piece) => {
            let bits = piece.len() as u128;
            let _flipped = !piece;
            noted.wrapping_mul(100).wrapping_add(bits).wrapping_add(1)
        }
        None => noted,
    }
}

/// Flips the first piece between ones.
fn flip_first<T: BitStore, O: BitOrder>(elements: &mut [T])
    requires { T.BITS * length elements.old ≤ max_bits }
{
    let mut view = BitSliceMut::<T, O>::from_slice_mut(elements);
    let mut pieces = view.split_mut(|_, bit| *bit);
    if let Some(piece) = pieces.next_mut() {
        let _flipped = !piece;
    }
}

/// How many pieces an inclusive split of so many bits may lend, and what comes from the front and then from the back.
fn split_inclusively(bytes: &mut [u8; 1], len: usize) -> ((usize, Option<usize>), u128)
    requires { len ≤ 8 }
{
    let mut view = BitSliceMut::<u8, Lsb0>::from_slice_mut(bytes).into_part(0..len);
    let mut pieces = view.split_inclusive_mut(|_, bit| *bit);
    let hint = pieces.size_hint();
    let mut noted = 0;
    for from_back in [false, true] {
        noted = if from_back {
            flip_lent(noted, pieces.next_back_mut())
        } else {
            flip_lent(noted, pieces.next_mut())
        };
    }
    (hint, noted)
}

/// Calls a split twelve times, at even and at odd calls from the back or not. Gives what came, and how often the
/// predicate was asked.
fn split_in(bytes: &mut [u8; 3], from_back: [bool; 2]) -> (u128, usize) {
    let (mut noted, mut asked) = (0, 0usize);
    let mut view = BitSliceMut::<u8, Lsb0>::from_slice_mut(bytes).into_part(3..21);
    let mut pieces = view.split_mut(|_index, bit| {
        asked = asked.wrapping_add(1);
        *bit
    });
    for call in 0..12 {
        noted = if from_back[call % 2] {
            flip_lent(noted, pieces.next_back_mut())
        } else {
            flip_lent(noted, pieces.next_mut())
        };
    }
    (noted, asked)
}

/// Calls a split into two pieces at most twelve times, and gives what came.
fn split_in_two(bytes: &mut [u8; 3]) -> u128 {
    let mut noted = 0;
    let mut view = BitSliceMut::<u8, Lsb0>::from_slice_mut(bytes).into_part(3..21);
    let mut pieces = view.splitn_mut(2, |_, bit| *bit);
    for _ in 0..12 {
        noted = flip_lent(noted, pieces.next_mut());
    }
    noted
}

#[test]
fn limited_pieces_by_next_mut(rt: HostRuntime) {
    for (bytes, pieces, after) in [
        (MEMORIES[0], 03_16, [0x7E, 0xC3, 0x46]),
        (MEMORIES[1], 01_18, [0xA9, 0x3C, 0xB9]),
    ] {
        let mut bytes = bytes;
        assert!(rt; split_in_two(&mut bytes) == pieces);
        assert!(rt; bytes == after);
    }
}

// The bits are 0, 1, 0, 0, 1, 0, 1, 0: the first piece is 0, 1, and the last is 0.
#[test]
fn an_inclusive_split_lends_a_piece_with_its_one_and_none_of_no_bits(rt: HostRuntime) {
    let mut bytes = [0x52];
    assert!(rt; split_inclusively(&mut bytes, 0) == ((0, Some(0)), 0) && bytes == [0x52]);
    let (_hint, noted) = split_inclusively(&mut bytes, 8);
    assert!(rt; noted == 03_02 && bytes == [0xD1]);
    let mut elements = [0x52];
    flip_first::<u8, Msb0>(&mut elements);
    assert!(rt; elements == [0xD2]);
}

// By `next_mut`, by `next_back_mut` and by both in turn. Each bit is asked about once.
#[test]
fn pieces_from_either_end_are_lent(rt: HostRuntime) {
    let all_ones = [[0xFE, 0xFF, 0x5F], [0xF9, 0xFF, 0xBF]];
    for (from_back, pieces) in [
        (
            [false, false],
            [03_02_03_01_01_01_03_03_01_01, 01_01_02_02_01_05_01_02_01_03],
        ),
        (
            [true, true],
            [01_01_03_03_01_01_01_03_02_03, 03_01_02_01_05_01_02_02_01_01],
        ),
        (
            [false, true],
            [03_01_02_01_03_03_01_03_01_01, 01_03_01_01_02_02_02_01_01_05],
        ),
    ] {
        for index in 0..2 {
            let mut bytes = MEMORIES[index];
            assert!(rt; split_in(&mut bytes, from_back) == (pieces[index], 18));
            assert!(rt; bytes == all_ones[index]);
        }
    }
}
