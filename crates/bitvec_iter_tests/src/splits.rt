//! The pieces of splits, from both ends, and how many may come.
ghost use Rattle.std.specs.Iterator.{IsFinite};

use bitvec_base::Lsb0;
use bitvec_slice::{BitSlice, BitSliceMut};
use bitvec_split::SplitCalls;
use bitvec_test_support::shows;
use std::alloc::Global;

/// A view's bits as digits behind a 1, read as a number.
fn number(piece: BitSlice<'_, u8, Lsb0>) -> u32 {
    let mut number = 1u32;
    for index in 0..piece.len() {
        number = number.wrapping_mul(2).wrapping_add(u32::from(piece[index]));
    }
    number
}

/// The numbers of the first four pieces; 0 for each that didn't come.
fn numbers<'a, I: Iterator<Item = BitSlice<'a, u8, Lsb0>>>(pieces: I) -> [u32; 4]
    requires can { I.can_next pieces }
    requires ends { IsFinite (I.remaining pieces) }
{
    let mut numbers = [0; 4];
    let mut count = 0;
    for piece in pieces {
        if count < 4 {
            numbers[count] = number(piece);
            count += 1;
        }
    }
    numbers
}

/// Where a piece begins in its element and how many bits it has, if one came.
fn place(piece: Option<BitSlice<'_, u8, Lsb0>>) -> Option<(usize, usize)> {
    match piece {
        Some(piece) => Some((piece.window().start, piece.len())),
        None => None,
    }
}

/// Says yes at ones.
fn is_one(_index: usize, bit: &bool) -> bool {
    *bit
}

/// The view 0, 1, 0, 0, 1 over two elements.
fn five(elements: &[u8; 2]) -> BitSlice<'_, u8, Lsb0> {
    BitSlice::from_slice(elements).into_part(5..10)
}

/// Where the pieces of an inclusive split are, from the end, and whether no other comes.
fn places_from_the_end(view: BitSlice<'_, u8, Lsb0>) -> ([Option<(usize, usize)>; 2], bool) {
    let mut pieces = view.split_inclusive(is_one);
    let places = [place(pieces.next_back()), place(pieces.next_back())];
    (places, pieces.next_back().is_none())
}

/// Whether no piece of an inclusive split comes from either end, and none may.
fn has_no_pieces(view: BitSlice<'_, u8, Lsb0>) -> bool {
    let mut pieces = view.split_inclusive(is_one);
    let hint = pieces.size_hint();
    let none = [place(pieces.next()), place(pieces.next_back())];
    hint == (0, Some(0)) && none == [None; 2]
}

#[test]
fn splits_at_ones(rt: HostRuntime) {
    let elements = [0x90u8];
    let view = BitSlice::<u8, Lsb0>::from_slice(&elements).into_part(3..8);
    assert!(rt; numbers(view.split(|_, bit| *bit)) == [0b1_0, 0b1_00, 0b1, 0]);
    let none = BitSlice::<u8, Lsb0>::from_slice(&[]);
    let pieces = [numbers(view.rsplit(is_one)), numbers(none.split(is_one))];
    assert!(rt; pieces == [[0b1, 0b1_00, 0b1_0, 0], [0b1, 0, 0, 0]]);
    let places = places_from_the_end(five(&[0x40, 0x02]));
    assert!(rt; places == ([Some((7, 3)), Some((5, 2))], true));
    assert!(rt; has_no_pieces(none));
}

#[test]
fn splits_of_a_writable_view(rt: HostRuntime) {
    let mut elements = [0x40u8, 0x02];
    let view = BitSliceMut::<u8, Lsb0>::from_slice_mut(&mut elements).into_part(5..10);
    let pieces = view.split_inclusive(|_, bit| *bit);
    assert!(rt; numbers(pieces) == [0b1_01, 0b1_001, 0, 0]);
    let limited = [
        numbers(view.splitn(2, is_one)),
        numbers(view.rsplitn(2, is_one)),
        numbers(view.splitn(0, is_one)),
    ];
    assert!(rt; limited == [[0b1_0, 0b1_001, 0, 0], [0b1, 0b1_0100, 0, 0], [0; 4]]);
}

/// How many pieces may come of a split, and of it behind its first piece.
fn hints(view: BitSlice<'_, u8, Lsb0>) -> [(usize, Option<usize>); 2] {
    let mut pieces = view.split(is_one);
    let hint = pieces.size_hint();
    let _piece = pieces.next();
    [hint, pieces.size_hint()]
}

/// Whether a split shows so behind its first piece, and one into a piece.
fn splits_show(alloc: Global, view: BitSlice<'_, u8, Lsb0>, texts: [&str; 2]) -> [bool; 2] {
    let mut pieces = view.split(is_one);
    let _piece = pieces.next();
    [
        shows(alloc, &pieces, texts[0]),
        shows(alloc, &view.rsplitn(1, is_one), texts[1]),
    ]
}

#[test]
fn how_many_pieces_may_come(rt: HostRuntime) {
    let view = five(&[0x40, 0x02]);
    assert!(rt; hints(view) == [(1, Some(6)), (1, Some(4))]);
    assert!(rt; view.splitn(2, |_, bit| *bit).size_hint() == (1, Some(2)));
    assert!(rt; view.splitn(0, |_, bit| *bit).size_hint() == (0, Some(0)));
    let texts = ["Splits([0, 0, 1])", "SplitsN([0, 1, 0, 0, 1], 1)"];
    assert!(rt; splits_show(rt.alloc(), view, texts) == [true; 2]);
}
