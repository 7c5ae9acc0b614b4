//! What is printed of walks, of lenders and of splits that lend: their name, and what is left.

use bitvec_base::Lsb0;
use bitvec_iter::{IterCalls, PieceCallsMut};
use bitvec_lent_split::SplitCallsMut;
use bitvec_slice::{BitSlice, BitSliceMut};
use bitvec_test_support::shows;
use std::alloc::Global;

/// Whether the chunks of three bits from the end show so behind the first, the bits behind the first three, and the first
/// two bits and the others.
fn lenders_show(alloc: Global, bytes: &mut [u8; 1], texts: [&str; 3]) -> [bool; 3] {
    let mut view = BitSliceMut::<u8, Lsb0>::from_slice_mut(bytes);
    let mut chunks = view.rchunks_mut(3);
    chunks.pass(1);
    let chunks_show = shows(alloc, &chunks, texts[0]);
    let mut bits = view.iter_mut();
    bits.pass(3);
    let bits_show = shows(alloc, &bits, texts[1]);
    [
        chunks_show,
        bits_show,
        shows(alloc, &view.split_at_mut(2), texts[2]),
    ]
}

#[test]
fn walks_and_lenders_print_what_is_left(rt: HostRuntime) {
    let mut chunks = BitSlice::<u8, Lsb0>::from_slice(&[0x16]).chunks(3);
    let _first = chunks.next();
    assert!(rt; shows(rt.alloc(), &chunks, "Pieces([[0, 1, 0], [0, 0]])"));
    let texts = [
        "PiecesMut([[1, 0, 1], [0, 1]])",
        "IterMut([0, 1, 0, 0, 0])",
        "HalvesMut([0, 1], [1, 0, 1, 0, 0, 0])",
    ];
    assert!(rt; lenders_show(rt.alloc(), &mut [0x16], texts) == [true; 3]);
}

/// Whether a split that lends shows so, once its first piece and its last were found, and this was flipped; and then a
/// split into one piece, once that was found and flipped, before which one may come.
fn splits_show(alloc: Global, bytes: &mut [u8; 1], texts: [&str; 2]) -> [bool; 2] {
    let mut view = BitSliceMut::<u8, Lsb0>::from_slice_mut(bytes).into_part(0..6);
    let mut pieces = view.rsplit_mut(|_, bit| *bit);
    let _found = pieces.advance() && pieces.advance_back();
    {
        let _flipped = !pieces.piece_mut();
    }
    let all_show = shows(alloc, &pieces, texts[0]) && !pieces.is_finished();
    let mut pieces = view.rsplitn_mut(1, |_, bit| *bit);
    let hint = pieces.size_hint();
    let _found = pieces.advance();
    {
        let _flipped = !pieces.piece_mut();
    }
    let is_over = hint == (1, Some(1)) && pieces.is_finished();
    [all_show, is_over && shows(alloc, &pieces, texts[1])]
}

// The bits are 0, 1, 0, 0, 1, 0; then 1, 1, 0, 0, 1, 0, of which all are flipped.
#[test]
fn splits_that_lend_print_what_is_left(rt: HostRuntime) {
    let mut bytes = [0b0001_0010u8];
    let texts = ["SplitsMut([0, 0])", "SplitsNMut([], 0)"];
    assert!(rt; splits_show(rt.alloc(), &mut bytes, texts) == [true; 2]);
    assert!(rt; bytes == [0b0010_1100]);
}
