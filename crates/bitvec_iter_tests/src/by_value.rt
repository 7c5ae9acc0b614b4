//! Calls that take a walk by value, and whose contracts leave open what the lender is afterwards: what they give of the
//! bits 3 up to 21 of three bytes is flipped; then every other bit is as before, in the elements before it and behind
//! it too.

use bitvec_base::Lsb0;
use bitvec_edit::BitEdits;
use bitvec_iter::PieceCallsMut;
use bitvec_slice::BitSliceMut;
use bitvec_test_support::{MEMORIES, bits_of, flipped};

/// Flips what a call on a walk gives: the bits behind the first 13, those behind the first 5 by the old name, or those
/// behind three chunks of five.
fn flip_of_walk(bytes: &mut [u8; 3], kind: usize) {
    let mut view = BitSliceMut::<u8, Lsb0>::from_slice_mut(bytes).into_part(3..21);
    match kind {
        0 => {
            let mut bits = view.iter_mut();
            bits.pass(13);
            bits.into_bitslice().invert();
        }
        1 => {
            let mut bits = view.iter_mut();
            bits.pass(5);
            bits.into_slice().invert();
        }
        _ => view.chunks_exact_mut(5).into_remainder().invert(),
    }
}

// Each call by its number gives the bits from one place of the bytes up to 21.
#[test]
fn what_is_given_leaves_the_other_elements(rt: HostRuntime) {
    for bytes in MEMORIES {
        for (kind, from) in [(0, 16), (1, 8), (2, 18)] {
            let mut after = bytes;
            flip_of_walk(&mut after, kind);
            assert!(rt; bits_of(after) == flipped(bytes, from, 21), "{kind}");
        }
    }
}
