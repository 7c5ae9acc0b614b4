//! Calls that take a writable view by value, and whose contracts leave open what the lender is afterwards: what they give
//! of the bits 3 up to 21 of three bytes is flipped; then every other bit is as before, in the elements before it and
//! behind it too.

use bitvec_base::Lsb0;
use bitvec_edit::BitEdits;
use bitvec_slice::{BitSliceIndex, BitSliceMut};
use bitvec_test_support::{MEMORIES, bits_of, flipped};

/// Flips what a call gives: the bits 5 up to 9, the bit 15, or the bits 13 up to 18.
fn flip_given(bytes: &mut [u8; 3], kind: usize) {
    let view = BitSliceMut::<u8, Lsb0>::from_slice_mut(bytes).into_part(3..21);
    match kind {
        0 => view.into_part(5..9).invert(),
        1 => {
            let mut bit = view.into_bit(15);
            let old = *bit;
            bit.set(!old);
        }
        _ => (13..18).index_mut(view).invert(),
    }
}

// Each call by its number gives the bits from one place of the bytes up to another.
#[test]
fn what_is_given_leaves_the_other_elements(rt: HostRuntime) {
    for bytes in MEMORIES {
        for (kind, from, to) in [(0, 8, 12), (1, 18, 19), (2, 16, 21)] {
            let mut after = bytes;
            flip_given(&mut after, kind);
            assert!(rt; bits_of(after) == flipped(bytes, from, to), "{kind}");
        }
    }
}
