//! What copies hold.

use bitvec_base::{Lsb0, Msb0, Window};
use bitvec_engine::SliceOrder;
use bitvec_owned::{BitVec, ToBitVec};
use bitvec_slice::{BitSlice, BitSliceMut};
use std::alloc::{AllocError, Global};

type Copied<O> = Result<BitVec<u8, O, Global>, AllocError>;

/// Whether a copy was made, stands there, and has these elements.
fn holds<O: SliceOrder>(copy: Copied<O>, start: usize, len: usize, elements: &[u8]) -> bool {
    match copy {
        Ok(copy) => {
            copy.len() == len
                && copy.as_bitslice().window().start == start
                && copy.as_raw_slice() == elements
        }
        Err(_) => false,
    }
}

/// A copy of the bits 4 to 12 of two bytes.
fn middle<O: SliceOrder>(
    alloc: Global,
    bytes: &[u8; 2],
) -> Result<BitVec<u8, O, Global>, AllocError> {
    BitSlice::<u8, O>::from_slice(bytes)
        .into_part(4..12)
        .to_bitvec(alloc)
}

/// The middle bits of a writable view, by the old name of a copy.
fn middle_of_writable(alloc: Global, bytes: &mut [u8; 2]) -> Copied<Lsb0> {
    BitSliceMut::<u8, Lsb0>::from_slice_mut(bytes)
        .into_part(4..12)
        .to_vec(alloc)
}

#[test]
fn bits_around_a_copy_are_zero(rt: HostRuntime) {
    let mut bytes = [0xB4u8, 0x6E];
    assert!(rt; holds::<Lsb0>(middle(rt.alloc(), &bytes), 4, 8, &[0xB0, 0x0E]));
    assert!(rt; holds::<Msb0>(middle(rt.alloc(), &bytes), 4, 8, &[0x04, 0x60]));
    assert!(rt;
        holds(
            middle_of_writable(rt.alloc(), &mut bytes),
            4,
            8,
            &[0xB0, 0x0E]
        )
    );
}

/// Flips a bit of a copy.
fn flip_bit(copy: &mut BitVec<u8, Lsb0, Global>, index: usize) {
    let bits = copy.as_mut_bitslice();
    if index < bits.len() {
        let _flipped = !bits.into_part(index..index + 1);
    }
}

/// Whether a copy was made, and flipping a bit of it leaves these elements, the copy at its place.
fn flips_to(copy: Copied<Lsb0>, index: usize, window: Window, elements: &[u8]) -> bool {
    match copy {
        Ok(mut copy) => {
            flip_bit(&mut copy, index);
            copy.as_bitslice().window() == window && copy.as_raw_slice() == elements
        }
        Err(_) => false,
    }
}

#[test]
fn as_mut_bitslice_lends_the_bits_alone(rt: HostRuntime) {
    let view = BitSlice::<u8, Lsb0>::from_slice(&[0xA6, 0x3C, 0x59]).into_part(3..21);
    let window = Window { start: 3, len: 18 };
    // bits 3 to 20 alone are copied, and zeros stand around them
    assert!(rt; flips_to(view.to_bitvec(rt.alloc()), 17, window, &[0xA0, 0x3C, 0x09]));
}
