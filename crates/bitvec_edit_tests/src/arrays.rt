//! Arrays of bits are asked, walked, copied, printed and edited as a plain list of sixteen bits.

use bitvec_base::{Msb0, Window};
use bitvec_edit::BitEdits;
use bitvec_owned::{BitArray, ToBitVec};
use bitvec_test_support::{prints, shows};
use std::alloc::Global;

type Bits = BitArray<u8, Msb0, 2>;

/// The bits 1, 0, 1, 0, 0, 1, 0, 0, and 0, 0, 0, 0, 0, 0, 1, 1.
const ELEMENTS: [u8; 2] = [0xA4, 0x03];

const TEXT: &str = "[1, 0, 1, 0, 0, 1, 0, 0, 0, 0, 0, 0, 0, 0, 1, 1]";

/// The bits that a loop over an array goes through, as the digits of a number, the first one highest.
fn walked(bits: &Bits) -> u16 {
    let mut list = 0;
    for bit in bits {
        list = (list << 1) | u16::from(*bit);
    }
    list
}

/// Whether a copy was made, of all bits.
fn is_copied(alloc: Global, bits: &Bits) -> bool {
    match bits.to_bitvec(alloc) {
        Ok(copy) => copy.len() == 16 && copy.as_raw_slice() == ELEMENTS.as_slice(),
        Err(_) => false,
    }
}

/// Whether what an array is asked is so.
fn answers(bits: &Bits) -> bool {
    (bits.is_empty(), bits.len(), bits.iter().len(), walked(bits)) == (false, 16, 16, 0xA403)
        && bits.window() == Window { start: 0, len: 16 }
}

/// The elements once they were put in the other order, and once their bits were flipped then.
fn edited(mut bits: Bits) -> [[u8; 2]; 2] {
    bits.as_raw_mut_slice().reverse();
    let reversed = bits.into_inner();
    let mut bits = Bits::new(reversed);
    bits.as_mut_bitslice().invert();
    [reversed, bits.into_inner()]
}

#[test]
fn an_array_is_as_its_list(rt: HostRuntime) {
    let bits = Bits::new(ELEMENTS);
    let are_so = [
        answers(&bits),
        is_copied(rt.alloc(), &bits),
        prints(rt.alloc(), &bits, TEXT),
        shows(rt.alloc(), &bits, TEXT),
        bits.as_raw_slice() == ELEMENTS.as_slice(),
    ];
    assert!(rt; are_so == [true; 5]);
    assert!(rt; edited(bits) == [[0x03, 0xA4], [0xFC, 0x5B]]);
}
