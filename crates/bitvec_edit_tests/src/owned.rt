//! Owned sequences are asked, walked, edited, compared and printed as a plain list of nine bits, which
//! stands from the index 4 of its first element on.

use bitvec_base::Lsb0;
use bitvec_edit::BitEdits;
use bitvec_owned::{BitVec, RepeatError, ToBitVec};
use bitvec_query::BitQueries;
use bitvec_slice::BitSlice;
use bitvec_test_support::{prints, shows};
use std::alloc::{AllocError, Global};

type Bits = BitVec<u8, Lsb0, Global>;

/// A sequence of the bits 1, 1, 0, 1, 0, 0, 1, 0, 0.
fn sequence(alloc: Global) -> Result<Bits, AllocError> {
    BitSlice::<u8, Lsb0>::from_slice(&[0xBF, 0x04])
        .into_part(4..13)
        .to_bitvec(alloc)
}

/// Whether a sequence has nine bits from the index 4 on, in these elements.
fn holds(bits: &Bits, elements: [u8; 2]) -> bool {
    bits.window().start == 4 && bits.len() == 9 && bits.as_raw_slice() == elements.as_slice()
}

/// The bits that a loop over a sequence goes through, as the digits of a number, the first one highest.
fn walked(bits: &Bits) -> u16 {
    let mut list = 0;
    for bit in bits {
        list = (list << 1) | u16::from(*bit);
    }
    list
}

/// Whether a repeat was made, begins at the first place, and equals the sequence.
fn equals_at_first(bits: &Bits, repeat: Result<Bits, RepeatError>) -> bool {
    match repeat {
        Ok(repeat) => repeat.window().start == 0 && *bits == repeat,
        Err(_) => false,
    }
}

/// Whether a clone was made, and is filled alone.
fn is_filled_alone(bits: &Bits) -> bool {
    match bits.clone() {
        Ok(mut copy) => {
            copy.fill(true);
            holds(&copy, [0xF0, 0x1F]) && *bits != copy
        }
        Err(_) => false,
    }
}

/// Whether what a sequence is asked, walked, cloned and repeated for is so.
fn answers(alloc: Global, bits: &Bits) -> bool {
    !bits.is_empty()
        && (bits.count_ones(), bits.iter().len()) == (4, 9)
        && walked(bits) == 0b1_1010_0100
        && equals_at_first(bits, bits.repeat(alloc, 1))
        && is_filled_alone(bits)
        && holds(bits, [0xB0, 0x04])
}

/// Whether a sequence was made, answers so and prints so.
fn is_as_its_list(alloc: Global, text: &str) -> bool {
    match sequence(alloc) {
        Ok(bits) => {
            answers(alloc, &bits)
                && prints(alloc, &bits, text)
                && shows(alloc, &bits, text)
                && bits.into_elements().len() == 2
        }
        Err(_) => false,
    }
}

#[test]
fn a_sequence_is_as_its_list(rt: HostRuntime) {
    assert!(rt; is_as_its_list(rt.alloc(), "[1, 1, 0, 1, 0, 0, 1, 0, 0]"));
}
