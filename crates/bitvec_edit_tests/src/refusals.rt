//! Copies, repeats and clones where memory is refused: each request in turn, until a run meets no refusal.

use bitvec_base::Lsb0;
use bitvec_owned::{BitVec, RepeatError, ToBitVec};
use bitvec_slice::BitSlice;
use bitvec_test_support::Refusing;
use std::alloc::{AllocError, Global};

const BYTES: [u8; 16] = [0xB4; 16];

/// The bits 4 to 124 of the bytes, with zeros around them.
const COPY: [u8; 16] = [
    0xB0, 0xB4, 0xB4, 0xB4, 0xB4, 0xB4, 0xB4, 0xB4, 0xB4, 0xB4, 0xB4, 0xB4, 0xB4, 0xB4, 0xB4, 0x04,
];

/// Three times those bits, from the first place on.
const THREE_COPIES: [u8; 45] = [0x4B; 45];

type Refused<'a> = BitVec<u8, Lsb0, &'a Refusing<Global>>;

/// Whether one request was made: granted for a sequence of these elements, or refused with this error.
fn asks_once<E: PartialEq + Drop>(
    made: Result<Refused<'_>, E>,
    refusing: &Refusing<Global>,
    elements: &[u8],
    refusal: &E,
) -> bool {
    match made {
        Ok(bits) => {
            let (granted, bytes) = (refusing.granted(), refusing.bytes());
            bits.as_raw_slice() == elements
                && (granted, bytes) == (1, elements.len() as u64)
                && refusing.granted_all()
        }
        Err(error) => error == *refusal && refusing.granted() == 0 && refusing.refused() == 1,
    }
}

/// Whether a copy of the bits asks once, and a repeat.
fn copy_and_repeat_ask_once(one: &Refusing<Global>, other: &Refusing<Global>) -> [bool; 2] {
    let view = BitSlice::<u8, Lsb0>::from_slice(&BYTES).into_part(4..124);
    [
        asks_once(view.to_bitvec(one), one, &COPY, &AllocError),
        asks_once(
            view.repeat(other, 3),
            other,
            &THREE_COPIES,
            &RepeatError::Memory,
        ),
    ]
}

/// Whether a copy and its clone ask for memory once each, the first so many requests being granted.
fn clone_asks_once(refusing: &Refusing<Global>, granted: u64) -> bool {
    let view = BitSlice::<u8, Lsb0>::from_slice(&BYTES).into_part(4..124);
    match view.to_bitvec(refusing) {
        Ok(bits) => {
            let is_cloned = bits.clone().is_ok();
            is_cloned == (granted > 1)
                && (refusing.granted(), refusing.bytes()) == (granted, granted.saturating_mul(16))
        }
        Err(AllocError) => granted == 0,
    }
}

/// Whether a sequence was made, and has no bits and no elements.
fn is_empty<E: Drop>(made: Result<Refused<'_>, E>) -> bool {
    match made {
        Ok(bits) => bits.is_empty() && bits.as_raw_slice().is_empty(),
        Err(_) => false,
    }
}

/// Whether a copy of no bits, and repeats of them, are made, and are empty.
fn makes_nothing(none: &Refusing<Global>) -> [bool; 3] {
    let empty = BitSlice::<u8, Lsb0>::empty();
    [
        is_empty(empty.to_bitvec(none)),
        is_empty(empty.repeat(none, 3)),
        is_empty(empty.repeat(none, usize::MAX)),
    ]
}

/// Whether so many repeats of one bit ask for memory, once.
fn bits_ask_once(refusing: &Refusing<Global>, copies: usize) -> bool {
    let bit = BitSlice::<u8, Lsb0>::from_slice(&BYTES).into_part(4..5);
    bit.repeat(refusing, copies).err() == Some(RepeatError::Memory) && refusing.refused() == 1
}

#[test]
fn copies_repeats_and_clones_ask_once(rt: HostRuntime) {
    for granted in 0..3 {
        let one = Refusing::new(rt.alloc(), granted);
        let other = Refusing::new(rt.alloc(), granted);
        assert!(rt; copy_and_repeat_ask_once(&one, &other) == [true; 2]);
        assert!(rt; clone_asks_once(&Refusing::new(rt.alloc(), granted), granted));
    }
}

#[test]
fn no_bits_ask_for_nothing_and_the_longest_repeats_ask(rt: HostRuntime) {
    assert!(rt; makes_nothing(&Refusing::new(rt.alloc(), 0)) == [true; 3]);
    let most = BitSlice::<u8, Lsb0>::MAX_BITS;
    for copies in [most.saturating_sub(7), most] {
        assert!(rt; bits_ask_once(&Refusing::new(rt.alloc(), 0), copies));
    }
}
