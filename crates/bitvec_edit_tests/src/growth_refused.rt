//! Calls that ask for memory where it is refused: the sequence stays, and a call that is granted it does its work.

use bitvec_base::Lsb0;
use bitvec_owned::BitVec;
use bitvec_slice::BitSlice;
use bitvec_test_support::Refusing;
use std::alloc::{AllocError, Allocator, Global};

type Bytes<A> = BitVec<u8, Lsb0, A>;

type Refused<'a> = Bytes<&'a Refusing<Global>>;

const FULL: [u8; 2] = [0xB4, 0x6E];

/// How many calls are tried.
const CALLS: usize = 11;

/// Whether a one is moved from a sequence of another allocator. Where it is refused, the one has to stay there.
fn appends_one<A: Allocator>(alloc: Global, bits: &mut Bytes<A>) -> bool {
    match Bytes::<Global>::from_bools(alloc, &[true]) {
        Ok(mut other) => {
            bits.append(&mut other).is_ok() || other.as_raw_slice() != [1].as_slice()
        }
        Err(_) => false,
    }
}

/// Whether the call of a number is granted, on a sequence that has no room for more.
fn is_granted<A: Allocator + Clone + Drop>(
    alloc: Global,
    bits: &mut Bytes<A>,
    number: usize,
) -> bool {
    let view = BitSlice::<u8, Lsb0>::from_slice(&FULL).into_part(3..11);
    if bits.len() < 9 {
        return false;
    }
    match number {
        0 => bits.push(true).is_ok(),
        1 => bits.insert(5, true).is_ok(),
        2 => bits.resize(17, true).is_ok(),
        3 => bits.extend_from_bitslice(view).is_ok(),
        4 => bits.extend([true, false]).is_ok(),
        5 => bits.reserve(1).is_ok(),
        6 => bits.split_off(4).is_ok(),
        7 => bits.drain(4..9).is_ok(),
        8 => bits.extend_from_bools(&[true, false]).is_ok(),
        9 => bits.extend_highest_first(2, 2).is_ok(),
        _ => appends_one(alloc, bits),
    }
}

/// Whether a call on 16 bits is granted; nothing where there was no memory for these, or where the call is refused and they
/// don't stay.
fn outcome<A: Allocator + Clone + Drop>(
    alloc: Global,
    made: Result<Bytes<A>, AllocError>,
    number: usize,
) -> Option<bool> {
    match made {
        Ok(mut bits) => {
            let full = BitSlice::<u8, Lsb0>::from_slice(&FULL);
            let is_full = bits.extend_from_bitslice(full).is_ok();
            let granted = is_granted(alloc, &mut bits, number);
            let stays = bits.as_raw_slice() == FULL.as_slice() && bits.len() == 16;
            (is_full && (granted || stays)).then_some(granted)
        }
        Err(_) => None,
    }
}

// One request is granted for the bits themselves, and then all are.
#[test]
fn refused_growth_leaves_the_bits(rt: HostRuntime) {
    for number in 0..CALLS {
        for (requests, granted) in [(1, false), (u64::MAX, true)] {
            let refusing = Refusing::new(rt.alloc(), requests);
            let made = Refused::with_capacity_in(&refusing, 16);
            assert!(rt;
                outcome(rt.alloc(), made, number) == Some(granted),
                "call {number}"
            );
        }
    }
}

/// Whether `extend` by 20 ones behind a 0 is refused where there is memory for 16 bits, and has added the first 15.
fn fills_its_memory<A: Allocator + Drop>(made: Result<Bytes<A>, AllocError>) -> bool {
    match made {
        Ok(mut bits) => {
            let pushed = bits.push(false).is_ok();
            pushed
                && bits.extend([true; 20]).is_err()
                && bits.len() == 16
                && bits.as_raw_slice() == [0xFE, 0xFF].as_slice()
        }
        Err(_) => false,
    }
}

/// Whether a sequence was made.
fn is_made<A: Allocator + Drop>(made: Result<Bytes<A>, AllocError>) -> bool {
    made.is_ok()
}

/// Whether nothing is made where memory is refused, but for sequences of no bits.
fn makes_nothing<A: Allocator + Copy + Drop>(none: A) -> bool {
    let full = BitSlice::<u8, Lsb0>::from_slice(&FULL);
    let made = [
        is_made(Bytes::with_capacity_in(none, 1)),
        is_made(Bytes::from_bools(none, &[true])),
        is_made(Bytes::from_bitslice(none, full)),
        is_made(Bytes::repeat(none, true, 1)),
        is_made(Bytes::from_bools(none, &[])),
        is_made(Bytes::repeat(none, true, 0)),
    ];
    made == [false, false, false, false, true, true]
}

/// Whether a sequence of no bits doesn't become one of more than `MAX_BITS`, and none is made.
fn refuses_too_many<A: Allocator + Copy + Drop>(alloc: A) -> bool {
    let mut bits = Bytes::new_in(alloc);
    let most = BitSlice::<u8, Lsb0>::MAX_BITS;
    let granted = [
        bits.resize(most.saturating_add(1), true).is_ok(),
        bits.reserve(most).is_ok(),
        is_made(Bytes::with_capacity_in(alloc, most)),
    ];
    granted == [false; 3] && bits.is_empty()
}

#[test]
fn refused_sequences_are_as_far_as_memory_goes(rt: HostRuntime) {
    let one = Refusing::new(rt.alloc(), 1);
    let none = Refusing::new(rt.alloc(), 0);
    let are_so = [
        fills_its_memory(Refused::with_capacity_in(&one, 16)),
        refuses_too_many(&none),
        none.granted_all(),
        makes_nothing(&none),
    ];
    assert!(rt; are_so == [true; 4]);
}
