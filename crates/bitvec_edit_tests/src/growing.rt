//! Sequences that grow: calls at the ends of a sequence and within it, those of empty ones, and the memory that they take.

use bitvec_base::{Lsb0, Msb0};
use bitvec_edit::BitEdits;
use bitvec_owned::BitVec;
use bitvec_slice::BitSlice;
use std::alloc::{AllocError, Global};

type Bytes = BitVec<u8, Lsb0, Global>;

/// A sequence, if there was memory for it.
type Made = Result<Bytes, AllocError>;

/// Nine bits, which end in a one behind four zeros.
const NINE: [bool; 9] = [true, false, true, true, false, false, false, false, true];

/// Nine bits, of which five are ones.
const FIVE_ONES: [bool; 9] = [true, false, true, false, false, true, true, false, true];

/// Whether a sequence was made, and has so many bits in these elements.
fn holds(made: Made, len: usize, elements: &[u8]) -> bool {
    match made {
        Ok(bits) => bits.len() == len && bits.as_raw_slice() == elements,
        Err(_) => false,
    }
}

/// Whether a bit at a place is to stay, by one answer a number.
fn is_kept(kind: usize, place: usize, bit: bool) -> bool {
    match kind {
        0 => true,
        1 => place == 5,
        _ => !bit,
    }
}

/// Whether the bits that `retain` leaves have these elements.
fn retains(bits: &mut Bytes, kind: usize, elements: &[u8]) -> bool {
    bits.retain(|place, bit| is_kept(kind, place, *bit));
    bits.as_raw_slice() == elements
}

/// Whether calls on no bits do what they do to a list.
fn stays_empty(bits: &mut Bytes) -> bool {
    let nothing = bits.pop().is_none() && bits.capacity() == 0;
    bits.truncate(9);
    bits.clear();
    let none = [
        holds(bits.drain(0..0), 0, &[]),
        holds(bits.split_off(0), 0, &[]),
        bits.extend_from_bitslice(BitSlice::<u8, Lsb0>::empty())
            .is_ok(),
        bits.resize(0, true).is_ok(),
        retains(bits, 2, &[]),
    ];
    nothing && none == [true; 5]
}

/// Whether two ones come into no bits at the end, stay where more may, and leave one by one.
fn takes_two(bits: &mut Bytes) -> bool {
    let is_first = bits.insert(0, true).is_ok();
    let end = bits.len();
    let is_second = bits.insert(end, true).is_ok();
    bits.truncate(5);
    let two = bits.as_raw_slice() == [3].as_slice();
    if bits.is_empty() {
        return false;
    }
    let first = bits.remove(0);
    if bits.is_empty() {
        return false;
    }
    let second = bits.swap_remove(0);
    [is_first, is_second, two, first, second, bits.is_empty()] == [true; 6]
}

/// Whether `retain` keeps all of some bits, then the ones and every third, the last one, and none.
fn retains_all_or_none(bits: &mut Bytes) -> bool {
    let all = retains(bits, 0, &[0x65, 0x01]);
    bits.retain(|place, bit| *bit || place % 3 == 0);
    let some = bits.as_raw_slice() == [0x3B].as_slice();
    let kept = [all, some, retains(bits, 1, &[0x01]), retains(bits, 2, &[])];
    kept == [true; 4]
}

/// Whether a sequence has the memory that it asked for, and gives back what it doesn't need.
fn has_room(bits: &mut Bytes) -> bool {
    let room = bits.is_empty() && bits.capacity() == 24;
    let is_granted = [bits.resize(3, true).is_ok(), bits.reserve(100).is_ok()];
    let more = bits.len() == 3 && bits.capacity() >= 103;
    bits.shrink_to_fit();
    room && is_granted == [true; 2] && more && bits.capacity() == 8
}

/// Whether numbers are added behind nine ones.
fn takes_numbers(bits: &mut Bytes) -> bool {
    let is_granted = [
        bits.extend_highest_first(0xFFFD, 4).is_ok(),
        bits.extend_lowest_first(0xFFFD, 4).is_ok(),
    ];
    is_granted == [true; 2]
        && bits.len() == 17
        && bits.as_raw_slice() == [0xFF, 0xB7, 0x01].as_slice()
}

/// Whether other bits are added behind some, one of them is set, and the last one is taken.
fn are_joined(bits: &mut Bytes, rest: &mut Bytes, middle: &Bytes) -> bool {
    let is_granted = [
        bits.append(rest).is_ok(),
        bits.extend([true, false]).is_ok(),
        bits.extend_from_bools(&[true]).is_ok(),
        bits.extend_from_bitslice(middle.as_bitslice()).is_ok(),
    ];
    if bits.len() < 2 {
        return false;
    }
    bits.set(1, true);
    let last = bits.pop();
    is_granted == [true; 4]
        && (rest.is_empty(), last, bits.len()) == (true, Some(true), 11)
        && bits.as_raw_slice() == [0xC3, 0x06].as_slice()
}

/// Whether the third bit and the fourth come out, and all are joined again.
fn moves_the_middle(bits: &mut Bytes, rest: &mut Bytes) -> bool {
    if bits.len() != 7 {
        return false;
    }
    match bits.drain(2..4) {
        Ok(middle) => {
            middle.as_raw_slice() == [0x03].as_slice()
                && bits.as_raw_slice() == [0x01].as_slice()
                && are_joined(bits, rest, &middle)
        }
        Err(_) => false,
    }
}

/// Whether the bits of 1, 0, 1, 1, 0, 0, 0, 0, 1 come apart, are changed and joined again.
fn are_moved(bits: &mut Bytes) -> bool {
    if bits.len() != 9 {
        return false;
    }
    match bits.split_off(7) {
        Ok(mut rest) => {
            rest.as_raw_slice() == [0x02].as_slice() && moves_the_middle(bits, &mut rest)
        }
        Err(_) => false,
    }
}

/// Whether a sequence was made and is edited so, by one edit a number.
fn is_edited(made: Made, kind: usize) -> bool {
    match made {
        Ok(mut bits) => match kind {
            0 => stays_empty(&mut bits) && takes_two(&mut bits),
            1 => retains_all_or_none(&mut bits),
            2 => has_room(&mut bits),
            3 => takes_numbers(&mut bits),
            _ => are_moved(&mut bits),
        },
        Err(_) => false,
    }
}

/// Whether five bits of three elements, from the index 4 on, are a sequence, which drops the third element.
fn is_made_of_elements(alloc: Global) -> bool {
    match vec![in alloc; 0xD0u8, 0xE0, 0xFF] {
        Ok(elements) => holds(Ok(Bytes::from_elements(elements, 4, 5)), 5, &[0xD0, 0xE0]),
        Err(_) => false,
    }
}

#[test]
fn sequences_are_as_their_lists(rt: HostRuntime) {
    let alloc = rt.alloc();
    let nine = BitSlice::<u16, Msb0>::from_slice(&[0xB080]).into_part(0..9);
    let are_so = [
        holds(Bytes::from_bools(alloc, &NINE), 9, &[0x0D, 0x01]),
        holds(Bytes::from_bitslice(alloc, nine), 9, &[0x0D, 0x01]),
        is_made_of_elements(alloc),
        is_edited(Ok(Bytes::new_in(alloc)), 0),
        is_edited(Bytes::from_bools(alloc, &FIVE_ONES), 1),
        is_edited(Bytes::with_capacity_in(alloc, 17), 2),
        is_edited(Bytes::repeat(alloc, true, 9), 3),
        is_edited(Bytes::from_bools(alloc, &NINE), 4),
    ];
    assert!(rt; are_so == [true; 8]);
}
