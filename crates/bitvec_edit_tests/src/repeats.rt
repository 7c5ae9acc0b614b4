//! What repeats hold.

use bitvec_base::{Lsb0, Msb0};
use bitvec_engine::SliceOrder;
use bitvec_owned::{BitVec, RepeatError, ToBitVec};
use bitvec_slice::BitSlice;
use std::alloc::Global;

/// The bits 1, 0, 1, as many times.
fn repeated<O: SliceOrder>(
    alloc: Global,
    copies: usize,
) -> Result<BitVec<u8, O, Global>, RepeatError> {
    BitSlice::<u8, O>::from_slice(&[0xA5])
        .into_part(0..3)
        .repeat(alloc, copies)
}

/// Whether so many copies were made, have so many bits, and these elements.
fn holds<O: SliceOrder>(alloc: Global, copies: usize, len: usize, elements: &[u8]) -> bool {
    match repeated::<O>(alloc, copies) {
        Ok(bits) => bits.len() == len && bits.as_raw_slice() == elements,
        Err(_) => false,
    }
}

#[test]
fn three_copies_none_and_too_many(rt: HostRuntime) {
    assert!(rt; holds::<Lsb0>(rt.alloc(), 3, 9, &[0x6D, 0x01]));
    assert!(rt; holds::<Msb0>(rt.alloc(), 3, 9, &[0xB6, 0x80]));
    assert!(rt; holds::<Msb0>(rt.alloc(), 0, 0, &[]));
    let five = BitSlice::<u8, Lsb0>::from_slice(&[0x12]).into_part(0..5);
    let refused = five.repeat(rt.alloc(), usize::MAX).err();
    assert!(rt; refused == Some(RepeatError::TooLong));
}
