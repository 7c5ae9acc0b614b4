//! Walks over single bits.

use bitvec_base::Msb0;
use bitvec_domain::BitRef;
use bitvec_slice::{BitSlice, BitSliceMut};

/// How many bits a piece has, and the number that they write, the first bit highest.
pub(crate) fn read(piece: Option<BitSlice<'_, u8, Msb0>>) -> Option<(usize, u32)> {
    match piece {
        Some(bits) => {
            let mut number = 0u32;
            for bit in bits.iter().by_vals() {
                number = number.wrapping_mul(2).wrapping_add(bit as u32);
            }
            Some((bits.len(), number))
        }
        None => None,
    }
}

/// The bit that a walk gives.
fn value_of(bit: Option<BitRef<'_, u8, Msb0>>) -> Option<bool> {
    match bit {
        Some(bit) => Some(*bit),
        None => None,
    }
}

/// What a walk over a byte gives by `nth` and `next_back`, how many bits are left by each call, and what a clone gives then.
fn walk(view: BitSlice<'_, u8, Msb0>) -> ([Option<bool>; 2], [usize; 4], Option<bool>) {
    let mut bits = view.iter();
    let given = [value_of(bits.nth(3)), value_of(bits.next_back())];
    let copied = match bits.clone() {
        Ok(mut copy) => value_of(copy.next()),
        Err(_) => None,
    };
    let lens = [
        bits.as_bitslice().len(),
        bits.as_ref().len(),
        bits.as_slice().len(),
        bits.size_hint().0,
    ];
    (given, lens, copied)
}

/// The first bit and the last by references, and how many are left then, and the last and the first by values.
fn walk_mut(elements: &mut [u8; 1]) -> ([Option<bool>; 4], usize) {
    let view = BitSliceMut::<u8, Msb0>::from_slice_mut(elements);
    let mut refs = view.iter().by_refs();
    let (first, last) = (refs.next().copied(), refs.next_back().copied());
    let mut vals = view.iter().copied();
    ([first, last, vals.next_back(), vals.next()], refs.len())
}

#[test]
fn bits_from_both_ends(rt: HostRuntime) {
    let walked = walk(BitSlice::from_slice(&[0x17]));
    assert!(rt; walked == ([Some(true); 2], [3; 4], Some(false)));
    let given = [Some(false), Some(true), Some(true), Some(false)];
    assert!(rt; walk_mut(&mut [0x17]) == (given, 6));
}
