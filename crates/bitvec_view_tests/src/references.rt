//! References to one bit: what they read, what they write, and what is printed of them.

use bitvec_base::Lsb0;
use bitvec_domain::BitRef;
use bitvec_slice::{BitSlice, BitSliceMut};
use bitvec_test_support::{prints, shows};
use std::alloc::Global;

/// Writes the bit 2 to 1, to 0 and to 1 again: gives the bit before the first write, and those after
/// the first and the second.
fn write_thrice(elements: &mut [u8; 1]) -> Option<(bool, bool, bool)> {
    let mut view = BitSliceMut::<u8, Lsb0>::from_slice_mut(elements);
    match view.get_mut(2) {
        Some(mut bit) => {
            let before = bit.replace(true);
            let first = *bit;
            bit.set(false);
            let second = *bit;
            bit.commit(true);
            Some((before, first, second))
        }
        None => None,
    }
}

#[test]
fn a_reference_writes_at_once(rt: HostRuntime) {
    let mut elements = [0x00];
    assert!(rt; write_thrice(&mut elements) == Some((false, true, false)));
    assert!(rt; elements == [0x04]);
}

/// Whether a reference's copy and its clone read as the reference itself.
fn reads_alike(bit: &BitRef<'_, u8, Lsb0>) -> bool {
    let copy = *bit;
    match bit.clone() {
        Ok(again) => *copy == *again && again == copy,
        Err(_) => false,
    }
}

/// Whether references to two bits of writable views print so, and are the same.
fn are_alike(alloc: Global, text: &str) -> bool {
    let (mut elements, mut others) = ([0x01u8], [0x03u8]);
    let bit = BitSliceMut::<u8, Lsb0>::from_slice_mut(&mut elements).into_bit(0);
    prints(alloc, &bit, text)
        && shows(alloc, &bit, text)
        && bit == BitSliceMut::<u8, Lsb0>::from_slice_mut(&mut others).into_bit(1)
}

#[test]
fn references_are_copied_compared_and_printed(rt: HostRuntime) {
    let bit = BitSlice::<u8, Lsb0>::from_slice(&[0x12]).into_bit(1);
    let is_so = [
        reads_alike(&bit),
        prints(rt.alloc(), &bit, "true"),
        shows(rt.alloc(), &bit, "true"),
        are_alike(rt.alloc(), "true"),
    ];
    assert!(rt; is_so == [true; 4]);
}
