//! The old names of calls.

use bitvec_base::{Lsb0, Msb0};
use bitvec_edit::BitEdits;
use bitvec_slice::{BitSlice, BitSliceMut};

/// Exchanges two bytes, if this is asked, or else copies two others to the first, one after the other, and moves its bits to
/// the front and back.
fn edit(bytes: &mut [u8; 1], others: &mut [u8; 1], exchanges: bool) {
    let mut view = BitSliceMut::<u8, Lsb0>::from_slice_mut(bytes);
    if exchanges {
        view.swap_with_slice(&mut BitSliceMut::from_slice_mut(others));
        return;
    }
    view.copy_from_slice(BitSlice::from_slice(&[0x3C]));
    view.clone_from_slice(BitSlice::<u8, Msb0>::from_slice(&[0x0E]));
    view.shift_left(5);
    view.shift_right(1);
}

#[test]
fn old_names_of_edits(rt: HostRuntime) {
    let (mut bytes, mut others) = ([0x12], [0x34]);
    edit(&mut bytes, &mut others, true);
    assert!(rt; (bytes, others) == ([0x34], [0x12]));
    edit(&mut bytes, &mut others, false);
    assert!(rt; (bytes, others) == ([0x06], [0x12]));
}
