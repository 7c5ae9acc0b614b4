//! Single bits of a view that are lent.
use bitvec_base::Lsb0;
use bitvec_iter::PieceCallsMut;
use bitvec_slice::BitSliceMut;

/// How many bits are left behind the first two and before the last, by each view of them.
fn left_of(view: &mut BitSliceMut<'_, u8, Lsb0>) -> [usize; 3] {
    let mut bits = view.iter_mut();
    bits.pass(2);
    bits.pass_back(1);
    [
        bits.as_bitslice().len(),
        bits.as_slice().len(),
        bits.as_ref().len(),
    ]
}

/// Flips every second one of the bits behind the first two and before the last three, from the first of these
/// on.
fn flip_every_second(bytes: &mut [u8; 2]) -> bool {
    let mut view = BitSliceMut::<u8, Lsb0>::from_slice_mut(bytes);
    let mut bits = view.iter_mut();
    bits.pass(2);
    bits.pass_back(3);
    bits.for_each_bit_mut(|number, bit| bit != (number % 2 == 0));
    bits.is_empty()
}

#[test]
fn bits_that_are_left(rt: HostRuntime) {
    let mut bytes = [0x00, 0xFF];
    assert!(rt; flip_every_second(&mut bytes));
    assert!(rt; bytes == [0x54, 0xEA]);
    let mut byte = [0x00];
    let mut view = BitSliceMut::from_slice_mut(&mut byte);
    assert!(rt; left_of(&mut view) == [5, 5, 5]);
}
