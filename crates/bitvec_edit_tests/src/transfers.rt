//! Edits of a view by another: what the user's elements are afterwards.
ghost use Rattle.std.specs.Prelude.{◌≤◌};

use bitvec_base::{Lsb0, Msb0};
use bitvec_edit::BitEdits;
use bitvec_slice::{BitSlice, BitSliceMut};

/// Exchanges the bits 3 to 9 of the one with the bits 0 to 6 of the other.
fn swap_seven(bytes: &mut [u8; 2], others: &mut [u8; 2]) {
    let mut part = BitSliceMut::<u8, Lsb0>::from_slice_mut(bytes).into_part(3..10);
    let mut other = BitSliceMut::<u8, Lsb0>::from_slice_mut(others).into_part(0..7);
    part.swap_with_bitslice(&mut other);
}

/// Exchanges the first four bits of the one with those of the other, which has another order, and makes them
/// 1, 1, 0, 0 then.
fn swap_and_copy_four(bytes: &mut [u8; 1], others: &mut [u8; 1]) {
    let mut part = BitSliceMut::<u8, Lsb0>::from_slice_mut(bytes).into_part(0..4);
    let mut other = BitSliceMut::<u8, Msb0>::from_slice_mut(others).into_part(0..4);
    part.swap_with_bits(&mut other);
    part.clone_from_bitslice(BitSlice::<u8, Msb0>::from_slice(&[0xCF]).into_part(0..4));
}

/// Copies the first five bits of the one to the bits 2 to 6 of the other.
fn copy_five(bytes: &mut [u8; 1], source: &[u8; 1]) {
    let mut part = BitSliceMut::<u8, Msb0>::from_slice_mut(bytes).into_part(2..7);
    if let Some(from) = BitSlice::<u8, Msb0>::from_slice(source).get(..5) {
        part.copy_from_bitslice(from);
    }
}

/// What becomes of the first five bits by 0, 1 and 1, 0 on the right of the operators.
fn combine(bytes: &mut [u8; 1]) {
    let mut part = BitSliceMut::<u8, Lsb0>::from_slice_mut(bytes).into_part(0..5);
    let bits = BitSlice::<u8, Lsb0>::from_slice(&[0x02]);
    part &= bits.into_part(0..2);
    part |= bits.into_part(1..3);
    part ^= bits.into_part(0..2);
}

/// Combines by the named calls, with bits of another order.
fn combine_by_name(bytes: &mut [u8; 1]) {
    let mut seats = BitSliceMut::<u8, Lsb0>::from_slice_mut(bytes).into_part(0..5);
    let bits = BitSlice::<u8, Msb0>::from_slice(&[0x40]);
    seats.and_bits(bits.into_part(0..2));
    seats.or_bits(bits.into_part(1..3));
    seats.xor_bits(bits.into_part(0..2));
    let taken = bits.into_part(1..2);
    seats.and_not_bits(taken);
}

/// Copies the bits 16 to `16 + len` of the one to those from 8 on of the other, and tells whether they are the same then.
fn copy_behind(bytes: &mut [u8; 12], others: &[u8; 12], len: usize) -> bool
    requires { len ≤ 80 }
{
    let mut part = BitSliceMut::<u8, Msb0>::from_slice_mut(bytes).into_part(8..8 + len);
    let from = BitSlice::<u8, Msb0>::from_slice(others).into_part(16..16 + len);
    part.copy_from_bitslice(from);
    part.as_ref() == from
}

/// Adds the ones of ten elements to those of ten others, and moves these by two elements towards the first.
fn join_and_shift(bytes: &mut [u8; 12], others: &[u8; 12]) {
    let mut part = BitSliceMut::<u8, Msb0>::from_slice_mut(bytes).into_part(8..88);
    part |= BitSlice::<u8, Msb0>::from_slice(others).into_part(16..96);
    part.shift_start(16);
}

/// The elements that are read.
const OTHERS: [u8; 12] = [0, 1, 2, 3, 4, 5, 6, 7, 8, 9, 10, 11];

/// Twelve elements of ones, once so many bits were copied there, if these are the same then.
fn copied(len: usize) -> Option<[u8; 12]>
    requires { len ≤ 80 }
{
    let mut bytes = [0xFF; 12];
    copy_behind(&mut bytes, &OTHERS, len).then_some(bytes)
}

#[test]
fn whole_elements_go_as_they_are(rt: HostRuntime) {
    assert!(rt; copied(80) == Some([0xFF, 2, 3, 4, 5, 6, 7, 8, 9, 10, 11, 0xFF]));
    assert!(rt; copied(76) == Some([0xFF, 2, 3, 4, 5, 6, 7, 8, 9, 10, 0x0F, 0xFF]));
    let mut joined = [0x40; 12];
    join_and_shift(&mut joined, &OTHERS);
    assert!(rt;
        joined
            == [
                0x40, 0x44, 0x45, 0x46, 0x47, 0x48, 0x49, 0x4A, 0x4B, 0, 0, 0x40
            ]
    );
}

#[test]
fn bits_are_exchanged_with_other_views(rt: HostRuntime) {
    let (mut pair, mut others) = ([0xFFu8, 0], [0u8, 0]);
    swap_seven(&mut pair, &mut others);
    assert!(rt; [pair, others] == [[0x07, 0], [0x1F, 0]]);
    let (mut left, mut right) = ([0xF6u8], [0x91u8]);
    swap_and_copy_four(&mut left, &mut right);
    assert!(rt; [left, right] == [[0xF3], [0x61]]);
}

#[test]
fn bits_of_other_views_leave_the_neighbours(rt: HostRuntime) {
    let mut copied = [0x41u8];
    copy_five(&mut copied, &[0xAF]);
    let (mut combined, mut by_name) = ([0xFF], [0xFF]);
    combine(&mut combined);
    combine_by_name(&mut by_name);
    assert!(rt; [copied, combined, by_name] == [[0x6B], [0xE1], [0xE0]]);
}
