//! The first and the last bit of a view, and views cut in two.

use bitvec_base::Lsb0;
use bitvec_domain::BitRef;
use bitvec_query::BitQueries;
use bitvec_slice::{BitSlice, BitSliceMut};

/// Whether a bit is referred to, and reads so.
fn reads(bit: Option<BitRef<'_, u8, Lsb0>>, wanted: bool) -> bool {
    match bit {
        Some(bit) => *bit == wanted,
        None => false,
    }
}

/// Whether a bit is split off, and reads so, from a rest of so many bits.
fn has(
    parts: Option<(BitRef<'_, u8, Lsb0>, BitSlice<'_, u8, Lsb0>)>,
    wanted: bool,
    len: usize,
) -> bool {
    match parts {
        Some((bit, rest)) => *bit == wanted && rest.len() == len,
        None => false,
    }
}

/// Whether the first bit of a view of three reads as 1 and the last one as 0, and each is split off.
fn has_ends(view: BitSlice<'_, u8, Lsb0>) -> [bool; 4] {
    [
        reads(view.first(), true),
        reads(view.last(), false),
        has(view.split_first(), true, 2),
        has(view.split_last(), false, 2),
    ]
}

/// Whether the same is so of a writable view.
fn has_ends_mut(view: &BitSliceMut<'_, u8, Lsb0>) -> [bool; 4] {
    [
        reads(view.first(), true),
        reads(view.last(), false),
        has(view.split_first(), true, 2),
        has(view.split_last(), false, 2),
    ]
}

#[test]
fn first_and_last_bits_are_read_and_split_off(rt: HostRuntime) {
    let mut elements = [0xF9u8];
    let view = BitSliceMut::<u8, Lsb0>::from_slice_mut(&mut elements).into_part(0..3);
    assert!(rt; [has_ends_mut(&view), has_ends(view.as_ref())] == [[true; 4]; 2]);
}

/// How many bits two views have each, and how many of these are 1.
fn counts(parts: (BitSlice<'_, u8, Lsb0>, BitSlice<'_, u8, Lsb0>)) -> [(usize, usize); 2] {
    let (left, right) = parts;
    [
        (left.len(), left.count_ones()),
        (right.len(), right.count_ones()),
    ]
}

#[test]
fn views_are_read_in_two_parts(rt: HostRuntime) {
    {
        let elements = [0xF0u8];
        let view = BitSlice::<u8, Lsb0>::from_slice(&elements);
        assert!(rt; counts(view.split_at(4)) == [(4, 0), (4, 4)]);
        assert!(rt; counts(view.split_at_unchecked(5)) == [(5, 1), (3, 3)]);
    }
    let mut elements = [0xF0u8];
    let view = BitSliceMut::<u8, Lsb0>::from_slice_mut(&mut elements);
    let (left, right) = view.split_at(4);
    assert!(rt; left.not_any() && right.all());
    assert!(rt; counts(view.split_at_unchecked(5)) == [(5, 1), (3, 3)]);
}
