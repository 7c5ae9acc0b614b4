//! Indices and ranges of indices of a view, of each kind: whether it is there, and what bits it has.

use bitvec_base::{Lsb0, Window};
use bitvec_query::BitQueries;
use bitvec_slice::{BitSlice, BitSliceIndex, BitSliceMut, Viewed, ViewedMut};
use std::process::Abort;

/// The view 0, 1, 0, 0, 1 of a byte.
fn five_bits(elements: &[u8; 1]) -> BitSlice<'_, u8, Lsb0> {
    BitSlice::from_slice(elements).into_part(0..5)
}

/// How many bits a range has, and how many of them are 1.
fn counts(part: Option<BitSlice<'_, u8, Lsb0>>) -> Option<(usize, usize)> {
    match part {
        Some(part) => Some((part.len(), part.count_ones())),
        None => None,
    }
}

/// The counts of a range of five bits: one up to an index, through one, from one on, and so forth.
fn counts_of(kind: usize, first: usize, end: usize) -> Option<(usize, usize)> {
    let view = five_bits(&[0x12]);
    match kind {
        0 => counts(view.get(first..end)),
        1 => counts(view.get(first..=end)),
        2 => counts(view.get(first..)),
        3 => counts(view.get(..end)),
        4 => counts(view.get(..=end)),
        _ => counts(view.get(..)),
    }
}

#[test]
fn each_kind_of_range_by_get(rt: HostRuntime) {
    for (kind, first, end, found) in [
        (0, 5, 5, Some((0, 0))),
        (0, 10, 12, None),
        (1, 1, 2, Some((2, 1))),
        (1, 5, 5, None),
        (1, 2, 1, None),
        (2, 2, 0, Some((3, 1))),
        (3, 0, 4, Some((4, 1))),
        (4, 0, 1, Some((2, 1))),
        (5, 0, 0, Some((5, 2))),
    ] {
        assert!(rt;
            counts_of(kind, first, end) == found,
            "{kind} {first} {end}"
        );
    }
}

/// Asserts that five bits have a fifth, a second and a third, which reads as 0, and no sixth.
fn pair_of_bits<R: Abort>(rt: &R, view: BitSlice<'_, u8, Lsb0>) -> Result<(), &'static str> {
    assert!(rt; view.get(5).is_none());
    assert!(rt; *view.get(4).ok_or("no such bit")?);
    let pair = view.get(1..=2).ok_or("no such bits")?;
    assert!(rt; pair[0] && !pair[1]);
    Ok(())
}

/// How bits of a byte read by an index and without a test, how many follow the first two, and whether an index lies in it.
fn read_by_index(view: BitSlice<'_, u8, Lsb0>) -> (bool, bool, usize, bool) {
    if view.len() != 8 {
        return (false, false, 0, false);
    }
    (
        *4.index(view),
        *view.get_unchecked(3),
        (2..).index(view).len(),
        BitSliceIndex::<BitSlice<u8, Lsb0>>::fits(&2, 3),
    )
}

/// Sets the third bit of a byte by its index, and gives the first, the second and the third then.
fn set_by_index(elements: &mut [u8; 1]) -> [bool; 3] {
    {
        let view = BitSliceMut::<u8, Lsb0>::from_slice_mut(elements);
        2.index_mut(view).commit(true);
    }
    let view = BitSliceMut::<u8, Lsb0>::from_slice_mut(elements);
    [view[0], view[1], *view.get_unchecked(2)]
}

#[test]
fn bits_and_ranges_are_there_by_index(rt: HostRuntime) {
    assert!(rt; pair_of_bits(&rt, five_bits(&[0x12])).is_ok());
    assert!(rt; read_by_index(BitSlice::from_slice(&[0x12])) == (true, false, 6, true));
    assert!(rt; set_by_index(&mut [0x01]) == [true, false, true]);
    let mut elements = [0u8; 3];
    let view = BitSliceMut::<u8, Lsb0>::from_slice_mut(&mut elements);
    assert!(rt; view.window() == Window { start: 0, len: 24 });
    assert!(rt; view.bit_len() == 24 && view.as_ref().bit_len() == 24);
}
