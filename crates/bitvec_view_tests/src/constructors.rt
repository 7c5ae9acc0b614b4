//! Views that are made of no element, of one, and of slices of any length, and how long they may be.

use bitvec_base::Lsb0;
use bitvec_edit::BitEdits;
use bitvec_query::BitQueries;
use bitvec_slice::{BitSlice, BitSliceMut, from_mut, from_ref};

#[test]
fn an_element_is_written_through_its_view(rt: HostRuntime) {
    let mut byte = 0xFFu8;
    {
        let mut view = from_mut::<u8, Lsb0>(&mut byte);
        view.invert();
    }
    {
        let mut view = BitSliceMut::<u8, Lsb0>::from_element_mut(&mut byte);
        view.set(4, true);
    }
    assert!(rt; byte == 0x10);
}

/// How many bits a view has and where the last one is, if it was made.
fn found<E: Drop>(view: Result<BitSlice<'_, u8, Lsb0>, E>) -> Option<(usize, Option<usize>)> {
    match view {
        Ok(view) => Some((view.len(), view.last_one())),
        Err(_) => None,
    }
}

/// Fills the elements, and flips their bits, if they can be viewed.
fn fill_and_invert(elements: &mut [u16]) {
    if let Ok(mut view) = BitSliceMut::<u16, Lsb0>::try_from_slice_mut(elements) {
        view.fill(true);
    }
    let view: Result<BitSliceMut<'_, u16, Lsb0>, &mut [u16]> = BitSliceMut::try_from(elements);
    if let Ok(mut view) = view {
        view.invert();
    }
}

#[test]
fn a_slice_that_is_short_enough_is_viewed_and_written(rt: HostRuntime) {
    let elements = [0x0Fu8, 0x01];
    let view = BitSlice::<u8, Lsb0>::try_from_slice(&elements);
    assert!(rt; found(view) == Some((16, Some(8))));
    let again = found::<&[u8]>(BitSlice::try_from(elements.as_slice()));
    let view = BitSlice::<u8, Lsb0>::from_slice_unchecked(&elements);
    assert!(rt; (again, view.into_slice().len()) == (Some((16, Some(8))), 2));
}

#[test]
fn elements_are_written_through_views_of_slices(rt: HostRuntime) {
    let mut elements = [3u16, 5];
    fill_and_invert(&mut elements);
    assert!(rt; elements == [0, 0]);
    let mut view = BitSliceMut::<u16, Lsb0>::from_slice_unchecked_mut(&mut elements);
    view.set(17, true);
    assert!(rt; view.into_slice()[1] == 2);
}

/// Whether a view has no bits.
fn is_empty(view: BitSlice<'_, u8, Lsb0>) -> bool {
    view.is_empty() && view.len() == 0
}

/// Whether a writable view has no bits.
fn is_empty_mut(view: BitSliceMut<'_, u8, Lsb0>) -> bool {
    view.is_empty()
}

#[test]
fn views_of_nothing_and_of_one_element(rt: HostRuntime) {
    assert!(rt; BitSlice::<u8, Lsb0>::empty().is_empty());
    let empty = [
        is_empty(BitSlice::default()),
        is_empty(BitSlice::from_slice(&[])),
        is_empty_mut(BitSliceMut::default()),
        is_empty_mut(BitSliceMut::empty_mut()),
    ];
    let view = BitSlice::<u8, Lsb0>::from_element(&0xF1);
    assert!(rt; (empty, view.last_zero()) == ([true; 4], Some(3)));
    let view = from_ref::<u32, Lsb0>(&0x8000_0000);
    assert!(rt; (view.len(), view.first_one()) == (32, Some(31)));
    let most = (
        BitSlice::<u8, Lsb0>::MAX_BITS,
        BitSlice::<u8, Lsb0>::MAX_ELTS,
    );
    assert!(rt; most == (0x1FFF_FFFF_FFFF_FFFF, 0x0400_0000_0000_0001));
}
