//! Walks over the ones and the zeros of views, and what callers know of the indices that they give.
ghost use Rattle.std.specs.Prelude.{◌≡◌, IfOk, true};
ghost use Rattle.bitvec_base.specs.Lists.{places_of};
ghost use Rattle.bitvec_slice.specs.Views.{seen};

use bitvec_base::{Lsb0, Msb0};
use bitvec_engine::SliceOrder;
use bitvec_query::{IterZeros, OnesCalls};
use bitvec_slice::{BitSlice, BitSliceMut};
use bitvec_store::BitStore;
use bitvec_test_support::shows;
use std::alloc::{AllocError, Allocator};

/// The indices of all ones, one by one.
pub fn ones_in_turn<T: BitStore, O: SliceOrder, A: Allocator>(
    alloc: A,
    view: BitSlice<'_, T, O>,
) -> Result<Vec<usize, A>, AllocError>
    ensures { IfOk result (λ list. list.items ≡ places_of true (seen view.entry).bits) }
{
    let mut list = Vec::new(alloc);
    for index in view.iter_ones() {
        list.push(index)?;
    }
    Ok(list)
}

#[test]
fn a_copy_goes_its_own_way(rt: HostRuntime) {
    let ones = BitSlice::<u8, Lsb0>::from_slice(&[0xA5]).iter_ones();
    let mut copy = ones;
    assert!(rt; [copy.nth(1), copy.nth_back(0)] == [Some(2), Some(7)]);
    let none: IterZeros<'_, u8, Lsb0> = Default::default();
    assert!(rt; (copy.size_hint(), ones.len(), none.len()) == ((1, Some(1)), 4, 0));
    assert!(rt; shows(rt.alloc(), &copy, "Places([5])"));
}

/// Whether a list was made, and has these indices.
fn holds(list: Result<Vec<usize>, AllocError>, wanted: &[usize]) -> bool {
    match list {
        Ok(list) => list.as_slice() == wanted,
        Err(_) => false,
    }
}

#[test]
fn a_list_of_ones(rt: HostRuntime) {
    let elements = [0x00u8, 0x80, 0x01, 0x01];
    let view = BitSlice::<u8, Lsb0>::from_slice(&elements).into_part(3..30);
    assert!(rt; holds(ones_in_turn(rt.alloc(), view), &[12, 13, 21]));
}

#[test]
fn places_from_both_ends(rt: HostRuntime) {
    {
        let elements = [0x21u8];
        let view = BitSlice::<u8, Lsb0>::from_slice(&elements);
        let mut ones = view.iter_ones();
        assert!(rt; (ones.next(), ones.next_back()) == (Some(0), Some(5)));
        assert!(rt; ones.next().is_none());
    }
    let mut elements = [0xF7u8, 0xFE];
    let view = BitSliceMut::<u8, Msb0>::from_slice_mut(&mut elements);
    let mut zeros = view.iter_zeros();
    assert!(rt; (zeros.next_back(), zeros.next()) == (Some(15), Some(4)));
}
