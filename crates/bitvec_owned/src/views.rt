//! Owned sequences show bits, answer questions and are edited, as views are.
ghost use Rattle.bitvec_store.specs.WidthLaws.{width_some};
ghost use Rattle.bitvec_owned.specs.Lending.{with_elements};
ghost use Rattle.bitvec_owned.specs.Owned.{owned};
ghost use Rattle.bitvec_owned.specs.Writes.{WritesOwned};
ghost use Rattle.bitvec_owned.specs.WritesLaws.{has_written, sequence_elements, sequence_written};

use crate::BitVec;
use bitvec_base::BitOrder;
use bitvec_edit::BitEdits;
use bitvec_engine::SliceOrder;
use bitvec_query::BitQueries;
use bitvec_slice::{BitSlice, Sealed, Shows, View, ViewMut};
use bitvec_store::BitStore;
use std::alloc::Allocator;

impl<T: BitStore, O: BitOrder, A: Allocator> Shows<T> for BitVec<T, O, A> {
    ghost shows = { owned };
}

impl<T: BitStore, O: BitOrder, A: Allocator> View<T, O> for BitVec<T, O, A> {
    ghost shows_elements = { sequence_elements (width_some T.BITS T.width_law) };

    fn as_bitslice(&self) -> BitSlice<'_, T, O> {
        BitVec::as_bitslice(self)
    }
}

impl<T: BitStore, O: BitOrder, A: Allocator> ViewMut<T, O> for BitVec<T, O, A> {
    ghost writes = { WritesOwned };

    ghost with_elements = { with_elements };

    ghost written = { sequence_written (width_some T.BITS T.width_law) };

    ghost has_written = { has_written };

    fn elements_mut(&mut self, _by: Sealed) -> &mut [T] {
        self.as_raw_mut_slice()
    }
}

impl<T: BitStore, O: SliceOrder, A: Allocator> BitQueries<T, O> for BitVec<T, O, A> {}

impl<T: BitStore, O: SliceOrder, A: Allocator> BitEdits<T, O> for BitVec<T, O, A> {}
