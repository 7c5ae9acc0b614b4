//! Arrays of bits show bits, answer questions and are edited, as views are.
ghost use Rattle.bitvec_owned.specs.ArrayLending.{with_elements};
ghost use Rattle.bitvec_owned.specs.ArrayLaws.{array_elements, array_written, has_written};
ghost use Rattle.bitvec_owned.specs.Arrays.{WritesArray, in_array};

use crate::BitArray;
use bitvec_base::BitOrder;
use bitvec_edit::BitEdits;
use bitvec_engine::SliceOrder;
use bitvec_query::BitQueries;
use bitvec_slice::{BitSlice, Sealed, Shows, View, ViewMut};
use bitvec_store::BitStore;

impl<T: BitStore, O: BitOrder, const N: usize> Shows<T> for BitArray<T, O, N> {
    ghost shows = { in_array };
}

impl<T: BitStore, O: BitOrder, const N: usize> View<T, O> for BitArray<T, O, N> {
    ghost shows_elements = { array_elements };

    fn as_bitslice(&self) -> BitSlice<'_, T, O> {
        BitArray::as_bitslice(self)
    }
}

impl<T: BitStore, O: BitOrder, const N: usize> ViewMut<T, O> for BitArray<T, O, N> {
    ghost writes = { WritesArray };

    ghost with_elements = { with_elements };

    ghost written = { array_written };

    ghost has_written = { has_written };

    fn elements_mut(&mut self, _by: Sealed) -> &mut [T] {
        self.as_raw_mut_slice()
    }
}

impl<T: BitStore, O: SliceOrder, const N: usize> BitQueries<T, O> for BitArray<T, O, N> {}

impl<T: BitStore, O: SliceOrder, const N: usize> BitEdits<T, O> for BitArray<T, O, N> {}
