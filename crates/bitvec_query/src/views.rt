//! The two view types answer questions, and their ones and zeros are walked.
use crate::{BitQueries, IterOnes, IterZeros, OnesCalls, Places};
use bitvec_engine::SliceOrder;
use bitvec_slice::{BitSlice, BitSliceMut};
use bitvec_store::BitStore;

impl<'a, T: BitStore, O: SliceOrder> BitQueries<T, O> for BitSlice<'a, T, O> {}

impl<'a, T: BitStore, O: SliceOrder> BitQueries<T, O> for BitSliceMut<'a, T, O> {}

impl<'a, T: BitStore, O: SliceOrder> OnesCalls<T> for BitSlice<'a, T, O> {
    type Ones = IterOnes<'a, T, O>;

    type Zeros = IterZeros<'a, T, O>;

    fn iter_ones(self) -> IterOnes<'a, T, O> {
        Places::new(self)
    }

    fn iter_zeros(self) -> IterZeros<'a, T, O> {
        Places::new(self)
    }
}

impl<'a, 'v, T: BitStore, O: SliceOrder> OnesCalls<T> for &'v BitSliceMut<'a, T, O> {
    type Ones = IterOnes<'v, T, O>;

    type Zeros = IterZeros<'v, T, O>;

    fn iter_ones(self) -> IterOnes<'v, T, O> {
        self.as_ref().iter_ones()
    }

    fn iter_zeros(self) -> IterZeros<'v, T, O> {
        self.as_ref().iter_zeros()
    }
}
