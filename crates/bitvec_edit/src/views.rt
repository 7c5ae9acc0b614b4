//! Writable views are edited.
use crate::BitEdits;
use bitvec_engine::SliceOrder;
use bitvec_slice::BitSliceMut;
use bitvec_store::BitStore;

impl<'a, T: BitStore, O: SliceOrder> BitEdits<T, O> for BitSliceMut<'a, T, O> {}
