//! Parts of writable views, and the pieces of their splits, are edited in place.
ghost use Rattle.bitvec_slice.specs.Views.{name_of};
ghost use Rattle.bitvec_closures.specs.ViewInPlace.{written_so};

use crate::{EditParts, EditSplits};
use bitvec_base::{BitOrder, Window};
use bitvec_slice::{BitSliceMut, Sealed};
use bitvec_store::BitStore;

impl<'a, T: BitStore, O: BitOrder> EditParts<T, O> for BitSliceMut<'a, T, O> {
    ghost named = { name_of };

    ghost written_so = { written_so };

    fn stand_at(&mut self, window: Window, by: Sealed) {
        BitSliceMut::stand_at(self, window, by);
    }
}

impl<'a, T: BitStore, O: BitOrder> EditSplits<T, O> for BitSliceMut<'a, T, O> {}
