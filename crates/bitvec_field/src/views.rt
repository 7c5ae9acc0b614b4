//! Views as integers.
ghost use Rattle.bitvec_field.specs.Fields.{number_be, number_le, writes_number_be, writes_number_le};
ghost use Rattle.bitvec_slice.specs.Views.{seen, seen_mut};

use crate::slices::{load_be_in, load_le_in, store_be_in, store_le_in};
use crate::{BitField, BitFieldMut, Integral};
use bitvec_numbers::FieldOrder;
use bitvec_slice::{BitSlice, BitSliceMut, Sealed, ViewMut};
use bitvec_store::BitStore;

impl<'a, T: BitStore, O: FieldOrder> BitField for BitSlice<'a, T, O> {
    ghost len = { λ view. (seen view).window.len };

    ghost le = { λ view. number_le O.HIGH T.BITS (seen view) };

    ghost be = { λ view. number_be O.HIGH T.BITS (seen view) };

    #[inline(always)]
    fn load_le<I: Integral>(&self) -> I {
        load_le_in::<T, O, I>(self.elements(), self.window())
    }

    #[inline(always)]
    fn load_be<I: Integral>(&self) -> I {
        load_be_in::<T, O, I>(self.elements(), self.window())
    }
}

impl<'a, T: BitStore, O: FieldOrder> BitField for BitSliceMut<'a, T, O> {
    ghost len = { λ view. (seen_mut view).window.len };

    ghost le = { λ view. number_le O.HIGH T.BITS (seen_mut view) };

    ghost be = { λ view. number_be O.HIGH T.BITS (seen_mut view) };

    #[inline(always)]
    fn load_le<I: Integral>(&self) -> I {
        self.as_ref().load_le::<I>()
    }

    #[inline(always)]
    fn load_be<I: Integral>(&self) -> I {
        self.as_ref().load_be::<I>()
    }
}

impl<'a, T: BitStore, O: FieldOrder> BitFieldMut for BitSliceMut<'a, T, O> {
    ghost writes_le = { λ before after number. writes_number_le O.HIGH T.BITS before after number };

    ghost writes_be = { λ before after number. writes_number_be O.HIGH T.BITS before after number };

    #[inline(always)]
    fn store_le<I: Integral>(&mut self, value: I) {
        let window = self.window();
        store_le_in::<T, O, I>(self.elements_mut(Sealed), window, value);
    }

    #[inline(always)]
    fn store_be<I: Integral>(&mut self, value: I) {
        let window = self.window();
        store_be_in::<T, O, I>(self.elements_mut(Sealed), window, value);
    }
}
