//! The texts of views.
ghost use Rattle.std.specs.Prelude.{Some};
ghost use Rattle.bitvec_slice.specs.Views.{seen, seen_mut};
ghost use Rattle.bitvec_domain.specs.Listing.{bits_text};

use crate::{BitSlice, BitSliceMut};
use bitvec_base::BitOrder;
use bitvec_domain::write_bits_in;
use bitvec_store::BitStore;
use std::fmt;

/// The bits as a list, as `[0, 1, 0]`.
impl<'a, T: BitStore, O: BitOrder> fmt::Display for BitSlice<'a, T, O> {
    ghost output = { λ view. Some (bits_text (seen view).bits) };

    fn fmt<W: fmt::Write>(&self, f: &mut fmt::Formatter<W>) -> fmt::Result {
        write_bits_in::<T, O, W>(self.elements(), self.window(), f)
    }
}

/// The text of `Display`.
impl<'a, T: BitStore, O: BitOrder> fmt::Debug for BitSlice<'a, T, O> {
    ghost debug_output = { λ view. Some (bits_text (seen view).bits) };

    fn fmt<W: fmt::Write>(&self, f: &mut fmt::Formatter<W>) -> fmt::Result {
        write_bits_in::<T, O, W>(self.elements(), self.window(), f)
    }
}

/// The bits as a list, as `[0, 1, 0]`.
impl<'a, T: BitStore, O: BitOrder> fmt::Display for BitSliceMut<'a, T, O> {
    ghost output = { λ view. Some (bits_text (seen_mut view).bits) };

    fn fmt<W: fmt::Write>(&self, f: &mut fmt::Formatter<W>) -> fmt::Result {
        fmt::Display::fmt(&self.as_ref(), f)
    }
}

/// The text of `Display`.
impl<'a, T: BitStore, O: BitOrder> fmt::Debug for BitSliceMut<'a, T, O> {
    ghost debug_output = { λ view. Some (bits_text (seen_mut view).bits) };

    fn fmt<W: fmt::Write>(&self, f: &mut fmt::Formatter<W>) -> fmt::Result {
        fmt::Display::fmt(&self.as_ref(), f)
    }
}
