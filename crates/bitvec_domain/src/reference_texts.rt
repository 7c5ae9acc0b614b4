//! The texts of a reference to a bit are those of the bit.
ghost use Rattle.std.specs.Prelude.{Some};
ghost use Rattle.bitvec_domain.specs.References.{bit_of_ref, bit_of_ref_mut, truth_text};

use crate::{BitRef, BitRefMut};
use bitvec_base::BitOrder;
use bitvec_store::BitStore;
use std::fmt;

/// The bit, as `true` or `false`.
impl<'a, T: BitStore, O: BitOrder> fmt::Display for BitRef<'a, T, O> {
    ghost output = { λ bit. Some (truth_text (bit_of_ref bit)) };

    fn fmt<W: fmt::Write>(&self, f: &mut fmt::Formatter<W>) -> fmt::Result {
        fmt::Display::fmt(&**self, f)
    }
}

/// The text of `Display`.
impl<'a, T: BitStore, O: BitOrder> fmt::Debug for BitRef<'a, T, O> {
    ghost debug_output = { λ bit. Some (truth_text (bit_of_ref bit)) };

    fn fmt<W: fmt::Write>(&self, f: &mut fmt::Formatter<W>) -> fmt::Result {
        fmt::Display::fmt(&**self, f)
    }
}

/// The bit, as `true` or `false`.
impl<'a, T: BitStore, O: BitOrder> fmt::Display for BitRefMut<'a, T, O> {
    ghost output = { λ bit. Some (truth_text (bit_of_ref_mut bit)) };

    fn fmt<W: fmt::Write>(&self, f: &mut fmt::Formatter<W>) -> fmt::Result {
        fmt::Display::fmt(&**self, f)
    }
}

/// The text of `Display`.
impl<'a, T: BitStore, O: BitOrder> fmt::Debug for BitRefMut<'a, T, O> {
    ghost debug_output = { λ bit. Some (truth_text (bit_of_ref_mut bit)) };

    fn fmt<W: fmt::Write>(&self, f: &mut fmt::Formatter<W>) -> fmt::Result {
        fmt::Display::fmt(&**self, f)
    }
}
