//! `==` of references to a bit compares the bits.
ghost use Rattle.std.specs.Bool.{beq};
ghost use Rattle.std.specs.Cmp.{bool_eq_equiv, on_equiv, partial_equiv_from_equiv};
ghost use Rattle.bitvec_domain.specs.References.{bit_of_ref, bit_of_ref_mut};

use crate::{BitRef, BitRefMut};
use bitvec_base::BitOrder;
use bitvec_store::BitStore;

impl<'a, T: BitStore, O: BitOrder> PartialEq for BitRef<'a, T, O> {
    ghost eq = { λ bit other. beq (bit_of_ref bit) (bit_of_ref other) };

    ghost laws = { partial_equiv_from_equiv (on_equiv (λ bit. bit_of_ref bit) bool_eq_equiv) };

    /// Whether the other bit is the same.
    fn eq(&self, other: &Self) -> bool {
        **self == **other
    }
}

impl<'a, T: BitStore, O: BitOrder> Eq for BitRef<'a, T, O> {
    ghost laws = { on_equiv (λ bit. bit_of_ref bit) bool_eq_equiv };
}

impl<'a, T: BitStore, O: BitOrder> PartialEq for BitRefMut<'a, T, O> {
    ghost eq = { λ bit other. beq (bit_of_ref_mut bit) (bit_of_ref_mut other) };

    ghost laws = { partial_equiv_from_equiv (on_equiv (λ bit. bit_of_ref_mut bit) bool_eq_equiv) };

    /// Whether the other bit is the same.
    fn eq(&self, other: &Self) -> bool {
        **self == **other
    }
}

impl<'a, T: BitStore, O: BitOrder> Eq for BitRefMut<'a, T, O> {
    ghost laws = { on_equiv (λ bit. bit_of_ref_mut bit) bool_eq_equiv };
}
