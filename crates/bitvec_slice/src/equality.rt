//! `==` of views of the same type.
ghost use Rattle.std.specs.Cmp.{bool_eq_equiv, on_equiv, partial_equiv_from_equiv};
ghost use Rattle.std.specs.Cmp.Lexicographic.{lists_equiv};
ghost use Rattle.bitvec_base.specs.Lists.{same_bits};
ghost use Rattle.bitvec_slice.specs.Views.{seen, seen_mut};

use crate::{BitSlice, BitSliceMut};
use bitvec_elements::eq_block_in;
use bitvec_engine::SliceOrder;
use bitvec_store::BitStore;

impl<'a, T: BitStore, O: SliceOrder> PartialEq for BitSlice<'a, T, O> {
    ghost eq = { λ view other. same_bits (seen view).bits (seen other).bits };

    ghost laws = { partial_equiv_from_equiv (on_equiv (λ view. (seen view).bits) (lists_equiv bool_eq_equiv)) };

    /// Whether the other view has the same bits.
    #[inline(always)]
    fn eq(&self, other: &Self) -> bool {
        eq_block_in::<T, O>(
            self.elements(),
            self.window(),
            other.elements(),
            other.window(),
        )
    }
}

impl<'a, T: BitStore, O: SliceOrder> Eq for BitSlice<'a, T, O> {
    ghost laws = { on_equiv (λ view. (seen view).bits) (lists_equiv bool_eq_equiv) };
}

impl<'a, T: BitStore, O: SliceOrder> PartialEq for BitSliceMut<'a, T, O> {
    ghost eq = { λ view other. same_bits (seen_mut view).bits (seen_mut other).bits };

    ghost laws = { partial_equiv_from_equiv (on_equiv (λ view. (seen_mut view).bits) (lists_equiv bool_eq_equiv)) };

    /// Whether the other view has the same bits.
    #[inline(always)]
    fn eq(&self, other: &Self) -> bool {
        self.as_ref() == other.as_ref()
    }
}

impl<'a, T: BitStore, O: SliceOrder> Eq for BitSliceMut<'a, T, O> {
    ghost laws = { on_equiv (λ view. (seen_mut view).bits) (lists_equiv bool_eq_equiv) };
}
