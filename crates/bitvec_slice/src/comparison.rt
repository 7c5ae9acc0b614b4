//! The order of shared views of the same type.
ghost use Rattle.std.proofs.Common.{rules};
ghost use Rattle.std.specs.Cmp.{partial_order_from_own_ties};
ghost use Rattle.std.specs.Cmp.Lexicographic.{slice_cmp};
ghost use Rattle.std.specs.Cmp.Rules.{comparing};
ghost use Rattle.std.specs.Ordering.{as_partial_cmp, bool_cmp, on};
ghost use Rattle.bitvec_slice.specs.Views.{seen};
ghost use Rattle.bitvec_elements.specs.OrderLaws.{same_bits-ties};

use crate::BitSlice;
use bitvec_elements::compare_block_in;
use bitvec_engine::SliceOrder;
use bitvec_store::BitStore;
use std::cmp::Ordering;

impl<'a, T: BitStore, O: SliceOrder> PartialOrd for BitSlice<'a, T, O> {
    ghost partial_cmp = { as_partial_cmp (on (λ view. (seen view).bits) (slice_cmp bool_cmp)) };

    ghost laws = { partial_order_from_own_ties (Prim.search (comparing, rules)) (λ view other. same_bits-ties (seen view).bits (seen other).bits) };

    /// `Some` of [`Ord::cmp`].
    fn partial_cmp(&self, other: &Self) -> Option<Ordering> {
        Some(self.cmp(other))
    }
}

impl<'a, T: BitStore, O: SliceOrder> Ord for BitSlice<'a, T, O> {
    ghost cmp = { on (λ view. (seen view).bits) (slice_cmp bool_cmp) };

    ghost total = { Prim.search (comparing, rules) };

    ghost matches_partial_cmp = { Prim.search (comparing, rules) };

    ghost matches_eq = { λ view other. same_bits-ties (seen view).bits (seen other).bits };

    /// How the bits compare, as lists of truth values do: at the first index where two views differ
    /// the one with 1 is greater, and a view that begins a longer one is less.
    fn cmp(&self, other: &Self) -> Ordering {
        compare_block_in::<T, O>(
            self.elements(),
            self.window(),
            other.elements(),
            other.window(),
        )
    }
}
