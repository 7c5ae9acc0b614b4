//! `==` of owned sequences of the same type.
ghost use Rattle.std.specs.Cmp.{bool_eq_equiv, on_equiv, partial_equiv_from_equiv};
ghost use Rattle.std.specs.Cmp.Lexicographic.{lists_equiv};
ghost use Rattle.bitvec_base.specs.Lists.{same_bits};
ghost use Rattle.bitvec_owned.specs.Owned.{owned};

use crate::BitVec;
use bitvec_engine::SliceOrder;
use bitvec_store::BitStore;
use std::alloc::Allocator;

impl<T: BitStore, O: SliceOrder, A: Allocator> PartialEq for BitVec<T, O, A> {
    ghost eq = { λ bits other. same_bits (owned bits).bits (owned other).bits };

    ghost laws = { partial_equiv_from_equiv (on_equiv (λ bits. (owned bits).bits) (lists_equiv bool_eq_equiv)) };

    /// Whether the other sequence has the same bits, wherever both begin.
    fn eq(&self, other: &Self) -> bool {
        self.as_bitslice() == other.as_bitslice()
    }
}

impl<T: BitStore, O: SliceOrder, A: Allocator> Eq for BitVec<T, O, A> {
    ghost laws = { on_equiv (λ bits. (owned bits).bits) (lists_equiv bool_eq_equiv) };
}
