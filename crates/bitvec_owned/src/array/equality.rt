//! `==` of arrays of bits of the same type.
ghost use Rattle.std.specs.Cmp.{bool_eq_equiv, on_equiv, partial_equiv_from_equiv};
ghost use Rattle.std.specs.Cmp.Lexicographic.{lists_equiv};
ghost use Rattle.bitvec_base.specs.Lists.{same_bits};
ghost use Rattle.bitvec_owned.specs.Arrays.{in_array};

use crate::BitArray;
use bitvec_engine::SliceOrder;
use bitvec_store::BitStore;

impl<T: BitStore, O: SliceOrder, const N: usize> PartialEq for BitArray<T, O, N> {
    ghost eq = { λ bits other. same_bits (in_array bits).bits (in_array other).bits };

    ghost laws = { partial_equiv_from_equiv (on_equiv (λ bits. (in_array bits).bits) (lists_equiv bool_eq_equiv)) };

    /// Whether the other array has the same bits.
    fn eq(&self, other: &Self) -> bool {
        self.as_bitslice() == other.as_bitslice()
    }
}

impl<T: BitStore, O: SliceOrder, const N: usize> Eq for BitArray<T, O, N> {
    ghost laws = { on_equiv (λ bits. (in_array bits).bits) (lists_equiv bool_eq_equiv) };
}
