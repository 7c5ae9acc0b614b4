//! `u64` as an element, by its own operators.
ghost use Rattle.std.specs.Prelude.{◌-◌, ◌^◌, refl};
ghost use Rattle.std.proofs.Common.{rules};

use crate::BitStore;

impl BitStore for u64 {
    ghost BITS = { 64 };

    const BITS: u32 = u64::BITS;

    ghost ZERO = { 0 };

    const ZERO: Self = 0;

    ghost ALL = { 2 ^ 64 - 1 };

    const ALL: Self = u64::MAX;

    ghost value = { λ x. x };

    ghost width_law = { Prim.search rules };

    ghost zero_law = { refl };

    ghost all_law = { refl };

    fn in_range(self) {}

    fn fits_in_memory() {}

    fn from_u128(number: u128) -> Self {
        number as u64
    }

    fn to_u128(self) -> u128 {
        self as u128
    }

    fn and(self, other: Self) -> Self {
        self & other
    }

    fn or(self, other: Self) -> Self {
        self | other
    }

    fn xor(self, other: Self) -> Self {
        self ^ other
    }

    fn not(self) -> Self {
        !self
    }

    fn shl(self, by: u32) -> Self {
        self << by
    }

    fn shr(self, by: u32) -> Self {
        self >> by
    }

    fn count_ones(self) -> u32 {
        self.count_ones()
    }

    fn leading_zeros(self) -> u32 {
        self.leading_zeros()
    }

    fn trailing_zeros(self) -> u32 {
        self.trailing_zeros()
    }

    fn load_word(elements: &[Self]) -> u64 {
        elements[0]
    }

    fn store_word(elements: &mut [Self], word: u64) {
        elements[0] = word;
    }
}
