//! An element that tells how many operations it is made of.
ghost use Rattle.std.specs.Prelude.{◌≡◌, ◌-◌, ◌^◌, refl};
ghost use Rattle.std.proofs.Common.{rules};

use bitvec_test_support::store::BitStore;

/// A number of 64 bits, with a count of the operations that it came from: none of a constant, one
/// of a number, and of each other operation one more than those of its operands; at most
/// `u32::MAX`.
///
/// Contracts see it as its number.
#[derive(Clone, Copy)]
pub(crate) struct Tally {
    number: u64,
    operations: u32,
}

impl Tally {
    /// How many operations the element came from.
    pub(crate) fn operations(self) -> u32 {
        self.operations
    }

    /// This number, with no operation counted.
    pub(crate) fn fresh(self) -> Self
        ensures { result.number ≡ self.number }
    {
        let Tally { number, .. } = self;
        Tally {
            number,
            operations: 0,
        }
    }

    // A number made of this element's.
    fn step(self, number: u64) -> Self
        ensures { result.number ≡ number }
    {
        let operations = self.operations.saturating_add(1);
        Tally { number, operations }
    }

    // A number made of this element's and another's.
    fn join(self, other: Self, number: u64) -> Self
        ensures { result.number ≡ number }
    {
        let operations = self
            .operations
            .saturating_add(other.operations)
            .saturating_add(1);
        Tally { number, operations }
    }
}

impl BitStore for Tally {
    ghost BITS = { 64 };

    const BITS: u32 = 64;

    ghost ZERO = { record { number = 0; operations = 0 } };

    const ZERO: Self = Tally {
        number: 0,
        operations: 0,
    };

    ghost ALL = { record { number = 2 ^ 64 - 1; operations = 0 } };

    const ALL: Self = Tally {
        number: u64::MAX,
        operations: 0,
    };

    ghost value = { λ x. x.number };

    ghost width_law = { Prim.search rules };

    ghost zero_law = { refl };

    ghost all_law = { refl };

    fn in_range(self) {
        let Tally {
            number: _number,
            ..
        } = self;
    }

    fn fits_in_memory() {}

    fn from_u128(number: u128) -> Self {
        let number = number as u64;
        Tally {
            number,
            operations: 1,
        }
    }

    fn to_u128(self) -> u128 {
        self.number as u128
    }

    fn and(self, other: Self) -> Self {
        self.join(other, self.number & other.number)
    }

    fn or(self, other: Self) -> Self {
        self.join(other, self.number | other.number)
    }

    fn xor(self, other: Self) -> Self {
        self.join(other, self.number ^ other.number)
    }

    fn not(self) -> Self {
        self.step(!self.number)
    }

    fn shl(self, by: u32) -> Self {
        self.step(self.number << by)
    }

    fn shr(self, by: u32) -> Self {
        self.step(self.number >> by)
    }

    fn count_ones(self) -> u32 {
        self.number.count_ones()
    }

    fn leading_zeros(self) -> u32 {
        self.number.leading_zeros()
    }

    fn trailing_zeros(self) -> u32 {
        self.number.trailing_zeros()
    }
}
