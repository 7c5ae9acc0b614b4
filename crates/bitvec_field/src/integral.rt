//! The integers that a window is loaded as, and that are stored in one.
ghost use Rattle.std.specs.Prelude.{◌≡◌, ℕ, ◌^◌, ◌<◌, ◌≤◌, Bool, ℤ};
ghost use Rattle.bitvec_numbers.specs.Integers.{integer_of, remainder_of};

/// An integer that is loaded from bits and stored in bits: `bitvec`'s `funty::Integral`, as far as
/// `BitField` needs it.
///
/// Contracts see it as a whole number, `value`. A type of a user's own may implement the trait too.
pub trait Integral: Copy + Drop {
    ghost BITS: { ℕ };

    /// How many bits the type has.
    const BITS: u32;

    ghost SIGNED: { Bool };

    ghost value: { Self → ℤ };

    /// The integer that so many bits with that number stand for: of an unsigned type the number
    /// itself, of a signed one less `2^bits` where the highest bit is 1. Condition: `bits` is from 1
    /// to `BITS`, and the number is below `2^bits`.
    fn from_bits(number: u128, bits: u32) -> Self
        requires some { 0 < bits }
        requires bound { bits ≤ BITS }
        requires fits { number < 2 ^ bits }
        ensures { value result ≡ integer_of SIGNED bits number };

    /// The remainder of the integer by `2^BITS`, from 0 to `2^BITS - 1`.
    fn to_bits(self) -> u128
        ensures { result ≡ remainder_of BITS (value self) };

    ghost bits_law: { BITS ≤ 128 };
}
