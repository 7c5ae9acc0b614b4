//! The elements that a memory is made of.
ghost use Rattle.std.specs.Prelude.{◌≡◌, ℕ, ◌+◌, ◌-◌, ◌*◌, ◌/◌, ◌%◌, ◌^◌, ◌<◌, ◌≤◌, length, map, take, drop, bit_and, bit_or, bit_xor, count_ones};
ghost use Rattle.std.specs.Int.Count.{count_leading_zeros, count_trailing_zeros};
ghost use Rattle.std.specs.Mem.{FitsInMemory, type_size};
ghost use Rattle.std.specs.Simd.Lanes.{digits_l};
ghost use Rattle.bitvec_store.specs.Width.{IsWidth};

/// An unsigned element of a memory, as `u8` or `usize`: `bitvec`'s `BitStore`.
///
/// Contracts see an element as its number, `value`. Bit `p` of an element is the one of weight
/// `2^p`. A type of a user's own may implement the trait too.
pub trait BitStore: Copy + Drop {
    ghost BITS: { ℕ };

    /// The width of an element, in bits.
    const BITS: u32;

    ghost ZERO: { Self };

    /// The element whose bits are all 0.
    const ZERO: Self;

    ghost ALL: { Self };

    /// The element whose bits are all 1.
    const ALL: Self;

    ghost value: { Self → ℕ };

    /// Tells a proof that the element's number fits the width; it does nothing when it runs.
    fn in_range(self)
        ensures { value self < 2 ^ BITS };

    /// Tells a proof that an element takes at most `2^32` bytes, so that arrays of thousands of them fit; it does
    /// nothing when it runs.
    fn fits_in_memory()
        ensures memory { FitsInMemory Self.row }
        ensures size { type_size Self.row ≤ 2 ^ 32 };

    /// The element of a number. Condition: the number fits the width.
    fn from_u128(number: u128) -> Self
        requires { number < 2 ^ BITS }
        ensures { value result ≡ number };

    /// The element's number.
    fn to_u128(self) -> u128
        ensures number { result ≡ value self }
        ensures in_range { result < 2 ^ BITS };

    /// The bits that are 1 in both: `&` of the integers.
    fn and(self, other: Self) -> Self
        ensures { value result ≡ bit_and (value self) (value other) };

    /// The bits that are 1 in one or both: `|` of the integers.
    fn or(self, other: Self) -> Self
        ensures { value result ≡ bit_or (value self) (value other) };

    /// The bits that differ: `^` of the integers.
    fn xor(self, other: Self) -> Self
        ensures { value result ≡ bit_xor (value self) (value other) };

    /// Each bit flipped: `!` of the integers.
    fn not(self) -> Self
        ensures { value result ≡ 2 ^ BITS - 1 - value self };

    /// The bits moved up by `by`, those past the width lost: `<<` of the integers. Condition:
    /// `by` is below the width.
    fn shl(self, by: u32) -> Self
        requires { by < BITS }
        ensures { value result ≡ (value self * 2 ^ by) % 2 ^ BITS };

    /// The bits moved down by `by`, those below 0 lost: `>>` of the integers. Condition: `by` is
    /// below the width.
    fn shr(self, by: u32) -> Self
        requires { by < BITS }
        ensures { value result ≡ value self / 2 ^ by };

    /// How many bits are 1.
    fn count_ones(self) -> u32
        ensures { result ≡ count_ones (value self) };

    /// How many bits above the highest 1 are 0; the width, if no bit is 1.
    fn leading_zeros(self) -> u32
        ensures { result ≡ count_leading_zeros BITS (value self) };

    /// How many bits below the lowest 1 are 0; the width, if no bit is 1.
    fn trailing_zeros(self) -> u32
        ensures { result ≡ count_trailing_zeros BITS (value self) };

    /// The number of a slice's first elements, as many as 64 bits hold: the first one is its least significant digit.
    /// It is 0 if they are wider. Condition: the slice has as many.
    fn load_word(elements: &[Self]) -> u64
        requires { 64 / BITS ≤ length elements.now }
        ensures digits { map value (take (64 / BITS) elements.now) ≡ digits_l (2 ^ BITS) (64 / BITS) result }
        ensures wide { 64 < BITS → result ≡ 0 }
    {
        let mut word = 0;
        for step in 0..64 / Self::BITS as usize {
            let element = elements[step].to_u128() as u64;
            word += element << (step as u32 * Self::BITS);
        }
        word
    }

    /// Makes the digits of a number a slice's first elements, as many as 64 bits hold: the least significant one the
    /// first. The others stay. Condition: the slice has as many.
    fn store_word(elements: &mut [Self], word: u64)
        requires { 64 / BITS ≤ length elements.old }
        ensures digits { map value (take (64 / BITS) elements.new) ≡ digits_l (2 ^ BITS) (64 / BITS) word }
        ensures others { drop (64 / BITS) elements.new ≡ drop (64 / BITS) elements.old }
    {
        for step in 0..64 / Self::BITS as usize {
            let shifted = word >> (step as u32 * Self::BITS);
            elements[step] = Self::from_u128((shifted as u128) & Self::ALL.to_u128());
        }
    }

    ghost width_law: { IsWidth BITS };

    ghost zero_law: { value ZERO ≡ 0 };

    ghost all_law: { value ALL ≡ 2 ^ BITS - 1 };
}
