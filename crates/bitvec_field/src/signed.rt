//! The signed integer types.
ghost use Rattle.std.specs.Prelude.{true};
ghost use Rattle.std.proofs.Common.{rules};

use crate::Integral;
use bitvec_numbers::{extended, reduced};

impl Integral for i8 {
    ghost BITS = { 8 };

    const BITS: u32 = i8::BITS;

    ghost SIGNED = { true };

    ghost value = { λ x. x };

    fn from_bits(number: u128, bits: u32) -> i8 {
        extended(number, bits) as i8
    }

    fn to_bits(self) -> u128 {
        reduced(self as i128, i8::BITS)
    }

    ghost bits_law = { Prim.search rules };
}

impl Integral for i16 {
    ghost BITS = { 16 };

    const BITS: u32 = i16::BITS;

    ghost SIGNED = { true };

    ghost value = { λ x. x };

    fn from_bits(number: u128, bits: u32) -> i16 {
        extended(number, bits) as i16
    }

    fn to_bits(self) -> u128 {
        reduced(self as i128, i16::BITS)
    }

    ghost bits_law = { Prim.search rules };
}

impl Integral for i32 {
    ghost BITS = { 32 };

    const BITS: u32 = i32::BITS;

    ghost SIGNED = { true };

    ghost value = { λ x. x };

    fn from_bits(number: u128, bits: u32) -> i32 {
        extended(number, bits) as i32
    }

    fn to_bits(self) -> u128 {
        reduced(self as i128, i32::BITS)
    }

    ghost bits_law = { Prim.search rules };
}

impl Integral for i64 {
    ghost BITS = { 64 };

    const BITS: u32 = i64::BITS;

    ghost SIGNED = { true };

    ghost value = { λ x. x };

    fn from_bits(number: u128, bits: u32) -> i64 {
        extended(number, bits) as i64
    }

    fn to_bits(self) -> u128 {
        reduced(self as i128, i64::BITS)
    }

    ghost bits_law = { Prim.search rules };
}

impl Integral for i128 {
    ghost BITS = { 128 };

    const BITS: u32 = i128::BITS;

    ghost SIGNED = { true };

    ghost value = { λ x. x };

    fn from_bits(number: u128, bits: u32) -> i128 {
        extended(number, bits) as i128
    }

    fn to_bits(self) -> u128 {
        reduced(self as i128, i128::BITS)
    }

    ghost bits_law = { Prim.search rules };
}

impl Integral for isize {
    ghost BITS = { 64 };

    const BITS: u32 = isize::BITS;

    ghost SIGNED = { true };

    ghost value = { λ x. x };

    fn from_bits(number: u128, bits: u32) -> isize {
        extended(number, bits) as isize
    }

    fn to_bits(self) -> u128 {
        reduced(self as i128, isize::BITS)
    }

    ghost bits_law = { Prim.search rules };
}
