//! The unsigned integer types.
ghost use Rattle.std.specs.Prelude.{false, pos};
ghost use Rattle.std.proofs.Common.{rules};

use crate::Integral;

impl Integral for u8 {
    ghost BITS = { 8 };

    const BITS: u32 = u8::BITS;

    ghost SIGNED = { false };

    ghost value = { λ x. pos x };

    fn from_bits(number: u128, bits: u32) -> u8 {
        number as u8
    }

    fn to_bits(self) -> u128 {
        self as u128
    }

    ghost bits_law = { Prim.search rules };
}

impl Integral for u16 {
    ghost BITS = { 16 };

    const BITS: u32 = u16::BITS;

    ghost SIGNED = { false };

    ghost value = { λ x. pos x };

    fn from_bits(number: u128, bits: u32) -> u16 {
        number as u16
    }

    fn to_bits(self) -> u128 {
        self as u128
    }

    ghost bits_law = { Prim.search rules };
}

impl Integral for u32 {
    ghost BITS = { 32 };

    const BITS: u32 = u32::BITS;

    ghost SIGNED = { false };

    ghost value = { λ x. pos x };

    fn from_bits(number: u128, bits: u32) -> u32 {
        number as u32
    }

    fn to_bits(self) -> u128 {
        self as u128
    }

    ghost bits_law = { Prim.search rules };
}

impl Integral for u64 {
    ghost BITS = { 64 };

    const BITS: u32 = u64::BITS;

    ghost SIGNED = { false };

    ghost value = { λ x. pos x };

    fn from_bits(number: u128, bits: u32) -> u64 {
        number as u64
    }

    fn to_bits(self) -> u128 {
        self as u128
    }

    ghost bits_law = { Prim.search rules };
}

impl Integral for u128 {
    ghost BITS = { 128 };

    const BITS: u32 = u128::BITS;

    ghost SIGNED = { false };

    ghost value = { λ x. pos x };

    fn from_bits(number: u128, bits: u32) -> u128 {
        number
    }

    fn to_bits(self) -> u128 {
        self
    }

    ghost bits_law = { Prim.search rules };
}

impl Integral for usize {
    ghost BITS = { 64 };

    const BITS: u32 = usize::BITS;

    ghost SIGNED = { false };

    ghost value = { λ x. pos x };

    fn from_bits(number: u128, bits: u32) -> usize {
        number as usize
    }

    fn to_bits(self) -> u128 {
        self as u128
    }

    ghost bits_law = { Prim.search rules };
}
