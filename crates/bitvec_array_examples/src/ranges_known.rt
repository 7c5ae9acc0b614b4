//! What a caller knows of numbers in ranges of an array: beside edits, bit by bit, in parts, moved and filled.
ghost use Rattle.std.specs.Prelude.{◌≡◌, ℕ, ◌-◌, ◌/◌, ◌%◌, ◌^◌, ◌<◌, ◌≤◌, ◌==◌, None, false, true, slice_index_or};
ghost use Rattle.bitvec.specs.Arrays.{lsb0_bits, msb0_bits};
ghost use Rattle.bitvec.specs.Ranges.{number_in};

use bitvec::in_place;
use bitvec::prelude::*;

/// A number beside ranges that are exchanged, and combined with another: it stays.
#[tactic(auto, using(bitvec::specs::Laws::fields))]
pub fn beside_others(number: u16) -> [u8; 8]
    ensures { number_in false false 8 (lsb0_bits 8 result) 20 36 ≡ number }
{
    let mut bytes = [0x35u8; 8];
    in_place::store_le::<u8, Lsb0, u16>(&mut bytes, 20..36, number);
    in_place::swap_within::<u8, Lsb0>(&mut bytes, 0..16, 40);
    in_place::and_within::<u8, Lsb0>(&mut bytes, 20..36, 37);
    in_place::or_within::<u8, Lsb0>(&mut bytes, 3..9, 8);
    in_place::xor_within::<u8, Lsb0>(&mut bytes, 40..50, 54);
    bytes
}

/// A range that was filled with ones has the greatest number, one that was cleared has 0.
#[tactic(auto, using(bitvec::specs::Laws::fields, bitvec::specs::Laws::portions))]
pub fn all_and_none() -> [u8; 4]
    ensures all { number_in false false 8 (lsb0_bits 8 result) 4 20 ≡ 65535 }
    ensures part { number_in true false 8 (lsb0_bits 8 result) 6 11 ≡ 31 }
    ensures none { number_in false false 8 (lsb0_bits 8 result) 22 30 ≡ 0 }
{
    let mut bytes = [0x35u8; 4];
    in_place::fill::<u8, Lsb0>(&mut bytes, 4..20, true);
    in_place::fill::<u8, Lsb0>(&mut bytes, 22..30, false);
    bytes
}

/// A stored number by its bits: each counts as its place in the range does.
#[tactic(auto, using(bitvec::specs::Laws::bitwise, bitvec::specs::Laws::portions))]
pub fn by_its_bits(number: u16) -> [u8; 4]
    ensures third { slice_index_or (lsb0_bits 8 result) 7 false ≡ (number / 4 % 2 == 1) }
    ensures each { (place : ℕ) → 5 ≤ place → place < 21 → slice_index_or (lsb0_bits 8 result) place false ≡ (number / 2 ^ (place - 5) % 2 == 1) }
{
    let mut bytes = [0u8; 4];
    in_place::store_le::<u8, Lsb0, u16>(&mut bytes, 5..21, number);
    bytes
}

/// A stored number by its low byte and its high one, where the highest bit comes first.
#[tactic(auto, using(bitvec::specs::Laws::portions))]
pub fn by_its_bytes(number: u16) -> [u8; 4]
    ensures high { number_in true true 8 (msb0_bits 8 result) 5 13 ≡ number / 256 }
    ensures low { number_in true true 8 (msb0_bits 8 result) 13 21 ≡ number % 256 }
{
    let mut bytes = [0u8; 4];
    in_place::store_be::<u8, Msb0, u16>(&mut bytes, 5..21, number);
    bytes
}

/// A number that was moved by whole elements is the same number, also where its segments don't join.
#[tactic(auto, using(bitvec::specs::Laws::fields, bitvec::specs::Laws::portions))]
pub fn moved_by_bytes(number: u16) -> [u8; 8]
    ensures { number_in false true 8 (msb0_bits 8 result) 36 46 ≡ number % 1024 }
{
    let mut bytes = [0u8; 8];
    in_place::store_le::<u8, Msb0, u16>(&mut bytes, 12..22, number);
    in_place::copy_within::<u8, Msb0>(&mut bytes, 8..24, 32);
    bytes
}

/// A number that was stored within one element is one number from both ends.
#[tactic(auto, using(bitvec::specs::Laws::portions))]
pub fn from_both_ends(number: u8) -> [u8; 4]
    ensures { number_in true false 8 (lsb0_bits 8 result) 17 22 ≡ number % 32 }
{
    let mut bytes = [0u8; 4];
    in_place::store_le::<u8, Lsb0, u8>(&mut bytes, 17..22, number);
    bytes
}

/// How many bits of a range are 1, and its first 0, once it was filled.
#[tactic(auto, using(bitvec::specs::Laws::asked))]
pub fn filled_and_asked(from: usize, to: usize) -> (usize, Option<usize>)
    requires order { from ≤ to }
    requires inside { to ≤ 64 }
    ensures ones { result.0 ≡ to - from }
    ensures zero { result.1 ≡ None }
{
    let mut bytes = [0u8; 8];
    in_place::fill::<u8, Lsb0>(&mut bytes, from..to, true);
    (
        in_place::count_ones::<u8, Lsb0>(&bytes, from..to),
        in_place::first_zero::<u8, Lsb0>(&bytes, from..to),
    )
}

/// How many bits at literal places are 1, once a range around them was filled, and another bit was set.
#[tactic(auto, using(bitvec::specs::Laws::asked))]
pub fn filled_at_literals() -> usize
    ensures { result ≡ 11 }
{
    let mut bytes = [0u8; 8];
    in_place::fill::<u8, Lsb0>(&mut bytes, 20..40, true);
    in_place::set::<u8, Lsb0>(&mut bytes, 50, true);
    in_place::count_ones::<u8, Lsb0>(&bytes, 24..35)
}

#[test]
fn ranges_have_their_numbers(rt: HostRuntime) {
    assert!(rt; all_and_none() == [0xF5, 0xFF, 0x3F, 0x00]);
    assert!(rt; by_its_bits(0x1234) == [0x80, 0x46, 0x02, 0x00]);
    assert!(rt; by_its_bytes(0x1234) == [0x00, 0x91, 0xA0, 0x00]);
    assert!(rt; from_both_ends(0x35) == [0x00, 0x00, 0x2A, 0x00]);
    assert!(rt; filled_and_asked(3, 20) == (17, None) && filled_at_literals() == 11);
}
