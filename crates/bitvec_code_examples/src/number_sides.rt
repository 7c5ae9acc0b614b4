//! What a caller knows of the number of a range by those of others.
ghost use Rattle.std.specs.Prelude.{◌≡◌, ℕ, ◌+◌, ◌-◌, ◌*◌, ◌%◌, ◌^◌, ◌<◌, ◌≤◌, ◌==◌, false, length, slice_index_or, true};
ghost use Rattle.std.specs.Int.{bit_at};
ghost use Rattle.bitvec.specs.Arrays.{lsb0_bits, msb0_bits};
ghost use Rattle.bitvec.specs.Ranges.{number_in};
ghost use Rattle.bitvec.specs.Window.{max_bits};

use bitvec::in_place;
use bitvec::prelude::*;

/// A packet's header: behind three zeros its kind in 4 bits and its size in 9. Two numbers side by side are one number, here where
/// the first bit is the highest.
#[tactic(auto, using(bitvec::specs::Laws::summed))]
pub fn header_of(kind: u8, size: u16) -> [u8; 4]
    requires { kind < 16 }
    ensures { number_in true true 8 (msb0_bits 8 result) 3 16 ≡ kind * 512 + size % 512 }
{
    let mut header = [0u8; 4];
    in_place::store_be::<u8, Msb0, u8>(&mut header, 3..7, kind);
    in_place::store_be::<u8, Msb0, u16>(&mut header, 7..16, size);
    header
}

/// And where it is the lowest.
#[tactic(auto, using(bitvec::specs::Laws::summed))]
pub fn low_then_high(low: u8, high: u16) -> [u8; 4]
    requires { low < 16 }
    ensures { number_in false false 8 (lsb0_bits 8 result) 3 16 ≡ high % 512 * 16 + low }
{
    let mut bytes = [0u8; 4];
    in_place::store_le::<u8, Lsb0, u8>(&mut bytes, 3..7, low);
    in_place::store_le::<u8, Lsb0, u16>(&mut bytes, 7..16, high);
    bytes
}

/// A number that is read in two parts.
#[tactic(auto, using(bitvec::specs::Laws::summed))]
pub fn in_two_parts(bytes: &[u8], from: usize, mid: usize, to: usize) -> (u64, u64)
    requires fits { 8 * length bytes.now ≤ max_bits }
    requires first { from < mid }
    requires second { mid < to }
    requires inside { to ≤ 8 * length bytes.now }
    requires bound { to ≤ from + 64 }
    ensures { number_in true true 8 (msb0_bits 8 bytes.now) from to ≡ result.0 * 2 ^ (to - mid) + result.1 }
{
    let high = in_place::load_be::<u8, Msb0, u64>(bytes, from..mid);
    let low = in_place::load_be::<u8, Msb0, u64>(bytes, mid..to);
    (high, low)
}

/// Each bit of a range by the range's number.
#[tactic(auto, using(bitvec::specs::Laws::summed))]
pub fn with_its_bits(bytes: &[u8; 4]) -> u16
    ensures { (place : ℕ) → 3 ≤ place → place < 16 → slice_index_or (msb0_bits 8 bytes.now) place false ≡ (bit_at result (15 - place) == 1) }
{
    in_place::load_be::<u8, Msb0, u16>(bytes, 3..16)
}

/// A bit as a number, in any order and from any end.
#[tactic(auto, using(bitvec::specs::Laws::summed, bitvec::specs::Laws::bitwise))]
pub fn one_bit(place: usize) -> [u8; 4]
    requires { place < 32 }
    ensures is { number_in true false 8 (lsb0_bits 8 result) place (place + 1) ≡ 1 }
{
    let mut bytes = [0u8; 4];
    in_place::set::<u8, Lsb0>(&mut bytes, place, true);
    bytes
}

/// A number beside a range whose bits a closure answered: it stays.
#[tactic(auto, using(bitvec::specs::Laws::fields, bitvec::specs::Laws::callable))]
pub fn beside_answers<F: FnMut(usize) -> bool>(number: u16, f: F) -> [u8; 8]
    requires { F.IsAlwaysCallable f }
    ensures { number_in false false 8 (lsb0_bits 8 result) 20 36 ≡ number }
{
    let mut bytes = [0u8; 8];
    in_place::store_le::<u8, Lsb0, u16>(&mut bytes, 20..36, number);
    in_place::fill_with::<u8, Lsb0, F>(&mut bytes, 36..50, f);
    bytes
}

#[test]
fn ranges_have_their_numbers(rt: HostRuntime) {
    assert!(rt; header_of(0b1010, 0b1_0000_0011) == [0b0001_0101, 0b0000_0011, 0, 0]);
    assert!(rt; header_of(5, 300) == [0x0B, 0x2C, 0, 0]);
    assert!(rt; low_then_high(0b1010, 0b1_0000_0011) == [0b1101_0000, 0b1000_0001, 0, 0]);
    assert!(rt; in_two_parts(&[0x12, 0x34, 0x56], 4, 9, 20) == (0x4, 0x345));
    assert!(rt; with_its_bits(&[0xFF, 0x01, 0, 0]) == 0x1F01);
    assert!(rt; one_bit(12) == [0, 0x10, 0, 0]);
    assert!(rt; beside_answers(0xFFFF, |_| true) == [0, 0, 0xF0, 0xFF, 0xFF, 0xFF, 0x03, 0]);
}
