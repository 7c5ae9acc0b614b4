//! What a caller knows of an array after one edit of a range, of a bit that may lie past the end, and of counts.
ghost use Rattle.std.specs.Prelude.{◌≡◌, ℕ, ◌+◌, ◌*◌, ◌≤◌, false, length, replicate, slice_index_or, slice_set, true};
ghost use Rattle.bitvec.specs.Arrays.{lsb0_bits, msb0_bits};
ghost use Rattle.bitvec.specs.Ranges.{ChangesOnly};
ghost use Rattle.bitvec.specs.Views.{seen_mut};
ghost use Rattle.bitvec.specs.Window.{max_bits};
ghost use Rattle.bitvec.specs.Writes.{WritesBits};

use bitvec::in_place;
use bitvec::prelude::*;

/// Writes a digit of six bits at its place. Condition: the bytes have it, and at most `MAX_BITS` bits.
#[tactic(auto, using(bitvec::specs::Laws::composed))]
pub fn put_digit(bytes: &mut [u8], place: usize, digit: u8)
    requires fits { 8 * length bytes.old ≤ max_bits }
    requires inside { 6 * place + 6 ≤ 8 * length bytes.old }
    ensures { ChangesOnly (6 * place) (6 * place + 6) (msb0_bits 8 bytes.old) (msb0_bits 8 bytes.new) }
{
    in_place::store_be::<u8, Msb0, u8>(bytes, 6 * place..6 * place + 6, digit);
}

/// Fills nine bits.
#[tactic(auto, using(bitvec::specs::Laws::composed))]
pub fn fill_nine(bytes: &mut [u8; 4])
    ensures { ChangesOnly 3 12 (msb0_bits 8 bytes.old) (msb0_bits 8 bytes.new) }
{
    in_place::fill::<u8, Msb0>(bytes, 3..12, true);
}

/// Twice as many ones as a range of ten bits can have are at most 20.
#[tactic(auto, using(bitvec::specs::Laws::counted))]
pub fn doubled_count(words: &[u32; 2], from: usize) -> u8
    requires { from ≤ 54 }
    ensures { result ≤ 20 }
{
    let count = in_place::count_ones::<u32, Lsb0>(words, from..from + 10);
    2 * count as u8
}

/// A map of 2,048 places of which one is taken.
#[tactic(auto, using(bitvec::specs::Laws::zeroed))]
pub fn with_root() -> [u64; 32]
    ensures { lsb0_bits 64 result ≡ slice_set (replicate 2048 false) 1 true }
{
    let mut map = [0u64; 32];
    in_place::set::<u64, Lsb0>(&mut map, 1, true);
    map
}

/// Clears a bit: no bit that was 0 is 1 afterwards.
#[tactic(auto, using(bitvec::specs::Laws::written))]
pub fn clear(bits: &mut [u8; 4], index: usize)
    requires { index ≤ 31 }
    ensures { (k : ℕ) → slice_index_or (lsb0_bits 8 bits.old) k false ≡ false → slice_index_or (lsb0_bits 8 bits.new) k false ≡ false }
{
    in_place::set::<u8, Lsb0>(bits, index, false);
}

#[test]
fn one_edit_stays_in_its_range(rt: HostRuntime) {
    let mut bytes = [0u8; 4];
    put_digit(&mut bytes, 1, 0x3F);
    assert!(rt; bytes == [0x03, 0xF0, 0, 0]);
    fill_nine(&mut bytes);
    assert!(rt; bytes == [0x1F, 0xF0, 0, 0]);
    clear(&mut bytes, 0);
    assert!(rt; bytes == [0x1E, 0xF0, 0, 0]);
    assert!(rt; doubled_count(&[0, u32::MAX], 30) == 16 && with_root()[0] == 2);
}
