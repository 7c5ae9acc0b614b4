//! What a caller knows of bytes by their bits.
ghost use Rattle.std.specs.Prelude.{◌≡◌, ℕ, ◌+◌, ◌-◌, ◌*◌, ◌≤◌, ◌<◌, ◌++◌, Bool, IfOk, IsTrue, List, OnOk, [], ◌∷◌, false, length, replicate, slice_index, take, true};
ghost use Rattle.bitvec.specs.Arrays.{lsb0_bits, msb0_bits};
ghost use Rattle.bitvec.specs.Copies.{Holds};
ghost use Rattle.bitvec.specs.Owned.{owned};
ghost use Rattle.bitvec.specs.Segments.{segment_bits};
ghost use Rattle.bitvec.specs.Width.{FitWidth};
ghost use Rattle.bitvec.specs.Window.{max_bits};

use bitvec::in_place;
use bitvec::prelude::*;
use std::alloc::{AllocError, Global};

/// Adds a byte: its bits come behind those of the others.
#[tactic(auto, using(bitvec::specs::Laws::bytes))]
pub fn push_byte(bytes: &mut Vec<u8, Global>, byte: u8) -> Result<(), AllocError>
    ensures { OnOk result (lsb0_bits 8 bytes.new.items ≡ lsb0_bits 8 bytes.old.items ++ segment_bits false 8 byte) }
{
    bytes.push(byte)?;
    Ok(())
}

/// The byte at an index, by its bits. Condition: there is one, and there are at most `MAX_BITS` bits.
#[tactic(auto, using(bitvec::specs::Laws::bytes))]
pub fn byte_at(bytes: &[u8], index: usize) -> u8
    requires fits { 8 * length bytes.now ≤ max_bits }
    requires bound { index < length bytes.now }
    ensures { result ≡ slice_index bytes.now index }
{
    in_place::load_be::<u8, Msb0, u8>(bytes, 8 * index..8 * index + 8)
}

/// A mark and nine bits of a number behind it.
#[tactic(auto, using(bitvec::specs::Laws::grown))]
fn marked_bits(alloc: Global, number: u16) -> Result<BitVec<u8, Lsb0, Global>, AllocError>
    ensures { IfOk result (λ bits. Holds 8 (true ∷ segment_bits true 9 number) 0 (owned bits)) }
{
    let mut bits = BitVec::new_in(alloc);
    bits.push(true)?;
    bits.extend_highest_first(u64::from(number), 9)?;
    Ok(bits)
}

/// A mark and nine bits of a number in whole bytes, with zeros behind them.
#[tactic(auto, using(bitvec::specs::Laws::grown, bitvec::specs::Laws::segmented))]
pub fn marked(alloc: Global, number: u16) -> Result<Vec<u8, Global>, AllocError>
    ensures { IfOk result (λ bytes. lsb0_bits 8 bytes.items
        ≡ (true ∷ segment_bits true 9 number) ++ replicate (8 * length bytes.items - 10) false) }
{
    Ok(marked_bits(alloc, number)?.into_elements())
}

/// The bytes of a sequence: its bits from their first one on, with zeros behind them.
#[tactic(auto, using(bitvec::specs::Laws::grown))]
pub fn raw_bytes(bits: &BitVec<u8, Lsb0, Global>) -> &[u8]
    ensures { (list : List Bool) → Holds 8 list 0 (owned bits.now) → lsb0_bits 8 result.now ≡ list ++ replicate (8 * length result.now - length list) false }
{
    bits.as_raw_slice()
}

/// Whether three bytes have the same four digits of six bits, and so are the same.
#[tactic(auto, using(bitvec::specs::Laws::bytes))]
pub fn have_same_digits(left: &[u8; 3], right: &[u8; 3]) -> bool
    ensures { IsTrue result → left.now ≡ right.now }
{
    for place in 0..4 {
        let from = 6 * place;
        let digit = in_place::load_be::<u8, Msb0, u8>(left, from..from + 6);
        if in_place::load_be::<u8, Msb0, u8>(right, from..from + 6) != digit {
            return false;
        }
    }
    true
}

/// Whether bytes are added and read, and a number is in whole bytes.
fn are_made(alloc: Global) -> Result<bool, AllocError> {
    let bits = marked_bits(alloc, 0b1_0110_1001)?;
    if raw_bytes(&bits) != [0x5B, 0x02].as_slice() {
        return Ok(false);
    }
    let mut bytes = marked(alloc, 0b1_0110_1001)?;
    push_byte(&mut bytes, 0xA5)?;
    Ok(bytes.as_slice() == [0x5B, 0x02, 0xA5].as_slice() && byte_at(bytes.as_slice(), 2) == 0xA5)
}

// 1 and 1 0110 1001, then zeros: 1101 1010 0100 0000 from the first bit on.
#[test]
fn bytes_are_their_bits(rt: HostRuntime) {
    assert!(rt; are_made(rt.alloc()) == Ok(true));
    assert!(rt;
        have_same_digits(&[1, 2, 3], &[1, 2, 3]) && !have_same_digits(&[1, 2, 3], &[1, 2, 67])
    );
}
