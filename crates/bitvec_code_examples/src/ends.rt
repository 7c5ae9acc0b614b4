//! What a caller knows of numbers that cursors read and write from the end that isn't the order's own.
ghost use Rattle.std.specs.Prelude.{◌≡◌, ◌+◌, ◌*◌, ◌≤◌, ◌<◌, ◌^◌, ◌++◌, IfOk, OnOk, OnErr, drop, false, length, take, true};
ghost use Rattle.std.specs.Int.{from_bool};
ghost use Rattle.bitvec.specs.Arrays.{lsb0_bits};
ghost use Rattle.bitvec.specs.Cursors.{left_of, reading, writing};
ghost use Rattle.bitvec.specs.Segments.{segment_bits, segment_number};
ghost use Rattle.bitvec.specs.Window.{max_bits};

use bitvec::in_place::{BitReader, BitWriter, CursorError};
use bitvec::prelude::*;

/// A code of seven bits, the highest first, and three more, the lowest first: what they say, and what is left.
#[tactic(auto, using(bitvec::specs::Laws::segmented))]
pub fn take_code(reader: &mut BitReader<'_, u8, Lsb0>) -> Result<(u8, u8), CursorError>
    ensures code { IfOk result (λ code. code.0 ≡ segment_number true (take 7 (left_of (reading reader.old)))) }
    ensures more { IfOk result (λ code. code.1 ≡ segment_number false (take 3 (drop 7 (left_of (reading reader.old))))) }
    ensures left { IfOk result (λ code. left_of (reading reader.new) ≡ drop 3 (drop 7 (left_of (reading reader.old)))) }
{
    let code = reader.take_highest_first(7)?;
    let more = reader.take(3)?;
    Ok((code, more))
}

/// Writes a code of up to 16 bits, the highest of them first.
#[tactic(auto, using(bitvec::specs::Laws::segmented))]
pub fn put_code(bytes: &mut [u8; 2], code: u16, len: u32) -> Result<(), CursorError>
    requires { len ≤ 16 }
    ensures { OnOk result (take len (lsb0_bits 8 bytes.new) ≡ segment_bits true len code) }
{
    BitWriter::<u8, Lsb0>::new(bytes).put_highest_first(code, len)
}

/// The code of so many bits with which bytes begin.
#[tactic(auto, using(bitvec::specs::Laws::segmented))]
pub fn first_code(bytes: &[u8; 2], len: u32) -> Result<u16, CursorError>
    requires { len ≤ 16 }
    ensures { IfOk result (λ code. code ≡ segment_number true (take len (lsb0_bits 8 bytes.now))) }
{
    BitReader::<u8, Lsb0>::new(bytes).take_highest_first(len)
}

/// Writes a code and reads it: it is the code. Condition: it has so many bits.
#[tactic(auto, using(bitvec::specs::Laws::segmented))]
pub fn code_trip(bytes: &mut [u8; 2], code: u16, len: u32) -> Result<u16, CursorError>
    requires few { len ≤ 16 }
    requires code { code < 2 ^ len }
    ensures { IfOk result (λ it. it ≡ code) }
{
    put_code(bytes, code, len)?;
    first_code(bytes, len)
}

/// A code with one bit more behind it. Condition: it has fewer than 16, the first ones of a slice.
#[tactic(auto, using(bitvec::specs::Laws::segmented))]
pub fn one_more(bits: &[u16], len: usize, code: u16, bit: bool) -> u16
    requires few { len < 16 }
    requires code { code ≡ segment_number true (take len (lsb0_bits 16 bits.now)) }
    ensures { result ≡ 2 * code + from_bool bit }
{
    2 * code + u16::from(bit)
}

// 1011 0011 1000 0000 from the first bit on, and 1011 0001.
#[test]
fn codes_are_taken_from_either_end(rt: HostRuntime) {
    let mut reader = BitReader::<u8, Lsb0>::new(&[0xCD, 0x01]);
    assert!(rt; take_code(&mut reader) == Ok((0b1011001, 0b011)) && reader.position() == 10);
    assert!(rt;
        reader.peek_highest_first::<u8>(6) == Ok(0) && reader.peek_lowest_first::<u8>(0) == Ok(0)
    );
    assert!(rt; reader.take_lowest_first::<u8>(7) == Err(CursorError::Ended));
    assert!(rt; reader.take_highest_first::<u8>(7) == Err(CursorError::Ended));
    assert!(rt;
        reader.take_lowest_first::<i8>(6) == Ok(0) && reader.take_highest_first::<u8>(0) == Ok(0)
    );
    let mut other = BitReader::<u8, Msb0>::new(&[0b1011_0001]);
    assert!(rt;
        other.peek_lowest_first::<u8>(4) == Ok(0b1101)
            && other.take_lowest_first::<u8>(5) == Ok(0b01101)
    );
    assert!(rt;
        other.take_highest_first::<i8>(1) == Ok(0) && other.take_highest_first::<i8>(2) == Ok(1)
    );
}

// 11, then 10110, then 01101, then 111, and a zero: 1110 1100 1101 1110 from the first bit on.
#[test]
fn codes_are_put_from_either_end(rt: HostRuntime) {
    let mut bytes = [0xFFu8, 0];
    {
        let mut writer = BitWriter::<u8, Lsb0>::starting_at(&mut bytes, 2);
        assert!(rt; writer.put_highest_first(0b10110u8, 5) == Ok(()) && writer.position() == 7);
        assert!(rt; writer.put_lowest_first(0b10110u8, 5) == Ok(()) && writer.position() == 12);
        assert!(rt; writer.put_highest_first(0u8, 5) == Err(CursorError::Full));
        assert!(rt; writer.put_lowest_first(-1i8, 5) == Err(CursorError::Full));
        assert!(rt;
            writer.put_highest_first(-1i8, 3) == Ok(()) && writer.put_lowest_first(9u8, 0) == Ok(())
        );
    }
    assert!(rt; bytes == [0x37, 0x7B]);
    assert!(rt; code_trip(&mut bytes, 0x155, 9) == Ok(0x155) && bytes == [0x55, 0x7B]);
}
