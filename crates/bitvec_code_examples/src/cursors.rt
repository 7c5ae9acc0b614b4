//! What a caller knows of numbers and bits that a cursor writes to its array, and of those that one reads.
ghost use Rattle.std.specs.Prelude.{◌≡◌, ◌+◌, ◌*◌, ◌%◌, ◌^◌, ◌≤◌, ◌<◌, IfOk, IsOk, OnErr, OnOk, false, length, slice_index_or, true};
ghost use Rattle.bitvec.specs.Arrays.{msb0_bits};
ghost use Rattle.bitvec.specs.Ranges.{ChangesOnly, bits_in, number_in, numbered};
ghost use Rattle.bitvec.specs.Views.{seen};
ghost use Rattle.bitvec.specs.Window.{max_bits};

use bitvec::in_place::{BitReader, BitWriter, CursorError};
use bitvec::prelude::*;
use std::alloc::Global;

/// Writes two numbers, one behind the other. The caller knows its array.
#[tactic(auto, using(bitvec::specs::Laws::fields))]
pub fn put_both(bytes: &mut [u8], first: u64, width: u32, second: u16) -> Result<(), CursorError>
    requires fits { 8 * length bytes.old ≤ max_bits }
    requires few { width ≤ 64 }
    ensures first { OnOk result (number_in true true 8 (msb0_bits 8 bytes.new) 0 width ≡ first % 2 ^ width) }
    ensures second { OnOk result (number_in true true 8 (msb0_bits 8 bytes.new) width (width + 16) ≡ second) }
    ensures refused { OnErr result (8 * length bytes.old < width + 16) }
{
    let mut writer = BitWriter::<u8, Msb0>::new(bytes);
    writer.put(first, width)?;
    writer.put(second, 16)?;
    Ok(())
}

/// Reads a number behind one that is passed.
#[tactic(auto, using(bitvec::specs::Laws::sized))]
pub fn take_second(bytes: &[u8], width: usize) -> Result<u16, CursorError>
    requires fits { 8 * length bytes.now ≤ max_bits }
    ensures number { IfOk result (λ number. number ≡ number_in true true 8 (msb0_bits 8 bytes.now) width (width + 16)) }
    ensures refused { OnErr result (8 * length bytes.now < width + 16) }
{
    let mut reader = BitReader::<u8, Msb0>::new(bytes);
    reader.skip(width)?;
    reader.take(16)
}

/// Writes two numbers and reads the second: it is the number.
#[tactic(auto, using(bitvec::specs::Laws::fields))]
pub fn round_trip(bytes: &mut [u8], first: u64, width: u32, second: u16) -> Result<u16, CursorError>
    requires fits { 8 * length bytes.old ≤ max_bits }
    requires few { width ≤ 64 }
    ensures { IfOk result (λ number. number ≡ second) }
{
    put_both(bytes, first, width, second)?;
    take_second(bytes, width as usize)
}

/// Writes a byte behind three bits that stand there, and stay.
#[tactic(auto, using(bitvec::specs::Laws::cursors))]
pub fn put_behind(bytes: &mut [u8; 2], number: u8) -> Result<(), CursorError>
    ensures accepted { IsOk result }
    ensures number { number_in true true 8 (msb0_bits 8 bytes.new) 3 11 ≡ number }
    ensures outside { ChangesOnly 3 11 (msb0_bits 8 bytes.old) (msb0_bits 8 bytes.new) }
{
    let mut writer = BitWriter::<u8, Msb0>::starting_at(bytes, 3);
    writer.put(number, 8)
}

/// Writes a flag, a number that may have no bit, and the bits of a view.
#[tactic(auto, using(bitvec::specs::Laws::cursors))]
pub fn put_record(
    bytes: &mut [u8],
    flag: bool,
    number: u16,
    width: u32,
    name: BitSlice<'_, u8, Lsb0>,
) -> Result<(), CursorError>
    requires fits { 8 * length bytes.old ≤ max_bits }
    requires few { width ≤ 16 }
    ensures flag { OnOk result (slice_index_or (msb0_bits 8 bytes.new) 0 false ≡ flag) }
    ensures number { OnOk result (number_in true true 8 (msb0_bits 8 bytes.new) 1 (1 + width) ≡ number % 2 ^ width) }
    ensures name { OnOk result (bits_in (msb0_bits 8 bytes.new) (1 + width) (1 + width + (seen name.entry).window.len) ≡ (seen name.entry).bits) }
    ensures refused { OnErr result (8 * length bytes.old < 1 + width + (seen name.entry).window.len) }
{
    let mut writer = BitWriter::<u8, Msb0>::new(bytes);
    writer.put_bit(flag)?;
    writer.put(number, width)?;
    writer.put_bits(name)
}

/// The flag and the number of such a record.
#[tactic(auto, using(bitvec::specs::Laws::cursors))]
pub fn take_record(bytes: &[u8], width: u32) -> Result<(bool, u16), CursorError>
    requires fits { 8 * length bytes.now ≤ max_bits }
    requires few { width ≤ 16 }
    ensures flag { IfOk result (λ taken. taken.0 ≡ slice_index_or (msb0_bits 8 bytes.now) 0 false) }
    ensures number { IfOk result (λ taken. taken.1 ≡ number_in true true 8 (msb0_bits 8 bytes.now) 1 (1 + width)) }
    ensures refused { OnErr result (8 * length bytes.now < 1 + width) }
{
    let mut reader = BitReader::<u8, Msb0>::new(bytes);
    let flag = reader.take_bit()?;
    Ok((flag, reader.take(width)?))
}

/// Writes a record and reads it: the flag and the number are what was written.
#[tactic(auto, using(bitvec::specs::Laws::cursors))]
pub fn record_trip(
    bytes: &mut [u8],
    flag: bool,
    number: u16,
    width: u32,
) -> Result<(bool, u16), CursorError>
    requires fits { 8 * length bytes.old ≤ max_bits }
    requires few { width ≤ 16 }
    requires valid { number < 2 ^ width }
    ensures flag { IfOk result (λ taken. taken.0 ≡ flag) }
    ensures number { IfOk result (λ taken. taken.1 ≡ number) }
{
    put_record(bytes, flag, number, width, BitSlice::from_slice(&[0xA0]))?;
    take_record(bytes, width)
}

#[test]
fn numbers_come_back(rt: HostRuntime) {
    let mut bytes = [0xFFu8; 3];
    assert!(rt; round_trip(&mut bytes, 2, 3, 0x1234) == Ok(0x1234));
    assert!(rt; bytes == [0x42, 0x46, 0x9F]);
    assert!(rt; round_trip(&mut bytes, 0, 9, 1) == Err(CursorError::Full));
    let mut reader = BitReader::<u8, Msb0>::new(&bytes);
    assert!(rt; reader.skip(20) == Ok(()) && reader.position() == 20 && reader.remaining() == 4);
    assert!(rt; reader.skip(5) == Err(CursorError::Ended));
    assert!(rt; reader.take::<u8>(5) == Err(CursorError::Ended));
    assert!(rt; reader.rest().all() && reader.take::<i8>(4) == Ok(-1));
    let mut words = [0u16; 2];
    let mut writer = BitWriter::<u16, Lsb0>::new(&mut words);
    assert!(rt; writer.put(0x3FFu16, 10) == Ok(()) && writer.put(0u8, 0) == Ok(()));
    assert!(rt; writer.position() == 10 && writer.remaining() == 22);
}

// Zeros behind three ones: 1110 0000, 0000 1111. Then 1, 0, 1 of a view, and a 0 as the last bit.
#[test]
fn bits_are_put_behind_others(rt: HostRuntime) {
    let mut bytes = [0xFFu8; 3];
    {
        let mut writer = BitWriter::<u8, Msb0>::starting_at(&mut bytes, 3);
        assert!(rt; writer.put_row(&[(3, 0), (5, 0)]) == Ok(()) && writer.put_bit(false) == Ok(()));
        assert!(rt; writer.front().count_zeros() == 9 && writer.rest().all());
        let source = BitSlice::<u8, Lsb0>::from_slice(&[0x05]).into_part(0..3);
        assert!(rt; writer.put_bits(source) == Ok(()) && writer.skip(8) == Ok(()));
        assert!(rt; writer.put_bits(source) == Err(CursorError::Full));
        assert!(rt; writer.put_row(&[(1, 0), (1, 0)]) == Err(CursorError::Full));
        assert!(rt; writer.put_bit(false) == Ok(()) && writer.position() == 24);
        assert!(rt; writer.put_bit(true) == Err(CursorError::Full));
        assert!(rt; writer.skip(1) == Err(CursorError::Full));
    }
    assert!(rt; bytes == [0xE0, 0x0B, 0xFE]);
}

#[test]
fn bits_of_a_part_are_taken(rt: HostRuntime) {
    let part = BitSlice::<u8, Msb0>::from_slice(&[0xE0, 0x0B, 0xFE]).into_part(3..15);
    let mut reader = BitReader::of_view(part);
    assert!(rt; reader.take::<u8>(8) == Ok(0) && reader.take_bit() == Ok(false));
    assert!(rt; reader.take::<u8>(0) == Ok(0) && reader.peek::<u8>(3) == Ok(5));
    match reader.take_bits(2) {
        Ok(bits) => assert!(rt; bits.first_one() == Some(0) && bits.len() == 2),
        Err(_) => assert!(rt; false),
    }
    assert!(rt; reader.take_bit() == Ok(true) && reader.position() == 12);
    assert!(rt; reader.take_bit() == Err(CursorError::Ended));
    assert!(rt; reader.peek::<u8>(1) == Err(CursorError::Ended));
    assert!(rt; reader.take_bits(1).is_err());
}

/// Whether an error prints so.
fn prints(alloc: Global, error: CursorError, text: &str) -> bool {
    match format!(in alloc; "{error}") {
        Ok(printed) => printed.as_str() == text,
        Err(_) => false,
    }
}

#[test]
fn an_error_prints_its_text(rt: HostRuntime) {
    for (error, text) in [
        (CursorError::Full, "too few bits are left to write"),
        (CursorError::Ended, "too few bits are left to read"),
    ] {
        assert!(rt; prints(rt.alloc(), error, text));
    }
}
