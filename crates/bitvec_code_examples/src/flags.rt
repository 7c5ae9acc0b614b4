//! What a caller knows of truth values that stand in an array as numbers of one bit.
ghost use Rattle.std.specs.Prelude.{◌≡◌, ◌*◌, ◌≤◌, IfOk, OnOk, length, true};
ghost use Rattle.std.specs.Int.{from_bool};
ghost use Rattle.bitvec.specs.Arrays.{msb0_bits};
ghost use Rattle.bitvec.specs.Ranges.{number_in};
ghost use Rattle.bitvec.specs.Segments.{segment_bits};
ghost use Rattle.bitvec.specs.Window.{max_bits, write_at};

use bitvec::in_place::{BitReader, BitWriter, CursorError};
use bitvec::prelude::*;

/// Writes two flags as numbers.
#[tactic(auto, using(bitvec::specs::Laws::cursors))]
pub fn put_flags(byte: &mut [u8; 1], urgent: bool, last: bool) -> Result<(), CursorError>
    ensures urgent { OnOk result (number_in true true 8 (msb0_bits 8 byte.new) 0 1 ≡ from_bool urgent) }
    ensures last { OnOk result (number_in true true 8 (msb0_bits 8 byte.new) 1 2 ≡ from_bool last) }
{
    let mut writer = BitWriter::<u8, Msb0>::new(byte);
    writer.put(u8::from(urgent), 1)?;
    writer.put(u8::from(last), 1)
}

/// Writes two flags and reads them: they come back.
#[tactic(auto, using(bitvec::specs::Laws::cursors))]
pub fn flags_trip(urgent: bool, last: bool) -> Result<(bool, bool), CursorError>
    ensures urgent { IfOk result (λ taken. taken.0 ≡ urgent) }
    ensures last { IfOk result (λ taken. taken.1 ≡ last) }
{
    let mut byte = [0u8];
    put_flags(&mut byte, urgent, last)?;
    let mut reader = BitReader::<u8, Msb0>::new(&byte);
    let first = reader.take::<u8>(1)?;
    let second = reader.take::<u8>(1)?;
    Ok((first == 1, second == 1))
}

/// Writes the lowest bits of a number, the highest of them first. Condition: there are as many.
#[tactic(auto, using(bitvec::specs::Laws::segmented))]
pub fn put_code(bytes: &mut [u8], code: u16, len: u32) -> Result<(), CursorError>
    requires fits { 8 * length bytes.old ≤ max_bits }
    requires few { len ≤ 16 }
    ensures { OnOk result (msb0_bits 8 bytes.new ≡ write_at (msb0_bits 8 bytes.old) 0 (segment_bits true len code)) }
{
    let mut writer = BitWriter::<u8, Msb0>::new(bytes);
    writer.put(code, len)
}

#[test]
fn flags_come_back(rt: HostRuntime) {
    assert!(rt; flags_trip(true, false) == Ok((true, false)));
    let mut bytes = [0xFFu8];
    assert!(rt; put_code(&mut bytes, 0b101, 4) == Ok(()) && bytes == [0b0101_1111]);
}
