//! The header of a packet: eight fields that are written as one row, and read one by one.
ghost use Rattle.std.specs.Prelude.{◌≡◌, ◌*◌, ◌<◌, ◌≤◌, IfOk, OnErr, OnOk, length, slice_index, true};
ghost use Rattle.bitvec.specs.Arrays.{msb0_bits};
ghost use Rattle.bitvec.specs.Ranges.{ChangesOnly, number_in};
ghost use Rattle.bitvec.specs.Window.{max_bits};
ghost use Rattle.bitvec_code_examples.specs.Headers.{FitsHeader, HasHeader};

use bitvec::in_place::{self, BitReader, BitWriter, CursorError};
use bitvec::prelude::*;

/// The first fields of a packet of the Internet Protocol.
#[derive(Clone, Copy, Debug, Drop, PartialEq)]
pub struct Header {
    pub version: u8,
    pub words: u8,
    pub service: u8,
    pub mark: u8,
    pub len: u16,
    pub id: u16,
    pub flags: u8,
    pub offset: u16,
}

/// Writes the fields to the first 64 bits; every other bit stays. Conditions: the buffer has at most `MAX_BITS` bits, and
/// each field fits its bits.
#[tactic(auto, using(bitvec::specs::Laws::cursors))]
pub fn encode(bytes: &mut [u8], header: Header) -> Result<(), CursorError>
    requires fits { 8 * length bytes.old ≤ max_bits }
    requires fields { FitsHeader header.version header.words header.service header.mark header.flags header.offset }
    ensures header { OnOk result (HasHeader (msb0_bits 8 bytes.new) header.version header.words header.service header.mark header.len header.id header.flags header.offset) }
    ensures outside { ChangesOnly 0 64 (msb0_bits 8 bytes.old) (msb0_bits 8 bytes.new) }
    ensures refused { OnErr result (length bytes.old < 8) }
{
    BitWriter::<u8, Msb0>::new(bytes).put_row(&[
        (4, u64::from(header.version)),
        (4, u64::from(header.words)),
        (6, u64::from(header.service)),
        (2, u64::from(header.mark)),
        (16, u64::from(header.len)),
        (16, u64::from(header.id)),
        (3, u64::from(header.flags)),
        (13, u64::from(header.offset)),
    ])?;
    Ok(())
}

/// The fields that stand in the first 64 bits. Condition: the buffer has at most `MAX_BITS` bits.
#[tactic(auto, using(bitvec::specs::Laws::cursors))]
pub fn decode(bytes: &[u8]) -> Result<Header, CursorError>
    requires { 8 * length bytes.now ≤ max_bits }
    ensures header { IfOk result (λ header. HasHeader (msb0_bits 8 bytes.now) header.version header.words header.service header.mark header.len header.id header.flags header.offset) }
    ensures refused { OnErr result (length bytes.now < 8) }
{
    let mut reader = BitReader::<u8, Msb0>::new(bytes);
    Ok(Header {
        version: reader.take(4)?,
        words: reader.take(4)?,
        service: reader.take(6)?,
        mark: reader.take(2)?,
        len: reader.take(16)?,
        id: reader.take(16)?,
        flags: reader.take(3)?,
        offset: reader.take(13)?,
    })
}

/// The two halves of a byte and the number of the two bytes behind it, read as one row.
#[tactic(auto, using(bitvec::specs::Laws::cursors))]
pub fn halves_and_number(bytes: &[u8; 3]) -> Result<[u64; 3], CursorError>
    ensures { IfOk result (λ numbers. (slice_index numbers 0 ≡ number_in true true 8 (msb0_bits 8 bytes.now) 0 4)
        × (slice_index numbers 1 ≡ number_in true true 8 (msb0_bits 8 bytes.now) 4 8)
        × (slice_index numbers 2 ≡ number_in true true 8 (msb0_bits 8 bytes.now) 8 24)) }
{
    let mut row = [(4, 0), (4, 0), (16, 0)];
    BitReader::<u8, Msb0>::new(bytes).take_row(&mut row)?;
    Ok([row[0].1, row[1].1, row[2].1])
}

/// Writes the fields and reads one of them where it stands.
#[tactic(auto, using(bitvec::specs::Laws::cursors))]
pub fn id_of(bytes: &mut [u8; 8], header: Header) -> Result<u16, CursorError>
    requires { FitsHeader header.version header.words header.service header.mark header.flags header.offset }
    ensures { IfOk result (λ id. id ≡ header.id) }
{
    encode(bytes, header)?;
    Ok(in_place::load_be::<u8, Msb0, u16>(bytes, 32..48))
}

// 4 and 5, then 46 and 2, 0x1234, 0xABCD, 2 and 0x123.
#[test]
fn headers_come_back(rt: HostRuntime) {
    let header = Header {
        version: 4,
        words: 5,
        service: 46,
        mark: 2,
        len: 0x1234,
        id: 0xABCD,
        flags: 2,
        offset: 0x123,
    };
    let mut bytes = [0u8; 8];
    assert!(rt; id_of(&mut bytes, header) == Ok(0xABCD));
    assert!(rt; bytes == [0x45, 0xBA, 0x12, 0x34, 0xAB, 0xCD, 0x41, 0x23]);
    assert!(rt; decode(&bytes) == Ok(header));
    assert!(rt; decode(&bytes[..7]) == Err(CursorError::Ended));
    assert!(rt; halves_and_number(&[0x45, 0xBA, 0x12]) == Ok([4, 5, 0xBA12]));
}

/// A row put into the bits 4 up to 20, and a bit behind it.
fn put_within(bytes: &mut [u8; 3]) -> [Result<(), CursorError>; 2] {
    let mut writer = BitWriter::<u8, Msb0>::within(bytes, 4..20);
    [writer.put_row(&[(4, 5), (12, 0x123)]), writer.put_bit(true)]
}

/// A row of too many bits, and what stands in it afterwards.
fn take_too_many(bytes: &[u8; 3]) -> (Result<(), CursorError>, [(u32, u64); 2]) {
    let mut row = [(20, 1), (5, 2)];
    let taken = BitReader::<u8, Msb0>::new(bytes).take_row(&mut row);
    (taken, row)
}

#[test]
fn rows_have_limits(rt: HostRuntime) {
    let mut bytes = [0xFFu8; 3];
    assert!(rt; put_within(&mut bytes) == [Ok(()), Err(CursorError::Full)]);
    assert!(rt; bytes == [0xF5, 0x12, 0x3F]);
    assert!(rt; take_too_many(&bytes) == (Err(CursorError::Ended), [(20, 1), (5, 2)]));
}
