//! Frames in bits.
ghost use Rattle.std.specs.Prelude.{◌≡◌, ℕ, ◌+◌, ◌*◌, ◌^◌, ◌<◌, ◌≤◌, ◌↔◌, ◌⊎◌, IfErr, IfNone, IfOk, IfSome, IsOk, IsTrue, List, OnErr, OnOk, length};
ghost use Rattle.bitvec.specs.Arrays.{msb0_bits};
ghost use Rattle.bitvec.specs.Cursors.{KeepsElements, limit_of, writing};
ghost use Rattle.bitvec.specs.Ranges.{ChangesOnly, bits_in};
ghost use Rattle.canframe.specs.Checksums.{crc_of};
ghost use Rattle.canframe.specs.Frames.{HasBytes, HasHeader, IsFrame, IsSealed, LacksFrame, field};
ghost use Rattle.canframe.specs.declared.fault.Fault.TheVariants.{Memory, NoFrame};

use crate::checksum::checksum;
use crate::fault::Fault;
use crate::frame::Frame;
use bitvec::in_place::{self, BitWriter, CursorError};
use bitvec::prelude::*;
use std::alloc::{AllocError, Global};

type Writer<'a> = BitWriter<'a, u8, Msb0>;

/// How many bytes a frame has beside its data.
const FRAME_BYTES: usize = 5;

/// The most bytes of data.
pub const MOST: usize = 8;

/// Writes the first fields; every other bit stays. If there is too little room, nothing is written. Conditions: nothing was
/// written before, the id has 11 bits, and there are at most 8 bytes of data.
#[tactic(auto, using(bitvec::specs::Laws::cursors))]
fn put_header(writer: &mut Writer<'_>, id: u16, count: usize) -> Result<(), CursorError>
    requires start { (writing writer.old).position ≡ 0 }
    requires valid { id < 2 ^ 11 }
    requires few { count ≤ 8 }
    ensures header { OnOk result (HasHeader (writing writer.new).bits id count) }
    ensures position { OnOk result ((writing writer.new).position ≡ 19) }
    ensures refused { OnErr result (limit_of writer.old < 19) }
    ensures elements { KeepsElements writer.old writer.new result }
{
    writer.put_row(&[
        (1, 0),
        (11, u64::from(id)),
        (1, 0),
        (1, 0),
        (1, 0),
        (4, count as u64),
    ])?;
    Ok(())
}

/// Writes the data behind the first fields; every other bit stays. If there is too little room, nothing is written. Condition:
/// those were written.
#[tactic(auto, using(bitvec::specs::Laws::fields, bitvec::specs::Laws::bitwise))]
fn put_bytes(writer: &mut Writer<'_>, bytes: &[u8]) -> Result<(), CursorError>
    requires start { (writing writer.old).position ≡ 19 }
    ensures header { OnOk result ((id count : ℕ) → HasHeader (writing writer.old).bits id count → HasHeader (writing writer.new).bits id count) }
    ensures bytes { OnOk result (HasBytes (writing writer.new).bits (length bytes.now) bytes.now) }
    ensures position { OnOk result ((writing writer.new).position ≡ 19 + 8 * length bytes.now) }
    ensures outside { OnOk result (ChangesOnly 19 (19 + 8 * length bytes.now) (writing writer.old).bits (writing writer.new).bits) }
    ensures refused { OnErr result (limit_of writer.old < 19 + 8 * length bytes.now) }
    ensures elements { KeepsElements writer.old writer.new result }
{
    if writer.remaining() / 8 < bytes.len() {
        return Err(CursorError::Full);
    }
    for byte in bytes {
        writer.put(*byte, 8)?;
    }
    Ok(())
}

/// The checksum of all bits that were written.
#[tactic(auto, using(bitvec::specs::Laws::fronts, bitvec::specs::Laws::worded))]
fn checksum_of(writer: &Writer<'_>) -> u16
    ensures value { result ≡ crc_of (bits_in (writing writer.now).bits 0 (writing writer.now).position) }
    ensures small { result < 2 ^ 15 }
{
    checksum(writer.front())
}

/// Writes the checksum of all bits that were written, and zeros to fill the byte; every other bit stays. If there is too
/// little room, nothing is written. Condition: the first fields were written.
#[tactic(auto, using(bitvec::specs::Laws::cursors))]
fn put_checksum(writer: &mut Writer<'_>) -> Result<(), CursorError>
    requires behind { 19 ≤ (writing writer.old).position }
    ensures header { OnOk result ((id count : ℕ) → HasHeader (writing writer.old).bits id count → HasHeader (writing writer.new).bits id count) }
    ensures bytes { OnOk result ((count : ℕ) (bytes : List ℕ) → HasBytes (writing writer.old).bits count bytes → 19 + 8 * count ≤ (writing writer.old).position → HasBytes (writing writer.new).bits count bytes) }
    ensures sealed { OnOk result (IsSealed (writing writer.new).bits (writing writer.old).position) }
    ensures refused { OnErr result (limit_of writer.old < (writing writer.old).position + 21) }
    ensures elements { KeepsElements writer.old writer.new result }
{
    if writer.remaining() < 21 {
        return Err(CursorError::Full);
    }
    let checksum = checksum_of(writer);
    writer.put(checksum, 15)?;
    writer.put(0u8, 6)?;
    Ok(())
}

/// Writes a frame to bytes. Conditions: the id has 11 bits, there are at most 8 bytes of data, and the bytes are as many as
/// the frame has.
#[tactic(auto, using(bitvec::specs::Laws::fields, bitvec::specs::Laws::sized))]
fn put_frame(frame: &mut [u8], id: u16, bytes: &[u8]) -> Result<(), CursorError>
    requires valid { id < 2 ^ 11 }
    requires few { length bytes.now ≤ 8 }
    requires room { length frame.old ≡ 5 + length bytes.now }
    ensures accepted { IsOk result }
    ensures frame { OnOk result (IsFrame (msb0_bits 8 frame.new) id bytes.now) }
{
    let mut writer = Writer::new(frame);
    put_header(&mut writer, id, bytes.len())?;
    put_bytes(&mut writer, bytes)?;
    put_checksum(&mut writer)?;
    Ok(())
}

/// The bytes of the frame of an id and data. Conditions: the id has 11 bits, and there are at most 8 bytes of data.
pub fn encode(alloc: Global, id: u16, bytes: &[u8]) -> Result<Vec<u8>, Fault>
    requires valid { id < 2 ^ 11 }
    requires few { length bytes.now ≤ 8 }
    ensures frame { IfOk result (λ frame. IsFrame (msb0_bits 8 frame.items) id bytes.now) }
    ensures fault { IfErr result (λ fault. fault ≡ Memory) }
{
    let mut frame = vec![in alloc; 0u8; FRAME_BYTES + bytes.len()]?;
    put_frame(frame.as_mut_slice(), id, bytes).or(Err(Fault::Memory))?;
    Ok(frame)
}

/// The number of a range of a frame. Conditions: the frame has at most 13 bytes, and the range has 1 to 16 of their bits.
fn number(frame: &[u8], from: usize, to: usize) -> u16
    requires fits { length frame.now ≤ 13 }
    requires some { from < to }
    requires inside { to ≤ 8 * length frame.now }
    requires few { to ≤ from + 16 }
    ensures { result ≡ field (msb0_bits 8 frame.now) from to }
{
    in_place::load_be::<u8, Msb0, u16>(frame, from..to)
}

/// What the first fields of a frame say: its id, and how many bytes of data it brings. `None` if the bytes can't be one.
#[tactic(auto, using(bitvec::specs::Laws::fields, bitvec::specs::Laws::sized, crate::proofs::FrameLaws::heading))]
fn header_of(frame: &[u8]) -> Option<(u16, usize)>
    ensures header { IfSome result (λ it. HasHeader (msb0_bits 8 frame.now) it.0 it.1) }
    ensures valid { IfSome result (λ it. it.0 < 2 ^ 11) }
    ensures few { IfSome result (λ it. it.1 ≤ 8) }
    ensures long { IfSome result (λ it. length frame.now ≡ 5 + it.1) }
    ensures none { IfNone result (LacksFrame (msb0_bits 8 frame.now)) }
{
    if frame.len() < FRAME_BYTES || frame.len() > FRAME_BYTES + MOST {
        return None;
    }
    if number(frame, 0, 1) != 0
        || number(frame, 12, 13) != 0
        || number(frame, 13, 14) != 0
        || number(frame, 14, 15) != 0
    {
        return None;
    }
    let count = usize::from(number(frame, 15, 19));
    if frame.len() == FRAME_BYTES + count {
        Some((number(frame, 1, 12), count))
    } else {
        None
    }
}

/// Whether the checksum of so many bytes of data and what stands before them, and then zeros, stand behind them. Condition:
/// the frame has so many bytes of data, at most 8.
#[tactic(auto, using(bitvec::specs::Laws::worded))]
fn is_sealed(frame: &[u8], count: usize) -> bool
    requires few { count ≤ 8 }
    requires long { length frame.now ≡ 5 + count }
    ensures { IsTrue result ↔ IsSealed (msb0_bits 8 frame.now) (19 + 8 * count) }
{
    let end = 19 + 8 * count;
    let last = end + 15;
    let front = BitSlice::<u8, Msb0>::from_slice(frame).into_part(0..end);
    number(frame, end, last) == checksum(front) && number(frame, last, last + 6) == 0
}

/// The data of a frame. Condition: it has so many bytes of data, at most 8.
#[tactic(auto, using(bitvec::specs::Laws::fields, bitvec::specs::Laws::sized))]
fn take_bytes(alloc: Global, frame: &[u8], count: usize) -> Result<Vec<u8>, AllocError>
    requires few { count ≤ 8 }
    requires long { length frame.now ≡ 5 + count }
    ensures bytes { IfOk result (λ bytes. HasBytes (msb0_bits 8 frame.now) count bytes.items) }
    ensures many { IfOk result (λ bytes. length bytes.items ≡ count) }
{
    let mut bytes = Vec::new(alloc);
    for place in 0..count {
        bytes.push(number(frame, 19 + 8 * place, 27 + 8 * place) as u8)?;
    }
    Ok(bytes)
}

/// The id and the data of the frame that the bytes are. `NoFrame` if they are none.
#[tactic(auto, using(bitvec::specs::Laws::sized, crate::proofs::FrameLaws::reading))]
pub fn decode(alloc: Global, frame: &[u8]) -> Result<Frame, Fault>
    ensures frame { IfOk result (λ it. IsFrame (msb0_bits 8 frame.now) it.id it.bytes.items) }
    ensures fault { IfErr result (λ fault. (fault ≡ Memory) ⊎ ((fault ≡ NoFrame) × LacksFrame (msb0_bits 8 frame.now))) }
{
    let (id, count) = header_of(frame).ok_or(Fault::NoFrame)?;
    if !is_sealed(frame, count) {
        return Err(Fault::NoFrame);
    }
    let bytes = take_bytes(alloc, frame, count)?;
    Ok(Frame { id, bytes })
}

/// The frame of an id and data, read again: they are what it brings. Only memory can fail. Conditions: as for [`encode`].
#[tactic(auto, using(crate::proofs::FrameLaws::returning))]
pub fn round_trip(alloc: Global, id: u16, bytes: &[u8]) -> Result<Frame, Fault>
    requires valid { id < 2 ^ 11 }
    requires few { length bytes.now ≤ 8 }
    ensures id { IfOk result (λ frame. frame.id ≡ id) }
    ensures bytes { IfOk result (λ frame. frame.bytes.items ≡ bytes.now) }
    ensures fault { IfErr result (λ fault. fault ≡ Memory) }
{
    let frame = encode(alloc, id, bytes)?;
    decode(alloc, frame.as_slice())
}
