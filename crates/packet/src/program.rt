//! The whole program, but for what a process is.
ghost use Rattle.std.specs.Prelude.{◌≡◌, ◌⊎◌, IfErr, IfOk, map, string_bytes};
ghost use Rattle.std.specs.Io.KnownBytes.{Appends};
ghost use Rattle.packet.specs.Arguments.{named};
ghost use Rattle.packet.specs.Faults.{fault_text, status_of};
ghost use Rattle.packet.specs.Program.{Ends, HasFault, IsChanged, IsRead, PacketFault, PrintsAsked, PrintsFields, PrintsPacket, ReadFault};
ghost use Rattle.packet.specs.Texts.{line_of};

use crate::arguments::{Assignment, parse_arguments};
use crate::changes::set_fields;
use crate::digits::{parse_packet, print_packet};
use crate::fault::Fault;
use crate::header::{Header, read_header};
use crate::input::read_bytes;
use crate::print::{print_fault, print_fields};
use crate::resolve::resolve;
use std::alloc::Allocator;
use std::io::{Read, Write};

/// The status where the output can't be written.
const OUTPUT_FAILED: u8 = 1;

/// A packet, and its headers.
#[derive(Drop)]
pub struct Packet<A: Allocator> {
    pub(crate) bytes: Vec<u8, A>,
    pub(crate) header: Header<A>,
}

/// The packet of the input.
fn read_packet<A: Allocator + Copy, R: Read>(alloc: A, input: &mut R) -> Result<Packet<A>, Fault>
    ensures packet { IfOk result (IsRead (R.remaining input.old) (R.remaining input.new)) }
    ensures fault { IfErr result (ReadFault (R.remaining input.old) (R.remaining input.new)) }
{
    let text = read_bytes(alloc, input)?;
    let bytes = parse_packet(alloc, text.as_slice())?;
    let header = read_header(alloc, bytes.as_slice())?;
    Ok(Packet { bytes, header })
}

/// The packet of the input with the fields that are assigned.
fn change_packet<A: Allocator + Copy, R: Read>(
    alloc: A,
    assignments: &[Assignment<'_>],
    input: &mut R,
) -> Result<Vec<u8, A>, Fault>
    ensures packet { IfOk result (λ bytes. IsChanged (map named assignments.now) (R.remaining input.old) (R.remaining input.new) bytes.items) }
    ensures fault { IfErr result (PacketFault (map named assignments.now) (R.remaining input.old) (R.remaining input.new)) }
{
    let Packet { mut bytes, header } = read_packet(alloc, input)?;
    let changes = resolve(alloc, header.fields.as_slice(), assignments)?;
    set_fields(
        &header.layout,
        &header.words,
        changes.as_slice(),
        bytes.as_mut_slice(),
    );
    Ok(bytes)
}

/// Prints why there is no packet. The result is the status.
fn report<W: Write>(output: &mut W, fault: Fault) -> u8
    ensures { (result ≡ OUTPUT_FAILED) ⊎ ((result ≡ status_of fault)
        × Appends (W.contents output.old) (W.contents output.new) (line_of (fault_text fault))) }
{
    match print_fault(output, fault) {
        Ok(()) => fault.status(),
        Err(_) => OUTPUT_FAILED,
    }
}

/// Prints the fields of the packet of the input. The result is the status.
fn show<A: Allocator + Copy, R: Read, W: Write>(alloc: A, input: &mut R, output: &mut W) -> u8
    ensures { Ends (PrintsFields (R.remaining input.old) (R.remaining input.new) (W.contents output.old) (W.contents output.new))
        (ReadFault (R.remaining input.old) (R.remaining input.new)) (W.contents output.old) (W.contents output.new) result }
{
    match read_packet(alloc, input) {
        Ok(packet) => match print_fields(output, &packet.header, packet.bytes.as_slice()) {
            Ok(()) => 0,
            Err(_) => OUTPUT_FAILED,
        },
        Err(fault) => report(output, fault),
    }
}

/// Prints the packet of the input with the fields that are assigned. The result is the status.
fn change<A: Allocator + Copy, R: Read, W: Write>(
    alloc: A,
    assignments: &[Assignment<'_>],
    input: &mut R,
    output: &mut W,
) -> u8
    ensures { let list = map named assignments.now in
        Ends (PrintsPacket list (R.remaining input.old) (R.remaining input.new) (W.contents output.old) (W.contents output.new))
        (PacketFault list (R.remaining input.old) (R.remaining input.new)) (W.contents output.old) (W.contents output.new) result }
{
    match change_packet(alloc, assignments, input) {
        Ok(bytes) => match print_packet(output, bytes.as_slice()) {
            Ok(()) => 0,
            Err(_) => OUTPUT_FAILED,
        },
        Err(fault) => report(output, fault),
    }
}

/// Does the program's work: reads a packet, and prints the fields of its headers, or, where the words
/// are assignments, the packet that has them. The result is the status.
///
/// With status 0 all of it is printed, and nothing else. Otherwise one line says why, with status 2,
/// or 3 where memory runs out. With status 1 the output couldn't be written.
pub fn work<A: Allocator + Copy, R: Read, W: Write>(
    alloc: A,
    words: &[String],
    input: &mut R,
    output: &mut W,
) -> u8
    ensures { Ends (PrintsAsked (map string_bytes words.now) (R.remaining input.old) (R.remaining input.new) (W.contents output.old) (W.contents output.new))
        (HasFault (map string_bytes words.now) (R.remaining input.old) (R.remaining input.new)) (W.contents output.old) (W.contents output.new) result }
{
    let assignments = match parse_arguments(alloc, words) {
        Ok(assignments) => assignments,
        Err(fault) => return report(output, fault),
    };
    if assignments.is_empty() {
        return show(alloc, input, output);
    }
    change(alloc, assignments.as_slice(), input, output)
}
