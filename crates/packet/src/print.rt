//! What is printed of fields and of a fault.
ghost use Rattle.std.specs.Prelude.{◌≡◌, ◌*◌, ◌≤◌, ◌++◌, OnOk, codes, if◌then◌else◌, length, nat_eq};
ghost use Rattle.std.specs.Io.KnownBytes.{Appends};
ghost use Rattle.std.specs.List.{flat_map};
ghost use Rattle.bitrecord.specs.Views.{bits_of, fields_of};
ghost use Rattle.packet.specs.Checksums.{sum_words};
ghost use Rattle.packet.specs.Faults.{fault_text};
ghost use Rattle.packet.specs.Packets.{IsHeader, header_windows, numbers_at, place, places_of, windows_of};
ghost use Rattle.packet.specs.Texts.{field_line, field_text, fields_text, line_of, verdict_text};

use crate::checksum::header_sum;
use crate::fault::Fault;
use crate::field::Field;
use crate::header::{Header, read_field};
use bitrecord::Layout;
use bitrecord::bits::{BitSlice, Msb0};
use std::alloc::Allocator;
use std::io::{self, Write};

/// Prints a field: its name, where it begins, how many bits it has, and its number.
fn print_field<W: Write>(output: &mut W, field: Field, number: u128) -> io::Result<()>
    ensures { OnOk result (Appends (W.contents output.old) (W.contents output.new) (field_line (place field) number)) }
{
    let name = field.name;
    let start = field.window.start;
    let len = field.window.len;
    writeln!(output, "{name} {start} {len} {number}")
}

/// The sum of the words of a packet's header. Conditions: the packet has at most 65,535 bytes, and this
/// header.
fn packet_sum<A: Allocator>(header: &Header<A>, bytes: &[u8]) -> u128
    requires bound { length bytes.now ≤ 65535 }
    requires header { IsHeader bytes.now header.now }
    ensures { result ≡ sum_words (numbers_at bytes.now (header_windows bytes.now)) }
{
    header_sum(&header.words, BitSlice::<u8, Msb0>::from_slice(bytes))
}

/// The word of a verdict on a sum.
fn verdict(sum: u128) -> &'static str
    ensures { result.now ≡ (if nat_eq sum 65535 then codes "right" else codes "wrong") }
{
    if sum == 0xFFFF { "right" } else { "wrong" }
}

/// Prints fields of a packet. Conditions: the packet has at most 65,535 bytes, and the layout is of
/// these fields.
fn print_lines<A: Allocator, W: Write>(
    output: &mut W,
    fields: &[Field],
    layout: &Layout<A>,
    bytes: &[u8],
) -> io::Result<()>
    requires bound { length bytes.now ≤ 65535 }
    requires bits { bits_of layout.now ≡ 8 * length bytes.now }
    requires fields { fields_of layout.now ≡ windows_of (places_of fields.now) }
    ensures { OnOk result (Appends (W.contents output.old) (W.contents output.new) (flat_map (field_text bytes.now) (places_of fields.now))) }
{
    for number in 0..fields.len() {
        let value = read_field(layout, bytes, number);
        print_field(output, fields[number], value)?;
    }
    Ok(())
}

/// Prints fields of a packet, and the verdict on a sum. Conditions: those of printing the fields.
fn print_all<A: Allocator, W: Write>(
    output: &mut W,
    fields: &[Field],
    layout: &Layout<A>,
    bytes: &[u8],
    sum: u128,
) -> io::Result<()>
    requires bound { length bytes.now ≤ 65535 }
    requires bits { bits_of layout.now ≡ 8 * length bytes.now }
    requires fields { fields_of layout.now ≡ windows_of (places_of fields.now) }
    ensures { OnOk result (Appends (W.contents output.old) (W.contents output.new) (flat_map (field_text bytes.now) (places_of fields.now) ++ verdict_text sum)) }
{
    print_lines(output, fields, layout, bytes)?;
    writeln!(output, "checksum {}", verdict(sum))?;
    output.flush()
}

/// Prints the fields of a packet, and whether the checksum is right. Conditions: the packet has at most
/// 65,535 bytes, and this header.
pub(crate) fn print_fields<A: Allocator, W: Write>(
    output: &mut W,
    header: &Header<A>,
    bytes: &[u8],
) -> io::Result<()>
    requires bound { length bytes.now ≤ 65535 }
    requires header { IsHeader bytes.now header.now }
    ensures { OnOk result (Appends (W.contents output.old) (W.contents output.new) (fields_text bytes.now)) }
{
    let sum = packet_sum(header, bytes);
    print_all(output, header.fields.as_slice(), &header.layout, bytes, sum)
}

/// Prints the line of a fault.
pub(crate) fn print_fault<W: Write>(output: &mut W, fault: Fault) -> io::Result<()>
    ensures { OnOk result (Appends (W.contents output.old) (W.contents output.new) (line_of (fault_text fault))) }
{
    writeln!(output, "{fault}")?;
    output.flush()
}
