//! What is printed.
ghost use Rattle.std.specs.Prelude.{◌≡◌, OnOk, codes};
ghost use Rattle.std.specs.Io.KnownBytes.{Appends};
ghost use Rattle.bitvec.specs.Arrays.{lsb0_bits, msb0_bits};
ghost use Rattle.device.specs.Program.{PrintsPart, answer_text, bits_text, fields_text, line_of, register_text, uart_text};
ghost use Rattle.device.specs.Registers.{registers_of};
ghost use Rattle.std.specs.List.{flat_map};

use crate::part::Part;
use crate::uart::Uart;
use bitvec::prelude::*;
use std::io::{self, Write};

/// Prints the fields of a serial port, each on a line.
fn print_fields<W: Write>(output: &mut W, uart: &Uart) -> io::Result<()>
    ensures { OnOk result (Appends (W.contents output.old) (W.contents output.new) (fields_text uart.now)) }
{
    let (baud, parity, data) = (uart.baud(), uart.parity(), uart.data());
    writeln!(output, "baud {baud}\nparity {parity}\ndata {data}")
}

/// Prints the registers of a serial port, each on a line.
fn print_registers<W: Write>(output: &mut W, uart: &Uart) -> io::Result<()>
    ensures { OnOk result (Appends (W.contents output.old) (W.contents output.new) (flat_map register_text (registers_of uart.now))) }
{
    for register in uart.registers() {
        writeln!(output, "{register:08X}")?;
    }
    Ok(())
}

/// Prints the fields of a serial port, and then its registers, each on a line.
fn print_uart<W: Write>(output: &mut W, uart: &Uart) -> io::Result<()>
    ensures { OnOk result (Appends (W.contents output.old) (W.contents output.new) (uart_text uart.now)) }
{
    print_fields(output, uart)?;
    print_registers(output, uart)
}

/// What a filter says of a key: that it may have it, or that it doesn't.
fn answer(maybe: bool) -> &'static str
    ensures { result.now ≡ answer_text maybe }
{
    if maybe { "maybe" } else { "no" }
}

/// Prints the bits of bytes, those of each byte together and the lowest first.
fn print_lowest_first<W: Write>(output: &mut W, bytes: &[u8; 8]) -> io::Result<()>
    ensures { OnOk result (Appends (W.contents output.old) (W.contents output.new) (bits_text (lsb0_bits 8 bytes.now))) }
{
    writeln!(
        output,
        "{}",
        Binary(BitSlice::<u8, Lsb0>::from_slice(bytes))
    )
}

/// Prints the bits of bytes, those of each byte together and the highest first.
fn print_highest_first<W: Write>(output: &mut W, bytes: &[u8; 8]) -> io::Result<()>
    ensures { OnOk result (Appends (W.contents output.old) (W.contents output.new) (bits_text (msb0_bits 8 bytes.now))) }
{
    writeln!(
        output,
        "{}",
        Binary(BitSlice::<u8, Msb0>::from_slice(bytes))
    )
}

/// Prints a part.
fn print_part<W: Write>(output: &mut W, part: &Part) -> io::Result<()>
    ensures { OnOk result (PrintsPart part.now (W.contents output.old) (W.contents output.new)) }
{
    match part {
        Part::Uart(uart) => print_uart(output, uart),
        Part::Bloom(filter, key) => writeln!(output, "{}", answer(filter.maybe_has(*key))),
        Part::Pattern(bytes) => print_lowest_first(output, bytes),
        Part::Chunks(bytes) => print_highest_first(output, bytes),
    }
}

/// Prints a part, and then flushes the output.
pub fn print_asked<W: Write>(output: &mut W, part: &Part) -> io::Result<()>
    ensures { OnOk result (PrintsPart part.now (W.contents output.old) (W.contents output.new)) }
{
    print_part(output, part)?;
    output.flush()
}

/// Prints that the words ask for no part.
pub fn print_refusal<W: Write>(output: &mut W) -> io::Result<()>
    ensures { OnOk result (Appends (W.contents output.old) (W.contents output.new) (line_of (codes "bad arguments"))) }
{
    writeln!(output, "bad arguments")?;
    output.flush()
}
