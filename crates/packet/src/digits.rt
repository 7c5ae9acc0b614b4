//! Packets as hexadecimal digits.
ghost use Rattle.std.specs.Prelude.{◌≡◌, ◌%◌, ◌<◌, ◌≤◌, ◌⊎◌, All, IfOk, IfErr, OnOk, length, false};
ghost use Rattle.std.specs.Io.KnownBytes.{Appends};
ghost use Rattle.packet.specs.Digits.{AreDigits, DigitsFault, IsPacketText, TextFault, bytes_of, digit_code, has_digits, most_bytes, packet_text};

use crate::fault::Fault;
use std::alloc::Allocator;
use std::io::{self, Write};

/// The most bytes that a packet's length can say.
const MOST: usize = 0xFFFF;

/// The values of the hexadecimal digits of a text, in either case. White space is stepped over.
fn parse_digits<A: Allocator>(alloc: A, text: &[u8]) -> Result<Vec<u8, A>, Fault>
    ensures digits { IfOk result (λ digits. AreDigits text.now digits.items) }
    ensures fault { IfErr result (λ fault. (fault ≡ Fault.Memory) ⊎ ((fault ≡ Fault.Digit) × (has_digits text.now ≡ false))) }
{
    let mut digits = Vec::new(alloc);
    for byte in text {
        if byte.is_ascii_whitespace() {
            continue;
        }
        match (*byte as char).to_digit(16) {
            Some(digit) => digits.push(digit as u8)?,
            None => return Err(Fault::Digit),
        }
    }
    Ok(digits)
}

/// The bytes of digits, the higher digit of each first. Condition: the digits are below 16.
fn join_digits<A: Allocator>(alloc: A, digits: &[u8]) -> Result<Vec<u8, A>, Fault>
    requires { All (λ digit. digit < 16) digits.now }
    ensures bytes { IfOk result (λ bytes. bytes.items ≡ bytes_of digits.now) }
    ensures bound { IfOk result (λ bytes. length bytes.items ≤ most_bytes) }
    ensures even { OnOk result (length digits.now % 2 ≡ 0) }
    ensures fault { IfErr result (DigitsFault digits.now) }
{
    if digits.len() % 2 != 0 {
        return Err(Fault::Odd);
    }
    if digits.len() / 2 > MOST {
        return Err(Fault::Long);
    }
    let mut bytes = Vec::new(alloc);
    for number in 0..digits.len() / 2 {
        bytes.push(16 * digits[2 * number] + digits[2 * number + 1])?;
    }
    Ok(bytes)
}

/// The bytes of the packet whose digits a text has.
pub(crate) fn parse_packet<A: Allocator + Copy>(alloc: A, text: &[u8]) -> Result<Vec<u8, A>, Fault>
    ensures packet { IfOk result (λ bytes. IsPacketText text.now bytes.items) }
    ensures fault { IfErr result (TextFault text.now) }
{
    let digits = parse_digits(alloc, text)?;
    join_digits(alloc, digits.as_slice())
}

/// The lower case digit of a number below 16.
fn digit_of(value: u8) -> u8
    requires { value < 16 }
    ensures { result ≡ digit_code value }
{
    if value < 10 {
        b'0' + value
    } else {
        b'a' + (value - 10)
    }
}

/// Prints the digits of a packet, on a line of their own.
pub(crate) fn print_packet<W: Write>(output: &mut W, bytes: &[u8]) -> io::Result<()>
    ensures { OnOk result (Appends (W.contents output.old) (W.contents output.new) (packet_text bytes.now)) }
{
    for byte in bytes {
        output.write_all(&[digit_of(byte / 16), digit_of(byte % 16)])?;
    }
    writeln!(output)?;
    output.flush()
}
