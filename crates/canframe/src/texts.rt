//! Numbers as text.
ghost use Rattle.std.specs.Prelude.{◌≡◌, ◌<◌, ◌⊎◌, IfErr, IfOk, IfSome, OnOk, length, map, string_bytes};
ghost use Rattle.std.specs.Io.KnownBytes.{Appends};
ghost use Rattle.canframe.specs.Program.{AreBytes, LacksByte, byte_of, bytes_text, id_of};
ghost use Rattle.canframe.specs.declared.fault.Fault.TheVariants.{Arguments, Memory};

use crate::fault::Fault;
use numerals::{parse_u8, parse_u16};
use std::alloc::Global;
use std::io::{self, Write};

/// The id of a word of decimal digits, which has at most 11 bits.
pub fn parse_id(word: &str) -> Option<u16>
    ensures id { result ≡ id_of word.now }
    ensures valid { IfSome result (λ id. id < 2048) }
{
    let id = parse_u16(word)?;
    if id < 2048 { Some(id) } else { None }
}

/// The bytes of the words.
pub fn parse_bytes(alloc: Global, words: &[String]) -> Result<Vec<u8>, Fault>
    ensures bytes { IfOk result (λ bytes. AreBytes (map string_bytes words.now) bytes.items) }
    ensures many { IfOk result (λ bytes. length bytes.items ≡ length words.now) }
    ensures fault { IfErr result (λ fault. (fault ≡ Memory) ⊎ ((fault ≡ Arguments) × LacksByte (map string_bytes words.now))) }
{
    let mut bytes = Vec::new(alloc);
    for word in words {
        let byte = parse_u8(word.as_str()).ok_or(Fault::Arguments)?;
        bytes.push(byte).or(Err(Fault::Memory))?;
    }
    Ok(bytes)
}

/// Prints bytes, a space before each, and the end of the line.
pub fn print_bytes<W: Write>(output: &mut W, bytes: &[u8]) -> io::Result<()>
    ensures { OnOk result (Appends (W.contents output.old) (W.contents output.new) (bytes_text bytes.now)) }
{
    for byte in bytes {
        write!(output, " {byte}")?;
    }
    writeln!(output)
}
