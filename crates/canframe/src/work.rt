//! What the words ask for.
ghost use Rattle.std.specs.Prelude.{◌≡◌, ◌⊎◌, IfErr, OnOk, Some, map, string_bytes};
ghost use Rattle.std.specs.Io.KnownBytes.{Appends};
ghost use Rattle.canframe.specs.Program.{Answers, PrintsBytes, PrintsFrame, Refuses, asked_of, decode, decode_text, encode, encode_text};
ghost use Rattle.canframe.specs.declared.fault.Fault.TheVariants.{Output};

use crate::codec::{MOST, decode, encode};
use crate::fault::Fault;
use crate::frame::Frame;
use crate::texts::{parse_bytes, parse_id, print_bytes};
use std::alloc::Global;
use std::io::{self, Write};

/// Prints the words that decode a frame.
fn print_frame<W: Write>(output: &mut W, frame: &[u8]) -> io::Result<()>
    ensures { OnOk result (Appends (W.contents output.old) (W.contents output.new) (decode_text frame.now)) }
{
    write!(output, "decode")?;
    print_bytes(output, frame)
}

/// Prints the words that encode a frame.
fn print_data<W: Write>(output: &mut W, frame: &Frame) -> io::Result<()>
    ensures { OnOk result (Appends (W.contents output.old) (W.contents output.new) (encode_text frame.now.id frame.now.bytes.items)) }
{
    write!(output, "encode {}", frame.id)?;
    print_bytes(output, frame.bytes.as_slice())
}

/// Prints the frame of an id and the bytes of the words.
fn encode_words<W: Write>(
    alloc: Global,
    id: &str,
    words: &[String],
    output: &mut W,
) -> Result<(), Fault>
    ensures printed { OnOk result (PrintsFrame id.now (map string_bytes words.now) (W.contents output.old) (W.contents output.new)) }
    ensures fault { IfErr result (λ fault. (fault ≡ Output) ⊎ (Refuses (Some (encode id.now (map string_bytes words.now))) fault × (output.new ≡ output.old))) }
{
    let id = parse_id(id).ok_or(Fault::Arguments)?;
    if words.len() > MOST {
        return Err(Fault::Arguments);
    }
    let bytes = parse_bytes(alloc, words)?;
    let frame = encode(alloc, id, bytes.as_slice())?;
    print_frame(output, frame.as_slice()).or(Err(Fault::Output))
}

/// Prints the id and the data of the frame that the bytes of the words are.
fn decode_words<W: Write>(alloc: Global, words: &[String], output: &mut W) -> Result<(), Fault>
    ensures printed { OnOk result (PrintsBytes (map string_bytes words.now) (W.contents output.old) (W.contents output.new)) }
    ensures fault { IfErr result (λ fault. (fault ≡ Output) ⊎ (Refuses (Some (decode (map string_bytes words.now))) fault × (output.new ≡ output.old))) }
{
    let bytes = parse_bytes(alloc, words)?;
    let frame = decode(alloc, bytes.as_slice())?;
    print_data(output, &frame).or(Err(Fault::Output))
}

/// Does what the words ask for, and prints the answer. If the words or the frame are refused, nothing is printed.
pub fn work<W: Write>(alloc: Global, words: &[String], output: &mut W) -> Result<(), Fault>
    ensures printed { OnOk result (Answers (asked_of (map string_bytes words.now)) (W.contents output.old) (W.contents output.new)) }
    ensures fault { IfErr result (λ fault. (fault ≡ Output) ⊎ (Refuses (asked_of (map string_bytes words.now)) fault × (output.new ≡ output.old))) }
{
    let [verb, given @ ..] = words else {
        return Err(Fault::Arguments);
    };
    match (verb.as_str(), given) {
        ("encode", [id, bytes @ ..]) => encode_words(alloc, id.as_str(), bytes, output),
        ("decode", bytes) => decode_words(alloc, bytes, output),
        _ => Err(Fault::Arguments),
    }
}
