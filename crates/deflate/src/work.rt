//! What the words ask for.
ghost use Rattle.std.specs.Prelude.{◌≡◌, ◌*◌, ◌≤◌, ◌⊎◌, IfErr, IfOk, OnOk, Some, length, map, string_bytes};
ghost use Rattle.std.specs.Io.KnownBytes.{Appends};
ghost use Rattle.bitvec.specs.Window.{max_bits};
ghost use Rattle.deflate.specs.Program.{Answers, Decodes, Encodes, IsInput, Refuses, verb_named, verb_of};
ghost use Rattle.deflate.specs.declared.fault.Fault.TheVariants.{Input, Memory, Output};

use crate::blocks::inflate;
use crate::fault::Fault;
use crate::literals::deflate;
use bitvec::index::MAX_BITS;
use std::alloc::Global;
use std::io::{ErrorKind, Read, Write};

/// What is asked for.
#[derive(Clone, Copy)]
pub enum Verb {
    /// The bytes of a stream.
    Decode,
    /// A stream of bytes.
    Encode,
}

/// The verb of a word.
fn verb_named(word: &str) -> Option<Verb>
    ensures { result ≡ verb_named word.now }
{
    match word {
        "decode" => Some(Verb::Decode),
        "encode" => Some(Verb::Encode),
        _ => None,
    }
}

/// The verb of the one word.
fn verb_of(words: &[String]) -> Option<Verb>
    ensures { result ≡ verb_of (map string_bytes words.now) }
{
    match words {
        [word] => verb_named(word.as_str()),
        _ => None,
    }
}

/// All bytes of the input, if a view can show as many.
fn read_all<R: Read>(alloc: Global, input: &mut R) -> Result<Vec<u8>, Fault>
    ensures bytes { IfOk result (λ bytes. IsInput (R.remaining input.old) bytes.items) }
    ensures fits { IfOk result (λ bytes. 8 * length bytes.items ≤ max_bits) }
    ensures fault { IfErr result (λ fault. (fault ≡ Input) ⊎ (fault ≡ Memory)) }
{
    let mut bytes = Vec::new(alloc);
    if let Err(error) = input.read_to_end(&mut bytes) {
        return Err(if error.kind() == ErrorKind::OutOfMemory {
            Fault::Memory
        } else {
            Fault::Input
        });
    }
    if bytes.len() > MAX_BITS / 8 {
        return Err(Fault::Memory);
    }
    Ok(bytes)
}

/// Writes the bytes of the stream that is read.
fn decode<R: Read, W: Write>(alloc: Global, input: &mut R, output: &mut W) -> Result<(), Fault>
    ensures written { OnOk result (Decodes (R.remaining input.old) (W.contents output.old) (W.contents output.new)) }
    ensures fault { IfErr result (λ fault. (fault ≡ Output) ⊎ (Refuses (Some Verb.Decode) (R.remaining input.old) fault × (output.new ≡ output.old))) }
{
    let stream = read_all(alloc, input)?;
    let bytes = inflate(alloc, stream.as_slice())?;
    output.write_all(bytes.as_slice()).or(Err(Fault::Output))
}

/// Writes a stream of the bytes that are read.
fn encode<R: Read, W: Write>(alloc: Global, input: &mut R, output: &mut W) -> Result<(), Fault>
    ensures written { OnOk result (Encodes (R.remaining input.old) (W.contents output.old) (W.contents output.new)) }
    ensures fault { IfErr result (λ fault. (fault ≡ Output) ⊎ (Refuses (Some Verb.Encode) (R.remaining input.old) fault × (output.new ≡ output.old))) }
{
    let bytes = read_all(alloc, input)?;
    let stream = deflate(alloc, bytes.as_slice())?;
    output.write_all(stream.as_slice()).or(Err(Fault::Output))
}

/// Does what the words ask for. If they, or the stream, are refused, nothing is written.
pub fn work<R: Read, W: Write>(
    alloc: Global,
    words: &[String],
    input: &mut R,
    output: &mut W,
) -> Result<(), Fault>
    ensures written { OnOk result (Answers (verb_of (map string_bytes words.now)) (R.remaining input.old) (W.contents output.old) (W.contents output.new)) }
    ensures fault { IfErr result (λ fault. (fault ≡ Output) ⊎ (Refuses (verb_of (map string_bytes words.now)) (R.remaining input.old) fault × (output.new ≡ output.old))) }
{
    match verb_of(words) {
        Some(Verb::Decode) => decode(alloc, input, output),
        Some(Verb::Encode) => encode(alloc, input, output),
        None => Err(Fault::Arguments),
    }
}
