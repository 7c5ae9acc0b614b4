//! The whole program, but for what a process is.
ghost use Rattle.std.specs.Prelude.{◌≡◌, ◌⊎◌, None, codes, map, string_bytes};
ghost use Rattle.std.specs.Io.KnownBytes.{Appends};
ghost use Rattle.device.specs.Parts.{asked_of};
ghost use Rattle.device.specs.Program.{Works, line_of};

use crate::part::Part;
use crate::print::{print_asked, print_refusal};
use std::io::Write;

/// The status where the output can't be written.
const OUTPUT_FAILED: u8 = 1;

/// The status where the words ask for no part.
const BAD_ARGUMENTS: u8 = 2;

/// Says that the words ask for no part. The result is the status.
fn refuse<W: Write>(output: &mut W) -> u8
    ensures { (result ≡ OUTPUT_FAILED) ⊎ ((result ≡ BAD_ARGUMENTS)
        × Appends (W.contents output.old) (W.contents output.new) (line_of (codes "bad arguments"))) }
{
    match print_refusal(output) {
        Ok(()) => BAD_ARGUMENTS,
        Err(_) => OUTPUT_FAILED,
    }
}

/// Does the program's work: prints the part that the words ask for. The result is the status that the
/// program ends with.
///
/// With status 0 the part was printed, and nothing else. With 2 it was the line `bad arguments`, since the
/// words ask for none. With 1 the output couldn't be written.
pub fn work<W: Write>(words: &[String], output: &mut W) -> u8
    ensures works { Works (asked_of (map string_bytes words.now)) (W.contents output.old) (W.contents output.new) result }
    ensures refused { asked_of (map string_bytes words.now) ≡ None → (result ≡ 2) ⊎ (result ≡ 1) }
{
    let Some(part) = Part::parse(words) else {
        return refuse(output);
    };
    match print_asked(output, &part) {
        Ok(()) => 0,
        Err(_) => OUTPUT_FAILED,
    }
}
