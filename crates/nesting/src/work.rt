//! The words in turn.
ghost use Rattle.std.specs.Prelude.{◌≡◌, ◌⊎◌, IfErr, OnOk, length, map, string_bytes};
ghost use Rattle.std.specs.Io.KnownBytes.{Appends};
ghost use Rattle.nesting.specs.Texts.{PrintsMended, StopsAt, line_of};
ghost use Rattle.nesting.specs.declared.fault.Fault.TheVariants.{Output};

use crate::fault::Fault;
use crate::mending::mended;
use std::alloc::Global;
use std::io::Write;

/// Prints a text on a line.
fn print_line<W: Write>(output: &mut W, text: &[u8]) -> Result<(), Fault>
    ensures printed { OnOk result (Appends (W.contents output.old) (W.contents output.new) (line_of text.now)) }
    ensures fault { IfErr result (λ fault. fault ≡ Output) }
{
    output.write_all(text).or(Err(Fault::Output))?;
    writeln!(output).or(Err(Fault::Output))
}

/// Prints each text with the brackets that it lacks, on a line of its own. If one can't be mended, those before it are printed.
pub fn work<W: Write>(alloc: Global, words: &[String], output: &mut W) -> Result<(), Fault>
    ensures printed { OnOk result (PrintsMended (map string_bytes words.now) (length words.now) (W.contents output.old) (W.contents output.new)) }
    ensures fault { IfErr result (λ fault. (fault ≡ Output) ⊎ StopsAt (map string_bytes words.now) fault (W.contents output.old) (W.contents output.new)) }
{
    for word in words {
        let text = mended(alloc, word.as_bytes())?;
        print_line(output, text.as_slice())?;
    }
    Ok(())
}
