//! The whole input: its bytes, and the steps that it says.
ghost use Rattle.std.specs.Prelude.{◌≡◌, ◌⊎◌, IfOk, IfErr, OnOk};
ghost use Rattle.std.specs.Io.KnownBytes.{Consumes, IsAtEnd};
ghost use Rattle.bitdo_work.specs.Program.{GivesSteps, InputFault};

use crate::fault::Fault;
use crate::lines::parse_steps;
use bitvec_run::Step;
use std::alloc::Allocator;
use std::io::{ErrorKind, Read};

/// How many bytes are asked for at a time.
const CHUNK: usize = 1024;

/// All bytes of the input. A fault of the reader, whatever its kind, is not a lack of memory.
fn read_bytes<R: Read, A: Allocator>(alloc: A, input: &mut R) -> Result<Vec<u8, A>, Fault>
    ensures bytes { IfOk result (λ bytes.
        Consumes (R.remaining input.old) (R.remaining input.new) bytes.items) }
    ensures end { OnOk result (IsAtEnd (R.remaining input.new)) }
    ensures fault { IfErr result (λ fault. (fault ≡ Fault.Input) ⊎ (fault ≡ Fault.Memory)) }
{
    let mut bytes = Vec::new(alloc);
    let mut chunk = [0; CHUNK];
    for _ in 0..u64::MAX {
        match input.read(&mut chunk) {
            Ok(0) => return Ok(bytes),
            Ok(count) => bytes.extend_from_slice(&chunk[..count])?,
            Err(error) => {
                if error.kind() != ErrorKind::Interrupted {
                    return Err(Fault::Input);
                }
            }
        }
    }
    Err(Fault::Input)
}

/// The steps of the input, which is read to its end and tested as text before its first line is
/// parsed.
pub(crate) fn read_steps<'a, R: Read, A: Allocator>(
    alloc: &'a A,
    input: &mut R,
) -> Result<Vec<Step, &'a A>, Fault>
    ensures steps { IfOk result (λ steps.
        GivesSteps (R.remaining input.old) (R.remaining input.new) steps.items) }
    ensures fault { IfErr result (λ fault. InputFault (R.remaining input.old) (R.remaining input.new) fault) }
{
    let bytes = read_bytes(alloc, input)?;
    let Ok(text) = std::str::from_utf8(bytes.as_slice()) else {
        return Err(Fault::Input);
    };
    parse_steps(alloc, text)
}
