//! The whole input.
ghost use Rattle.std.specs.Prelude.{◌≡◌, ◌⊎◌, IfOk, IfErr, OnOk};
ghost use Rattle.std.specs.Io.KnownBytes.{Consumes, IsAtEnd};

use crate::fault::Fault;
use std::alloc::Allocator;
use std::io::{ErrorKind, Read};

/// All bytes of the input.
pub(crate) fn read_bytes<R: Read, A: Allocator>(
    alloc: A,
    input: &mut R,
) -> Result<Vec<u8, A>, Fault>
    ensures bytes { IfOk result (λ bytes.
        Consumes (R.remaining input.old) (R.remaining input.new) bytes.items) }
    ensures end { OnOk result (IsAtEnd (R.remaining input.new)) }
    ensures fault { IfErr result (λ fault. (fault ≡ Fault.Input) ⊎ (fault ≡ Fault.Memory)) }
{
    let mut bytes = Vec::new(alloc);
    match input.read_to_end(&mut bytes) {
        Ok(_) => Ok(bytes),
        Err(error) if error.kind() == ErrorKind::OutOfMemory => Err(Fault::Memory),
        Err(_) => Err(Fault::Input),
    }
}
