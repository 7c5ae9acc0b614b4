//! Rows of 0 and 1 as they are read.
ghost use Rattle.std.specs.Prelude.{◌≡◌, ◌⊎◌, ◌+◌, ◌*◌, ◌≤◌, IfErr, IfOk, IfSome, length};
ghost use Rattle.bitvec.specs.Views.{seen_mut};
ghost use Rattle.bitvec.specs.Writes.{WritesBits};

use crate::fault::Fault;
use bitvec::prelude::*;
use std::alloc::Allocator;
use std::io::{ErrorKind, Read};

/// Reads all bytes.
pub fn read_text<A: Allocator, R: Read>(alloc: A, input: &mut R) -> Result<Vec<u8, A>, Fault>
    ensures bytes { IfOk result (λ text. IfSome (R.remaining input.old) (λ all. text.items ≡ all)) }
    ensures fault { IfErr result (λ fault. (fault ≡ Fault.Input) ⊎ (fault ≡ Fault.Memory)) }
{
    let mut text = Vec::new(alloc);
    match input.read_to_end(&mut text) {
        Ok(_) => Ok(text),
        Err(error) if error.kind() == ErrorKind::OutOfMemory => Err(Fault::Memory),
        Err(_) => Err(Fault::Input),
    }
}

/// The number n, if a text is as long as n rows of n characters with a line feed each.
pub fn rows_in(text: &[u8]) -> Option<usize>
    ensures { IfSome result (λ n. n * n + n ≡ length text.now) }
{
    let n = text.iter().position(|byte| *byte == b'\n')?;
    if n.checked_mul(n + 1)? == text.len() {
        Some(n)
    } else {
        None
    }
}

/// Writes a bit for each character but line feeds, 1 for `1`, as long as there is room.
#[tactic(auto, using(bitvec::specs::Laws::composed))]
pub fn fill_from<T: BitStore, O: SliceOrder>(matrix: &mut BitSliceMut<'_, T, O>, text: &[u8])
    ensures { WritesBits matrix.old matrix.new (seen_mut matrix.new).bits }
{
    let mut place = 0;
    for byte in text {
        if *byte != b'\n' && place < matrix.len() {
            matrix.set(place, *byte == b'1');
            place += 1;
        }
    }
}
