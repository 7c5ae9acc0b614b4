//! Texts with the brackets that they lack.
ghost use Rattle.std.specs.Prelude.{◌≡◌, ◌≢◌, ◌⊎◌, [], ◌∷◌, ◌++◌, IfErr, IfOk, None, OnOk, Some, drop, false, length, map, replicate, take};
ghost use Rattle.nesting.specs.Brackets.{closer, next, next_mended, open_after, open_mended, without_closers};
ghost use Rattle.nesting.specs.Texts.{Mends};
ghost use Rattle.nesting.specs.declared.fault.Fault.TheVariants.{Memory, Stray};

use crate::fault::Fault;
use crate::marks::Marks;
use std::alloc::{AllocError, Global};

/// Adds a byte so many times.
fn add(text: &mut Vec<u8>, byte: u8, count: usize) -> Result<(), AllocError>
    ensures { OnOk result (text.new.items ≡ text.old.items ++ replicate count byte) }
{
    let len = text.len().checked_add(count).ok_or(AllocError)?;
    text.resize(len, byte)
}

/// Opens or closes the bracket that a byte is, if it is one, and gives how many groups have to be closed before it. That is
/// none where the byte itself closes the innermost bracket, or closes nothing.
#[tactic(auto, using(crate::proofs::BracketLaws::following))]
fn follow(marks: &mut Marks, byte: u8) -> Result<usize, Fault>
    ensures groups { IfOk result (λ groups. take groups marks.old ≡ replicate groups false) }
    ensures followed { IfOk result (λ groups. next (Some (drop groups marks.old)) byte ≡ Some marks.new) }
    ensures least { IfOk result (λ groups. next (Some marks.old) byte ≢ None → groups ≡ 0) }
    ensures mended { OnOk result (next_mended (Some marks.old) byte ≡ Some marks.new) }
    ensures fault { IfErr result (λ fault. (fault ≡ Memory) ⊎ ((fault ≡ Stray) × (next_mended (Some marks.old) byte ≡ None))) }
{
    match byte {
        b'(' => {
            marks.open(false)?;
            Ok(0)
        }
        b'{' => {
            marks.open(true)?;
            Ok(0)
        }
        b')' => {
            if marks.close_group() {
                Ok(0)
            } else {
                Err(Fault::Stray)
            }
        }
        b'}' => marks.close_block().ok_or(Fault::Stray),
        _ => Ok(0),
    }
}

/// Reads one more byte: the text gets it, and what closes the groups that end with it before it.
#[tactic(auto, using(crate::proofs::BracketLaws::reading))]
fn read(byte: u8, marks: &mut Marks, text: &mut Vec<u8>) -> Result<(), Fault>
    ensures nested { OnOk result (open_after text.old.items ≡ Some marks.old → open_after text.new.items ≡ Some marks.new) }
    ensures front { OnOk result (take (length text.old.items) text.new.items ≡ text.old.items) }
    ensures kept { OnOk result (without_closers text.new.items ≡ without_closers (text.old.items ++ byte ∷ [])) }
    ensures same { OnOk result (next (Some marks.old) byte ≢ None → text.new.items ≡ text.old.items ++ byte ∷ []) }
    ensures mended { OnOk result (next_mended (Some marks.old) byte ≡ Some marks.new) }
    ensures fault { IfErr result (λ fault. (fault ≡ Memory) ⊎ ((fault ≡ Stray) × (next_mended (Some marks.old) byte ≡ None))) }
{
    let groups = follow(marks, byte)?;
    add(text, b')', groups)?;
    text.push(byte).or(Err(Fault::Memory))
}

/// The byte that closes a group or a block.
fn closing(block: bool) -> u8
    ensures { result ≡ closer block }
{
    if block { b'}' } else { b')' }
}

/// Closes all that is open, the innermost first.
#[tactic(auto, using(crate::proofs::BracketLaws::closing))]
fn close_all(marks: &mut Marks, text: &mut Vec<u8>) -> Result<(), AllocError>
    ensures { OnOk result (text.new.items ≡ text.old.items ++ map closer marks.old) }
{
    while let Some(block) = marks.close() {
        text.push(closing(block))?;
    }
    Ok(())
}

/// A text with the brackets that it lacks: each `}` also closes the groups that are open in its block, and the end of the
/// text closes the rest. `Stray` where no block is open at a `}`, or no group is innermost at a `)`; `Memory` where memory is
/// refused.
#[tactic(auto, using(crate::proofs::BracketLaws::mending))]
pub fn mended(alloc: Global, text: &[u8]) -> Result<Vec<u8>, Fault>
    ensures mended { IfOk result (λ mended. Mends text.now mended.items) }
    ensures fault { IfErr result (λ fault. (fault ≡ Memory) ⊎ ((fault ≡ Stray) × (open_mended text.now ≡ None))) }
{
    let mut marks = Marks::new(alloc);
    let mut mended = Vec::new(alloc);
    for byte in text {
        read(*byte, &mut marks, &mut mended)?;
    }
    close_all(&mut marks, &mut mended)?;
    Ok(mended)
}
