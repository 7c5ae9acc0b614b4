//! Why a command is refused.
ghost use Rattle.std.specs.Prelude.{◌≡◌, Bool, List, length};
ghost use Rattle.bitvec_commands.specs.Commands.{op_refusal};
ghost use Rattle.bitvec_commands.specs.Rows.{unless};

use crate::{Op, Refusal};
use bitvec_base::Window;

/// The first condition of a command that fails, if one does, on a list of `len` bits beside a right
/// list of `source_len`.
#[inline(always)]
pub fn command_refusal(op: Op, len: usize, source_len: usize) -> Option<Refusal>
    ensures { (right : List Bool) → length right ≡ source_len → result ≡ op_refusal right len op }
{
    match op {
        Op::Get(index) | Op::Set(index, _) | Op::Replace(index, _) => {
            unless(index < len, Refusal::Index)
        }
        Op::Swap(first, second) => unless(first < len && second < len, Refusal::Index),
        Op::ShiftStart(by) | Op::ShiftEnd(by) | Op::RotateLeft(by) | Op::RotateRight(by) => {
            unless(by <= len, Refusal::Amount)
        }
        Op::CopyWithin(from, to, dest) => {
            if from > to || to > len {
                return Some(Refusal::Source);
            }
            unless(dest <= len - (to - from), Refusal::Dest)
        }
        Op::CopyFrom(window) => {
            if !window.lies_in(source_len) {
                return Some(Refusal::Right);
            }
            unless(window.len == len, Refusal::Length)
        }
        Op::And(window)
        | Op::Or(window)
        | Op::Xor(window)
        | Op::Eq(window)
        | Op::Cmp(window)
        | Op::StartsWith(window)
        | Op::EndsWith(window)
        | Op::Contains(window) => unless(window.lies_in(source_len), Refusal::Right),
        _ => None,
    }
}

#[inline(always)]
fn unless(test: bool, refusal: Refusal) -> Option<Refusal>
    ensures { result ≡ unless test refusal }
{
    if test { None } else { Some(refusal) }
}
