//! The commands of the lines, in three tables.
ghost use Rattle.std.specs.Prelude.{◌≡◌};
ghost use Rattle.bitdo_work.specs.Ops.{op_of, right_op_of, bare_op_of};
ghost use Rattle.bitdo_work.specs.Words.{words_left};

use crate::words::Words;
use bitvec_base::Window;
use bitvec_commands::Op;

/// The command of a word and the arguments after it: a row a command, as many arguments as it
/// shows. A word without a row is no command.
#[tactic(auto, unfolding(crate::specs::Ops::op_of))]
pub(crate) fn parse_op(word: &str, arguments: Words<'_>) -> Option<Op>
    ensures { result ≡ op_of word.now (words_left arguments.entry) }
{
    match word {
        "get" => arguments.number().map(Op::Get),
        "set" => {
            let (index, bit) = arguments.number_and_bit()?;
            Some(Op::Set(index, bit))
        }
        "replace" => {
            let (index, bit) = arguments.number_and_bit()?;
            Some(Op::Replace(index, bit))
        }
        "swap" => {
            let (first, second) = arguments.two_numbers()?;
            Some(Op::Swap(first, second))
        }
        "fill" => arguments.bit().map(Op::Fill),
        "shift_start" => arguments.number().map(Op::ShiftStart),
        "shift_end" => arguments.number().map(Op::ShiftEnd),
        "rotate_left" => arguments.number().map(Op::RotateLeft),
        "rotate_right" => arguments.number().map(Op::RotateRight),
        "copy_within" => {
            let (start, end, dest) = arguments.three_numbers()?;
            Some(Op::CopyWithin(start, end, dest))
        }
        _ if arguments.is_empty() => bare_op(word),
        _ => right_op(word, arguments.window()?),
    }
}

/// The command of a word with a right window.
fn right_op(word: &str, right: Window) -> Option<Op>
    ensures { result ≡ right_op_of word.now right }
{
    match word {
        "copy_from" => Some(Op::CopyFrom(right)),
        "and" => Some(Op::And(right)),
        "or" => Some(Op::Or(right)),
        "xor" => Some(Op::Xor(right)),
        "eq" => Some(Op::Eq(right)),
        "cmp" => Some(Op::Cmp(right)),
        "starts_with" => Some(Op::StartsWith(right)),
        "ends_with" => Some(Op::EndsWith(right)),
        "contains" => Some(Op::Contains(right)),
        _ => None,
    }
}

/// The command of a word without an argument.
fn bare_op(word: &str) -> Option<Op>
    ensures { result ≡ bare_op_of word.now }
{
    match word {
        "invert" => Some(Op::Invert),
        "reverse" => Some(Op::Reverse),
        "count_ones" => Some(Op::CountOnes),
        "count_zeros" => Some(Op::CountZeros),
        "first_one" => Some(Op::FirstOne),
        "first_zero" => Some(Op::FirstZero),
        "last_one" => Some(Op::LastOne),
        "last_zero" => Some(Op::LastZero),
        "any" => Some(Op::Any),
        "all" => Some(Op::All),
        _ => None,
    }
}
