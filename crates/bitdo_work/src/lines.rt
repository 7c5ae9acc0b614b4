//! The lines of the input: one step each.
ghost use Rattle.std.specs.Prelude.{◌≡◌, ◌⊎◌, IsSomeAnd, IfOk, IfErr};
ghost use Rattle.bitdo_work.specs.Steps.{step_of, steps_of, bad_line_of};

use crate::fault::Fault;
use crate::ops::parse_op;
use crate::words::{Words, parse_number};
use bitvec_run::Step;
use std::alloc::Allocator;

/// The step of a line: FROM, TO, the command and its arguments.
#[tactic(auto, unfolding(crate::specs::Steps::step_of, crate::specs::Steps::step_of_words))]
fn parse_step(line: &str) -> Option<Step>
    ensures { result ≡ step_of line.now }
{
    let mut words = Words::new(line);
    let from = parse_number(words.next()?)?;
    let to = parse_number(words.next()?)?;
    let word = words.next()?;
    let op = parse_op(word, words)?;
    Some(Step { from, to, op })
}

/// The steps of a text, one a line. Empty lines are skipped, but counted.
pub(crate) fn parse_steps<A: Allocator>(alloc: A, text: &str) -> Result<Vec<Step, A>, Fault>
    ensures steps { IfOk result (λ steps. steps_of text.now ≡ Some steps.items) }
    ensures line { IfErr result (λ fault.
        (fault ≡ Fault.Memory) ⊎ IsSomeAnd (bad_line_of text.now) (λ number. fault ≡ Fault.Line number)) }
{
    let mut steps = Vec::new(alloc);
    for (index, line) in text.lines().enumerate() {
        if line.is_empty() {
            continue;
        }
        let Some(step) = parse_step(line) else {
            return Err(Fault::Line(index + 1));
        };
        steps.push(step)?;
    }
    Ok(steps)
}
