//! The words after the program's name: assignments.
ghost use Rattle.std.specs.Prelude.{◌≡◌, ◌<◌, ◌≤◌, ◌⊎◌, IfOk, IfErr, List, map, string_bytes};
ghost use Rattle.std.specs.Option.{option_map};
ghost use Rattle.packet.specs.Arguments.{AreAssignments, Named, assignment_of, named, number_of, value_of};

use crate::fault::Fault;
use std::alloc::Allocator;

/// A field that is to have a value.
#[derive(Clone, Copy)]
pub struct Assignment<'a> {
    /// The field's name.
    pub name: &'a str,
    /// The value.
    pub value: u128,
}

/// The number of a word of one or more digits, without a plus. None, if the word is another one or its
/// number has more than 128 bits. Condition: there are digits of the radix.
#[tactic(auto, unfolding(crate::specs::Arguments::number_of))]
fn parse_number(word: &str, radix: u32) -> Option<u128>
    requires low { 2 ≤ radix }
    requires high { radix ≤ 36 }
    ensures { result ≡ number_of radix word.now }
{
    if word.starts_with('+') {
        return None;
    }
    u128::from_str_radix(word, radix).ok()
}

/// The number of a word of decimal digits, or of hexadecimal ones behind `0x`.
fn parse_value(word: &str) -> Option<u128>
    ensures { result ≡ value_of word.now }
{
    match word.strip_prefix("0x") {
        Some(digits) => parse_number(digits, 16),
        None => parse_number(word, 10),
    }
}

/// The assignment of the words `--set` and `FIELD=VALUE`.
fn parse_assignment<'a>(flag: &str, word: &'a str) -> Option<Assignment<'a>>
    ensures { option_map named result ≡ assignment_of flag.now word.now }
{
    if flag != "--set" {
        return None;
    }
    let (name, value) = word.split_once('=')?;
    let value = parse_value(value)?;
    Some(Assignment { name, value })
}

/// The assignments of words, each behind a word `--set`.
pub(crate) fn parse_arguments<'a, A: Allocator>(
    alloc: A,
    words: &'a [String],
) -> Result<Vec<Assignment<'a>, A>, Fault>
    ensures assignments { IfOk result (λ list. AreAssignments (map string_bytes words.now) (map named list.items)) }
    ensures fault { IfErr result (λ fault. (fault ≡ Fault.Memory) ⊎ ((fault ≡ Fault.Arguments)
        × ((list : List Named) → AreAssignments (map string_bytes words.now) list → ⊥))) }
{
    let mut assignments = Vec::new(alloc);
    if words.len() % 2 != 0 {
        return Err(Fault::Arguments);
    }
    for number in 0..words.len() / 2 {
        let (flag, word) = (words[2 * number].as_str(), words[2 * number + 1].as_str());
        match parse_assignment(flag, word) {
            Some(assignment) => assignments.push(assignment)?,
            None => return Err(Fault::Arguments),
        }
    }
    Ok(assignments)
}
