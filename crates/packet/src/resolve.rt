//! Which changes assignments are.
ghost use Rattle.std.specs.Prelude.{◌≡◌, ◌+◌, ◌^◌, ◌<◌, ◌⊎◌, IfErr, IfOk, map};
ghost use Rattle.packet.specs.Arguments.{named};
ghost use Rattle.packet.specs.Packets.{places_of};
ghost use Rattle.packet.specs.Resolved.{AreChanges, ChangeFault, ChangesFault, IsChange, is_fixed, place_of};

use crate::arguments::Assignment;
use crate::changes::Change;
use crate::fault::Fault;
use crate::field::{CHECKSUM, Field, HEADER_LENGTH, VERSION};
use bitrecord::fits;
use std::alloc::Allocator;

/// Whether the field of a number can't be set: it says where others lie, or is computed.
fn is_fixed_field(number: usize) -> bool
    ensures { result ≡ is_fixed number }
{
    number == VERSION || number == HEADER_LENGTH || number == CHECKSUM
}

/// The number of the first field of a name.
fn find_field(fields: &[Field], name: &str) -> Option<usize>
    ensures { result ≡ place_of (places_of fields.now) name.now }
{
    fields.iter().position(|field| field.name == name)
}

/// The change of an assignment, whose index is told from 0 on.
fn resolve_one(fields: &[Field], assignment: Assignment<'_>, index: usize) -> Result<Change, Fault>
    requires { index + 1 < 2 ^ 64 }
    ensures change { IfOk result (IsChange (places_of fields.now) (named assignment.entry)) }
    ensures fault { IfErr result (ChangeFault (places_of fields.now) (named assignment.entry) (index + 1)) }
{
    let Some(number) = find_field(fields, assignment.name) else {
        return Err(Fault::Unknown(index + 1));
    };
    if is_fixed_field(number) {
        return Err(Fault::Fixed(index + 1));
    }
    let value = assignment.value;
    if !fits(value, fields[number].window.len) {
        return Err(Fault::Range(index + 1));
    }
    Ok(Change { number, value })
}

/// The changes of assignments.
pub(crate) fn resolve<A: Allocator>(
    alloc: A,
    fields: &[Field],
    assignments: &[Assignment<'_>],
) -> Result<Vec<Change, A>, Fault>
    ensures changes { IfOk result (λ changes. AreChanges (places_of fields.now) (map named assignments.now) changes.items) }
    ensures fault { IfErr result (λ fault. (fault ≡ Fault.Memory) ⊎ ChangesFault (places_of fields.now) (map named assignments.now) fault) }
{
    let mut changes = Vec::new(alloc);
    for index in 0..assignments.len() {
        let change = resolve_one(fields, assignments[index], index)?;
        changes.push(change)?;
    }
    Ok(changes)
}
