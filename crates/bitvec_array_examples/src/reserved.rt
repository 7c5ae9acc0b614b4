//! What a caller knows of memory that it asked for ahead.
#![tactic(auto, using(bitvec::specs::Laws::grown))]

ghost use Rattle.std.specs.Prelude.{◌≡◌, [], ◌∷◌, ◌++◌, if◌then◌else◌, is_ok};
ghost use Rattle.bitvec.specs.Owned.{owned};

use bitvec::prelude::*;
use std::alloc::{AllocError, Global};

/// Adds two bits, or none where memory for both is refused.
pub fn push_both(
    bits: &mut BitVec<u64, Lsb0, Global>,
    first: bool,
    second: bool,
) -> Result<(), AllocError>
    ensures { (owned bits.new).bits ≡ (if is_ok result then (owned bits.old).bits ++ first ∷ second ∷ [] else (owned bits.old).bits) }
{
    bits.reserve(2)?;
    bits.push(first)?;
    bits.push(second)?;
    Ok(())
}

#[test]
fn memory_that_is_there_is_not_refused(rt: HostRuntime) {
    let mut bits = BitVec::<u64, Lsb0, Global>::new_in(rt.alloc());
    let added = push_both(&mut bits, true, false);
    assert!(rt; added.is_ok() && bits.pop() == Some(false) && bits.pop() == Some(true));
}
