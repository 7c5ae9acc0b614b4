//! What a caller knows of several edits of one sequence, and of one array of bits.
ghost use Rattle.std.specs.Prelude.{◌≡◌, ◌<◌, map, not, slice_set, true};
ghost use Rattle.bitvec.specs.BitArrays.{WritesArray, in_array};
ghost use Rattle.bitvec.specs.Owned.{owned};
ghost use Rattle.bitvec.specs.OwnedWrites.{WritesOwned};

use bitvec::prelude::*;
use std::alloc::{AllocError, Global};

/// Flips all bits of a sequence, and sets one then: one edit.
#[tactic(auto, using(bitvec::specs::Laws::composed))]
pub fn flip_and_set<T: BitStore, O: SliceOrder>(bits: &mut BitVec<T, O, Global>, index: usize)
    requires { index < (owned bits.old).window.len }
    ensures written { WritesOwned bits.old bits.new (owned bits.new).bits }
    ensures bits { (owned bits.new).bits ≡ slice_set (map not (owned bits.old).bits) index true }
{
    bits.invert();
    bits.set(index, true);
}

/// Raises a line, and another if it is said to: one edit, whether or not.
#[tactic(auto, using(bitvec::specs::Laws::composed))]
pub fn raise_both(lines: &mut BitArray<u32, Lsb0, 4>, first: usize, second: usize, both: bool)
    requires first { first < (in_array lines.old).window.len }
    requires second { second < (in_array lines.old).window.len }
    ensures { WritesArray lines.old lines.new (in_array lines.new).bits }
{
    lines.set(first, true);
    if both {
        lines.set(second, true);
    }
}

/// Flips a sequence if it is said to: no edit is one, too.
#[tactic(auto, using(bitvec::specs::Laws::composed))]
pub fn flip_if<T: BitStore, O: SliceOrder>(bits: &mut BitVec<T, O, Global>, flip: bool)
    ensures { WritesOwned bits.old bits.new (owned bits.new).bits }
{
    if flip {
        bits.invert();
    }
}

/// Adds a one at the end.
fn add_one(bits: &mut BitVec<u64, Lsb0, Global>) -> Result<(), AllocError> {
    bits.push(true)?;
    Ok(())
}

#[test]
fn a_sequence_gets_its_first_bit(rt: HostRuntime) {
    let mut bits = BitVec::<u64, Lsb0, Global>::new_in(rt.alloc());
    assert!(rt; add_one(&mut bits).is_ok() && bits.len() == 1 && bits.pop() == Some(true));
}
