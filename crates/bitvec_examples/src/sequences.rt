//! What a caller knows of bits that are put into a sequence, taken from it, and added behind those that stand there.
ghost use Rattle.std.specs.Prelude.{◌≡◌, ℕ, ◌+◌, ◌-◌, ◌<◌, ◌≤◌, IfOk, OnErr, OnOk, false, slice_index_or, take};
ghost use Rattle.bitvec.specs.Owned.{owned};

use bitvec::prelude::*;
use std::alloc::{AllocError, Global};

type Words = BitVec<u64, Lsb0, Global>;

/// Puts a bit before another one and takes it back: the bits are as they were.
#[tactic(auto, using(bitvec::specs::Laws::reindexed))]
pub fn insert_and_remove(bits: &mut Words, index: usize, bit: bool) -> Result<bool, AllocError>
    requires { index ≤ (owned bits.old).window.len }
    ensures bits { (owned bits.new).bits ≡ (owned bits.old).bits }
    ensures value { IfOk result (λ taken. taken ≡ bit) }
{
    bits.insert(index, bit)?;
    Ok(bits.remove(index))
}

/// Puts a bit before all others, which then stand one place on.
#[tactic(auto, using(bitvec::specs::Laws::reindexed))]
pub fn put_first(bits: &mut Words, bit: bool) -> Result<(), AllocError>
    ensures first { OnOk result (slice_index_or (owned bits.new).bits 0 false ≡ bit) }
    ensures others { OnOk result ((k : ℕ) → slice_index_or (owned bits.new).bits (k + 1) false ≡ slice_index_or (owned bits.old).bits k false) }
{
    bits.insert(0, bit)
}

/// Takes the first bit, and then the one at an index, to whose place the last one comes. Condition: a bit stands behind it.
#[tactic(auto, using(bitvec::specs::Laws::reindexed))]
pub fn take_two(bits: &mut Words, index: usize) -> (bool, bool)
    requires { index + 2 < (owned bits.old).window.len }
    ensures first { result.0 ≡ slice_index_or (owned bits.old).bits 0 false }
    ensures second { result.1 ≡ slice_index_or (owned bits.old).bits (index + 1) false }
    ensures last { slice_index_or (owned bits.new).bits index false ≡ slice_index_or (owned bits.old).bits ((owned bits.old).window.len - 1) false }
    ensures before { (k : ℕ) → k < index → slice_index_or (owned bits.new).bits k false ≡ slice_index_or (owned bits.old).bits (k + 1) false }
{
    let first = bits.remove(0);
    (first, bits.swap_remove(index))
}

/// Adds a mark and the seven bits of a number behind it, or nothing where memory is refused.
#[tactic(auto, using(bitvec::specs::Laws::grown))]
pub fn add_marked(bits: &mut Words, number: u8) -> Result<(), AllocError>
    ensures begins { OnOk result (take (owned bits.old).window.len (owned bits.new).bits ≡ (owned bits.old).bits) }
    ensures kept { OnErr result ((owned bits.new).bits ≡ (owned bits.old).bits) }
{
    let len = bits.len();
    bits.push(true)?;
    let added = bits.extend_highest_first(u64::from(number), 7);
    if added.is_err() {
        bits.truncate(len);
    }
    added
}

/// Whether the calls leave 1, 0, 0, 1, 0, 1, 1 of a mark and the bits of 22.
fn are_put_and_taken(alloc: Global) -> Result<bool, AllocError> {
    let mut bits = Words::new_in(alloc);
    add_marked(&mut bits, 22)?;
    put_first(&mut bits, true)?;
    if bits.len() != 9 {
        return Ok(false);
    }
    let back = insert_and_remove(&mut bits, 4, true)?;
    if bits.len() != 9 {
        return Ok(false);
    }
    let (first, second) = take_two(&mut bits, 2);
    Ok(first && back && !second && bits.as_raw_slice() == [0b1101001].as_slice() && bits.len() == 7)
}

#[test]
fn bits_are_put_and_taken(rt: HostRuntime) {
    assert!(rt; are_put_and_taken(rt.alloc()) == Ok(true));
}
