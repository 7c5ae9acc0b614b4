//! Bits added and taken within a sequence.
ghost use Rattle.std.specs.Prelude.{◌≡◌, ◌+◌, ◌<◌, ◌≤◌, OnErr, false, if◌then◌else◌, is_ok, slice_index_or};
ghost use Rattle.std.specs.List.{insert, remove, swap_remove};
ghost use Rattle.bitvec_owned.specs.Copies.{KeepsAround};
ghost use Rattle.bitvec_owned.specs.Owned.{bit_capacity, owned};

use crate::BitVec;
use bitvec_edit::BitEdits;
use bitvec_engine::SliceOrder;
use bitvec_store::BitStore;
use std::alloc::{AllocError, Allocator};

impl<T: BitStore, O: SliceOrder, A: Allocator> BitVec<T, O, A> {
    /// Adds a bit before the one at an index, or at the end. Those behind it move by one place, by words. An error where
    /// memory is refused, and the sequence is as before then. Condition: the index is at most `len`.
    pub fn insert(&mut self, index: usize, bit: bool) -> Result<(), AllocError>
        requires { index ≤ (owned self.old).window.len }
        ensures bits { (owned self.new).bits ≡ (if is_ok result then insert (owned self.old).bits index bit else (owned self.old).bits) }
        ensures around { KeepsAround T.BITS (owned self.old) (owned self.new) }
        ensures len { (owned self.new).window.len ≡ (if is_ok result then (owned self.old).window.len + 1 else (owned self.old).window.len) }
        ensures same { OnErr result (owned self.new ≡ owned self.old) }
        ensures full { OnErr result (bit_capacity self.old ≤ (owned self.old).window.len) }
        ensures capacity { bit_capacity self.old ≤ bit_capacity self.new }
    {
        let len = self.len();
        self.push(bit)?;
        self.copy_within(index..len, index + 1);
        self.set(index, bit);
        Ok(())
    }

    /// Takes the bit at an index. Those behind it move by one place, by words. Condition: the index is below `len`.
    pub fn remove(&mut self, index: usize) -> bool
        requires { index < (owned self.old).window.len }
        ensures value { result ≡ slice_index_or (owned self.old).bits index false }
        ensures bits { (owned self.new).bits ≡ remove (owned self.old).bits index }
        ensures around { KeepsAround T.BITS (owned self.old) (owned self.new) }
        ensures capacity { bit_capacity self.new ≡ bit_capacity self.old }
    {
        let len = self.len();
        let bit = self.as_bitslice()[index];
        self.copy_within(index + 1..len, index);
        self.truncate(len - 1);
        bit
    }

    /// Takes the bit at an index, and the last one comes to its place. Condition: the index is below `len`.
    pub fn swap_remove(&mut self, index: usize) -> bool
        requires { index < (owned self.old).window.len }
        ensures value { result ≡ slice_index_or (owned self.old).bits index false }
        ensures bits { (owned self.new).bits ≡ swap_remove (owned self.old).bits index result }
        ensures around { KeepsAround T.BITS (owned self.old) (owned self.new) }
        ensures capacity { bit_capacity self.new ≡ bit_capacity self.old }
    {
        let last = self.len() - 1;
        let bit = self.as_bitslice()[index];
        self.swap(index, last);
        self.truncate(last);
        bit
    }
}
