//! Sequences that take the lowest bits of numbers.
ghost use Rattle.std.specs.Prelude.{◌≡◌, ◌+◌, ◌<◌, ◌≤◌, ◌++◌, OnErr, false, if◌then◌else◌, is_ok, true};
ghost use Rattle.bitvec_segments.specs.Segments.{segment_bits};
ghost use Rattle.bitvec_owned.specs.Copies.{KeepsAround};
ghost use Rattle.bitvec_owned.specs.Owned.{bit_capacity, owned};

use crate::BitVec;
use bitvec_base::{BitOrder, Lsb0, Msb0};
use bitvec_slice::BitSlice;
use bitvec_store::BitStore;
use std::alloc::{AllocError, Allocator};

impl<T: BitStore, O: BitOrder, A: Allocator> BitVec<T, O, A> {
    /// Adds the lowest `len` bits of a number, the highest of them first. An error where memory is refused, and the sequence
    /// is as before then. `bitvec` has no such call. Condition: `len` is at most 64.
    pub fn extend_highest_first(&mut self, number: u64, len: usize) -> Result<(), AllocError>
        requires { len ≤ 64 }
        ensures bits { (owned self.new).bits ≡ (if is_ok result then (owned self.old).bits ++ segment_bits true len number else (owned self.old).bits) }
        ensures around { KeepsAround T.BITS (owned self.old) (owned self.new) }
        ensures same { OnErr result (owned self.new ≡ owned self.old) }
        ensures full { OnErr result (bit_capacity self.old < (owned self.old).window.len + len) }
        ensures capacity { bit_capacity self.old ≤ bit_capacity self.new }
    {
        let word = [number];
        self.extend_from_bitslice(BitSlice::<u64, Msb0>::from_parts(&word, 64 - len, len))
    }

    /// [`BitVec::extend_highest_first`] with the lowest bit first.
    pub fn extend_lowest_first(&mut self, number: u64, len: usize) -> Result<(), AllocError>
        requires { len ≤ 64 }
        ensures bits { (owned self.new).bits ≡ (if is_ok result then (owned self.old).bits ++ segment_bits false len number else (owned self.old).bits) }
        ensures around { KeepsAround T.BITS (owned self.old) (owned self.new) }
        ensures same { OnErr result (owned self.new ≡ owned self.old) }
        ensures full { OnErr result (bit_capacity self.old < (owned self.old).window.len + len) }
        ensures capacity { bit_capacity self.old ≤ bit_capacity self.new }
    {
        let word = [number];
        self.extend_from_bitslice(BitSlice::<u64, Lsb0>::from_parts(&word, 0, len))
    }
}
