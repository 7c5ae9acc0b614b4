//! Sequences that take truth values, of slices and of iterators.
ghost use Rattle.std.specs.Prelude.{◌≡◌, ◌+◌, ◌-◌, ◌<◌, ◌≤◌, ◌++◌, OnErr, drop, if◌then◌else◌, is_ok, length};
ghost use Rattle.bitvec_base.specs.Memory.{element_bits};
ghost use Rattle.bitvec_owned.specs.Copies.{KeepsAround};
ghost use Rattle.bitvec_owned.specs.Owned.{bit_capacity, owned};

use crate::BitVec;
use bitvec_base::{BitOrder, Lsb0};
use bitvec_slice::BitSlice;
use bitvec_store::BitStore;
use bitvec_words::joined;
use std::alloc::{AllocError, Allocator};

impl<T: BitStore, O: BitOrder, A: Allocator> BitVec<T, O, A> {
    /// For how many bits more there is memory, 64 at most.
    fn room_in_word(&self) -> usize
        ensures bound { result ≤ 64 }
        ensures room { (owned self.now).window.len + result ≤ bit_capacity self.now }
        ensures some { (owned self.now).window.len + 1 ≤ bit_capacity self.now → 1 ≤ result }
    {
        (self.capacity() - self.len).min(64)
    }

    /// Adds the last `len` bits of a word under `Lsb0`. Condition: there are as many, and there is memory for them.
    fn extend_from_word(&mut self, word: u64, len: usize)
        requires bound { len ≤ 64 }
        requires room { (owned self.old).window.len + len ≤ bit_capacity self.old }
        ensures bits { (owned self.new).bits ≡ (owned self.old).bits ++ drop (64 - len) (element_bits 64 (λ b i. i) word) }
        ensures around { KeepsAround T.BITS (owned self.old) (owned self.new) }
        ensures capacity { bit_capacity self.old ≤ bit_capacity self.new }
    {
        let word = [word];
        let _ = self.extend_from_bitslice(BitSlice::<u64, Lsb0>::from_parts(&word, 64 - len, len));
    }

    /// Adds truth values as bits, up to 64 at a time. Condition: there is memory for them.
    pub(crate) fn put_bools(&mut self, bools: &[bool])
        requires { (owned self.old).window.len + length bools.now ≤ bit_capacity self.old }
        ensures bits { (owned self.new).bits ≡ (owned self.old).bits ++ bools.now }
        ensures around { KeepsAround T.BITS (owned self.old) (owned self.new) }
        ensures capacity { bit_capacity self.old ≤ bit_capacity self.new }
    {
        let mut word = 0u64;
        let mut held = 0;
        for bit in bools {
            if held == 64 {
                self.extend_from_word(word, held);
                held = 0;
            }
            word = joined::<Lsb0, u64>(word, u64::from(*bit), 1);
            held += 1;
        }
        self.extend_from_word(word, held);
    }

    /// Adds truth values as bits, up to 64 at a time: [`BitVec::extend`] of a slice, which adds all or none. An error where
    /// memory is refused, and the sequence is as before then.
    pub fn extend_from_bools(&mut self, bools: &[bool]) -> Result<(), AllocError>
        ensures bits { (owned self.new).bits ≡ (if is_ok result then (owned self.old).bits ++ bools.now else (owned self.old).bits) }
        ensures around { KeepsAround T.BITS (owned self.old) (owned self.new) }
        ensures len { (owned self.new).window.len ≡ (if is_ok result then (owned self.old).window.len + length bools.now else (owned self.old).window.len) }
        ensures same { OnErr result (owned self.new ≡ owned self.old) }
        ensures full { OnErr result (bit_capacity self.old < (owned self.old).window.len + length bools.now) }
        ensures capacity { bit_capacity self.old ≤ bit_capacity self.new }
    {
        self.reserve(bools.len())?;
        self.put_bools(bools);
        Ok(())
    }
}

impl<T: BitStore, O: BitOrder, A: Allocator> Extend<bool> for BitVec<T, O, A> {
    ghost extend_gives = { λ before list after. ((owned after).bits ≡ (owned before).bits ++ list) × KeepsAround T.BITS (owned before) (owned after) × (bit_capacity before ≤ bit_capacity after) };

    /// Adds the truth values that an iterator gives, as bits, up to 64 at a time. Memory is asked for as by
    /// [`BitVec::push`], before the bit that needs it is held: an error where it is refused, and the bits before are added.
    fn extend<I: IntoIterator<Item = bool>>(&mut self, iter: I) -> Result<(), AllocError> {
        let mut word = 0u64;
        let mut held = 0;
        let mut room = self.room_in_word();
        for bit in iter {
            if held == room {
                self.extend_from_word(word, held);
                self.reserve(1)?;
                room = self.room_in_word();
                held = 0;
            }
            word = joined::<Lsb0, u64>(word, u64::from(bit), 1);
            held += 1;
        }
        self.extend_from_word(word, held);
        Ok(())
    }
}
