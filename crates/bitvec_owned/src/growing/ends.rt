//! Bits added and taken at the end of a sequence.
ghost use Rattle.std.specs.Prelude.{◌≡◌, ◌+◌, ◌<◌, ◌≤◌, ◌↔◌, [], ◌∷◌, ◌++◌, IsSome, OnErr, if◌then◌else◌, is_ok, length, take};
ghost use Rattle.std.specs.Option.{option_to_list};
ghost use Rattle.bitvec_owned.specs.Copies.{KeepsAround};
ghost use Rattle.bitvec_owned.specs.Owned.{bit_capacity, owned};

use super::elements::{drop_untouched, fill_rest, make_room_for_bit};
use crate::BitVec;
use crate::counts::touched_by;
use bitvec_base::{BitOrder, Window};
use bitvec_domain::{replace_in, set_in};
use bitvec_store::BitStore;
use std::alloc::{AllocError, Allocator};

impl<T: BitStore, O: BitOrder, A: Allocator> BitVec<T, O, A> {
    /// Adds a bit at the end. The elements grow as those of a `Vec`: an error where their memory is refused, and the sequence
    /// is as before then.
    ///
    /// ```
    /// bits.push(true)?;
    /// ```
    pub fn push(&mut self, bit: bool) -> Result<(), AllocError>
        ensures bits { (owned self.new).bits ≡ (if is_ok result then (owned self.old).bits ++ bit ∷ [] else (owned self.old).bits) }
        ensures around { KeepsAround T.BITS (owned self.old) (owned self.new) }
        ensures len { (owned self.new).window.len ≡ (if is_ok result then (owned self.old).window.len + 1 else (owned self.old).window.len) }
        ensures same { OnErr result (owned self.new ≡ owned self.old) }
        ensures full { OnErr result (bit_capacity self.old ≤ (owned self.old).window.len) }
        ensures capacity { bit_capacity self.old ≤ bit_capacity self.new }
    {
        let end = self.head + self.len;
        make_room_for_bit(&mut self.elements, end)?;
        let window = Window { start: end, len: 1 };
        set_in::<T, O>(self.elements.as_mut_slice(), window, 0, bit);
        self.len += 1;
        Ok(())
    }

    /// Takes the last bit, if there is one.
    pub fn pop(&mut self) -> Option<bool>
        ensures bits { (owned self.old).bits ≡ (owned self.new).bits ++ option_to_list result }
        ensures some { IsSome result ↔ (0 < length (owned self.old).bits) }
        ensures len { (owned self.new).window.len + length (option_to_list result) ≡ (owned self.old).window.len }
        ensures around { KeepsAround T.BITS (owned self.old) (owned self.new) }
        ensures capacity { bit_capacity self.new ≡ bit_capacity self.old }
    {
        if self.len == 0 {
            return None;
        }
        let last = self.len - 1;
        let end = self.head + last;
        let window = Window { start: end, len: 1 };
        let bit = replace_in::<T, O>(self.elements.as_mut_slice(), window, 0, false);
        drop_untouched(&mut self.elements, end);
        self.len = last;
        Some(bit)
    }

    /// Keeps the first `len` bits, or all where there are fewer. Nothing is asked for, and the capacity stays.
    pub fn truncate(&mut self, len: usize)
        ensures bits { (owned self.new).bits ≡ take len (owned self.old).bits }
        ensures around { KeepsAround T.BITS (owned self.old) (owned self.new) }
        ensures capacity { bit_capacity self.new ≡ bit_capacity self.old }
    {
        if len < self.len {
            let end = self.head + len;
            self.elements.truncate(touched_by::<T>(end));
            fill_rest::<T, O>(self.elements.as_mut_slice(), end, false);
            self.len = len;
        }
    }

    /// Drops all bits. Nothing is asked for, and the capacity stays.
    pub fn clear(&mut self)
        ensures bits { (owned self.new).bits ≡ [] }
        ensures around { KeepsAround T.BITS (owned self.old) (owned self.new) }
        ensures capacity { bit_capacity self.new ≡ bit_capacity self.old }
    {
        self.truncate(0);
    }
}
