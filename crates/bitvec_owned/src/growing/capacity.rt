//! Sequences with no bit, and the memory that they have for more.
ghost use Rattle.std.specs.Prelude.{◌≡◌, ◌+◌, ◌*◌, ◌<◌, ◌≤◌, [], IfOk, IsOk, OnErr, OnOk, length};
ghost use Rattle.std.specs.Int.{div_ceil};
ghost use Rattle.bitvec_owned.specs.Copies.{Holds};
ghost use Rattle.bitvec_owned.specs.Owned.{bit_capacity, owned};

use crate::BitVec;
use crate::counts::{bits_of, most_elements, room_for};
use bitvec_base::BitOrder;
use bitvec_store::BitStore;
use std::alloc::{AllocError, Allocator};

impl<T: BitStore, O: BitOrder, A: Allocator> BitVec<T, O, A> {
    /// A sequence of no bit, which asks for no memory: `new` of `bitvec`.
    ///
    /// ```
    /// let mut bits = BitVec::<u64, Lsb0, Global>::new_in(rt.alloc());
    /// ```
    pub fn new_in(alloc: A) -> Self
        ensures held { Holds T.BITS [] 0 (owned result) }
        ensures capacity { bit_capacity result ≡ 0 }
    {
        BitVec::from_parts(Vec::new(alloc), 0, 0)
    }

    /// A sequence of no bit, with memory for so many: `with_capacity` of `bitvec`. An error where it was refused, and for
    /// more elements than `MAX_BITS` bits fill.
    pub fn with_capacity_in(alloc: A, bits: usize) -> Result<Self, AllocError>
        ensures made { IfOk result (λ made. Holds T.BITS [] 0 (owned made)) }
        ensures capacity { IfOk result (λ made. bits ≤ bit_capacity made) }
        ensures exact { IfOk result (λ made. bit_capacity made ≡ T.BITS * div_ceil bits T.BITS) }
        ensures none { bits ≡ 0 → IsOk result }
    {
        let elements = Vec::with_capacity(alloc, room_for::<T>(bits)?)?;
        Ok(BitVec::from_parts(elements, 0, 0))
    }

    /// How many bits the sequence has memory for, those that it has with them: the bits of its memory's elements, but for
    /// the places before its first bit. Elements that would make more than `MAX_BITS` bits don't count.
    pub fn capacity(&self) -> usize
        ensures value { result ≡ bit_capacity self.now }
        ensures bound { (owned self.now).window.len ≤ result }
    {
        let elements = self.elements.capacity().min(most_elements::<T>());
        bits_of::<T>(elements) - self.head
    }

    /// Makes memory for so many bits more, at least. It grows as that of a `Vec`, so that many calls that add a bit each
    /// ask seldom. An error where it was refused, and for more elements than `MAX_BITS` bits fill. The bits are as before.
    pub fn reserve(&mut self, additional: usize) -> Result<(), AllocError>
        ensures same { owned self.new ≡ owned self.old }
        ensures ok { OnOk result ((owned self.new).window.len + additional ≤ bit_capacity self.new) }
        ensures capacity { bit_capacity self.old ≤ bit_capacity self.new }
        ensures succeeds { (owned self.old).window.len + additional ≤ bit_capacity self.old → IsOk result }
        ensures full { OnErr result (bit_capacity self.old < (owned self.old).window.len + additional) }
        ensures err { OnErr result (bit_capacity self.new ≡ bit_capacity self.old) }
    {
        let end = self.head + self.len;
        let count = room_for::<T>(end.saturating_add(additional))?;
        self.elements.reserve(count - self.elements.len())
    }

    /// Gives back the memory that the bits don't need, as far as the allocator takes it. The bits are as before.
    pub fn shrink_to_fit(&mut self)
        ensures same { owned self.new ≡ owned self.old }
        ensures capacity { bit_capacity self.new ≤ bit_capacity self.old }
        ensures frees { length (owned self.old).elements ≡ 0 → bit_capacity self.new ≡ 0 }
    {
        self.elements.shrink_to_fit();
    }
}
