//! An owned sequence of bits.
ghost use Rattle.std.specs.Prelude.{◌≡◌, ◌+◌, ◌-◌, ◌*◌, ◌<◌, ◌≤◌, ◌==◌, length, map, vec_capacity, vec_len};
ghost use Rattle.std.specs.Borrow.{sem};
ghost use Rattle.std.specs.Int.{div_ceil};
ghost use Rattle.bitvec_base.specs.Window.{max_bits};

use bitvec_base::{BitOrder, Window};
use bitvec_slice::{BitSlice, BitSliceMut};
use bitvec_store::BitStore;
use std::alloc::Allocator;
use std::marker::PhantomData;

/// A sequence of bits in memory of its own.
///
/// It has just the elements that its bits touch, and the index in the first of them at which it begins.
/// Contracts see it as they see a view of its bits. Calls that add or take bits have std's meaning on the list of
/// them, and leave it where it begins; docs/DIFFERENCES.md says what differs.
#[derive(Drop)]
pub struct BitVec<T: BitStore, O: BitOrder, A: Allocator> {
    pub(crate) elements: Vec<T, A>,
    pub(crate) head: usize,
    pub(crate) len: usize,
    order: PhantomData<O>,
    ghost begins: { head < T.BITS },
    ghost touched: { vec_len elements ≡ div_ceil (head + len) T.BITS },
    ghost bounded: { T.BITS * vec_len elements ≤ max_bits },
}

impl<T: BitStore, O: BitOrder, A: Allocator> BitVec<T, O, A> {
    ghost use Rattle.bitvec_base.specs.Memory.{HasWindow};
    ghost use Rattle.bitvec_slice.specs.Seen.{shown};
    ghost use Rattle.bitvec_slice.specs.Views.{name_of, seen, seen_mut};
    ghost use Rattle.bitvec_owned.specs.Lending.{lends};
    ghost use Rattle.bitvec_owned.specs.Owned.{bit_capacity, owned, usable_bits};

    pub(crate) fn from_parts(elements: Vec<T, A>, head: usize, len: usize) -> Self
        requires begins { head < T.BITS }
        requires touched { vec_len elements ≡ div_ceil (head + len) T.BITS }
        requires fits { T.BITS * vec_len elements ≤ max_bits }
        ensures shows { owned result ≡ shown T.BITS O.at T.value elements.items head len }
        ensures capacity { bit_capacity result ≡ usable_bits T.BITS (vec_capacity elements) - head }
        ensures room { (owned result).window.len ≤ bit_capacity result }
    {
        BitVec {
            elements,
            head,
            len,
            order: PhantomData,
        }
    }

    /// A view of the bits.
    pub fn as_bitslice(&self) -> BitSlice<'_, T, O>
        ensures view { seen result ≡ owned self.now }
        ensures bits { (seen result).bits ≡ (owned self.now).bits }
    {
        BitSlice::from_parts(self.elements.as_slice(), self.head, self.len)
    }

    /// A view that writes the bits.
    pub fn as_mut_bitslice(&mut self) -> BitSliceMut<'_, T, O>
        ensures* writes_back { sem 𝓛 (lends T.row O.row A.row A.Allocator self.entry (name_of result)) }
        ensures view { seen_mut result ≡ owned self.old }
    {
        let head = self.head;
        let len = self.len;
        BitSliceMut::from_parts(self.as_raw_mut_slice(), head, len)
    }

    /// How many bits there are.
    pub fn len(&self) -> usize
        ensures value { result ≡ length (owned self.now).bits }
        ensures window { result ≡ (owned self.now).window.len }
        ensures bound { result ≤ max_bits }
    {
        self.as_bitslice().len()
    }

    /// Whether there is no bit.
    pub fn is_empty(&self) -> bool
        ensures { result ≡ ((owned self.now).window.len == 0) }
    {
        self.len == 0
    }

    /// The elements: just those that the bits touch.
    pub fn as_raw_slice(&self) -> &[T]
        ensures { result.now ≡ (owned self.now).elements }
    {
        self.elements.as_slice()
    }

    /// The elements: just those that the bits touch. Once the slice has ended, the sequence has what was left in it,
    /// and its window is as before; so whoever passes the slice on to a function whose contract says what it
    /// leaves there knows every bit.
    pub fn as_raw_mut_slice(&mut self) -> &mut [T]
        ensures* writes_back { sem 𝓛 (lends T.row O.row A.row A.Allocator self.entry result.ghost_name) }
        ensures elements { result.now ≡ (owned self.old).elements }
        ensures fits { T.BITS * length result.now ≤ max_bits }
    {
        self.elements.as_mut_slice()
    }

    /// Ends the sequence, and gives its elements with all their memory: `into_vec` of `bitvec`.
    pub fn into_elements(self) -> Vec<T, A>
        ensures elements { result.items ≡ (owned self).elements }
        ensures capacity { bit_capacity self ≡ usable_bits T.BITS (vec_capacity result) - (owned self).window.start }
    {
        let BitVec {
            elements,
            head: _,
            len: _,
            order: _,
        } = self;
        elements
    }

    /// Where the bits stand among the elements. `bitvec` has no such call.
    pub fn window(&self) -> Window
        ensures value { result ≡ (owned self.now).window }
        ensures inside { HasWindow T.BITS (map T.value (owned self.now).elements) result }
    {
        self.as_bitslice().window()
    }
}
