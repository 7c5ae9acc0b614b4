//! Bits added to a sequence by blocks.
ghost use Rattle.std.specs.Prelude.{◌≡◌, ◌+◌, ◌-◌, ◌<◌, ◌≤◌, [], ◌++◌, OnErr, if◌then◌else◌, is_ok, length, replicate, take};
ghost use Rattle.bitvec_owned.specs.Copies.{KeepsAround};
ghost use Rattle.bitvec_slice.specs.Views.{seen};
ghost use Rattle.bitvec_owned.specs.Owned.{bit_capacity, owned};

use super::elements::{make_room, put_same};
use crate::BitVec;
use bitvec_base::{BitOrder, Window};
use bitvec_elements::{copy_from_block_in, copy_from_in};
use bitvec_engine::SliceOrder;
use bitvec_slice::BitSlice;
use bitvec_store::BitStore;
use std::alloc::{AllocError, Allocator};

impl<T: BitStore, O: BitOrder, A: Allocator> BitVec<T, O, A> {
    /// Keeps the first `len` bits, or adds as many of `bit` as there are `len` with them. An error where memory is refused,
    /// and the sequence is as before then.
    #[inline]
    pub fn resize(&mut self, len: usize, bit: bool) -> Result<(), AllocError>
        ensures bits { (owned self.new).bits ≡ (if is_ok result
            then take len (owned self.old).bits ++ replicate (len - length (owned self.old).bits) bit else (owned self.old).bits) }
        ensures around { KeepsAround T.BITS (owned self.old) (owned self.new) }
        ensures same { OnErr result (owned self.new ≡ owned self.old) }
        ensures full { OnErr result (bit_capacity self.old < len) }
        ensures capacity { bit_capacity self.old ≤ bit_capacity self.new }
    {
        if len <= self.len {
            self.truncate(len);
            return Ok(());
        }
        let end = self.head + self.len;
        put_same::<T, O, A>(&mut self.elements, end, len - self.len, bit)?;
        self.len = len;
        Ok(())
    }

    /// Adds the bits of a view of any element type and order. An error where memory is refused, and the sequence is as
    /// before then.
    pub fn extend_from_bitslice<U: BitStore, P: BitOrder>(
        &mut self,
        bits: BitSlice<'_, U, P>,
    ) -> Result<(), AllocError>
        ensures bits { (owned self.new).bits ≡ (if is_ok result then (owned self.old).bits ++ (seen bits.entry).bits else (owned self.old).bits) }
        ensures around { KeepsAround T.BITS (owned self.old) (owned self.new) }
        ensures len { (owned self.new).window.len ≡ (if is_ok result then (owned self.old).window.len + (seen bits.entry).window.len else (owned self.old).window.len) }
        ensures same { OnErr result (owned self.new ≡ owned self.old) }
        ensures full { OnErr result (bit_capacity self.old < (owned self.old).window.len + (seen bits.entry).window.len) }
        ensures capacity { bit_capacity self.old ≤ bit_capacity self.new }
    {
        let from = bits.window();
        let end = self.head + self.len;
        make_room(&mut self.elements, end + from.len, false)?;
        let to = Window {
            start: end,
            len: from.len,
        };
        copy_from_in::<T, O, U, P>(self.elements.as_mut_slice(), to, bits.elements(), from);
        self.len += from.len;
        Ok(())
    }
}

impl<T: BitStore, O: SliceOrder, A: Allocator> BitVec<T, O, A> {
    /// Adds the bits of a view of the sequence's own element type and order: [`BitVec::extend_from_bitslice`] by the
    /// order's own blocks.
    pub(crate) fn extend_from_block(&mut self, bits: BitSlice<'_, T, O>) -> Result<(), AllocError>
        ensures bits { (owned self.new).bits ≡ (if is_ok result then (owned self.old).bits ++ (seen bits.entry).bits else (owned self.old).bits) }
        ensures around { KeepsAround T.BITS (owned self.old) (owned self.new) }
        ensures same { OnErr result (owned self.new ≡ owned self.old) }
        ensures full { OnErr result (bit_capacity self.old < (owned self.old).window.len + (seen bits.entry).window.len) }
        ensures capacity { bit_capacity self.old ≤ bit_capacity self.new }
    {
        let from = bits.window();
        let end = self.head + self.len;
        make_room(&mut self.elements, end + from.len, false)?;
        let to = Window {
            start: end,
            len: from.len,
        };
        copy_from_block_in::<T, O>(self.elements.as_mut_slice(), to, bits.elements(), from);
        self.len += from.len;
        Ok(())
    }

    /// Moves the bits of another sequence to the end, and leaves it with none. An error where memory is refused, and both
    /// sequences are as before then.
    pub fn append<B: Allocator>(&mut self, other: &mut BitVec<T, O, B>) -> Result<(), AllocError>
        ensures bits { (owned self.new).bits ≡ (if is_ok result then (owned self.old).bits ++ (owned other.old).bits else (owned self.old).bits) }
        ensures other { (owned other.new).bits ≡ (if is_ok result then [] else (owned other.old).bits) }
        ensures around { KeepsAround T.BITS (owned self.old) (owned self.new) × KeepsAround T.BITS (owned other.old) (owned other.new) }
        ensures same { OnErr result ((owned self.new ≡ owned self.old) × (owned other.new ≡ owned other.old)) }
        ensures full { OnErr result (bit_capacity self.old < (owned self.old).window.len + (owned other.old).window.len) }
        ensures capacity { (bit_capacity self.old ≤ bit_capacity self.new) × (bit_capacity other.new ≡ bit_capacity other.old) }
    {
        self.extend_from_block(other.as_bitslice())?;
        other.clear();
        Ok(())
    }
}
