//! Views, and owned sequences, are copied and repeated.
ghost use Rattle.std.specs.Prelude.{◌≡◌, ◌*◌, ◌<◌, ◌≤◌, ◌↔◌, IfOk, IsErrOf, IsOk};
ghost use Rattle.std.specs.List.{repeat};
ghost use Rattle.bitvec_base.specs.Window.{max_bits};
ghost use Rattle.bitvec_owned.specs.Copies.{Holds, copy_start};
ghost use Rattle.bitvec_owned.specs.Owned.{bit_capacity, owned};
ghost use Rattle.bitvec_owned.specs.declared.repeating.RepeatError.TheVariants.{TooLong};

use crate::copying::copy_of;
use crate::repeating::repeat_of;
use crate::{BitArray, BitVec, RepeatError};
use bitvec_engine::SliceOrder;
use bitvec_slice::{BitSlice, BitSliceMut, View};
use bitvec_store::BitStore;
use std::alloc::{AllocError, Allocator};

/// The calls of `bitvec`'s `BitSlice` that make an owned sequence, for both view types and for owned
/// sequences.
pub trait ToBitVec<T: BitStore, O: SliceOrder>: View<T, O> {
    /// A copy of the bits, in memory of its own: it begins at the index in its first element at which
    /// the view does, a copy of no bits at 0. An error where memory was refused; a copy of no bits asks
    /// for none.
    final fn to_bitvec<A: Allocator>(&self, alloc: A) -> Result<BitVec<T, O, A>, AllocError>
        ensures copy { IfOk result (λ copy. Holds T.BITS (Self.shows self.now).bits
            (copy_start T.BITS (Self.shows self.now).window) (owned copy)) }
        ensures capacity { IfOk result (λ copy. (owned copy).window.len ≤ bit_capacity copy) }
        ensures none { (Self.shows self.now).window.len ≡ 0 → IsOk result }
    {
        copy_of(self.as_bitslice(), alloc)
    }

    /// The old name of [`ToBitVec::to_bitvec`].
    #[deprecated]
    final fn to_vec<A: Allocator>(&self, alloc: A) -> Result<BitVec<T, O, A>, AllocError>
        ensures copy { IfOk result (λ copy. Holds T.BITS (Self.shows self.now).bits
            (copy_start T.BITS (Self.shows self.now).window) (owned copy)) }
        ensures capacity { IfOk result (λ copy. (owned copy).window.len ≤ bit_capacity copy) }
        ensures none { (Self.shows self.now).window.len ≡ 0 → IsOk result }
    {
        copy_of(self.as_bitslice(), alloc)
    }

    /// The bits `copies` times, one after the other, in memory of their own from the first bit on.
    /// `TooLong` exactly where they would be more than `MAX_BITS` bits; else `Memory` where memory was
    /// refused. A repeat of no bits asks for none.
    final fn repeat<A: Allocator>(
        &self,
        alloc: A,
        copies: usize,
    ) -> Result<BitVec<T, O, A>, RepeatError>
        ensures long { IsErrOf result TooLong ↔ (max_bits < (Self.shows self.now).window.len * copies) }
        ensures copy { IfOk result (λ copy. Holds T.BITS (repeat copies (Self.shows self.now).bits) 0 (owned copy)) }
        ensures capacity { IfOk result (λ copy. (owned copy).window.len ≤ bit_capacity copy) }
        ensures none { (Self.shows self.now).window.len * copies ≡ 0 → IsOk result }
    {
        repeat_of(self.as_bitslice(), alloc, copies)
    }
}

impl<'a, T: BitStore, O: SliceOrder> ToBitVec<T, O> for BitSlice<'a, T, O> {}

impl<'a, T: BitStore, O: SliceOrder> ToBitVec<T, O> for BitSliceMut<'a, T, O> {}

impl<T: BitStore, O: SliceOrder, B: Allocator> ToBitVec<T, O> for BitVec<T, O, B> {}

impl<T: BitStore, O: SliceOrder, const N: usize> ToBitVec<T, O> for BitArray<T, O, N> {}
