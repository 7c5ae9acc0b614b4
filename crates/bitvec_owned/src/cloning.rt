//! The clone of an owned sequence.
ghost use Rattle.std.specs.Prelude.{◌≡◌, ◌≤◌};
ghost use Rattle.bitvec_owned.specs.Owned.{bit_capacity, owned};

use crate::BitVec;
use bitvec_base::BitOrder;
use bitvec_store::BitStore;
use std::alloc::{AllocError, Allocator};

impl<T: BitStore, O: BitOrder, A: Allocator + Clone> Clone for BitVec<T, O, A> {
    ghost is_clone = { λ bits copy. (owned copy ≡ owned bits) × ((owned copy).window.len ≤ bit_capacity copy) };

    /// A copy of the bits in elements of its own, with an allocator that is the sequence's, cloned; the
    /// memory for them is asked for once. The copy has memory for its bits; for how many more isn't told.
    fn clone(&self) -> Result<Self, AllocError> {
        let alloc = self.elements.allocator().clone()?;
        let elements = Vec::from_slice(alloc, self.elements.as_slice())?;
        Ok(BitVec::from_parts(elements, self.head, self.len))
    }
}
