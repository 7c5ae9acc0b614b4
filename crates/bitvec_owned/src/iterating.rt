//! Walks over the bits of owned sequences.
ghost use Rattle.std.specs.Prelude.{◌≡◌, ◌≤◌, length};
ghost use Rattle.bitvec_base.specs.Window.{max_bits};
ghost use Rattle.bitvec_slice.specs.Walks.{Walks, YieldsBits, remaining_bits};
ghost use Rattle.bitvec_owned.specs.Owned.{owned};

use crate::BitVec;
use bitvec_base::BitOrder;
use bitvec_domain::BitRef;
use bitvec_slice::Iter;
use bitvec_store::BitStore;
use std::alloc::Allocator;

impl<T: BitStore, O: BitOrder, A: Allocator> BitVec<T, O, A> {
    /// The bits, one by one.
    pub fn iter(&self) -> Iter<'_, T, O>
        ensures bits { remaining_bits result ≡ (owned self.now).bits }
        ensures walk { Walks result (owned self.now) 0 (owned self.now).window.len }
        ensures bound { length (remaining_bits result) ≤ max_bits }
        ensures runs { YieldsBits result }
    {
        self.as_bitslice().iter()
    }
}

impl<'a, T: BitStore, O: BitOrder, A: Allocator> IntoIterator for &'a BitVec<T, O, A> {
    type Item = BitRef<'a, T, O>;

    type IntoIter = Iter<'a, T, O>;

    ghost into_iter_gives = { λ bits it. (remaining_bits it ≡ (owned bits.now).bits) × (length (remaining_bits it) ≤ max_bits) × YieldsBits it };

    fn into_iter(self) -> Iter<'a, T, O> {
        self.iter()
    }
}
