//! Walks over the bits of both types of views.
ghost use Rattle.std.specs.Prelude.{◌≡◌, ◌≤◌, length};
ghost use Rattle.bitvec_base.specs.Window.{max_bits};

use crate::{BitSlice, BitSliceMut, Iter};
use bitvec_base::BitOrder;
use bitvec_domain::BitRef;
use bitvec_store::BitStore;

impl<'a, T: BitStore, O: BitOrder> BitSlice<'a, T, O> {
    ghost use Rattle.bitvec_slice.specs.Views.{seen};
    ghost use Rattle.bitvec_slice.specs.Walks.{Walks, YieldsBits, remaining_bits};

    /// The bits, one by one.
    ///
    /// ```
    /// bits.iter().by_vals().filter(|bit| *bit).count() % 2 == 1
    /// ```
    #[tactic(auto, unfolding(crate::specs::Walks::remaining_bits))]
    pub fn iter(self) -> Iter<'a, T, O>
        ensures bits { remaining_bits result ≡ (seen self.entry).bits }
        ensures walk { Walks result (seen self.entry) 0 (seen self.entry).window.len }
        ensures bound { length (remaining_bits result) ≤ max_bits }
        ensures runs { YieldsBits result }
    {
        let len = self.len();
        Iter {
            view: self,
            indices: 0..len,
        }
    }
}

impl<'a, T: BitStore, O: BitOrder> BitSliceMut<'a, T, O> {
    ghost use Rattle.bitvec_slice.specs.Views.{seen_mut};
    ghost use Rattle.bitvec_slice.specs.Walks.{Walks, YieldsBits, remaining_bits};

    /// The bits, one by one.
    pub fn iter(&self) -> Iter<'_, T, O>
        ensures bits { remaining_bits result ≡ (seen_mut self.now).bits }
        ensures walk { Walks result (seen_mut self.now) 0 (seen_mut self.now).window.len }
        ensures bound { length (remaining_bits result) ≤ max_bits }
        ensures runs { YieldsBits result }
    {
        self.as_ref().iter()
    }
}

impl<'a, T: BitStore, O: BitOrder> IntoIterator for BitSlice<'a, T, O> {
    ghost use Rattle.bitvec_slice.specs.Views.{seen};
    ghost use Rattle.bitvec_slice.specs.Walks.{YieldsBits, remaining_bits};

    type Item = BitRef<'a, T, O>;

    type IntoIter = Iter<'a, T, O>;

    ghost into_iter_gives = { λ view it. (remaining_bits it ≡ (seen view).bits) × (length (remaining_bits it) ≤ max_bits) × YieldsBits it };

    fn into_iter(self) -> Iter<'a, T, O> {
        self.iter()
    }
}
