//! The hash of shared views.
ghost use Rattle.bitvec_slice.specs.Views.{seen};
ghost use Rattle.bitvec_domain.specs.Feeding.{bits_fed};
ghost use Rattle.bitvec_domain.specs.FeedingLaws.{fed_same};

use crate::BitSlice;
use bitvec_domain::hash_in;
use bitvec_engine::SliceOrder;
use bitvec_store::BitStore;
use std::hash::{Hash, Hasher};

impl<'a, T: BitStore, O: SliceOrder> Hash for BitSlice<'a, T, O> {
    ghost hash_input = { λ view. bits_fed (seen view).bits };

    ghost respects_eq = { λ view other same. fed_same (seen view).bits (seen other).bits same };

    /// Feeds each bit as a truth value, in order, without their number. So views with equal bits feed
    /// equal bytes.
    fn hash<H: Hasher>(&self, state: &mut H) {
        hash_in::<T, O, H>(self.elements(), self.window(), state);
    }
}
