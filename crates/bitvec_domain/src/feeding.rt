//! The bits of a window of a slice of elements, fed to a hasher.
ghost use Rattle.std.specs.Prelude.{◌≡◌, fold, map};
ghost use Rattle.bitvec_base.specs.Memory.{HasWindow, list_in};
ghost use Rattle.bitvec_domain.specs.Feeding.{bits_fed};

use crate::bits::bit_in;
use bitvec_base::{BitOrder, Window};
use bitvec_store::BitStore;
use std::hash::{Hash, Hasher};

#[tactic(auto, using(crate::proofs::Steps::steps), unfolding(crate::specs::Feeding::bits_fed))]
/// Feeds each bit of a window in order as a truth value, and not how many there are. Condition: the
/// memory has at most `MAX_BITS` bits, and the window lies in it.
pub fn hash_in<T: BitStore, O: BitOrder, H: Hasher>(elements: &[T], window: Window, state: &mut H)
    requires { HasWindow T.BITS (map T.value elements.now) window }
    ensures { state.new ≡ fold H.write state.old (bits_fed (list_in T.BITS O.at (map T.value elements.now) window)) }
{
    for index in 0..window.len {
        bit_in::<T, O>(elements, window, index).hash(state);
    }
}
