//! Types whose bits can be written.
ghost use Rattle.std.specs.Prelude.{◌≡◌, Bool, List, map};
ghost use Rattle.std.specs.Borrow.{Array, follows, sem};
ghost use Rattle.bitvec_base.specs.Memory.{Writes};
ghost use Rattle.bitvec_base.specs.declared.window.Window.{Window};
ghost use Rattle.bitvec_slice.specs.Lending.{with_elements};
ghost use Rattle.bitvec_slice.specs.WriteLaws.{has_written, written};
ghost use Rattle.bitvec_slice.specs.Writes.{WritesBits};

use crate::{BitSliceMut, Sealed, View};
use bitvec_base::BitOrder;
use bitvec_store::BitStore;

/// Types whose bits can be written: writable views, and owned sequences.
pub trait ViewMut<T: BitStore, O: BitOrder>: View<T, O> {
    // Holds of it before and after a call that gave it these bits and left all others.
    ghost writes: { Self → Self → List Bool → Type 0 };

    // The view with these elements, cut or filled up to as many; all else is as before.
    ghost with_elements: { Self → List T → Self };

    /// The elements, with their bits outside these, for the library's crates, which alone have a `Sealed` to
    /// call it with. The caller owes that those bits stay, which `writes` says of an edit. Once the slice has
    /// ended, the elements are what was left in it.
    #[doc(hidden)]
    fn elements_mut(&mut self, by: Sealed) -> &mut [T]
        ensures* writes_back { sem 𝓛 (follows Self.row (Array T.row 0) self.entry.ghost_name result.ghost_name (with_elements self.old)) }
        ensures elements { result.now ≡ (Self.shows self.old).elements };

    // Where its elements were written in its window, its bits were. What was written is told by a slice and a window that are its own.
    ghost written: { (before : Self) (now elements : List T) (window : Window) (made new : List Bool) → Writes T.BITS O.at (map T.value elements) (map T.value now) window made
        → elements ≡ (Self.shows before).elements → window ≡ (Self.shows before).window → made ≡ new → writes before (with_elements before now) new };

    // The bits that were written are there.
    ghost has_written: { (before after : Self) (new : List Bool) → writes before after new → (Self.shows after).bits ≡ new };
}

impl<'a, T: BitStore, O: BitOrder> ViewMut<T, O> for BitSliceMut<'a, T, O> {
    ghost writes = { WritesBits };

    ghost with_elements = { with_elements };

    ghost written = { written };

    ghost has_written = { has_written };

    fn elements_mut(&mut self, _by: Sealed) -> &mut [T] {
        BitSliceMut::elements_mut(self)
    }
}
