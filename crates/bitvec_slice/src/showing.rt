//! What shows bits.
ghost use Rattle.std.specs.Prelude.{◌≡◌, map};
ghost use Rattle.bitvec_base.specs.Memory.{HasWindow};
ghost use Rattle.bitvec_slice.specs.Showing.{ShowsElements, shows_elements};
ghost use Rattle.bitvec_slice.specs.Views.{seen, seen_mut};

use crate::{BitSlice, BitSliceMut};
use bitvec_base::{BitOrder, Window};
use bitvec_store::BitStore;

/// What shows bits: views of both types, a borrow of a writable one, and owned sequences. It has no call:
/// what contracts see is a member, so that the clauses of all traits of calls can name it.
pub trait Shows<T> {
    ghost use Rattle.bitvec_slice.specs.Seen.{Seen};

    // What contracts see of the bits.
    ghost shows: { Self → Seen T };
}

/// What a shared view is taken of: views of both types, and owned sequences.
pub trait View<T: BitStore, O: BitOrder>: Shows<T> {
    /// A shared view of the same bits.
    fn as_bitslice(&self) -> BitSlice<'_, T, O>
        ensures view { seen result ≡ Self.shows self.now }
        ensures bits { (seen result).bits ≡ (Self.shows self.now).bits };

    // It shows what its elements hold.
    ghost shows_elements: { (view : Self) → ShowsElements T.BITS O.at T.value (Self.shows view) };

    /// Where the bits stand among their elements. `bitvec` has no such call.
    final fn window(&self) -> Window
        ensures value { result ≡ (Self.shows self.now).window }
        ensures inside { HasWindow T.BITS (map T.value (Self.shows self.now).elements) result }
    {
        self.as_bitslice().window()
    }
}

impl<'a, T: BitStore, O: BitOrder> Shows<T> for BitSlice<'a, T, O> {
    ghost shows = { seen };
}

impl<'a, T: BitStore, O: BitOrder> Shows<T> for BitSliceMut<'a, T, O> {
    ghost shows = { seen_mut };
}

impl<'a, 'v, T: BitStore, O: BitOrder> Shows<T> for &'v BitSliceMut<'a, T, O> {
    ghost shows = { λ view. seen_mut view.now };
}

impl<'a, T: BitStore, O: BitOrder> View<T, O> for BitSlice<'a, T, O> {
    ghost shows_elements = { λ view. shows_elements T.BITS O.at T.value view.elements.now view.head view.len view.inside view.bounded };

    fn as_bitslice(&self) -> BitSlice<'_, T, O> {
        *self
    }
}

impl<'a, T: BitStore, O: BitOrder> View<T, O> for BitSliceMut<'a, T, O> {
    ghost shows_elements = { λ view. shows_elements T.BITS O.at T.value view.elements.now view.head view.len view.inside view.bounded };

    fn as_bitslice(&self) -> BitSlice<'_, T, O> {
        self.as_ref()
    }
}
