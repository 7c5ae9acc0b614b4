//! Edits of a type of one's own.
ghost use Rattle.std.specs.Prelude.{◌≡◌, Bool, List, length};
ghost use Rattle.bitvec_slice.specs.Views.{seen_mut};
ghost use Rattle.bitvec_slice.specs.Writes.{WritesBits};

use bitvec_base::BitOrder;
use bitvec_slice::BitSliceMut;
use bitvec_store::BitStore;

/// An edit of bits through a view of them. A function may take one, as [`edit`](crate::edit) does, where it can take no
/// closure over a view.
pub trait Edit<T: BitStore, O: BitOrder> {
    // What it makes of a list of bits.
    ghost made: { Self → List Bool → List Bool };

    /// Edits the bits of a view.
    fn edit(&self, view: &mut BitSliceMut<'_, T, O>)
        ensures { WritesBits view.old view.new (made self.now (seen_mut view.old).bits) };

    // It leaves their number.
    ghost keeps_length: { (edit : Self) (list : List Bool) → length (made edit list) ≡ length list };
}
