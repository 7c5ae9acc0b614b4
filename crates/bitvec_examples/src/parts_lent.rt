//! What a caller knows of a bit that is lent, and of two parts of a view that are written at once.
ghost use Rattle.std.specs.Prelude.{◌≡◌, ◌<◌, ◌≤◌, ◌↔◌, IfSome, IsSome, IsTrue, false, slice_index_or};
ghost use Rattle.bitvec.specs.ApartAt.{ComesApart};
ghost use Rattle.bitvec.specs.Views.{seen_mut};

use bitvec::prelude::*;

/// The bit at an index of a writable view, read through a reference that could write it.
pub fn bit_at<T: BitStore, O: BitOrder>(
    view: &mut BitSliceMut<'_, T, O>,
    index: usize,
) -> Option<bool>
    ensures some { IsSome result ↔ index < (seen_mut view.old).window.len }
    ensures value { IfSome result (λ bit. bit ≡ slice_index_or (seen_mut view.old).bits index false) }
{
    match view.get_mut(index) {
        Some(bit) => Some(*bit),
        None => None,
    }
}

/// Fills the bits before `mid` and flips those from it on, if they share no element, and says
/// whether it did.
pub fn fill_and_flip<T: BitStore, O: SliceOrder>(
    view: &mut BitSliceMut<'_, T, O>,
    mid: usize,
) -> bool
    requires { mid ≤ (seen_mut view.old).window.len }
    ensures { IsTrue result ↔ ComesApart T.BITS (seen_mut view.old).window mid }
{
    match view.split_apart_mut(mid) {
        Some((mut front, mut rest)) => {
            front.fill(true);
            rest.invert();
            true
        }
        None => false,
    }
}
