//! What a caller knows of the first piece of a split, where the predicate is a function.
ghost use Rattle.std.specs.Prelude.{◌≡◌, false, find, slice_index_or, unwrap_or};
ghost use Rattle.bitvec.specs.SplitAsked.{upward};
ghost use Rattle.bitvec.specs.Views.{seen};

use bitvec::prelude::*;

/// How many bits stand before the first one: as many as there are, if none is.
pub fn before_one<T: BitStore, O: BitOrder>(view: BitSlice<'_, T, O>) -> usize
    ensures { result ≡ unwrap_or (find (λ index. slice_index_or (seen view.entry).bits index false) (upward (seen view.entry).window.len)) (seen view.entry).window.len }
{
    match view.split(|_, bit| *bit).next() {
        Some(piece) => piece.len(),
        None => view.len(),
    }
}
