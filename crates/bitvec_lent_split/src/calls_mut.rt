//! Writable views are split, and lent.
ghost use Rattle.std.specs.Prelude.{◌≡◌, false, true};
ghost use Rattle.std.specs.Borrow.{Array, follows, sem};
ghost use Rattle.bitvec_lent_split.specs.Lent.{unsplit_in};

use crate::{RSplitMut, RSplitNMut, SplitInclusiveMut, SplitMut, SplitNMut};
use bitvec_base::BitOrder;
use bitvec_slice::{BitSliceMut, ViewMut};
use bitvec_store::BitStore;

/// Splits of a writable view by a predicate, whose pieces are lent one at a time. The view is lent for as
/// long as the split is; afterwards a caller knows its window and its number of elements.
pub trait SplitCallsMut<T: BitStore, O: BitOrder>: ViewMut<T, O> {
    ghost use Rattle.bitvec_lent_split.specs.LentViews.{left_in, limited_in, name_of_splits};

    /// The pieces between the bits at which `pred` says yes, from both ends; no piece has such a bit.
    ///
    /// ```
    /// let mut view = BitSliceMut::<T, O>::from_slice_mut(elements);
    /// let mut pieces = view.split_mut(|_, bit| *bit);
    /// ```
    fn split_mut<P: FnMut(usize, &bool) -> bool>(&mut self, pred: P) -> SplitMut<'_, T, O, P>
        ensures* writes_back { sem 𝓛 (follows Self.row (Array T.row 0) self.entry.ghost_name (name_of_splits result) (Self.with_elements self.old)) }
        ensures left { left_in result ≡ unsplit_in false (Self.shows self.old) pred };

    /// The pieces of a split, each with the bit behind it. An empty view has none, as std's slices have, where
    /// `bitvec` gives one.
    ///
    /// ```
    /// let mut pieces = view.split_inclusive_mut(|_, bit| *bit);
    /// ```
    fn split_inclusive_mut<P: FnMut(usize, &bool) -> bool>(
        &mut self,
        pred: P,
    ) -> SplitInclusiveMut<'_, T, O, P>
        ensures* writes_back { sem 𝓛 (follows Self.row (Array T.row 0) self.entry.ghost_name (name_of_splits result) (Self.with_elements self.old)) }
        ensures left { left_in result ≡ unsplit_in true (Self.shows self.old) pred };

    /// The pieces of `split_mut` from the last to the first.
    ///
    /// ```
    /// let mut pieces = view.rsplit_mut(|_, bit| *bit);
    /// ```
    fn rsplit_mut<P: FnMut(usize, &bool) -> bool>(&mut self, pred: P) -> RSplitMut<'_, T, O, P>
        ensures* writes_back { sem 𝓛 (follows Self.row (Array T.row 0) self.entry.ghost_name (name_of_splits result) (Self.with_elements self.old)) }
        ensures left { left_in result ≡ unsplit_in false (Self.shows self.old) pred };

    /// The first pieces of `split_mut`, `count` at most: the last of so many is all that is left, without
    /// asking.
    ///
    /// ```
    /// let mut pieces = view.splitn_mut(2, |_, bit| *bit);
    /// ```
    fn splitn_mut<P: FnMut(usize, &bool) -> bool>(
        &mut self,
        count: usize,
        pred: P,
    ) -> SplitNMut<'_, T, O, P>
        ensures* writes_back { sem 𝓛 (follows Self.row (Array T.row 0) self.entry.ghost_name (name_of_splits result) (Self.with_elements self.old)) }
        ensures left { limited_in result ≡ record { left = unsplit_in false (Self.shows self.old) pred; count = count } };

    /// The first pieces of `rsplit_mut`, `count` at most, as for `splitn_mut`.
    ///
    /// ```
    /// let mut pieces = view.rsplitn_mut(1, |_, bit| *bit);
    /// let hint = pieces.size_hint();
    /// ```
    fn rsplitn_mut<P: FnMut(usize, &bool) -> bool>(
        &mut self,
        count: usize,
        pred: P,
    ) -> RSplitNMut<'_, T, O, P>
        ensures* writes_back { sem 𝓛 (follows Self.row (Array T.row 0) self.entry.ghost_name (name_of_splits result) (Self.with_elements self.old)) }
        ensures left { limited_in result ≡ record { left = unsplit_in false (Self.shows self.old) pred; count = count } };
}

impl<'a, T: BitStore, O: BitOrder> SplitCallsMut<T, O> for BitSliceMut<'a, T, O> {
    fn split_mut<P: FnMut(usize, &bool) -> bool>(&mut self, pred: P) -> SplitMut<'_, T, O, P> {
        SplitMut::new(self, pred)
    }

    fn split_inclusive_mut<P: FnMut(usize, &bool) -> bool>(
        &mut self,
        pred: P,
    ) -> SplitInclusiveMut<'_, T, O, P> {
        SplitInclusiveMut::new(self, pred)
    }

    fn rsplit_mut<P: FnMut(usize, &bool) -> bool>(&mut self, pred: P) -> RSplitMut<'_, T, O, P> {
        RSplitMut::new(self, pred)
    }

    fn splitn_mut<P: FnMut(usize, &bool) -> bool>(
        &mut self,
        count: usize,
        pred: P,
    ) -> SplitNMut<'_, T, O, P> {
        SplitNMut::new(self, count, pred)
    }

    fn rsplitn_mut<P: FnMut(usize, &bool) -> bool>(
        &mut self,
        count: usize,
        pred: P,
    ) -> RSplitNMut<'_, T, O, P> {
        RSplitNMut::new(self, count, pred)
    }
}
