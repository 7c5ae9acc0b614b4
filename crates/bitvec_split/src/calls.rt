//! Views are split.
ghost use Rattle.std.specs.Prelude.{◌≡◌, false, true};
ghost use Rattle.bitvec_split.specs.Splits.{unsplit};

use crate::{LimitedSplitWalk, RSplit, RSplitN, Split, SplitInclusive, SplitN, SplitWalk};
use bitvec_base::BitOrder;
use bitvec_slice::{BitSlice, BitSliceMut, Shows};
use bitvec_store::BitStore;

/// Splits of a view by a predicate, for both view types: of a `BitSlice` they live as long as its
/// elements, of a `&BitSliceMut` as long as that borrow. A predicate is called with the index of a bit
/// among those that no piece has yet, and with that bit.
///
/// The predicate's state goes from each call to the next. The condition of each call of an iterator is that
/// its predicate may be called for the bits that are left, in any order and as often as there are such bits.
pub trait SplitCalls<T, P>: Shows<T> {
    /// What `split` makes.
    type Split: SplitWalk<T, P>;

    /// What `split_inclusive` makes.
    type SplitInclusive: SplitWalk<T, P>;

    /// What `rsplit` makes.
    type RSplit: SplitWalk<T, P>;

    /// What `splitn` makes.
    type SplitN: LimitedSplitWalk<T, P>;

    /// What `rsplitn` makes.
    type RSplitN: LimitedSplitWalk<T, P>;

    /// The pieces between the bits at which `pred` says yes, from both ends; no piece has such a bit.
    /// With no yes all that is left is the last piece, also an empty one.
    ///
    /// ```
    /// let elements = [0x90u8];
    /// let view = BitSlice::<u8, Lsb0>::from_slice(&elements).into_part(3..8);
    /// assert!(rt; numbers(view.split(|_, bit| *bit)) == [0b1_0, 0b1_00, 0b1, 0]);
    /// ```
    fn split(self, pred: P) -> Self::Split
        ensures { Self.Split.left result ≡ unsplit false (Self.shows self) pred };

    /// The pieces of a split, each with the bit behind it. No empty piece follows a yes at the last bit, and a
    /// call from the back doesn't ask about the last bit. An empty view has no piece, as std's slices have none,
    /// where `bitvec` gives one.
    ///
    /// ```
    /// let pieces = view.split_inclusive(|_, bit| *bit);
    /// assert!(rt; numbers(pieces) == [0b1_01, 0b1_001, 0, 0]);
    /// ```
    fn split_inclusive(self, pred: P) -> Self::SplitInclusive
        ensures { Self.SplitInclusive.left result ≡ unsplit true (Self.shows self) pred };

    /// The pieces of `split` from the last to the first: `split` with its ends exchanged.
    fn rsplit(self, pred: P) -> Self::RSplit
        ensures { Self.RSplit.left result ≡ unsplit false (Self.shows self) pred };

    /// The first pieces of `split`, `count` at most. The last of so many is all that is left, without
    /// asking; with `count` 0 there is none.
    ///
    /// ```
    /// assert!(rt; view.splitn(2, |_, bit| *bit).size_hint() == (1, Some(2)));
    /// assert!(rt; view.splitn(0, |_, bit| *bit).size_hint() == (0, Some(0)));
    /// ```
    fn splitn(self, count: usize, pred: P) -> Self::SplitN
        ensures { Self.SplitN.limited result ≡ record { left = unsplit false (Self.shows self) pred; count = count } };

    /// The first pieces of `rsplit`, `count` at most, as for `splitn`.
    fn rsplitn(self, count: usize, pred: P) -> Self::RSplitN
        ensures { Self.RSplitN.limited result ≡ record { left = unsplit false (Self.shows self) pred; count = count } };
}

impl<'a, T: BitStore, O: BitOrder, P: FnMut(usize, &bool) -> bool> SplitCalls<T, P>
    for BitSlice<'a, T, O> {
    type Split = Split<'a, T, O, P>;

    type SplitInclusive = SplitInclusive<'a, T, O, P>;

    type RSplit = RSplit<'a, T, O, P>;

    type SplitN = SplitN<'a, T, O, P>;

    type RSplitN = RSplitN<'a, T, O, P>;

    fn split(self, pred: P) -> Split<'a, T, O, P> {
        Split::new(self, pred)
    }

    fn split_inclusive(self, pred: P) -> SplitInclusive<'a, T, O, P> {
        SplitInclusive::new(self, pred)
    }

    fn rsplit(self, pred: P) -> RSplit<'a, T, O, P> {
        RSplit::new(self, pred)
    }

    fn splitn(self, count: usize, pred: P) -> SplitN<'a, T, O, P> {
        SplitN::new(self, count, pred)
    }

    fn rsplitn(self, count: usize, pred: P) -> RSplitN<'a, T, O, P> {
        RSplitN::new(self, count, pred)
    }
}

impl<'a, 'v, T: BitStore, O: BitOrder, P: FnMut(usize, &bool) -> bool> SplitCalls<T, P>
    for &'v BitSliceMut<'a, T, O> {
    type Split = Split<'v, T, O, P>;

    type SplitInclusive = SplitInclusive<'v, T, O, P>;

    type RSplit = RSplit<'v, T, O, P>;

    type SplitN = SplitN<'v, T, O, P>;

    type RSplitN = RSplitN<'v, T, O, P>;

    fn split(self, pred: P) -> Split<'v, T, O, P> {
        self.as_ref().split(pred)
    }

    fn split_inclusive(self, pred: P) -> SplitInclusive<'v, T, O, P> {
        self.as_ref().split_inclusive(pred)
    }

    fn rsplit(self, pred: P) -> RSplit<'v, T, O, P> {
        self.as_ref().rsplit(pred)
    }

    fn splitn(self, count: usize, pred: P) -> SplitN<'v, T, O, P> {
        self.as_ref().splitn(count, pred)
    }

    fn rsplitn(self, count: usize, pred: P) -> RSplitN<'v, T, O, P> {
        self.as_ref().rsplitn(count, pred)
    }
}
