//! What contracts see of splits.
use crate::{Splits, SplitsN};
use bitvec_base::BitOrder;
use bitvec_store::BitStore;

/// A split of a view of elements `T` by a predicate. It has no call; what contracts see of a split is a
/// member, so that the clauses of [`SplitCalls`](crate::SplitCalls) can name it.
pub trait SplitWalk<T, P> {
    ghost use Rattle.bitvec_split.specs.Splits.{Left};

    // The bits that no piece has yet, whether the last piece was given, and the predicate.
    ghost left: { Self → Left T P };
}

/// A split into a number of pieces at most, as [`SplitWalk`].
pub trait LimitedSplitWalk<T, P> {
    ghost use Rattle.bitvec_split.specs.Splits.{LimitedSplit};

    // What is left, and how many pieces it may still give.
    ghost limited: { Self → LimitedSplit T P };
}

impl<'a, T: BitStore, O: BitOrder, P, W> SplitWalk<T, P> for Splits<'a, T, O, P, W> {
    ghost use Rattle.bitvec_split.specs.Views.{left_of};

    ghost left = { λ it. left_of it };
}

impl<'a, T: BitStore, O: BitOrder, P, W> LimitedSplitWalk<T, P> for SplitsN<'a, T, O, P, W> {
    ghost use Rattle.bitvec_split.specs.Views.{limited_of};

    ghost limited = { λ it. limited_of it };
}
