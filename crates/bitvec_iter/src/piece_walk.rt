//! What contracts see of a walk over the pieces of a view.

/// A walk over the pieces of a view of elements `T`, cut in the way `C`. It has no call; what contracts
/// see of a walk is a member each, so that the clauses of [`IterCalls`](crate::IterCalls) can name it.
pub trait PieceWalk<T, C> {
    ghost use Rattle.std.specs.Prelude.{List};
    ghost use Rattle.bitvec_slice.specs.Seen.{Seen};

    // The pieces that are still to come.
    ghost left: { Self → List (Seen T) };

    // The view that is walked.
    ghost walked: { Self → Seen T };

    // How it is cut.
    ghost cut_by: { Self → C };

    // That its calls give those pieces, from both ends.
    ghost Yields: { Self → Type 0 };
}
