//! What contracts see of a walk over indices.

/// A walk over the indices of some bits of a view. It has no method: each member is something that
/// contracts see of a walk, so that the clauses of [`OnesCalls`](crate::OnesCalls) can name it.
pub trait IndexWalk {
    ghost use Rattle.std.specs.Prelude.{ℕ, List};

    // The indices that are still to come.
    ghost left: { Self → List ℕ };

    // That its calls give them in ascending order from the front.
    ghost Ascends: { Self → Type 0 };

    // That its calls give them in descending order from the back.
    ghost Descends: { Self → Type 0 };
}
