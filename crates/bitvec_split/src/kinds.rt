//! How a split goes.
ghost use Rattle.std.specs.Prelude.{◌≡◌, ◌+◌, ◌<◌, ◌^◌, Bool, false, true};
ghost use Rattle.bitvec_split.specs.Splits.{asked_behind, end_of};

/// How a split goes. `bitvec` has a type for each way.
pub trait SplitKind {
    /// Whether a piece keeps the bit at which the predicate said yes.
    const INCLUSIVE: bool;

    /// Whether the first piece is the last of the view.
    const REVERSED: bool;

    ghost INCLUSIVE: { Bool };

    ghost REVERSED: { Bool };
}

/// The way of `split` and `splitn`.
pub struct Forward;

/// The way of `split_inclusive`.
pub struct Inclusive;

/// The way of `rsplit` and `rsplitn`.
pub struct Reversed;

impl SplitKind for Forward {
    const INCLUSIVE: bool = false;

    const REVERSED: bool = false;

    ghost INCLUSIVE = { false };

    ghost REVERSED = { false };
}

impl SplitKind for Inclusive {
    const INCLUSIVE: bool = true;

    const REVERSED: bool = false;

    ghost INCLUSIVE = { true };

    ghost REVERSED = { false };
}

impl SplitKind for Reversed {
    const INCLUSIVE: bool = false;

    const REVERSED: bool = true;

    ghost INCLUSIVE = { false };

    ghost REVERSED = { true };
}

/// The index behind a piece that the yes at an index ends. `bitvec` has no such call.
#[doc(hidden)]
pub fn end_of<W: SplitKind>(index: usize) -> usize
    requires { index + 1 < 2 ^ 64 }
    ensures { result ≡ end_of W.INCLUSIVE index }
{
    if W::INCLUSIVE { index + 1 } else { index }
}

/// How many of the last bits a call from the back of so many asks about. `bitvec` has no such call.
#[doc(hidden)]
pub fn asked_behind<W: SplitKind>(len: usize) -> usize
    ensures { result ≡ asked_behind W.INCLUSIVE len }
{
    if W::INCLUSIVE {
        len.saturating_sub(1)
    } else {
        len
    }
}
