//! Whether a split that lends its pieces has a limit.
ghost use Rattle.std.specs.Prelude.{Bool, false, true};

/// Whether a split that lends its pieces lends all of them. `bitvec` has a type for each answer.
pub trait SplitLimit {
    /// Whether the pieces are counted, so that no more than a number of them come.
    const LIMITED: bool;

    ghost LIMITED: { Bool };
}

/// All pieces come, as of `split_mut`.
pub struct Every;

/// So many pieces come at most, as of `splitn_mut`.
pub struct AtMost;

impl SplitLimit for Every {
    const LIMITED: bool = false;

    ghost LIMITED = { false };
}

impl SplitLimit for AtMost {
    const LIMITED: bool = true;

    ghost LIMITED = { true };
}
