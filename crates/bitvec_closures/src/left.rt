//! What is left of a view that is split.
ghost use Rattle.std.specs.Prelude.{◌≡◌, ◌≤◌, ◌==◌, ◌&&◌};
ghost use Rattle.bitvec_closures.specs.ToSplit.{TakesRest};

use bitvec_split::SplitKind;
use std::ops::Range;

/// The indices `from` up to `to` of the bits that no piece has yet, and whether the last piece came.
#[derive(Clone, Copy)]
pub struct ToSplit {
    pub(crate) from: usize,
    pub(crate) to: usize,
    pub(crate) finished: bool,
}

impl ToSplit {
    /// All of so many bits.
    pub(crate) fn all<W: SplitKind>(len: usize) -> ToSplit
        ensures { result ≡ record { from = 0; to = len; finished = W.INCLUSIVE && (len == 0) } }
    {
        ToSplit {
            from: 0,
            to: len,
            finished: W::INCLUSIVE && len == 0,
        }
    }

    /// All that is left, unasked.
    pub(crate) fn finish(&mut self) -> Option<Range<usize>>
        requires { self.old.from ≤ self.old.to }
        ensures { TakesRest self.old result self.new }
    {
        if self.finished {
            return None;
        }
        let ToSplit { from, to, .. } = *self;
        *self = ToSplit {
            from: to,
            to,
            finished: true,
        };
        Some(from..to)
    }
}
