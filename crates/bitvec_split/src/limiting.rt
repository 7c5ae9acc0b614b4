//! Splits into a number of pieces at most.
ghost use Rattle.std.specs.Prelude.{◌≡◌, IfSome, Some, min, option_map};
ghost use Rattle.std.specs.Iterator.{UpTo, at_most};
ghost use Rattle.std.specs.Iterator.SizeHint.{IsWithinCount};

use crate::{Forward, Reversed, SplitKind, Splits};
use bitvec_base::BitOrder;
use bitvec_slice::BitSlice;
use bitvec_store::BitStore;

/// The pieces of a split up to a number of them. The last that this number permits is all that is left,
/// about which the predicate isn't asked.
#[derive(Drop)]
pub struct SplitsN<'a, T: BitStore, O: BitOrder, P, W> {
    pub(crate) parts: Splits<'a, T, O, P, W>,
    pub(crate) count: usize,
}

/// The pieces of `Split`, up to a number of them.
pub type SplitN<'a, T, O, P> = SplitsN<'a, T, O, P, Forward>;

/// The pieces of `RSplit`, up to a number of them.
pub type RSplitN<'a, T, O, P> = SplitsN<'a, T, O, P, Reversed>;

impl<'a, T: BitStore, O: BitOrder, P: FnMut(usize, &bool) -> bool, W: SplitKind> SplitsN<
    'a,
    T,
    O,
    P,
    W,
> {
    ghost use Rattle.bitvec_slice.specs.Views.{seen};
    ghost use Rattle.bitvec_split.specs.Splits.{MayGoOn, unsplit};
    ghost use Rattle.bitvec_split.specs.Views.{limited_of};

    /// The pieces of a view, which last as long as what it borrows. `bitvec` has no such call.
    pub fn new(bits: BitSlice<'a, T, O>, count: usize, pred: P) -> Self
        ensures { limited_of result ≡ record { left = unsplit W.INCLUSIVE (seen bits.entry) pred; count = count } }
    {
        SplitsN {
            parts: Splits::new(bits, pred),
            count,
        }
    }
}

impl<'a, T: BitStore, O: BitOrder, P: FnMut(usize, &bool) -> bool, W: SplitKind> Iterator
    for SplitsN<'a, T, O, P, W> {
    ghost use Rattle.bitvec_slice.specs.Views.{seen};
    ghost use Rattle.bitvec_split.specs.Splits.{LimitedNext, MayGoOn, least, limited_most};
    ghost use Rattle.bitvec_split.specs.Views.{limited_of};

    type Item = BitSlice<'a, T, O>;

    ghost can_next = { λ s. MayGoOn P.FnMut (limited_of s).left };

    ghost next_gives = { λ s r t. LimitedNext T.BITS P.FnMut W.INCLUSIVE W.REVERSED (limited_of s) (option_map seen r) (limited_of t) };

    ghost remaining = { λ s. at_most (limited_most (limited_of s)) };

    fn next(&mut self) -> Option<BitSlice<'a, T, O>> {
        let piece = match self.count {
            0 => None,
            1 => self.parts.finish(),
            _ => self.parts.next(),
        }?;
        self.count -= 1;
        Some(piece)
    }

    fn size_hint(&self) -> (usize, Option<usize>)
        ensures exact { result ≡ (min (least (limited_of self.now).left) (limited_of self.now).count, Some (limited_most (limited_of self.now))) }
        ensures lower { IsWithinCount result.0 (at_most (limited_most (limited_of self.now))) }
        ensures upper { IfSome result.1 (UpTo (at_most (limited_most (limited_of self.now)))) }
    {
        let (least, most) = self.parts.bounds();
        (least.min(self.count), Some(most.min(self.count)))
    }
}
