//! Splits from both ends.
ghost use Rattle.std.specs.Prelude.{◌≡◌, ◌<◌, IfSome, Some, option_map};
ghost use Rattle.std.specs.Iterator.{UpTo, at_most};
ghost use Rattle.std.specs.Iterator.SizeHint.{IsWithinCount};

use crate::rows::{ask_row, cut_row};
use crate::{Forward, Inclusive, Reversed, SplitKind};
use bitvec_base::BitOrder;
use bitvec_slice::BitSlice;
use bitvec_store::BitStore;
use std::marker::PhantomData;

/// The pieces of a view between the bits at which a predicate says yes, from both ends.
///
/// A call asks the predicate about the bits that no piece has yet, by their indices among these and
/// their values, until its first yes: from the front about the first bits first, from the back about
/// the last first. With no yes all of them are the last piece.
#[derive(Drop)]
pub struct Splits<'a, T: BitStore, O: BitOrder, P, W> {
    pub(crate) rest: BitSlice<'a, T, O>,
    pub(crate) finished: bool,
    pred: P,
    way: PhantomData<W>,
}

/// The pieces between the bits at which the predicate says yes. No piece has such a bit.
pub type Split<'a, T, O, P> = Splits<'a, T, O, P, Forward>;

/// The pieces of a split, each with the bit behind it. No empty piece follows a yes at the last bit, and a
/// call from the back doesn't ask about the last bit.
pub type SplitInclusive<'a, T, O, P> = Splits<'a, T, O, P, Inclusive>;

/// The pieces of `Split`, from the last to the first.
pub type RSplit<'a, T, O, P> = Splits<'a, T, O, P, Reversed>;

impl<'a, T: BitStore, O: BitOrder, P: FnMut(usize, &bool) -> bool, W: SplitKind> Splits<
    'a,
    T,
    O,
    P,
    W,
> {
    ghost use Rattle.bitvec_slice.specs.Views.{seen};
    ghost use Rattle.bitvec_split.specs.Splits.{MayGoOn, SplitRest, SplitStep, least, most, row_of, unsplit};
    ghost use Rattle.bitvec_split.specs.Views.{left_of};

    /// The pieces of a view, which last as long as what it borrows. `bitvec` has no such call.
    pub fn new(bits: BitSlice<'a, T, O>, pred: P) -> Self
        ensures { left_of result ≡ unsplit W.INCLUSIVE (seen bits.entry) pred }
    {
        Splits {
            rest: bits,
            finished: W::INCLUSIVE && bits.is_empty(),
            pred,
            way: PhantomData,
        }
    }

    // How many pieces come at least, and how many at most.
    pub(crate) fn bounds(&self) -> (usize, usize)
        ensures { result ≡ (least (left_of self.now), most (left_of self.now)) }
    {
        if self.finished {
            (0, 0)
        } else {
            (1, self.rest.len() + 1)
        }
    }

    // All that is left, unasked.
    pub(crate) fn finish(&mut self) -> Option<BitSlice<'a, T, O>>
        ensures { SplitRest (left_of self.old) (option_map seen result) (left_of self.new) }
    {
        if self.finished {
            return None;
        }
        self.finished = true;
        Some(self.rest)
    }

    // The next piece from the front of what is left, or from the back.
    #[tactic(auto, using(bitvec_domain::specs::PredicatesLaws::may_ask_of_fewer, bitvec_domain::specs::PredicatesLaws::may_ask_unfinished))]
    fn next_from(&mut self, back: bool) -> Option<BitSlice<'a, T, O>>
        requires { MayGoOn P.FnMut (left_of self.old) }
        ensures piece { SplitStep T.BITS P.FnMut W.INCLUSIVE (row_of W.INCLUSIVE back (left_of self.old).rest.window.len) (left_of self.old) (option_map seen result) (left_of self.new) }
        ensures callable { MayGoOn P.FnMut (left_of self.new) }
        ensures fewer { IfSome result (λ _. most (left_of self.new) < most (left_of self.old)) }
    {
        if self.finished {
            return None;
        }
        let rest = self.rest;
        let Some(index) = ask_row::<W, T, O, P>(rest, back, &mut self.pred) else {
            self.finished = true;
            return Some(rest);
        };
        let (piece, left) = cut_row::<W>(rest.len(), back, index);
        self.rest = rest.into_part(left);
        self.finished = W::INCLUSIVE && self.rest.is_empty();
        Some(rest.into_part(piece))
    }
}

impl<'a, T: BitStore, O: BitOrder, P: FnMut(usize, &bool) -> bool, W: SplitKind> Iterator
    for Splits<'a, T, O, P, W> {
    ghost use Rattle.bitvec_slice.specs.Views.{seen};
    ghost use Rattle.bitvec_split.specs.Splits.{MayGoOn, SplitNext, least, most};
    ghost use Rattle.bitvec_split.specs.Views.{left_of};

    type Item = BitSlice<'a, T, O>;

    ghost can_next = { λ s. MayGoOn P.FnMut (left_of s) };

    ghost next_gives = { λ s r t. SplitNext T.BITS P.FnMut W.INCLUSIVE W.REVERSED (left_of s) (option_map seen r) (left_of t) };

    ghost remaining = { λ s. at_most (most (left_of s)) };

    fn next(&mut self) -> Option<BitSlice<'a, T, O>> {
        self.next_from(W::REVERSED)
    }

    fn size_hint(&self) -> (usize, Option<usize>)
        ensures exact { result ≡ (least (left_of self.now), Some (most (left_of self.now))) }
        ensures lower { IsWithinCount result.0 (at_most (most (left_of self.now))) }
        ensures upper { IfSome result.1 (UpTo (at_most (most (left_of self.now)))) }
    {
        let (least, most) = self.bounds();
        (least, Some(most))
    }
}

impl<'a, T: BitStore, O: BitOrder, P: FnMut(usize, &bool) -> bool, W: SplitKind> DoubleEndedIterator
    for Splits<'a, T, O, P, W> {
    ghost use Rattle.bitvec_slice.specs.Views.{seen};
    ghost use Rattle.bitvec_split.specs.Splits.{MayGoOn, SplitNextBack};
    ghost use Rattle.bitvec_split.specs.Views.{left_of};

    ghost can_next_back = { λ s. MayGoOn P.FnMut (left_of s) };

    ghost next_back_gives = { λ s r t. SplitNextBack T.BITS P.FnMut W.INCLUSIVE W.REVERSED (left_of s) (option_map seen r) (left_of t) };

    fn next_back(&mut self) -> Option<BitSlice<'a, T, O>> {
        self.next_from(!W::REVERSED)
    }
}
