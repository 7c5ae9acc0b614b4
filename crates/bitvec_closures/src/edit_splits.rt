//! Edits of the pieces of a split by closures.
ghost use Rattle.std.specs.Prelude.{◌-◌, ◌<◌, IfSome, false, true};
ghost use Rattle.bitvec_cutting.specs.Cutting.{cut};
ghost use Rattle.bitvec_slice.specs.Indices.{HasRange};
ghost use Rattle.bitvec_domain.specs.Predicates.{Asked, MayAsk};
ghost use Rattle.bitvec_lent_split.specs.Lent.{LimitedNextIn, MayGoOnIn, NextIn, SplitNextIn, unsplit_in};
ghost use Rattle.bitvec_split.specs.Splits.{asked_of, left_of_row, row_of};
ghost use Rattle.bitvec_closures.specs.ToSplit.{IsLeftOf, TakesFrom, left_at, limited_at};
ghost use Rattle.bitvec_closures.specs.SplitEdits.{EditsGiven, MayEditGiven};

use crate::{EditParts, ToSplit};
use bitvec_base::BitOrder;
use bitvec_lent_split::{AtMost, Every, SplitLimit};
use bitvec_slice::{Sealed, View};
use bitvec_split::{Forward, Inclusive, Reversed, SplitKind, ask_row, cut_row};
use bitvec_store::BitStore;
use std::ops::Range;

/// Edits of the pieces of a writable view that a predicate splits, by closures, which take the view
/// itself, narrowed to the piece for the time of the call. So what is known of the view afterwards is
/// exact: the pieces are those that the split gives of the bits as they were, each has the bits that the
/// closure left, and all else is as before.
///
/// A predicate is asked as by the splits of `SplitCallsMut` (`bitvec_lent_split`): about the bits that no piece
/// has yet, by their indices among these and their values, until its first yes. A closure gets the number
/// of a piece, from 0 on, and the piece, which may be empty. What the two keep goes from each call to the
/// next. Conditions of all calls: the predicate may always be called, or at least asked about all bits of
/// the view; the closure may be called on each range of the view, with a number not beyond its length,
/// whatever it keeps from the calls before, and leaves it in its place. `bitvec` has no such calls: its
/// `split_mut` and kin give views of their own.
pub trait EditSplits<T: BitStore, O: BitOrder>: EditParts<T, O> {
    /// The index among the bits of a range about which `pred` says yes first, asked as a call of a split
    /// asks. Conditions: the view has the range; `pred` may be asked about its bits.
    #[doc(hidden)]
    final fn ask<W: SplitKind, P: FnMut(usize, &bool) -> bool>(
        &self,
        range: Range<usize>,
        pred: &mut P,
    ) -> Option<usize>
        requires range { HasRange range (Self.shows self.now).window.len }
        requires callable { MayAsk P.FnMut (range.end - range.start) pred.old }
        ensures asked { Asked P.FnMut (cut (Self.shows self.now).bits range) pred.old (row_of W.INCLUSIVE W.REVERSED (range.end - range.start)).asks result pred.new }
        ensures callable { IfSome result (λ index. MayAsk P.FnMut (left_of_row W.INCLUSIVE W.REVERSED (range.end - range.start) index) pred.new) }
        ensures inside { IfSome result (λ index. index < asked_of W.INCLUSIVE W.REVERSED (range.end - range.start)) }
    {
        ask_row::<W, T, O, P>(self.as_bitslice().into_part(range), W::REVERSED, pred)
    }

    /// The range of the next piece. Conditions: the view has the range that is left; `pred` may be asked
    /// about its bits.
    #[doc(hidden)]
    #[tactic(auto, using(bitvec_domain::specs::PredicatesLaws::may_ask_of_fewer, bitvec_domain::specs::PredicatesLaws::may_ask_unfinished))]
    final fn step<W: SplitKind, P: FnMut(usize, &bool) -> bool>(
        &self,
        left: &mut ToSplit,
        pred: &mut P,
    ) -> Option<Range<usize>>
        requires inside { IsLeftOf (Self.shows self.now) left.old }
        requires callable { MayGoOnIn P.FnMut (left_at (Self.shows self.now) left.old pred.old) }
        ensures piece { SplitNextIn P.FnMut W.INCLUSIVE W.REVERSED (left_at (Self.shows self.now) left.old pred.old) result (left_at (Self.shows self.now) left.new pred.new) }
        ensures callable { MayGoOnIn P.FnMut (left_at (Self.shows self.now) left.new pred.new) }
        ensures takes { IfSome result (λ piece. TakesFrom left.old piece left.new) }
    {
        if left.finished {
            return None;
        }
        let ToSplit { from, to, .. } = *left;
        let Some(index) = self.ask::<W, P>(from..to, pred) else {
            left.from = to;
            left.finished = true;
            return Some(from..to);
        };
        let (piece, rest) = cut_row::<W>(to - from, W::REVERSED, index);
        left.from = from + rest.start;
        left.to = from + rest.end;
        left.finished = W::INCLUSIVE && left.from == left.to;
        Some(from + piece.start..from + piece.end)
    }

    /// The range of the next piece of a split that may give `count` pieces more, where `L` counts them.
    /// Conditions: as for `step`.
    #[doc(hidden)]
    #[tactic(auto, using(bitvec_domain::specs::PredicatesLaws::may_ask_of_fewer, bitvec_domain::specs::PredicatesLaws::may_ask_unfinished))]
    final fn limited_step<W: SplitKind, L: SplitLimit, P: FnMut(usize, &bool) -> bool>(
        &self,
        left: &mut ToSplit,
        count: &mut usize,
        pred: &mut P,
    ) -> Option<Range<usize>>
        requires inside { IsLeftOf (Self.shows self.now) left.old }
        requires callable { MayGoOnIn P.FnMut (left_at (Self.shows self.now) left.old pred.old) }
        ensures piece { NextIn P.FnMut W.INCLUSIVE W.REVERSED L.LIMITED (limited_at (Self.shows self.now) left.old count.old pred.old) result (limited_at (Self.shows self.now) left.new count.new pred.new) }
        ensures callable { IfSome result (λ _. MayGoOnIn P.FnMut (left_at (Self.shows self.now) left.new pred.new)) }
        ensures takes { IfSome result (λ piece. TakesFrom left.old piece left.new) }
    {
        if !L::LIMITED {
            return self.step::<W, P>(left, pred);
        }
        let range = match *count {
            0 => None,
            1 => left.finish(),
            _ => self.step::<W, P>(left, pred),
        }?;
        *count -= 1;
        Some(range)
    }

    /// Calls `edit` on each piece of a split in turn, on `count` at most where `L` counts them, and its number.
    /// Conditions: `pred` may be asked about all bits; `edit` may be called on each piece, whatever it keeps
    /// from the calls before, and leaves it in its place.
    #[doc(hidden)]
    final fn for_each_piece_of<
        W: SplitKind,
        L: SplitLimit,
        P: FnMut(usize, &bool) -> bool,
        F: FnMut(usize, &mut Self),
    >(&mut self, mut count: usize, mut pred: P, mut edit: F)
        requires callable { MayGoOnIn P.FnMut (unsplit_in W.INCLUSIVE (Self.shows self.old) pred) }
        requires edit { MayEditGiven Self.shows Self.named F.pre F.step edit self.old }
        ensures { EditsGiven Self.shows Self.named Self.writes F.step (NextIn P.FnMut W.INCLUSIVE W.REVERSED L.LIMITED)
            (record { left = unsplit_in W.INCLUSIVE (Self.shows self.old) pred; count = count }) self.old edit self.new }
    {
        let len = self.window().len;
        let mut left = ToSplit::all::<W>(len);
        let mut number = 0;
        while let Some(range) = self.limited_step::<W, L, P>(&mut left, &mut count, &mut pred) {
            let window = self.narrow(range);
            edit(number, self);
            self.stand_at(window, Sealed);
            number += 1;
        }
    }

    /// Calls `edit` on each piece between the bits at which `pred` says yes, in ascending order. No piece has
    /// such a bit; with no yes all that is left is the last piece, also an empty one. It stands for `for` over
    /// `bitvec`'s `split_mut`.
    ///
    /// ```
    /// view.for_each_split_mut(pred, |_number, piece| piece.invert());
    /// ```
    final fn for_each_split_mut<P: FnMut(usize, &bool) -> bool, F: FnMut(usize, &mut Self)>(
        &mut self,
        pred: P,
        edit: F,
    )
        requires callable { MayGoOnIn P.FnMut (unsplit_in false (Self.shows self.old) pred) }
        requires edit { MayEditGiven Self.shows Self.named F.pre F.step edit self.old }
        ensures { EditsGiven Self.shows Self.named Self.writes F.step (SplitNextIn P.FnMut false false) (unsplit_in false (Self.shows self.old) pred) self.old edit self.new }
    {
        self.for_each_piece_of::<Forward, Every, P, F>(0, pred, edit)
    }

    /// Calls `edit` on each piece with the bit behind it, as `split_inclusive_mut` lends them: no empty piece
    /// follows a yes at the last bit, and the empty view has no piece.
    ///
    /// ```
    /// view.for_each_split_inclusive_mut(is_one, |_number, piece| piece.invert());
    /// ```
    final fn for_each_split_inclusive_mut<
        P: FnMut(usize, &bool) -> bool,
        F: FnMut(usize, &mut Self),
    >(&mut self, pred: P, edit: F)
        requires callable { MayGoOnIn P.FnMut (unsplit_in true (Self.shows self.old) pred) }
        requires edit { MayEditGiven Self.shows Self.named F.pre F.step edit self.old }
        ensures { EditsGiven Self.shows Self.named Self.writes F.step (SplitNextIn P.FnMut true false) (unsplit_in true (Self.shows self.old) pred) self.old edit self.new }
    {
        self.for_each_piece_of::<Inclusive, Every, P, F>(0, pred, edit)
    }

    /// The pieces of `for_each_split_mut` from the last to the first, as `rsplit_mut` lends them: `pred` is
    /// asked about the last bits first, and the last piece has number 0.
    ///
    /// ```
    /// view.for_each_rsplit_mut(is_one, |number, piece| piece.fill(number == 1));
    /// ```
    final fn for_each_rsplit_mut<P: FnMut(usize, &bool) -> bool, F: FnMut(usize, &mut Self)>(
        &mut self,
        pred: P,
        edit: F,
    )
        requires callable { MayGoOnIn P.FnMut (unsplit_in false (Self.shows self.old) pred) }
        requires edit { MayEditGiven Self.shows Self.named F.pre F.step edit self.old }
        ensures { EditsGiven Self.shows Self.named Self.writes F.step (SplitNextIn P.FnMut false true) (unsplit_in false (Self.shows self.old) pred) self.old edit self.new }
    {
        self.for_each_piece_of::<Reversed, Every, P, F>(0, pred, edit)
    }

    /// The first pieces of `for_each_split_mut`, `count` at most, as `splitn_mut` lends them: the last of so
    /// many is all that is left, without asking; with `count` 0 there is none.
    ///
    /// ```
    /// view.for_each_splitn_mut(2, is_one, |_number, piece| piece.invert());
    /// ```
    final fn for_each_splitn_mut<P: FnMut(usize, &bool) -> bool, F: FnMut(usize, &mut Self)>(
        &mut self,
        count: usize,
        pred: P,
        edit: F,
    )
        requires callable { MayGoOnIn P.FnMut (unsplit_in false (Self.shows self.old) pred) }
        requires edit { MayEditGiven Self.shows Self.named F.pre F.step edit self.old }
        ensures { EditsGiven Self.shows Self.named Self.writes F.step (LimitedNextIn P.FnMut false false)
            (record { left = unsplit_in false (Self.shows self.old) pred; count = count }) self.old edit self.new }
    {
        self.for_each_piece_of::<Forward, AtMost, P, F>(count, pred, edit)
    }

    /// The first pieces of `for_each_rsplit_mut`, `count` at most, as for `for_each_splitn_mut`.
    ///
    /// ```
    /// view.for_each_rsplitn_mut(2, is_one, |_number, piece| piece.invert());
    /// ```
    final fn for_each_rsplitn_mut<P: FnMut(usize, &bool) -> bool, F: FnMut(usize, &mut Self)>(
        &mut self,
        count: usize,
        pred: P,
        edit: F,
    )
        requires callable { MayGoOnIn P.FnMut (unsplit_in false (Self.shows self.old) pred) }
        requires edit { MayEditGiven Self.shows Self.named F.pre F.step edit self.old }
        ensures { EditsGiven Self.shows Self.named Self.writes F.step (LimitedNextIn P.FnMut false true)
            (record { left = unsplit_in false (Self.shows self.old) pred; count = count }) self.old edit self.new }
    {
        self.for_each_piece_of::<Reversed, AtMost, P, F>(count, pred, edit)
    }
}
