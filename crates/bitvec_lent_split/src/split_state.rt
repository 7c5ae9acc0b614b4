//! How far a split that lends its pieces has come, and its steps.
ghost use Rattle.std.specs.Prelude.{◌≡◌, ◌+◌, ◌-◌, ◌≤◌, ◌*◌, length};
ghost use Rattle.bitvec_slice.specs.Seen.{shown};
ghost use Rattle.bitvec_slice.specs.Views.{seen};
ghost use Rattle.bitvec_base.specs.Window.{max_bits};
ghost use Rattle.bitvec_lent_split.specs.SplitStates.{left_on, limited_on};
ghost use Rattle.bitvec_lent_split.specs.Lent.{MayGoOnIn, NextIn, SplitRestIn, SplitStepIn, StaysIn, capped, least_in, most_in, uncut_in, unsplit_in};
ghost use Rattle.bitvec_split.specs.Splits.{row_of};

use crate::SplitLimit;
use bitvec_base::BitOrder;
use bitvec_slice::BitSlice;
use bitvec_split::{SplitKind, ask_row, cut_row};
use bitvec_store::BitStore;
use std::marker::PhantomData;
use std::ops::Range;

/// Which bits of a view no piece has yet, whether the last piece was lent, how many may still come where
/// they are counted, and the predicate.
#[derive(Drop)]
pub(crate) struct SplitState<P, W, L> {
    pub(crate) from: usize,
    pub(crate) to: usize,
    pub(crate) finished: bool,
    pub(crate) count: usize,
    pub(crate) pred: P,
    pub(crate) way: PhantomData<(W, L)>,
}

impl<P, W, L> SplitState<P, W, L> {
    // The range of the view that no piece has yet.
    fn range<T: BitStore, O: BitOrder>(&self, bits: BitSlice<'_, T, O>) -> Range<usize>
        ensures start { result.start ≡ (left_on (seen bits.entry) self.now).from }
        ensures end { result.end ≡ (left_on (seen bits.entry) self.now).to }
        ensures order { result.start ≤ result.end }
        ensures inside { result.end ≤ (seen bits.entry).window.len }
    {
        let end = self.to.min(bits.len());
        self.from.min(end)..end
    }

    /// The bits of which pieces are still to come.
    pub(crate) fn uncut<'s, T: BitStore, O: BitOrder>(
        &self,
        bits: BitSlice<'s, T, O>,
    ) -> BitSlice<'s, T, O>
        ensures { (seen result).bits ≡ uncut_in (left_on (seen bits.entry) self.now) }
    {
        if self.finished {
            return BitSlice::empty();
        }
        bits.into_part(self.range(bits))
    }
}

impl<P: FnMut(usize, &bool) -> bool, W: SplitKind, L: SplitLimit> SplitState<P, W, L> {
    /// All bits of a view are left, and so many pieces may come.
    pub(crate) fn of<T: BitStore, O: BitOrder>(
        bits: BitSlice<'_, T, O>,
        count: usize,
        pred: P,
    ) -> Self
        ensures { limited_on (seen bits.entry) result ≡ record { left = unsplit_in W.INCLUSIVE (seen bits.entry) pred; count = count } }
    {
        let to = bits.len();
        SplitState {
            from: 0,
            to,
            finished: W::INCLUSIVE && to == 0,
            count,
            pred,
            way: PhantomData,
        }
    }

    /// The next piece from the front of what is left, or from the back, as a range of the view.
    #[tactic(auto, using(bitvec_domain::specs::PredicatesLaws::may_ask_of_fewer, bitvec_domain::specs::PredicatesLaws::may_ask_unfinished))]
    pub(crate) fn step_from<T: BitStore, O: BitOrder>(
        &mut self,
        bits: BitSlice<'_, T, O>,
        back: bool,
    ) -> Option<Range<usize>>
        requires { MayGoOnIn P.FnMut (left_on (seen bits) self.old) }
        ensures stays { StaysIn (left_on (seen bits.entry) self.old) result (left_on (seen bits.entry) self.new) }
        ensures piece { SplitStepIn P.FnMut W.INCLUSIVE (row_of W.INCLUSIVE back ((left_on (seen bits.entry) self.old).to - (left_on (seen bits.entry) self.old).from)) (left_on (seen bits.entry) self.old) result (left_on (seen bits.entry) self.new) }
        ensures count { self.new.count ≡ self.old.count }
    {
        if self.finished {
            return None;
        }
        let Range { start, end } = self.range(bits);
        let Some(index) = ask_row::<W, T, O, P>(bits.into_part(start..end), back, &mut self.pred)
        else {
            self.finished = true;
            return Some(start..end);
        };
        let (piece, rest) = cut_row::<W>(end - start, back, index);
        self.from = start + rest.start;
        self.to = start + rest.end;
        self.finished = W::INCLUSIVE && self.from == self.to;
        Some(start + piece.start..start + piece.end)
    }

    // All that is left, unasked, as a range of the view.
    fn finish<T: BitStore, O: BitOrder>(&mut self, bits: BitSlice<'_, T, O>) -> Option<Range<usize>>
        ensures stays { StaysIn (left_on (seen bits.entry) self.old) result (left_on (seen bits.entry) self.new) }
        ensures piece { SplitRestIn (left_on (seen bits.entry) self.old) result (left_on (seen bits.entry) self.new) }
        ensures count { self.new.count ≡ self.old.count }
    {
        if self.finished {
            return None;
        }
        self.finished = true;
        Some(self.range(bits))
    }

    /// The next piece, as a range of the view: where pieces are counted the last that may come is all that is left,
    /// unasked.
    pub(crate) fn step<T: BitStore, O: BitOrder>(
        &mut self,
        bits: BitSlice<'_, T, O>,
    ) -> Option<Range<usize>>
        requires { MayGoOnIn P.FnMut (left_on (seen bits) self.old) }
        ensures stays { StaysIn (left_on (seen bits.entry) self.old) result (left_on (seen bits.entry) self.new) }
        ensures piece { NextIn P.FnMut W.INCLUSIVE W.REVERSED L.LIMITED (limited_on (seen bits.entry) self.old) result (limited_on (seen bits.entry) self.new) }
    {
        if !L::LIMITED {
            return self.step_from(bits, W::REVERSED);
        }
        let range = match self.count {
            0 => None,
            1 => self.finish(bits),
            _ => self.step_from(bits, W::REVERSED),
        }?;
        self.count -= 1;
        Some(range)
    }

    /// How many pieces come at least, and how many at most, where they are not counted.
    pub(crate) fn bounds<T: BitStore, O: BitOrder>(
        &self,
        bits: BitSlice<'_, T, O>,
    ) -> (usize, usize)
        ensures { result ≡ (least_in (left_on (seen bits.entry) self.now), most_in (left_on (seen bits.entry) self.now)) }
    {
        if self.finished {
            return (0, 0);
        }
        let Range { start, end } = self.range(bits);
        (1, end - start + 1)
    }

    /// So many pieces, or as many as may come where they are counted.
    pub(crate) fn cap(&self, pieces: usize) -> usize
        ensures { result ≡ capped L.LIMITED self.now.count pieces }
    {
        if L::LIMITED {
            pieces.min(self.count)
        } else {
            pieces
        }
    }
}

/// The bits of elements that are borrowed for writing, to read.
pub(crate) fn look<'s, T: BitStore, O: BitOrder>(
    elements: &'s &mut [T],
    head: usize,
    len: usize,
) -> BitSlice<'s, T, O>
    requires inside { head + len ≤ T.BITS * length elements.now.now }
    requires fits { T.BITS * length elements.now.now ≤ max_bits }
    ensures { seen result ≡ shown T.BITS O.at T.value elements.now.now head len }
{
    BitSlice::from_parts(elements, head, len)
}
