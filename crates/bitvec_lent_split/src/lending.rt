//! Splits of writable views, which lend their pieces one at a time.
ghost use Rattle.std.specs.Prelude.{◌≡◌, ◌+◌, ◌*◌, ◌≤◌, ◌==◌, ◌&&◌, ◌||◌, Some, length, option_map, slice_range};
ghost use Rattle.bitvec_base.specs.Window.{max_bits};

use crate::split_state::{SplitState, look};
use crate::{AtMost, Every, SplitLimit};
use bitvec_base::{BitOrder, Window};
use bitvec_slice::{BitSlice, BitSliceMut, Sealed, ViewMut, touched_part};
use bitvec_split::{Forward, Inclusive, Reversed, SplitKind};
use bitvec_store::BitStore;
use std::marker::PhantomData;
use std::ops::Range;

/// The pieces of a writable view as `Splits` gives them of a shared one, and up to a number of them as `SplitsN`
/// does (`L` is `AtMost`). A piece is lent: it ends before the next is asked for. The predicate sees the bits as
/// they stand when it is asked.
///
/// `advance` finds a piece and `piece_mut` lends it. Their caller knows what was asked, what is left of the
/// split, and each element that the piece doesn't touch. `next_mut` is both in one; after it nothing is
/// known of the split but that it is one.
#[derive(Drop)]
pub struct SplitsMut<'a, T: BitStore, O: BitOrder, P, W, L = Every> {
    pub(crate) elements: &'a mut [T],
    pub(crate) head: usize,
    pub(crate) len: usize,
    pub(crate) state: SplitState<P, W, L>,
    found: Range<usize>,
    mark: PhantomData<(O, &'a mut T)>,
    ghost inside: { head + len ≤ T.BITS * length elements.now },
    ghost bounded: { T.BITS * length elements.now ≤ max_bits },
    ghost ordered: { found.start ≤ found.end },
    ghost held: { found.end ≤ len },
}

/// The pieces between the bits at which the predicate says yes: `split_mut` makes them.
pub type SplitMut<'a, T, O, P> = SplitsMut<'a, T, O, P, Forward>;

/// The pieces of a split, each with the bit behind it: `split_inclusive_mut` makes them.
pub type SplitInclusiveMut<'a, T, O, P> = SplitsMut<'a, T, O, P, Inclusive>;

/// The pieces of `SplitMut`, from the last to the first: `rsplit_mut` makes them.
pub type RSplitMut<'a, T, O, P> = SplitsMut<'a, T, O, P, Reversed>;

/// The pieces of a split, up to a number of them.
pub type SplitsNMut<'a, T, O, P, W> = SplitsMut<'a, T, O, P, W, AtMost>;

/// The pieces of `SplitMut`, up to a number of them: `splitn_mut` makes them.
pub type SplitNMut<'a, T, O, P> = SplitsNMut<'a, T, O, P, Forward>;

/// The pieces of `RSplitMut`, up to a number of them: `rsplitn_mut` makes them.
pub type RSplitNMut<'a, T, O, P> = SplitsNMut<'a, T, O, P, Reversed>;

impl<'a, T: BitStore, O: BitOrder, P: FnMut(usize, &bool) -> bool, W: SplitKind> SplitsMut<
    'a,
    T,
    O,
    P,
    W,
    Every,
> {
    ghost use Rattle.std.specs.Borrow.{sem};
    ghost use Rattle.bitvec_slice.specs.Lending.{lends};
    ghost use Rattle.bitvec_slice.specs.Views.{seen_mut};
    ghost use Rattle.bitvec_lent_split.specs.Lent.{Lends, MayGoOnIn, SplitNextBackIn, StaysIn, piece_if, unsplit_in};
    ghost use Rattle.bitvec_lent_split.specs.LentViews.{found_in, left_in, name_of_splits};

    /// The pieces of a view, which is lent for as long as they are. `bitvec` has no such call:
    /// `split_mut` and its kin are made of it.
    #[doc(hidden)]
    pub fn new<'s>(bits: &'s mut BitSliceMut<'a, T, O>, pred: P) -> SplitsMut<'s, T, O, P, W, Every>
        ensures* writes_back { sem 𝓛 (lends T.row O.row bits.entry (name_of_splits result)) }
        ensures left { left_in result ≡ unsplit_in W.INCLUSIVE (seen_mut bits.old) pred }
    {
        let window = bits.window();
        SplitsMut::from_parts(bits.elements_mut(Sealed), window, 0, pred)
    }

    /// Finds the next piece from the other end, as [`SplitsMut::advance`] finds one.
    pub fn advance_back(&mut self) -> bool
        requires { MayGoOnIn P.FnMut (left_in self.old) }
        ensures stays { StaysIn (left_in self.old) (piece_if result (found_in self.new)) (left_in self.new) }
        ensures piece { SplitNextBackIn P.FnMut W.INCLUSIVE W.REVERSED (left_in self.old) (piece_if result (found_in self.new)) (left_in self.new) }
        ensures name { name_of_splits self.new ≡ name_of_splits self.old }
    {
        let bits = look::<T, O>(&self.elements, self.head, self.len);
        let Some(range) = self.state.step_from(bits, !W::REVERSED) else {
            return false;
        };
        self.found = range;
        true
    }

    /// The next piece from the other end, as [`SplitsMut::next_mut`] lends one.
    pub fn next_back_mut(&mut self) -> Option<BitSliceMut<'_, T, O>>
        requires { MayGoOnIn P.FnMut (left_in self.old) }
        ensures { Lends T.BITS (left_in self.old).view (SplitNextBackIn P.FnMut W.INCLUSIVE W.REVERSED (left_in self.old)) (option_map seen_mut result) }
    {
        if self.advance_back() {
            Some(self.piece_mut())
        } else {
            None
        }
    }
}

impl<'a, T: BitStore, O: BitOrder, P: FnMut(usize, &bool) -> bool, W: SplitKind> SplitsMut<
    'a,
    T,
    O,
    P,
    W,
    AtMost,
> {
    ghost use Rattle.std.specs.Borrow.{sem};
    ghost use Rattle.bitvec_slice.specs.Lending.{lends};
    ghost use Rattle.bitvec_slice.specs.Views.{seen_mut};
    ghost use Rattle.bitvec_lent_split.specs.Lent.{unsplit_in};
    ghost use Rattle.bitvec_lent_split.specs.LentViews.{limited_in, name_of_splits};

    /// The pieces of a view, which is lent for as long as they are. `bitvec` has no such call:
    /// `splitn_mut` and `rsplitn_mut` are made of it.
    #[doc(hidden)]
    pub fn new<'s>(
        bits: &'s mut BitSliceMut<'a, T, O>,
        count: usize,
        pred: P,
    ) -> SplitsMut<'s, T, O, P, W, AtMost>
        ensures* writes_back { sem 𝓛 (lends T.row O.row bits.entry (name_of_splits result)) }
        ensures left { limited_in result ≡ record { left = unsplit_in W.INCLUSIVE (seen_mut bits.old) pred; count = count } }
    {
        let window = bits.window();
        SplitsMut::from_parts(bits.elements_mut(Sealed), window, count, pred)
    }
}

impl<
    'a,
    T: BitStore,
    O: BitOrder,
    P: FnMut(usize, &bool) -> bool,
    W: SplitKind,
    L: SplitLimit,
> SplitsMut<'a, T, O, P, W, L> {
    ghost use Rattle.std.specs.Borrow.{sem};
    ghost use Rattle.bitvec_slice.specs.Seen.{IsRangeOf, shown};
    ghost use Rattle.bitvec_slice.specs.Views.{name_of, seen_mut};
    ghost use Rattle.bitvec_lent_split.specs.Lent.{LendsNextIn, MayGoOnIn, NextIn, StaysIn, capped, least_in, most_in, piece_if, unsplit_in};
    ghost use Rattle.bitvec_lent_split.specs.LentViews.{found_in, left_in, limited_in, name_of_splits};
    ghost use Rattle.bitvec_lent_split.specs.SplitsLending.{lends_found};

    fn from_parts(elements: &'a mut [T], window: Window, count: usize, pred: P) -> Self
        requires inside { window.start + window.len ≤ T.BITS * length elements.old }
        requires fits { T.BITS * length elements.old ≤ max_bits }
        ensures left { limited_in result ≡ record { left = unsplit_in W.INCLUSIVE (shown T.BITS O.at T.value elements.old window.start window.len) pred; count = count } }
        ensures name { name_of_splits result ≡ elements.entry.ghost_name }
    {
        let bits = BitSlice::<T, O>::from_parts(elements, window.start, window.len);
        let state = SplitState::of(bits, count, pred);
        SplitsMut {
            elements,
            head: window.start,
            len: window.len,
            state,
            found: 0..0,
            mark: PhantomData,
        }
    }

    /// Whether no piece is left.
    pub fn is_finished(&self) -> bool
        ensures { result ≡ (L.LIMITED && ((limited_in self.now).count == 0)) || (left_in self.now).finished }
    {
        L::LIMITED && self.state.count == 0 || self.state.finished
    }

    /// Finds the next piece, and says whether there is one. Condition: the predicate may always be
    /// called, or at least asked about all that is left. `bitvec` has no such call: with it, and with
    /// `piece_mut` behind it, a caller knows what was asked and what is left.
    pub fn advance(&mut self) -> bool
        requires { MayGoOnIn P.FnMut (left_in self.old) }
        ensures stays { StaysIn (left_in self.old) (piece_if result (found_in self.new)) (left_in self.new) }
        ensures piece { NextIn P.FnMut W.INCLUSIVE W.REVERSED L.LIMITED (limited_in self.old) (piece_if result (found_in self.new)) (limited_in self.new) }
        ensures name { name_of_splits self.new ≡ name_of_splits self.old }
    {
        let bits = look::<T, O>(&self.elements, self.head, self.len);
        let Some(range) = self.state.step(bits) else {
            return false;
        };
        self.found = range;
        true
    }

    /// The piece that was found last, as often as it is asked for: no bits before the first. `bitvec`
    /// has no such call: with it a caller knows that nothing but the elements of the piece is changed.
    pub fn piece_mut(&mut self) -> BitSliceMut<'_, T, O>
        ensures* writes_back { sem 𝓛 (lends_found T.row O.row P.row W.row L.row self.entry (name_of result)) }
        ensures piece { IsRangeOf T.BITS (left_in self.old).view (found_in self.old).start (found_in self.old).end (seen_mut result) }
    {
        let Range { start, end } = self.found;
        self.part_mut(start, end)
    }

    /// The next piece, if there is one. Condition: the predicate may always be called, or at least
    /// asked about all that is left. Afterwards nothing is known of the split but that it is one.
    pub fn next_mut(&mut self) -> Option<BitSliceMut<'_, T, O>>
        requires { MayGoOnIn P.FnMut (left_in self.old) }
        ensures { LendsNextIn T.BITS P.FnMut W.INCLUSIVE W.REVERSED L.LIMITED (limited_in self.old) (option_map seen_mut result) }
    {
        if self.advance() {
            Some(self.piece_mut())
        } else {
            None
        }
    }

    /// How many pieces come at least, and how many at most.
    pub fn size_hint(&self) -> (usize, Option<usize>)
        ensures { result ≡ (capped L.LIMITED (limited_in self.now).count (least_in (left_in self.now)), Some (capped L.LIMITED (limited_in self.now).count (most_in (left_in self.now)))) }
    {
        let bits = look::<T, O>(&self.elements, self.head, self.len);
        let (least, most) = self.state.bounds(bits);
        (self.state.cap(least), Some(self.state.cap(most)))
    }
}

impl<'a, T: BitStore, O: BitOrder, P, W, L> SplitsMut<'a, T, O, P, W, L> {
    ghost use Rattle.std.specs.Borrow.{sem};
    ghost use Rattle.bitvec_slice.specs.Seen.{IsRangeOf};
    ghost use Rattle.bitvec_slice.specs.Views.{name_of, seen_mut};
    ghost use Rattle.bitvec_lent_split.specs.LentViews.{left_in};
    ghost use Rattle.bitvec_lent_split.specs.SplitsLending.{lends_bits, lends_part};

    fn part_mut(&mut self, from: usize, to: usize) -> BitSliceMut<'_, T, O>
        requires order { from ≤ to }
        requires bound { to ≤ (left_in self.old).view.window.len }
        ensures* writes_back { sem 𝓛 (lends_bits T.row O.row P.row W.row L.row self.entry from to (name_of result)) }
        ensures part { IsRangeOf T.BITS (left_in self.old).view from to (seen_mut result) }
    {
        let window = Window {
            start: self.head,
            len: self.len,
        };
        let part = touched_part::<T>(self.elements.len(), window, from, to);
        let elements = self.elements_part_mut(part.first, part.end);
        BitSliceMut::from_parts(elements, part.head, part.len)
    }

    fn elements_part_mut(&mut self, start: usize, end: usize) -> &mut [T]
        requires order { start ≤ end }
        requires bound { end ≤ length (left_in self.old).view.elements }
        ensures* writes_back { sem 𝓛 (lends_part T.row O.row P.row W.row L.row self.entry start end result.ghost_name) }
        ensures elements { result.now ≡ slice_range (left_in self.old).view.elements start end }
    {
        &mut self.elements[start..end]
    }
}
