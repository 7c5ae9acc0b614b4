//! The pieces of a view that is cut in one of several ways.
ghost use Rattle.std.specs.Prelude.{◌≡◌, ◌<◌, ◌≤◌, Some, IfSome, ⊤, length};
ghost use Rattle.std.specs.Iterator.{UpTo, at_most, item_count};
ghost use Rattle.std.specs.Iterator.SizeHint.{IsWithinCount};
ghost use Rattle.bitvec_base.specs.Window.{max_bits};
ghost use Rattle.bitvec_slice.specs.Views.{seen};
ghost use Rattle.bitvec_iter.specs.Parts.{subview};

use crate::PieceWalk;
use crate::parts::part_of;
use bitvec_base::BitOrder;
use bitvec_cutting::{
    Cutting, ExactCutting, InChunks, InChunksFromEnd, InExactChunks, InExactChunksFromEnd,
    InWindows,
};
use bitvec_slice::BitSlice;
use bitvec_store::BitStore;
use std::alloc::AllocError;
use std::iter::FusedIterator;
use std::ops::Range;

/// The pieces of a view that is cut in the way `C`, from both ends, each a view of its own.
///
/// Contracts see it as `pieces_left`, what the pieces show that are still to come.
#[derive(Drop)]
pub struct Pieces<'a, T: BitStore, O: BitOrder, C: Cutting> {
    view: BitSlice<'a, T, O>,
    cutting: C,
    pub(crate) numbers: Range<usize>,
    ghost inside: { numbers.end ≤ C.pieces cutting (seen view).window.len },
}

/// Windows of a size, each one bit behind the one before it: `windows` makes it.
pub type Windows<'a, T, O> = Pieces<'a, T, O, InWindows>;

/// Chunks of a size from the first bit on, of which the last may be shorter: `chunks` makes it.
pub type Chunks<'a, T, O> = Pieces<'a, T, O, InChunks>;

/// Whole chunks of a size from the first bit on: `chunks_exact` makes it.
pub type ChunksExact<'a, T, O> = Pieces<'a, T, O, InExactChunks>;

/// Chunks of a size from the last bit on, of which the last, at the start, may be shorter:
/// `rchunks` makes it.
pub type RChunks<'a, T, O> = Pieces<'a, T, O, InChunksFromEnd>;

/// Whole chunks of a size from the last bit on: `rchunks_exact` makes it.
pub type RChunksExact<'a, T, O> = Pieces<'a, T, O, InExactChunksFromEnd>;

impl<'a, T: BitStore, O: BitOrder, C: Cutting> Pieces<'a, T, O, C> {
    ghost use Rattle.bitvec_iter.specs.Left.{YieldsPieces, cut_by, piece_at, pieces_left, walked};
    ghost use Rattle.bitvec_iter.specs.Parts.{parts_of};

    /// All pieces of a view. `bitvec` has no such call: it has one for each way to cut.
    pub fn new(view: BitSlice<'a, T, O>, cutting: C) -> Self
        ensures pieces { pieces_left result ≡ parts_of T.BITS (seen view.entry) (C.pieces cutting) (C.place cutting) }
        ensures view { walked result ≡ seen view.entry }
        ensures cutting { cut_by result ≡ cutting }
        ensures bound { length (pieces_left result) ≤ max_bits }
        ensures runs { YieldsPieces result }
    {
        let count = cutting.count(view.len());
        Pieces {
            view,
            cutting,
            numbers: 0..count,
        }
    }

    pub(crate) fn piece(&self, number: usize) -> BitSlice<'a, T, O>
        requires { number < C.pieces (cut_by self.now) (walked self.now).window.len }
        ensures { seen result ≡ piece_at self.now number }
    {
        part_of(self.view, self.cutting.piece(self.view.len(), number))
    }
}

impl<'a, T: BitStore, O: BitOrder, C: Cutting> PieceWalk<T, C> for Pieces<'a, T, O, C> {
    ghost use Rattle.bitvec_iter.specs.Left.{YieldsPieces, cut_by, pieces_left, walked};

    ghost left = { λ it. pieces_left it };

    ghost walked = { λ it. walked it };

    ghost cut_by = { λ it. cut_by it };

    ghost Yields = { λ it. YieldsPieces it };
}

impl<'a, T: BitStore, O: BitOrder, C: ExactCutting> Pieces<'a, T, O, C> {
    ghost use Rattle.bitvec_iter.specs.Left.{cut_by, walked};

    /// The bits that no piece has.
    pub fn remainder(&self) -> BitSlice<'a, T, O>
        ensures { seen result ≡ subview T.BITS (walked self.now) (C.left_over (cut_by self.now) (walked self.now).window.len) }
    {
        part_of(self.view, self.cutting.remainder(self.view.len()))
    }
}

impl<'a, T: BitStore, O: BitOrder, C: Cutting> Clone for Pieces<'a, T, O, C> {
    ghost use Rattle.bitvec_iter.specs.Left.{KeepsView, pieces_left};

    ghost is_clone = { λ x y. (pieces_left y ≡ pieces_left x) × KeepsView x y };

    ghost is_infallible = { λ _. ⊤ };

    #[tactic(auto, unfolding(crate::specs::Left::pieces_left))]
    fn clone(&self) -> Result<Self, AllocError> {
        Ok(Pieces {
            view: self.view,
            cutting: self.cutting,
            numbers: self.numbers.start..self.numbers.end,
        })
    }
}

impl<'a, T: BitStore, O: BitOrder, C: Cutting> Iterator for Pieces<'a, T, O, C> {
    ghost use Rattle.bitvec_iter.specs.Left.{TakesFirst, pieces_left};

    type Item = BitSlice<'a, T, O>;

    ghost next_gives = { λ before piece after. TakesFirst before piece after };

    ghost remaining = { item_count (λ it. pieces_left it) };

    /// The first of the pieces that are still to come.
    fn next(&mut self) -> Option<BitSlice<'a, T, O>> {
        match self.numbers.next() {
            Some(number) => Some(self.piece(number)),
            None => None,
        }
    }

    #[tactic(auto, using(crate::proofs::LeftLaws::stepping))]
    fn size_hint(&self) -> (usize, Option<usize>)
        ensures lower { IsWithinCount result.0 (at_most (length (pieces_left self.now))) }
        ensures upper { IfSome result.1 (UpTo (at_most (length (pieces_left self.now)))) }
        ensures exact { result ≡ (length (pieces_left self.now), Some (length (pieces_left self.now))) }
    {
        let len = self.len();
        (len, Some(len))
    }
}

impl<'a, T: BitStore, O: BitOrder, C: Cutting> DoubleEndedIterator for Pieces<'a, T, O, C> {
    ghost use Rattle.bitvec_iter.specs.Left.{TakesLast};

    ghost next_back_gives = { λ before piece after. TakesLast before piece after };

    /// The last of the pieces that are still to come.
    fn next_back(&mut self) -> Option<BitSlice<'a, T, O>> {
        match self.numbers.next_back() {
            Some(number) => Some(self.piece(number)),
            None => None,
        }
    }
}

impl<'a, T: BitStore, O: BitOrder, C: Cutting> ExactSizeIterator for Pieces<'a, T, O, C> {
    /// How many pieces are still to come.
    fn len(&self) -> usize {
        self.numbers.len()
    }
}

impl<'a, T: BitStore, O: BitOrder, C: Cutting> FusedIterator for Pieces<'a, T, O, C> {}
