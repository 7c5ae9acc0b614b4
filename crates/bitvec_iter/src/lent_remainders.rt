//! What no piece of an exact writable walk has.
ghost use Rattle.std.specs.Prelude.{◌≡◌};

use crate::PiecesMut;
use bitvec_base::BitOrder;
use bitvec_cutting::ExactCutting;
use bitvec_slice::BitSliceMut;
use bitvec_store::BitStore;
use std::ops::Range;

impl<'a, T: BitStore, O: BitOrder, C: ExactCutting> PiecesMut<'a, T, O, C> {
    ghost use Rattle.std.specs.Borrow.{sem};
    ghost use Rattle.bitvec_slice.specs.Seen.{IsRangeOf};
    ghost use Rattle.bitvec_slice.specs.Views.{name_of, seen_mut};
    ghost use Rattle.bitvec_iter.specs.LentWalk.{rest_of};
    ghost use Rattle.bitvec_iter.specs.PiecesLending.{lends_rest};
    ghost use Rattle.bitvec_iter.specs.LentPieces.{walk_of};

    /// The bits that no piece has: all of them the first time, and later an empty view. The pieces that
    /// are left stay so.
    pub fn take_remainder(&mut self) -> BitSliceMut<'_, T, O>
        ensures* writes_back { sem 𝓛 (lends_rest T.row O.row C.row C.left_over self.entry (name_of result)) }
        ensures rest { IsRangeOf T.BITS (walk_of self.old).view (rest_of C.left_over (walk_of self.old)).start
            (rest_of C.left_over (walk_of self.old)).end (seen_mut result) }
    {
        let range = self.remainder();
        self.taken = true;
        self.part_mut(range.start, range.end)
    }

    /// Ends the walk, and gives the bits that no piece has, or an empty view where they were taken.
    pub fn into_remainder(self) -> BitSliceMut<'a, T, O>
        ensures { IsRangeOf T.BITS (walk_of self.entry).view (rest_of C.left_over (walk_of self.entry)).start
            (rest_of C.left_over (walk_of self.entry)).end (seen_mut result) }
    {
        let range = self.remainder();
        self.into_view().into_part(range)
    }

    fn remainder(&self) -> Range<usize>
        ensures { result ≡ rest_of C.left_over (walk_of self.now) }
    {
        if self.taken {
            0..0
        } else {
            self.cutting.remainder(self.len)
        }
    }
}
