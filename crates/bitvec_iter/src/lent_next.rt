//! The pieces of a writable walk, lent where one is left, after which a caller knows the walk.
ghost use Rattle.std.specs.Prelude.{◌≡◌, ◌+◌, ◌-◌, ◌<◌, IsTrue, false, nat_lt, true};

use crate::PiecesMut;
use bitvec_base::BitOrder;
use bitvec_cutting::Cutting;
use bitvec_slice::{BitSliceMut, Lent};
use bitvec_store::BitStore;

impl<'a, T: BitStore, O: BitOrder, C: Cutting> PiecesMut<'a, T, O, C> {
    ghost use Rattle.std.specs.Borrow.{sem};
    ghost use Rattle.bitvec_slice.specs.MayLend.{is_lent, piece_of};
    ghost use Rattle.bitvec_slice.specs.Views.{name_of, seen_mut};
    ghost use Rattle.bitvec_iter.specs.LentPieces.{walk_of};
    ghost use Rattle.bitvec_iter.specs.LentWalk.{IsPieceOfWalk};
    ghost use Rattle.bitvec_iter.specs.PiecesLending.{lends_first, lends_last, lends_next, lends_next_back, lends_part, passed, passed_back};

    /// The first piece that is left, if there is one: `next_mut`, after which a caller knows the walk.
    pub fn next_lent(&mut self) -> Lent<BitSliceMut<'_, T, O>>
        ensures* writes_back { sem 𝓛 (lends_next T.row O.row C.row C.place self.entry self.old (name_of (piece_of result))) }
        ensures lent { is_lent result ≡ nat_lt (walk_of self.old).front (walk_of self.old).back }
        ensures piece { IsTrue (is_lent result) → IsPieceOfWalk T.BITS C.place (walk_of self.old) ((walk_of self.old).front) (seen_mut (piece_of result)) }
    {
        if self.front < self.back {
            return self.lent_first();
        }
        self.lent_nothing()
    }

    /// The last piece that is left, if there is one: `next_back_mut`, after which a caller knows the walk.
    pub fn next_back_lent(&mut self) -> Lent<BitSliceMut<'_, T, O>>
        ensures* writes_back { sem 𝓛 (lends_next_back T.row O.row C.row C.place self.entry self.old (name_of (piece_of result))) }
        ensures lent { is_lent result ≡ nat_lt (walk_of self.old).front (walk_of self.old).back }
        ensures piece { IsTrue (is_lent result) → IsPieceOfWalk T.BITS C.place (walk_of self.old) ((walk_of self.old).back - 1) (seen_mut (piece_of result)) }
    {
        if self.front < self.back {
            return self.lent_last();
        }
        self.lent_nothing()
    }

    /// The piece behind the first `skipped` that are left, if there is one: `nth_mut`, after which a caller knows the walk.
    pub fn nth_lent(&mut self, skipped: usize) -> Lent<BitSliceMut<'_, T, O>>
        ensures* writes_back { sem 𝓛 (lends_next T.row O.row C.row C.place self.entry (passed self.old skipped) (name_of (piece_of result))) }
        ensures lent { is_lent result ≡ nat_lt skipped ((walk_of self.old).back - (walk_of self.old).front) }
        ensures piece { IsTrue (is_lent result) → IsPieceOfWalk T.BITS C.place (walk_of self.old) ((walk_of self.old).front + skipped) (seen_mut (piece_of result)) }
    {
        self.pass(skipped);
        self.next_lent()
    }

    /// The piece before the last `skipped` that are left, if there is one: `nth_back_mut`, after which a caller knows the walk.
    pub fn nth_back_lent(&mut self, skipped: usize) -> Lent<BitSliceMut<'_, T, O>>
        ensures* writes_back { sem 𝓛 (lends_next_back T.row O.row C.row C.place self.entry (passed_back self.old skipped) (name_of (piece_of result))) }
        ensures lent { is_lent result ≡ nat_lt skipped ((walk_of self.old).back - (walk_of self.old).front) }
        ensures piece { IsTrue (is_lent result) → IsPieceOfWalk T.BITS C.place (walk_of self.old) ((walk_of self.old).back - 1 - skipped) (seen_mut (piece_of result)) }
    {
        self.pass_back(skipped);
        self.next_back_lent()
    }

    fn lent_first(&mut self) -> Lent<BitSliceMut<'_, T, O>>
        requires { (walk_of self.old).front < (walk_of self.old).back }
        ensures* writes_back { sem 𝓛 (lends_first T.row O.row C.row C.place self.entry (name_of (piece_of result))) }
        ensures lent { is_lent result ≡ true }
        ensures piece { IsPieceOfWalk T.BITS C.place (walk_of self.old) ((walk_of self.old).front) (seen_mut (piece_of result)) }
    {
        let piece = self.take_mut();
        Lent::new(piece, true)
    }

    fn lent_last(&mut self) -> Lent<BitSliceMut<'_, T, O>>
        requires { (walk_of self.old).front < (walk_of self.old).back }
        ensures* writes_back { sem 𝓛 (lends_last T.row O.row C.row C.place self.entry (name_of (piece_of result))) }
        ensures lent { is_lent result ≡ true }
        ensures piece { IsPieceOfWalk T.BITS C.place (walk_of self.old) ((walk_of self.old).back - 1) (seen_mut (piece_of result)) }
    {
        let piece = self.take_back_mut();
        Lent::new(piece, true)
    }

    fn lent_nothing(&mut self) -> Lent<BitSliceMut<'_, T, O>>
        ensures* writes_back { sem 𝓛 (lends_part T.row O.row C.row self.entry 0 0 (name_of (piece_of result))) }
        ensures lent { is_lent result ≡ false }
    {
        let elements = self.elements_part_mut(0, 0);
        Lent::new(BitSliceMut::from_parts(elements, 0, 0), false)
    }
}
