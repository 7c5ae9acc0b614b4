//! The bits of a writable walk, lent where one is left, after which a caller knows the walk.
ghost use Rattle.std.specs.Prelude.{◌≡◌, ◌+◌, ◌-◌, ◌<◌, IsTrue, false, nat_lt, true};

use crate::IterMut;
use bitvec_base::BitOrder;
use bitvec_slice::{BitSliceMut, Lent};
use bitvec_store::BitStore;

impl<'a, T: BitStore, O: BitOrder> IterMut<'a, T, O> {
    ghost use Rattle.std.specs.Borrow.{sem};
    ghost use Rattle.bitvec_slice.specs.MayLend.{is_lent, piece_of};
    ghost use Rattle.bitvec_slice.specs.Seen.{IsRangeOf};
    ghost use Rattle.bitvec_slice.specs.Views.{name_of, seen_mut};
    ghost use Rattle.bitvec_iter.specs.LentBits.{bit_walk_of};
    ghost use Rattle.bitvec_iter.specs.BitsLending.{lends_first, lends_last, lends_next, lends_next_back, lends_part, passed, passed_back};

    /// The first bit that is left, if there is one: `next_mut`, after which a caller knows the walk.
    pub fn next_lent(&mut self) -> Lent<BitSliceMut<'_, T, O>>
        ensures* writes_back { sem 𝓛 (lends_next T.row O.row self.entry self.old (name_of (piece_of result))) }
        ensures lent { is_lent result ≡ nat_lt (bit_walk_of self.old).front (bit_walk_of self.old).back }
        ensures bit { IsTrue (is_lent result) → IsRangeOf T.BITS (bit_walk_of self.old).view ((bit_walk_of self.old).front) ((bit_walk_of self.old).front + 1) (seen_mut (piece_of result)) }
    {
        if self.front < self.back {
            return self.lent_first();
        }
        self.lent_nothing()
    }

    /// The last bit that is left, if there is one: `next_back_mut`, after which a caller knows the walk.
    pub fn next_back_lent(&mut self) -> Lent<BitSliceMut<'_, T, O>>
        ensures* writes_back { sem 𝓛 (lends_next_back T.row O.row self.entry self.old (name_of (piece_of result))) }
        ensures lent { is_lent result ≡ nat_lt (bit_walk_of self.old).front (bit_walk_of self.old).back }
        ensures bit { IsTrue (is_lent result) → IsRangeOf T.BITS (bit_walk_of self.old).view ((bit_walk_of self.old).back - 1) ((bit_walk_of self.old).back - 1 + 1) (seen_mut (piece_of result)) }
    {
        if self.front < self.back {
            return self.lent_last();
        }
        self.lent_nothing()
    }

    /// The bit behind the first `skipped` that are left, if there is one: `nth_mut`, after which a caller knows the walk.
    pub fn nth_lent(&mut self, skipped: usize) -> Lent<BitSliceMut<'_, T, O>>
        ensures* writes_back { sem 𝓛 (lends_next T.row O.row self.entry (passed self.old skipped) (name_of (piece_of result))) }
        ensures lent { is_lent result ≡ nat_lt skipped ((bit_walk_of self.old).back - (bit_walk_of self.old).front) }
        ensures bit { IsTrue (is_lent result) → IsRangeOf T.BITS (bit_walk_of self.old).view ((bit_walk_of self.old).front + skipped) ((bit_walk_of self.old).front + skipped + 1) (seen_mut (piece_of result)) }
    {
        self.pass(skipped);
        self.next_lent()
    }

    /// The bit before the last `skipped` that are left, if there is one: `nth_back_mut`, after which a caller knows the walk.
    pub fn nth_back_lent(&mut self, skipped: usize) -> Lent<BitSliceMut<'_, T, O>>
        ensures* writes_back { sem 𝓛 (lends_next_back T.row O.row self.entry (passed_back self.old skipped) (name_of (piece_of result))) }
        ensures lent { is_lent result ≡ nat_lt skipped ((bit_walk_of self.old).back - (bit_walk_of self.old).front) }
        ensures bit { IsTrue (is_lent result) → IsRangeOf T.BITS (bit_walk_of self.old).view ((bit_walk_of self.old).back - 1 - skipped) ((bit_walk_of self.old).back - 1 - skipped + 1) (seen_mut (piece_of result)) }
    {
        self.pass_back(skipped);
        self.next_back_lent()
    }

    fn lent_first(&mut self) -> Lent<BitSliceMut<'_, T, O>>
        requires { (bit_walk_of self.old).front < (bit_walk_of self.old).back }
        ensures* writes_back { sem 𝓛 (lends_first T.row O.row self.entry (name_of (piece_of result))) }
        ensures lent { is_lent result ≡ true }
        ensures bit { IsRangeOf T.BITS (bit_walk_of self.old).view ((bit_walk_of self.old).front) ((bit_walk_of self.old).front + 1) (seen_mut (piece_of result)) }
    {
        let index = self.front;
        self.front += 1;
        let piece = self.part_mut(index, index + 1);
        Lent::new(piece, true)
    }

    fn lent_last(&mut self) -> Lent<BitSliceMut<'_, T, O>>
        requires { (bit_walk_of self.old).front < (bit_walk_of self.old).back }
        ensures* writes_back { sem 𝓛 (lends_last T.row O.row self.entry (name_of (piece_of result))) }
        ensures lent { is_lent result ≡ true }
        ensures bit { IsRangeOf T.BITS (bit_walk_of self.old).view ((bit_walk_of self.old).back - 1) ((bit_walk_of self.old).back - 1 + 1) (seen_mut (piece_of result)) }
    {
        self.back -= 1;
        let index = self.back;
        let piece = self.part_mut(index, index + 1);
        Lent::new(piece, true)
    }

    fn lent_nothing(&mut self) -> Lent<BitSliceMut<'_, T, O>>
        ensures* writes_back { sem 𝓛 (lends_part T.row O.row self.entry 0 0 (name_of (piece_of result))) }
        ensures lent { is_lent result ≡ false }
    {
        let elements = self.elements_part_mut(0, 0);
        Lent::new(BitSliceMut::from_parts(elements, 0, 0), false)
    }
}
