//! The parts of a writable view, lent where the view has them.
ghost use Rattle.std.specs.Prelude.{◌≡◌, ◌+◌, ◌-◌, IsTrue, false, nat_lt, true};

use crate::{BitSliceMut, Lent, LentIndex};
use bitvec_base::BitOrder;
use bitvec_store::BitStore;
use std::ops::Range;

impl<'a, T: BitStore, O: BitOrder> BitSliceMut<'a, T, O> {
    ghost use Rattle.std.specs.Borrow.{sem};
    ghost use Rattle.bitvec_slice.specs.Indices.{HasRange};
    ghost use Rattle.bitvec_slice.specs.Seen.{IsRangeOf};
    ghost use Rattle.bitvec_slice.specs.Lending.{lends_bits, lends_part};
    ghost use Rattle.bitvec_slice.specs.MayLend.{is_lent, lends_bits_if, piece_of};
    ghost use Rattle.bitvec_slice.specs.Views.{name_of, seen_mut};

    /// What stands at an index or at a range of indices, for writing, if the view has it: `get_mut`, after
    /// which a caller knows the view. Of an index, [`Lent::bit`] gives the reference that `get_mut` gives.
    ///
    /// ```
    /// if let Some(mut part) = view.get_lent(2..9).some() {
    ///     part.invert();
    /// }
    /// ```
    pub fn get_lent<I: LentIndex>(&mut self, index: I) -> Lent<BitSliceMut<'_, T, O>>
        ensures* writes_back { sem 𝓛 (lends_bits_if T.row O.row self.entry (I.lies index (seen_mut self.old).window.len) (I.range index (seen_mut self.old).window.len) (name_of (piece_of result))) }
        ensures lent { is_lent result ≡ I.lies index (seen_mut self.old).window.len }
        ensures part { IsTrue (is_lent result) → IsRangeOf T.BITS (seen_mut self.old) (I.range index (seen_mut self.old).window.len).start
            (I.range index (seen_mut self.old).window.len).end (seen_mut (piece_of result)) }
    {
        let len = self.len();
        if index.lies_in(len) {
            return self.lent_part(index.bits_in(len));
        }
        self.lent_none()
    }

    /// The first bit for writing, if there is one: `first_mut`, after which a caller knows the view.
    pub fn first_lent(&mut self) -> Lent<BitSliceMut<'_, T, O>>
        ensures* writes_back { sem 𝓛 (lends_bits_if T.row O.row self.entry (nat_lt 0 (seen_mut self.old).window.len) (record { start = 0; end = 1 }) (name_of (piece_of result))) }
        ensures lent { is_lent result ≡ nat_lt 0 (seen_mut self.old).window.len }
        ensures part { IsTrue (is_lent result) → IsRangeOf T.BITS (seen_mut self.old) 0 1 (seen_mut (piece_of result)) }
    {
        self.get_lent(0usize)
    }

    /// The last bit for writing, if there is one: `last_mut`, after which a caller knows the view.
    pub fn last_lent(&mut self) -> Lent<BitSliceMut<'_, T, O>>
        ensures* writes_back { sem 𝓛 (lends_bits_if T.row O.row self.entry (nat_lt ((seen_mut self.old).window.len - 1) (seen_mut self.old).window.len)
            (record { start = (seen_mut self.old).window.len - 1; end = (seen_mut self.old).window.len - 1 + 1 }) (name_of (piece_of result))) }
        ensures lent { is_lent result ≡ nat_lt 0 (seen_mut self.old).window.len }
        ensures part { IsTrue (is_lent result) → IsRangeOf T.BITS (seen_mut self.old) ((seen_mut self.old).window.len - 1)
            ((seen_mut self.old).window.len - 1 + 1) (seen_mut (piece_of result)) }
    {
        let last = self.len().saturating_sub(1);
        self.get_lent(last)
    }

    fn lent_part(&mut self, range: Range<usize>) -> Lent<BitSliceMut<'_, T, O>>
        requires { HasRange range (seen_mut self.old).window.len }
        ensures* writes_back { sem 𝓛 (lends_bits T.row O.row self.entry range.start range.end (name_of (piece_of result))) }
        ensures lent { is_lent result ≡ true }
        ensures part { IsRangeOf T.BITS (seen_mut self.old) range.start range.end (seen_mut (piece_of result)) }
    {
        let piece = self.part_mut(range);
        Lent::new(piece, true)
    }

    fn lent_none(&mut self) -> Lent<BitSliceMut<'_, T, O>>
        ensures* writes_back { sem 𝓛 (lends_part T.row O.row self.entry 0 0 (name_of (piece_of result))) }
        ensures lent { is_lent result ≡ false }
    {
        let elements = self.elements_part_mut(0, 0);
        Lent::new(BitSliceMut::from_parts(elements, 0, 0), false)
    }
}
