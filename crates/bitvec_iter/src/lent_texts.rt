//! The texts of lenders.
ghost use Rattle.std.specs.Prelude.{◌++◌, ◌<◌, Some, codes, slice_range};
ghost use Rattle.std.specs.Fmt.{WritesOnOk, debug_variant};
ghost use Rattle.std.specs.List.{join_by};
ghost use Rattle.bitvec_domain.specs.Listing.{bits_text, comma, listed};
ghost use Rattle.bitvec_iter.specs.LentWalk.{lists_left};

use crate::{HalvesMut, IterMut, PiecesMut};
use bitvec_base::BitOrder;
use bitvec_cutting::Cutting;
use bitvec_domain::separator_before;
use bitvec_slice::{BitSlice, write_named};
use bitvec_store::BitStore;
use std::fmt;

/// The bits that are left, as `IterMut([0, 1, 0])`.
impl<'a, T: BitStore, O: BitOrder> fmt::Debug for IterMut<'a, T, O> {
    ghost use Rattle.bitvec_iter.specs.LentBits.{bit_walk_of, start_of};

    ghost debug_output = { λ it. debug_variant (codes "IterMut") (Some (bits_text (slice_range (bit_walk_of it).view.bits (start_of (bit_walk_of it)) (bit_walk_of it).back))) };

    fn fmt<W: fmt::Write>(&self, f: &mut fmt::Formatter<W>) -> fmt::Result {
        write_named("IterMut", self.as_bitslice(), f)
    }
}

/// The bits of both halves, as `HalvesMut([0, 1], [1, 0])`.
impl<'a, T: BitStore, O: BitOrder> fmt::Debug for HalvesMut<'a, T, O> {
    ghost use Rattle.bitvec_iter.specs.Halves.{mid_of, seen_halves};

    ghost debug_output = { λ halves. debug_variant (codes "HalvesMut") (Some (bits_text (slice_range (seen_halves halves).bits 0 (mid_of halves)) ++ (comma ++ bits_text (slice_range (seen_halves halves).bits (mid_of halves) (seen_halves halves).window.len)))) };

    fn fmt<W: fmt::Write>(&self, f: &mut fmt::Formatter<W>) -> fmt::Result {
        f.write_str("HalvesMut")?;
        f.write_str("(")?;
        self.write_halves(f)?;
        f.write_str(")")
    }
}

impl<'a, T: BitStore, O: BitOrder> HalvesMut<'a, T, O> {
    ghost use Rattle.bitvec_iter.specs.Halves.{mid_of, seen_halves};

    fn write_halves<W: fmt::Write>(&self, f: &mut fmt::Formatter<W>) -> fmt::Result
        ensures { WritesOnOk W.write_str_gives f.old result (bits_text (slice_range (seen_halves self.now).bits 0 (mid_of self.now)) ++ (comma ++ bits_text (slice_range (seen_halves self.now).bits (mid_of self.now) (seen_halves self.now).window.len))) f.new }
    {
        let view = BitSlice::<T, O>::from_parts(&*self.elements, self.head, self.len);
        fmt::Display::fmt(&view.into_part(0..self.mid), f)?;
        f.write_str(", ")?;
        fmt::Display::fmt(&view.into_part(self.mid..self.len), f)
    }
}

/// The pieces that are left, as `PiecesMut([[0, 1], [1]])`.
impl<'a, T: BitStore, O: BitOrder, C: Cutting> fmt::Debug for PiecesMut<'a, T, O, C> {
    ghost use Rattle.bitvec_iter.specs.LentPieces.{walk_of};

    ghost debug_output = { λ pieces. debug_variant (codes "PiecesMut") (Some (listed bits_text (lists_left C.place (walk_of pieces)))) };

    #[tactic(auto, unfolding(bitvec_domain::specs::Listing::listed))]
    fn fmt<W: fmt::Write>(&self, f: &mut fmt::Formatter<W>) -> fmt::Result {
        f.write_str("PiecesMut([")?;
        self.write_pieces(f)?;
        f.write_str("])")
    }
}

impl<'a, T: BitStore, O: BitOrder, C: Cutting> PiecesMut<'a, T, O, C> {
    ghost use Rattle.bitvec_iter.specs.LentPieces.{walk_of};

    fn write_pieces<W: fmt::Write>(&self, f: &mut fmt::Formatter<W>) -> fmt::Result
        ensures { WritesOnOk W.write_str_gives f.old result (join_by bits_text comma (lists_left C.place (walk_of self.now))) f.new }
    {
        let view = BitSlice::<T, O>::from_parts(&*self.elements, self.head, self.len);
        for index in 0..self.len() {
            f.write_str(separator_before(index))?;
            let places = self.cutting.piece(self.len, self.front + index);
            fmt::Display::fmt(&view.into_part(places.start..places.end), f)?;
        }
        Ok(())
    }
}
