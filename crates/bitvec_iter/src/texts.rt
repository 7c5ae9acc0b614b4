//! The texts of walks over pieces.
ghost use Rattle.std.specs.Prelude.{Some, codes};
ghost use Rattle.std.specs.Fmt.{WritesOnOk, debug_variant};
ghost use Rattle.std.specs.List.{join_by};
ghost use Rattle.bitvec_domain.specs.Listing.{bits_text, comma, listed};

use crate::Pieces;
use bitvec_base::BitOrder;
use bitvec_cutting::Cutting;
use bitvec_domain::separator_before;
use bitvec_store::BitStore;
use std::fmt;

/// The pieces that are still to come, as `Pieces([[0, 1], [1]])`.
impl<'a, T: BitStore, O: BitOrder, C: Cutting> fmt::Debug for Pieces<'a, T, O, C> {
    ghost use Rattle.bitvec_iter.specs.Left.{pieces_left};

    ghost debug_output = { λ it. debug_variant (codes "Pieces") (Some (listed (λ piece. bits_text piece.bits) (pieces_left it))) };

    #[tactic(auto, unfolding(bitvec_domain::specs::Listing::listed))]
    fn fmt<W: fmt::Write>(&self, f: &mut fmt::Formatter<W>) -> fmt::Result {
        f.write_str("Pieces([")?;
        self.write_pieces(f)?;
        f.write_str("])")
    }
}

impl<'a, T: BitStore, O: BitOrder, C: Cutting> Pieces<'a, T, O, C> {
    ghost use Rattle.bitvec_iter.specs.Left.{pieces_left};

    #[tactic(auto, using(crate::proofs::LeftLaws::stepping))]
    fn write_pieces<W: fmt::Write>(&self, f: &mut fmt::Formatter<W>) -> fmt::Result
        ensures { WritesOnOk W.write_str_gives f.old result (join_by (λ piece. bits_text piece.bits) comma (pieces_left self.now)) f.new }
    {
        for index in 0..self.numbers.len() {
            f.write_str(separator_before(index))?;
            fmt::Display::fmt(&self.piece(self.numbers.start + index), f)?;
        }
        Ok(())
    }
}
