//! What a caller knows of a writable split once its pieces were found and lent.
ghost use Rattle.std.specs.Prelude.{◌≡◌, false};
ghost use Rattle.bitvec.specs.Kept.{KeepsOutside};
ghost use Rattle.bitvec.specs.SplitFoundLaws.{end_of_found, first_of_found};
ghost use Rattle.bitvec.specs.SplitLent.{MayGoOnIn, SplitNextIn, piece_if};
ghost use Rattle.bitvec.specs.SplitLentViews.{found_in, left_in};

use bitvec::prelude::*;
use bitvec::slice::SplitMut;

/// Clears the next piece, if there is one. What was asked, where the piece stands and what is left are
/// as the step says; the view stays where it is, and so does each element that the piece doesn't touch.
pub fn clear_next<T: BitStore, O: SliceOrder, P: FnMut(usize, &bool) -> bool>(
    pieces: &mut SplitMut<'_, T, O, P>,
) -> bool
    requires { MayGoOnIn P.FnMut (left_in pieces.old) }
    ensures step { SplitNextIn P.FnMut false false (left_in pieces.old) (piece_if result (found_in pieces.new)) (record (left_in pieces.new) { view = (left_in pieces.old).view }) }
    ensures window { (left_in pieces.new).view.window ≡ (left_in pieces.old).view.window }
    ensures elements { KeepsOutside (first_of_found pieces.new) (end_of_found pieces.new) (left_in pieces.old).view.elements (left_in pieces.new).view.elements }
{
    let found = pieces.advance();
    {
        let mut piece = pieces.piece_mut();
        if found {
            piece.fill(false);
        }
    }
    found
}
