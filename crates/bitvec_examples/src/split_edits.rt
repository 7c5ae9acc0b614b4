//! Edits of the pieces of a split by closures: what a caller knows of them.
ghost use Rattle.std.specs.Prelude.{◌≡◌, ℕ, ◌<◌, ◌⊎◌, List, false, map, not, slice_index_or, true};
ghost use Rattle.std.specs.declared.ops.Range.{Range};
ghost use Rattle.bitvec.specs.SplitCoversLaws.{IsInOne, SaysYes};
ghost use Rattle.bitvec.specs.SplitEdits.{GivesInTurn};
ghost use Rattle.bitvec.specs.SplitEditsLaws.{IsInNone, made};
ghost use Rattle.bitvec.specs.SplitLent.{MayGoOnIn, SplitNextIn, unsplit_in};
ghost use Rattle.bitvec.specs.Views.{seen_mut};
ghost use Rattle.bitvec.specs.Writes.{WritesBits};

use bitvec::prelude::*;

/// Makes the bits between the ones ones, piece by piece: no one becomes a zero.
pub fn fill_between_ones<T: BitStore, O: SliceOrder>(view: &mut BitSliceMut<'_, T, O>)
    ensures { (index : ℕ) → slice_index_or (seen_mut view.old).bits index false ≡ true → slice_index_or (seen_mut view.new).bits index false ≡ true }
{
    view.for_each_split_mut(|_index, bit| *bit, |_number, piece| piece.fill(true));
}

/// Flips the bits between those at which `pred` says yes, and no other: each bit is in one of the pieces, or `pred` said yes to it.
pub fn invert_between<T: BitStore, O: SliceOrder, P: FnMut(usize, &bool) -> bool>(
    view: &mut BitSliceMut<'_, T, O>,
    pred: P,
)
    requires { MayGoOnIn P.FnMut (unsplit_in false (seen_mut view.old) pred) }
    ensures { (pieces : List (Range ℕ)) × GivesInTurn (SplitNextIn P.FnMut false false) (unsplit_in false (seen_mut view.old) pred) pieces
        × WritesBits view.old view.new (made (λ _number bits. map not bits) (seen_mut view.old).bits 0 pieces (seen_mut view.old).bits)
        × ((index : ℕ) → IsInNone index pieces → slice_index_or (seen_mut view.new).bits index false ≡ slice_index_or (seen_mut view.old).bits index false)
        × ((index : ℕ) → index < (seen_mut view.old).window.len → IsInOne index pieces ⊎ SaysYes P.FnMut (slice_index_or (seen_mut view.old).bits index false)) }
{
    view.for_each_split_mut(pred, |_number, piece| piece.invert());
}

/// Whether a bit is the third of those that no piece has yet.
fn is_third(index: usize, _bit: &bool) -> bool {
    index == 2
}

/// Whether a bit is 1.
fn is_one(_index: usize, bit: &bool) -> bool {
    *bit
}

/// Edits the pieces of the bits 2 up to 14 of two bytes by each call.
fn edit_pieces(bytes: &mut [u8; 2]) {
    let mut view = BitSliceMut::<u8, Lsb0>::from_slice_mut(bytes).into_part(2..14);
    invert_between(&mut view, is_third);
    view.for_each_rsplit_mut(is_one, |number, piece| piece.fill(number == 1));
    view.for_each_split_inclusive_mut(is_one, |_number, piece| piece.invert());
    view.for_each_splitn_mut(2, is_one, |_number, piece| piece.invert());
    view.for_each_rsplitn_mut(2, is_one, |_number, piece| piece.invert());
}

#[test]
fn pieces_of_each_kind_of_split_are_edited(rt: HostRuntime) {
    let mut bytes = [0b0100_1001, 0b0001_0010];
    edit_pieces(&mut bytes);
    assert!(rt; bytes == [0b1101_0001, 0b0011_1000]);
}
