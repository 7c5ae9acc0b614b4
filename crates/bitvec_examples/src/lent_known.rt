//! What a caller knows of a view and of a walk once a piece was lent, if there was one.
ghost use Rattle.std.specs.Prelude.{◌≡◌, ◌+◌, ◌<◌, ◌≤◌, length};
ghost use Rattle.bitvec.specs.Cutting.{chunk_count};
ghost use Rattle.bitvec.specs.Kept.{KeepsOutside};
ghost use Rattle.bitvec.specs.LentPieces.{name_of_pieces, walk_of};
ghost use Rattle.bitvec.specs.Touched.{end_touched, first_touched};
ghost use Rattle.bitvec.specs.Views.{seen_mut};
ghost use Rattle.bitvec.specs.Writes.{WritesBits};

use bitvec::prelude::*;
use bitvec::slice::ChunksMut;

/// Makes all bits of a piece ones.
fn paint<T: BitStore, O: SliceOrder>(piece: &mut BitSliceMut<'_, T, O>)
    ensures { (seen_mut piece.new).window ≡ (seen_mut piece.old).window }
{
    piece.fill(true);
}

/// Sets the bit at an index, if the view has it: the view stays where it is, and so does each element but that of the bit.
/// Else the view has the bits that it had.
pub fn set_if<T: BitStore, O: SliceOrder>(view: &mut BitSliceMut<'_, T, O>, index: usize)
    ensures window { (seen_mut view.new).window ≡ (seen_mut view.old).window }
    ensures none { (seen_mut view.old).window.len ≤ index → (seen_mut view.new).elements ≡ (seen_mut view.old).elements }
    ensures bits { (seen_mut view.old).window.len ≤ index → WritesBits view.old view.new (seen_mut view.old).bits }
    ensures elements { index < (seen_mut view.old).window.len → let place = (seen_mut view.old).window.start + index in
        KeepsOutside (first_touched T.BITS place) (end_touched T.BITS (place + 1)) (seen_mut view.old).elements (seen_mut view.new).elements }
{
    if let Some(mut bit) = view.get_lent(index).some() {
        paint(&mut bit);
    }
}

/// Fills chunks up to the first that has a one: the walk stays over the view that it was made of, and over its last chunks.
pub fn fill_until_one<T: BitStore, O: SliceOrder>(chunks: &mut ChunksMut<'_, T, O>)
    ensures back { (walk_of chunks.new).back ≡ (walk_of chunks.old).back }
    ensures window { (walk_of chunks.new).view.window ≡ (walk_of chunks.old).view.window }
    ensures name { name_of_pieces chunks.new ≡ name_of_pieces chunks.old }
{
    while let Some(mut piece) = chunks.next_lent().some() {
        if piece.any() {
            break;
        }
        paint(&mut piece);
    }
}

/// So it does with the chunks of a view, and gives how many are left.
pub fn fill_chunks<T: BitStore, O: SliceOrder>(
    view: &mut BitSliceMut<'_, T, O>,
    size: usize,
) -> usize
    requires { 0 < size }
    ensures left { result ≤ chunk_count size (seen_mut view.old).window.len }
    ensures window { (seen_mut view.new).window ≡ (seen_mut view.old).window }
{
    let mut chunks = view.chunks_mut(size);
    fill_until_one(&mut chunks);
    chunks.len()
}

/// Sets all bits but the first, if there is one: the view stays where it is.
pub fn set_behind_first<T: BitStore, O: SliceOrder>(view: &mut BitSliceMut<'_, T, O>)
    ensures window { (seen_mut view.new).window ≡ (seen_mut view.old).window }
    ensures length { length (seen_mut view.new).elements ≡ length (seen_mut view.old).elements }
{
    if let Some(mut halves) = view.split_first_lent().some() {
        let mut others = halves.right_mut();
        others.fill(true);
    }
}

/// Clears the last bit, if there is one: the view stays where it is.
pub fn clear_last_bit<T: BitStore, O: SliceOrder>(view: &mut BitSliceMut<'_, T, O>)
    ensures window { (seen_mut view.new).window ≡ (seen_mut view.old).window }
{
    if let Some(mut halves) = view.split_last_lent().some() {
        let mut last = halves.right_mut();
        last.fill(false);
    }
}

/// Edits two bytes by all of these, and gives how many chunks were left.
fn edit_by_lends(bytes: &mut [u8; 2]) -> usize {
    let mut view = BitSliceMut::<u8, Lsb0>::from_slice_mut(bytes).into_part(2..16);
    set_if(&mut view, 8);
    set_if(&mut view, 14);
    let left = fill_chunks(&mut view, 3);
    let mut last = view.into_part(10..14);
    set_behind_first(&mut last);
    clear_last_bit(&mut last);
    left
}

#[test]
fn lent_pieces_are_edited(rt: HostRuntime) {
    let mut bytes = [0u8, 0];
    assert!(rt; edit_by_lends(&mut bytes) == 2);
    assert!(rt; bytes == [0xFC, 0x64]);
}
