//! What a caller knows of a view and of a walk once a bit or a piece was lent.
ghost use Rattle.std.specs.Prelude.{◌≡◌, ◌+◌, ◌-◌, ◌<◌, ◌≤◌, length};
ghost use Rattle.bitvec.specs.Cutting.{chunk_count};
ghost use Rattle.bitvec.specs.Kept.{KeepsOutside};
ghost use Rattle.bitvec.specs.Touched.{end_touched, first_touched};
ghost use Rattle.bitvec.specs.Views.{name_of, seen_mut};

use bitvec::prelude::*;

/// Sets one bit in its place: the view stays where it is, and so does each element but that of the bit.
pub fn set_in_place<T: BitStore, O: SliceOrder>(view: &mut BitSliceMut<'_, T, O>, index: usize)
    requires { index < (seen_mut view.old).window.len }
    ensures window { (seen_mut view.new).window ≡ (seen_mut view.old).window }
    ensures elements { let place = (seen_mut view.old).window.start + index in
        KeepsOutside (first_touched T.BITS place) (end_touched T.BITS (place + 1)) (seen_mut view.old).elements (seen_mut view.new).elements }
{
    let mut bit = view.bit_mut(index);
    bit.set(true);
}

/// Sets the bits before `mid` in place: the view stays where it is.
pub fn fill_left<T: BitStore, O: SliceOrder>(view: &mut BitSliceMut<'_, T, O>, mid: usize)
    requires { mid ≤ (seen_mut view.old).window.len }
    ensures window { (seen_mut view.new).window ≡ (seen_mut view.old).window }
    ensures length { length (seen_mut view.new).elements ≡ length (seen_mut view.old).elements }
    ensures name { name_of view.new ≡ name_of view.old }
{
    let mut halves = view.split_at_mut(mid);
    let mut left = halves.left_mut();
    left.fill(true);
}

/// Clears the first chunk, if there is one, and gives how many are left then.
pub fn clear_first<T: BitStore, O: SliceOrder>(
    view: &mut BitSliceMut<'_, T, O>,
    size: usize,
) -> usize
    requires { 0 < size }
    ensures left { result ≡ chunk_count size (seen_mut view.old).window.len - 1 }
    ensures window { (seen_mut view.new).window ≡ (seen_mut view.old).window }
{
    let mut chunks = view.chunks_mut(size);
    if chunks.is_empty() {
        return 0;
    }
    {
        let mut first = chunks.take_mut();
        first.fill(false);
    }
    chunks.len()
}

/// How many chunks are left, once `front` were passed from the front, and `back` from the back.
pub fn left_between<T: BitStore, O: SliceOrder>(
    view: &mut BitSliceMut<'_, T, O>,
    size: usize,
    front: usize,
    back: usize,
) -> usize
    requires { 0 < size }
    ensures { result ≡ chunk_count size (seen_mut view.old).window.len - front - back }
{
    let mut chunks = view.chunks_mut(size);
    chunks.pass(front);
    chunks.pass_back(back);
    chunks.len()
}

/// Flips the first chunk, where there is one: what is left is a walk still, which may be asked how many it has.
pub fn flip_first<T: BitStore, O: SliceOrder>(
    view: &mut BitSliceMut<'_, T, O>,
    size: usize,
) -> usize
    requires { 0 < size }
{
    let mut chunks = view.chunks_mut(size);
    if let Some(mut piece) = chunks.next_mut() {
        piece.invert();
    }
    chunks.len()
}

#[test]
fn a_bit_and_the_first_chunk_are_lent(rt: HostRuntime) {
    let mut elements = [0xFFu8, 0xF7];
    let mut view = BitSliceMut::<u8, Lsb0>::from_slice_mut(&mut elements);
    set_in_place(&mut view, 11);
    assert!(rt; clear_first(&mut view, 3) == 5);
    assert!(rt; elements == [0xF8, 0xFF]);
}
