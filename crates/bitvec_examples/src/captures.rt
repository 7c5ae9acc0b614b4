//! Closures over chunks that captured something: what a caller knows of each chunk.
ghost use Rattle.std.specs.Prelude.{◌≡◌, ℕ, ◌==◌, ◌%◌, ◌<◌, replicate};
ghost use Rattle.bitvec.specs.Views.{seen, seen_mut};
ghost use Rattle.bitvec.specs.Operators.{or_of};
ghost use Rattle.bitvec.specs.Cutting.{cut, whole_chunk, whole_count};

use bitvec::prelude::*;

/// Makes each bit of each whole chunk of `size` bits `bit`.
pub fn fill_chunks<T: BitStore, O: SliceOrder>(
    view: &mut BitSliceMut<'_, T, O>,
    size: usize,
    bit: bool,
)
    requires { 0 < size }
    ensures { (k : ℕ) → k < whole_count size (seen_mut view.old).window.len
        → cut (seen_mut view.new).bits (whole_chunk size (seen_mut view.old).window.len k) ≡ replicate size bit }
{
    view.for_each_chunk_exact_mut(size, move |_index, chunk| chunk.fill(bit));
}

/// Sets in each whole chunk of `size` bits those that are 1 in `mask`.
pub fn or_chunks<T: BitStore, O: SliceOrder, U: BitStore, P: BitOrder>(
    view: &mut BitSliceMut<'_, T, O>,
    size: usize,
    mask: BitSlice<'_, U, P>,
)
    requires { 0 < size }
    ensures { (k : ℕ) → k < whole_count size (seen_mut view.old).window.len
        → cut (seen_mut view.new).bits (whole_chunk size (seen_mut view.old).window.len k)
        ≡ or_of (cut (seen_mut view.old).bits (whole_chunk size (seen_mut view.old).window.len k)) (seen mask.entry).bits }
{
    view.for_each_chunk_exact_mut(size, move |_index, chunk| chunk.or_bits(mask));
}

/// Fills every other whole chunk of `size` bits with ones, from the first one on, and the others with zeros, by a count
/// of its own, modulo 2.
pub fn fill_in_turn(view: &mut BitSliceMut<'_, u8, Lsb0>, size: usize)
    requires { 0 < size }
    ensures { (k : ℕ) → k < whole_count size (seen_mut view.old).window.len
        → cut (seen_mut view.new).bits (whole_chunk size (seen_mut view.old).window.len k) ≡ replicate size (k % 2 == 0) }
{
    let mut calls = 0usize;
    view.for_each_chunk_exact_mut(size, move |_index, chunk| {
        chunk.fill(calls == 0);
        calls = if calls == 0 { 1 } else { 0 };
    });
}

/// Edits two bytes by all of these, one after the other.
fn edit_by_captures(bytes: &mut [u8; 2]) {
    let mask = [0b0110u8];
    let mut view = BitSliceMut::<u8, Lsb0>::from_slice_mut(bytes);
    fill_chunks(&mut view, 16, true);
    fill_in_turn(&mut view, 7);
    or_chunks(&mut view, 8, BitSlice::<u8, Lsb0>::from_slice(&mask));
}

#[test]
fn chunks_by_captures(rt: HostRuntime) {
    let mut bytes = [0u8, 0];
    edit_by_captures(&mut bytes);
    assert!(rt; bytes == [0x7F, 0xC6]);
}
