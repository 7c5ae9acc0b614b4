//! What a caller knows of the answers that it got, by a set of laws a function.
ghost use Rattle.std.specs.Prelude.{◌≡◌, ◌≢◌, ℕ, ◌<◌, ◌≤◌, ◌↔◌, IfSome, IsTrue, None, false, true, slice_index_or};
ghost use Rattle.bitvec.specs.Counts.{ones_of, zeros_of};
ghost use Rattle.bitvec.specs.Views.{seen, seen_mut};

use bitvec::prelude::*;

/// Clears the last bit that is 1, and gives its index: every bit after it is 0.
#[tactic(auto, using(bitvec::specs::Laws::found))]
pub fn clear_last<T: BitStore, O: SliceOrder>(view: &mut BitSliceMut<'_, T, O>) -> Option<usize>
    ensures { IfSome result (λ index. (k : ℕ) → index < k → k < (seen_mut view.old).window.len
        → slice_index_or (seen_mut view.old).bits k false ≢ true) }
{
    let index = view.last_one()?;
    view.set(index, false);
    Some(index)
}

/// Writes a bit, and reads it and another.
#[tactic(auto, using(bitvec::specs::Laws::written))]
pub fn write_and_read<T: BitStore, O: SliceOrder>(
    view: &mut BitSliceMut<'_, T, O>,
    index: usize,
    other: usize,
    bit: bool,
) -> (bool, bool)
    requires bound { index < (seen_mut view.old).window.len }
    requires other { other < (seen_mut view.old).window.len }
    requires apart { other ≢ index }
    ensures written { result.0 ≡ bit }
    ensures kept { result.1 ≡ slice_index_or (seen_mut view.old).bits other false }
{
    view.set(index, bit);
    (view[index], view[other])
}

/// Flips all bits, and gives how many were 0.
#[tactic(auto, using(bitvec::specs::Laws::counted))]
pub fn flip_and_count<T: BitStore, O: SliceOrder>(view: &mut BitSliceMut<'_, T, O>) -> usize
    ensures { result ≡ zeros_of (seen_mut view.old).bits }
{
    view.invert();
    view.count_ones()
}

/// How many bits are 1, once they were moved.
#[tactic(auto, using(bitvec::specs::Laws::moved))]
pub fn move_and_count<T: BitStore, O: SliceOrder>(
    view: &mut BitSliceMut<'_, T, O>,
    by: usize,
) -> usize
    requires { by ≤ (seen_mut view.old).window.len }
    ensures { result ≡ ones_of (seen_mut view.old).bits }
{
    view.rotate_left(by);
    view.reverse();
    view.rotate_right(by);
    view.count_ones()
}

/// How many bits are 1, counted in two parts.
#[tactic(auto, using(bitvec::specs::Laws::parted))]
pub fn count_parts<T: BitStore, O: SliceOrder>(view: BitSlice<'_, T, O>, mid: usize) -> usize
    requires { mid ≤ (seen view).window.len }
    ensures { result ≡ ones_of (seen view.entry).bits }
{
    let _ones = view.count_ones();
    let (left, right) = view.split_at(mid);
    left.count_ones() + right.count_ones()
}

/// Fills the view with ones: all are 1, and no 0 is found.
#[tactic(auto, using(bitvec::specs::Laws::uniform))]
pub fn fill_and_ask<T: BitStore, O: SliceOrder>(
    view: &mut BitSliceMut<'_, T, O>,
) -> (usize, Option<usize>)
    ensures count { result.0 ≡ (seen_mut view.old).window.len }
    ensures first { result.1 ≡ None }
{
    view.fill(true);
    (view.count_ones(), view.first_zero())
}

/// Whether two views have the same bits, in any element types and orders.
#[tactic(auto, using(bitvec::specs::Laws::compared))]
pub fn same<T: BitStore, O: SliceOrder, U: BitStore, P: BitOrder>(
    view: BitSlice<'_, T, O>,
    other: BitSlice<'_, U, P>,
) -> bool
    ensures { IsTrue result ↔ ((seen view.entry).bits ≡ (seen other.entry).bits) }
{
    view.eq_bits(other)
}

/// Reverses, rotates and flips the view, and takes all of it back.
#[tactic(auto, using(bitvec::specs::Laws::undone))]
pub fn there_and_back<T: BitStore, O: SliceOrder>(view: &mut BitSliceMut<'_, T, O>, by: usize)
    requires { by ≤ (seen_mut view.old).window.len }
    ensures { (seen_mut view.new).bits ≡ (seen_mut view.old).bits }
{
    view.reverse();
    view.reverse();
    view.rotate_left(by);
    view.rotate_right(by);
    view.invert();
    view.invert();
}

#[test]
fn views_of_two_types_are_compared(rt: HostRuntime) {
    let mut elements = [0xFFu8, 0xFF];
    let view = BitSliceMut::<u8, Lsb0>::from_slice_mut(&mut elements);
    let words = [0xFFFFu16];
    let other = BitSlice::<u16, Msb0>::from_slice(&words);
    assert!(rt; same(view.as_ref(), other));
}
