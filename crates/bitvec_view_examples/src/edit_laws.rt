//! What a caller knows of a view whose bits were moved, exchanged, or edited there and back.
ghost use Rattle.std.specs.Prelude.{◌≡◌, ◌-◌, ◌*◌, ◌<◌, ◌≤◌, length, map, not, reverse, slice_set};
ghost use Rattle.std.specs.List.{swap};
ghost use Rattle.bitvec.specs.Lists.{copied_within, rotated_left, shifted_end, shifted_start};
ghost use Rattle.bitvec.specs.Memory.{memory_bits};
ghost use Rattle.bitvec.specs.Swaps.{swapped_within};
ghost use Rattle.bitvec.specs.Views.{seen_mut};
ghost use Rattle.bitvec.specs.Window.{max_bits};

use bitvec::prelude::*;

/// Moves each bit one place towards the start, and puts a new one at the end.
pub fn push_at_end<T: BitStore, O: SliceOrder>(view: &mut BitSliceMut<'_, T, O>, bit: bool)
    requires { 0 < (seen_mut view.old).window.len }
    ensures { (seen_mut view.new).bits
        ≡ slice_set (shifted_start 1 (seen_mut view.old).bits) ((seen_mut view.old).window.len - 1) bit }
{
    view.shift_start(1);
    view.set(view.len() - 1, bit);
}

/// Puts the bits in the opposite order, flips them, and rotates them so that the one at `by` comes first.
pub fn turn_and_flip<T: BitStore, O: SliceOrder>(view: &mut BitSliceMut<'_, T, O>, by: usize)
    requires { by ≤ (seen_mut view.old).window.len }
    ensures { (seen_mut view.new).bits ≡ rotated_left by (map not (reverse (seen_mut view.old).bits)) }
{
    view.reverse();
    view.invert();
    view.rotate_left(by);
}

/// Exchanges the first bit and the last.
pub fn swap_ends<T: BitStore, O: SliceOrder>(view: &mut BitSliceMut<'_, T, O>)
    requires { 0 < (seen_mut view.old).window.len }
    ensures { (seen_mut view.new).bits ≡ swap (seen_mut view.old).bits 0 ((seen_mut view.old).window.len - 1) }
{
    let last = view.len() - 1;
    view.swap(0, last);
}

/// Writes the first `width` bits once more, behind them.
pub fn double_front<T: BitStore, O: SliceOrder>(view: &mut BitSliceMut<'_, T, O>, width: usize)
    requires { 2 * width ≤ (seen_mut view.old).window.len }
    ensures { (seen_mut view.new).bits ≡ copied_within 0 width width (seen_mut view.old).bits }
{
    view.copy_within(0..width, width);
}

/// Exchanges the first `width` bits with the last ones.
pub fn swap_fields<T: BitStore, O: SliceOrder>(view: &mut BitSliceMut<'_, T, O>, width: usize)
    requires { 2 * width ≤ (seen_mut view.old).window.len }
    ensures { (seen_mut view.new).bits
        ≡ swapped_within 0 width ((seen_mut view.old).window.len - width) (seen_mut view.old).bits }
{
    view.swap_within(0..width, view.len() - width);
}

/// Exchanges the bits of two views of one type.
pub fn exchange<T: BitStore, O: SliceOrder>(
    view: &mut BitSliceMut<'_, T, O>,
    other: &mut BitSliceMut<'_, T, O>,
)
    requires { (seen_mut view.old).window.len ≡ (seen_mut other.old).window.len }
    ensures bits { (seen_mut view.new).bits ≡ (seen_mut other.old).bits }
    ensures other_bits { (seen_mut other.new).bits ≡ (seen_mut view.old).bits }
{
    view.swap_with_bitslice(other);
}

/// Rotates all bits of the elements to the left and back: they are as before.
pub fn rotated_back<T: BitStore, O: SliceOrder>(elements: &mut [T], by: usize) -> &mut [T]
    requires fits { T.BITS * length elements.old ≤ max_bits }
    requires bound { by ≤ T.BITS * length elements.old }
    ensures { memory_bits T.BITS O.at (map T.value result.now)
        ≡ memory_bits T.BITS O.at (map T.value elements.old) }
{
    let mut view = BitSliceMut::<T, O>::from_slice_mut(elements);
    view.rotate_left(by);
    view.rotate_right(by);
    view.into_slice()
}

/// Flips all bits of the elements twice, by the method and by the operator: they are as before.
pub fn inverted_twice<T: BitStore, O: SliceOrder>(elements: &mut [T]) -> &mut [T]
    requires { T.BITS * length elements.old ≤ max_bits }
    ensures { memory_bits T.BITS O.at (map T.value result.now)
        ≡ memory_bits T.BITS O.at (map T.value elements.old) }
{
    let mut view = BitSliceMut::<T, O>::from_slice_mut(elements);
    view.invert();
    let view = !view;
    view.into_slice()
}

/// Makes the bits of the elements 1 at even indices and 0 at odd ones.
pub fn filled_with_even<T: BitStore, O: SliceOrder>(elements: &mut [T])
    requires { T.BITS * length elements.old ≤ max_bits }
{
    let mut view = BitSliceMut::<T, O>::from_slice_mut(elements);
    view.fill_with(|index| index % 2 == 0);
}

/// Moves each bit one place towards the end, and puts a new one at the start.
pub fn push_at_start<T: BitStore, O: SliceOrder>(view: &mut BitSliceMut<'_, T, O>, bit: bool)
    requires { 0 < (seen_mut view.old).window.len }
    ensures { (seen_mut view.new).bits ≡ slice_set (shifted_end 1 (seen_mut view.old).bits) 0 bit }
{
    view.shift_end(1);
    view.set(0, bit);
}

/// Exchanges the bits of two views of any types.
pub fn exchange_bits<T: BitStore, O: SliceOrder, U: BitStore, P: BitOrder>(
    view: &mut BitSliceMut<'_, T, O>,
    other: &mut BitSliceMut<'_, U, P>,
)
    requires { (seen_mut view.old).window.len ≡ (seen_mut other.old).window.len }
    ensures bits { (seen_mut view.new).bits ≡ (seen_mut other.old).bits }
    ensures other_bits { (seen_mut other.new).bits ≡ (seen_mut view.old).bits }
{
    view.swap_with_bits(other);
}
