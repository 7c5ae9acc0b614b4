//! The bits of two windows of slices of elements, exchanged.
#![tactic(auto, using(crate::proofs::Directions::by_direction, crate::proofs::StoreLemmas::ranged))]

ghost use Rattle.std.specs.Prelude.{◌≡◌, ◌≤◌, map};
ghost use Rattle.bitvec_passes.specs.Pairs.{HasPair};
ghost use Rattle.bitvec_base.specs.Memory.{HasWindow, Writes, list_in};

use crate::copying::copy_from_in;
use crate::recutting::{hold, room_of};
use bitvec_base::{BitOrder, Window};
use bitvec_cells::Exclusive;
use bitvec_engine::SliceOrder;
use bitvec_passes::bits_swap;
use bitvec_store::BitStore;
use bitvec_words::WordOrder;

/// Exchanges the bits of two windows of elements of any types and orders. Condition: each memory
/// has at most `MAX_BITS` bits, each window lies in its memory, and both are equally long.
pub fn swap_with_in<T: BitStore, O: BitOrder, U: BitStore, P: BitOrder>(
    left: &mut [T],
    left_window: Window,
    right: &mut [U],
    right_window: Window,
)
    requires window { HasWindow T.BITS (map T.value left.old) left_window }
    requires right_window { HasWindow U.BITS (map U.value right.old) right_window }
    requires lengths { left_window.len ≡ right_window.len }
    ensures writes { Writes T.BITS O.at (map T.value left.old) (map T.value left.new) left_window
        (list_in U.BITS P.at (map U.value right.old) right_window) }
    ensures right_writes { Writes U.BITS P.at (map U.value right.old) (map U.value right.new) right_window
        (list_in T.BITS O.at (map T.value left.old) left_window) }
{
    return_by_direction!(O, T => swap_run::<_, T, U, P>(left, left_window, right, right_window));
    let mut cells = Exclusive::new(left);
    let mut others = Exclusive::new(right);
    bits_swap::<O, P, _, _>(&mut cells, left_window, &mut others, right_window);
}

/// [`swap_with_in`] where the left order runs from one end of an element to the other. The right bits are recut
/// to blocks of the left type, exchanged with these, and copied back.
fn swap_run<W: WordOrder + SliceOrder, T: BitStore, U: BitStore, P: BitOrder>(
    left: &mut [T],
    left_window: Window,
    right: &mut [U],
    right_window: Window,
)
    requires { HasPair T.BITS (map T.value left.old) left_window U.BITS (map U.value right.old) right_window }
    ensures writes { Writes T.BITS W.at (map T.value left.old) (map T.value left.new) left_window
        (list_in U.BITS P.at (map U.value right.old) right_window) }
    ensures right_writes { Writes U.BITS P.at (map U.value right.old) (map U.value right.new) right_window
        (list_in T.BITS W.at (map T.value left.old) left_window) }
{
    with_room!(T, left_window.len => swap_blocks::<W, T, U, P, _>(left, left_window, right, right_window))
}

/// [`swap_run`] by blocks of `HELD` elements. Conditions: as for [`swap_with_in`], and `HELD` is from 1 to 8192.
#[tactic(auto)]
fn swap_blocks<W: WordOrder + SliceOrder, T: BitStore, U: BitStore, P: BitOrder, const HELD: usize>(
    left: &mut [T],
    left_window: Window,
    right: &mut [U],
    right_window: Window,
)
    requires pair { HasPair T.BITS (map T.value left.old) left_window U.BITS (map U.value right.old) right_window }
    requires few { HELD ≤ 8192 }
    requires some { 1 ≤ HELD }
    ensures writes { Writes T.BITS W.at (map T.value left.old) (map T.value left.new) left_window
        (list_in U.BITS P.at (map U.value right.old) right_window) }
    ensures right_writes { Writes U.BITS P.at (map U.value right.old) (map U.value right.new) right_window
        (list_in T.BITS W.at (map T.value left.old) left_window) }
{
    T::fits_in_memory();
    let mut block = [T::ZERO; HELD];
    let room = room_of::<T>(HELD);
    let mut from = 0;
    while from < left_window.len {
        let to = from + room.min(left_window.len - from);
        let (part, other) = (left_window.range(from, to), right_window.range(from, to));
        let held = hold::<W, P, T, U>(&mut block, &*right, other);
        swap_with_block_in::<T, W>(left, part, &mut block, held);
        copy_from_in::<U, P, T, W>(right, other, &block, held);
        from = to;
    }
}

/// Exchanges the bits of two windows of elements of one type and order, as the order does it.
/// Condition: as for [`swap_with_in`].
pub fn swap_with_block_in<T: BitStore, O: SliceOrder>(
    left: &mut [T],
    left_window: Window,
    right: &mut [T],
    right_window: Window,
)
    requires window { HasWindow T.BITS (map T.value left.old) left_window }
    requires right_window { HasWindow T.BITS (map T.value right.old) right_window }
    requires lengths { left_window.len ≡ right_window.len }
    ensures writes { Writes T.BITS O.at (map T.value left.old) (map T.value left.new) left_window
        (list_in T.BITS O.at (map T.value right.old) right_window) }
    ensures right_writes { Writes T.BITS O.at (map T.value right.old) (map T.value right.new) right_window
        (list_in T.BITS O.at (map T.value left.old) left_window) }
{
    let mut left = Exclusive::new(left);
    let mut right = Exclusive::new(right);
    O::block_swap::<Exclusive<T>, Exclusive<T>>(&mut left, left_window, &mut right, right_window);
}
