//! Each bit of a window of a slice combined with the bit at its index in another window.
#![tactic(auto, using(crate::proofs::Directions::by_direction, crate::proofs::StoreLemmas::ranged))]

ghost use Rattle.std.specs.Prelude.{◌≤◌, map};
ghost use Rattle.bitvec_base.specs.Lists.{combined};
ghost use Rattle.bitvec_base.specs.Memory.{HasWindow, Writes, list_in};
ghost use Rattle.bitvec_words.specs.Operator.{operator};

use crate::converting::combine_converted;
use crate::recutting::{hold, room_of};
use bitvec_base::{BitOrder, Window};
use bitvec_cells::{Exclusive, Shared};
use bitvec_engine::SliceOrder;
use bitvec_few::is_few;
use bitvec_passes::bits_op;
use bitvec_store::BitStore;
use bitvec_words::{BitOp, WordOrder};

/// Replaces each bit of the left window by what the operator makes of it and the bit at its index in
/// the right window, which may have elements of any type and order. Past its end the right window
/// counts as 0. Condition: each memory has at most `MAX_BITS` bits, and each window lies in its
/// memory.
pub fn combine_in<T: BitStore, O: BitOrder, U: BitStore, P: BitOrder>(
    left: &mut [T],
    to: Window,
    right: &[U],
    from: Window,
    op: BitOp,
)
    requires window { HasWindow T.BITS (map T.value left.old) to }
    requires right_window { HasWindow U.BITS (map U.value right.now) from }
    ensures writes { Writes T.BITS O.at (map T.value left.old) (map T.value left.new) to
        (combined (operator op) (list_in T.BITS O.at (map T.value left.old) to)
        (list_in U.BITS P.at (map U.value right.now) from)) }
{
    if !is_few(to.len) && T::BITS == U::BITS {
        return_by_directions!(O, T; P, T => combine_converted::<_, T, U>(left, to, right, from, op));
    }
    return_by_direction!(O, T => combine_run::<_, T, U, P>(left, to, right, from, op));
    let mut cells = Exclusive::new(left);
    let mut source = Shared::new(right);
    bits_op::<O, P, _, _>(&mut cells, to, &mut source, from, op);
}

/// [`combine_in`] under an order that runs from one end of an element to the other. The right bits are recut to
/// blocks of the left type, and combined as these.
fn combine_run<W: WordOrder + SliceOrder, T: BitStore, U: BitStore, P: BitOrder>(
    left: &mut [T],
    to: Window,
    right: &[U],
    from: Window,
    op: BitOp,
)
    requires window { HasWindow T.BITS (map T.value left.old) to }
    requires right_window { HasWindow U.BITS (map U.value right.now) from }
    ensures writes { Writes T.BITS W.at (map T.value left.old) (map T.value left.new) to
        (combined (operator op) (list_in T.BITS W.at (map T.value left.old) to)
        (list_in U.BITS P.at (map U.value right.now) from)) }
{
    with_room!(T, to.len => combine_blocks::<W, T, U, P, _>(left, to, right, from, op))
}

/// [`combine_run`] by blocks of `HELD` elements. Conditions: as for [`combine_in`], and `HELD` is from 1 to 8192.
#[tactic(auto)]
fn combine_blocks<
    W: WordOrder + SliceOrder,
    T: BitStore,
    U: BitStore,
    P: BitOrder,
    const HELD: usize,
>(left: &mut [T], to: Window, right: &[U], from: Window, op: BitOp)
    requires window { HasWindow T.BITS (map T.value left.old) to }
    requires right_window { HasWindow U.BITS (map U.value right.now) from }
    requires few { HELD ≤ 8192 }
    requires some { 1 ≤ HELD }
    ensures writes { Writes T.BITS W.at (map T.value left.old) (map T.value left.new) to
        (combined (operator op) (list_in T.BITS W.at (map T.value left.old) to)
        (list_in U.BITS P.at (map U.value right.now) from)) }
{
    T::fits_in_memory();
    let mut block = [T::ZERO; HELD];
    let room = room_of::<T>(HELD);
    let right_len = from.len;
    let mut start = 0;
    while start < to.len {
        let end = start + room.min(to.len - start);
        let other = from.range(start.min(right_len), end.min(right_len));
        let held = hold::<W, P, T, U>(&mut block, right, other);
        combine_block_in::<T, W>(left, to.range(start, end), &block, held, op);
        start = end;
    }
}

/// Replaces each bit of the left window by what the operator makes of it and the bit at its index in
/// the right window, whose elements have the same type and order, as the order does it. Condition:
/// as for [`combine_in`].
#[inline(always)]
pub fn combine_block_in<T: BitStore, O: SliceOrder>(
    left: &mut [T],
    to: Window,
    right: &[T],
    from: Window,
    op: BitOp,
)
    requires window { HasWindow T.BITS (map T.value left.old) to }
    requires right_window { HasWindow T.BITS (map T.value right.now) from }
    ensures writes { Writes T.BITS O.at (map T.value left.old) (map T.value left.new) to
        (combined (operator op) (list_in T.BITS O.at (map T.value left.old) to)
        (list_in T.BITS O.at (map T.value right.now) from)) }
{
    let mut left = Exclusive::new(left);
    let mut right = Shared::new(right);
    O::block_op::<Exclusive<T>, Shared<T>>(&mut left, to, &mut right, from, op);
}
