//! How many of their first bits two windows of slices have in common.
#![tactic(auto, using(crate::proofs::Directions::by_direction, crate::proofs::StoreLemmas::ranged))]

ghost use Rattle.std.specs.Prelude.{◌≤◌, map};
ghost use Rattle.bitvec_base.specs.Memory.{HasWindow, list_in};
ghost use Rattle.bitvec_elements.specs.Difference.{DiffersFrom};

use crate::comparing::eq_blocks_in;
use crate::recutting::{hold, room_of};
use crate::tuning::NO_BLOCK_BITS;
use crate::window_words::window_word;
use bitvec_base::{BitOrder, Lsb0, Msb0, Window};
use bitvec_engine::{Direction, SliceOrder, direction_of};
use bitvec_store::BitStore;
use bitvec_words::{WORD_BITS, WordOrder};

/// How many of their first bits two windows have in common, up to the length of the shorter one.
/// Condition: each memory has at most `MAX_BITS` bits, and each window lies in its memory.
pub(crate) fn common_bits<T: BitStore, O: BitOrder, U: BitStore, P: BitOrder>(
    left: &[T],
    left_window: Window,
    right: &[U],
    right_window: Window,
) -> usize
    requires window { HasWindow T.BITS (map T.value left.now) left_window }
    requires right_window { HasWindow U.BITS (map U.value right.now) right_window }
    ensures { DiffersFrom (list_in T.BITS O.at (map T.value left.now) left_window)
        (list_in U.BITS P.at (map U.value right.now) right_window) result }
{
    if left_window.len.min(right_window.len) <= NO_BLOCK_BITS {
        return common_words::<T, O, U, P>(left, left_window, right, right_window);
    }
    return_by_direction!(O, T => common_run::<_, T, U, P>(left, left_window, right, right_window));
    common_words::<T, O, U, P>(left, left_window, right, right_window)
}

/// [`common_bits`] under an order that runs from one end of an element to the other. The right bits are recut to
/// blocks of the left type, and compared as these.
fn common_run<W: WordOrder + SliceOrder, T: BitStore, U: BitStore, P: BitOrder>(
    left: &[T],
    left_window: Window,
    right: &[U],
    right_window: Window,
) -> usize
    requires window { HasWindow T.BITS (map T.value left.now) left_window }
    requires right_window { HasWindow U.BITS (map U.value right.now) right_window }
    ensures { DiffersFrom (list_in T.BITS W.at (map T.value left.now) left_window)
        (list_in U.BITS P.at (map U.value right.now) right_window) result }
{
    with_room!(T, left_window.len => common_blocks::<W, T, U, P, _>(left, left_window, right, right_window))
}

/// [`common_run`] by blocks of `HELD` elements, and at first of fewer bits, since views often differ early.
/// From a block that differs it goes by words. Condition: `HELD` is from 1 to 8192.
#[tactic(auto)]
fn common_blocks<
    W: WordOrder + SliceOrder,
    T: BitStore,
    U: BitStore,
    P: BitOrder,
    const HELD: usize,
>(left: &[T], left_window: Window, right: &[U], right_window: Window) -> usize
    requires window { HasWindow T.BITS (map T.value left.now) left_window }
    requires right_window { HasWindow U.BITS (map U.value right.now) right_window }
    requires few { HELD ≤ 8192 }
    requires some { 1 ≤ HELD }
    ensures { DiffersFrom (list_in T.BITS W.at (map T.value left.now) left_window)
        (list_in U.BITS P.at (map U.value right.now) right_window) result }
{
    T::fits_in_memory();
    let mut block = [T::ZERO; HELD];
    let room = room_of::<T>(HELD);
    let most = left_window.len.min(right_window.len);
    let mut from = 0;
    while from < most {
        let to = from + room.min(from * 4 + WORD_BITS).min(most - from);
        let held = hold::<W, P, T, U>(&mut block, right, right_window.range(from, to));
        if !eq_blocks_in::<T, W>(left, left_window.range(from, to), &block, held) {
            let (rest, other) = (left_window.after(from), right_window.after(from));
            return from + common_words::<T, W, U, P>(left, rest, right, other);
        }
        from = to;
    }
    most
}

/// [`common_bits`], by words under every order.
pub(crate) fn common_words<T: BitStore, O: BitOrder, U: BitStore, P: BitOrder>(
    left: &[T],
    left_window: Window,
    right: &[U],
    right_window: Window,
) -> usize
    requires window { HasWindow T.BITS (map T.value left.now) left_window }
    requires right_window { HasWindow U.BITS (map U.value right.now) right_window }
    ensures { DiffersFrom (list_in T.BITS O.at (map T.value left.now) left_window)
        (list_in U.BITS P.at (map U.value right.now) right_window) result }
{
    match direction_of::<O, T>() {
        Direction::Down => {
            common_bits_by::<Msb0, T, O, U, P>(left, left_window, right, right_window)
        }
        _ => common_bits_by::<Lsb0, T, O, U, P>(left, left_window, right, right_window),
    }
}

/// [`common_words`], 64 bits at a time as words of the order `W`.
#[tactic(auto)]
fn common_bits_by<W: WordOrder, T: BitStore, O: BitOrder, U: BitStore, P: BitOrder>(
    left: &[T],
    left_window: Window,
    right: &[U],
    right_window: Window,
) -> usize
    requires window { HasWindow T.BITS (map T.value left.now) left_window }
    requires right_window { HasWindow U.BITS (map U.value right.now) right_window }
    ensures { DiffersFrom (list_in T.BITS O.at (map T.value left.now) left_window)
        (list_in U.BITS P.at (map U.value right.now) right_window) result }
{
    let (direction, right_direction) = (direction_of::<O, T>(), direction_of::<P, U>());
    let len = left_window.len.min(right_window.len);
    let mut from = 0;
    while from < len {
        let to = from + WORD_BITS.min(len - from);
        let part = left_window.range(from, to);
        let word = window_word::<W, O, T>(left, part, direction);
        let right_part = right_window.range(from, to);
        let right_word = window_word::<W, P, U>(right, right_part, right_direction);
        match W::first_one::<u64>(word ^ right_word) {
            Some(index) => return from + index,
            None => from = to,
        }
    }
    len
}
