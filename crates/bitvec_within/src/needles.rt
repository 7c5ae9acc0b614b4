//! Whether the bits of one window of a slice occur in those of another.
ghost use Rattle.std.specs.Prelude.{◌≡◌, ℕ, ◌+◌, ◌<◌, ◌≤◌, false, map, slice_index_or, true};
ghost use Rattle.bitvec_base.specs.Lists.{stands_at, stands_in};
ghost use Rattle.bitvec_base.specs.Memory.{HasWindow, element_bits, list_in};

use crate::candidates::candidates;
use bitvec_base::{BitOrder, Lsb0, Msb0, Window};
use bitvec_elements::{eq_in, word_from};
use bitvec_engine::{Direction, direction_of};
use bitvec_store::BitStore;
use bitvec_words::{WORD_BITS, WordOrder};

/// Whether the right window's bits occur in the left one's, from some index on. Words rule out most of
/// 64 indices at a time; at those that remain the bits are compared as by [`bitvec_elements::eq_in`], whose
/// condition this has too.
pub fn contains_in<T: BitStore, O: BitOrder, U: BitStore, P: BitOrder>(
    left: &[T],
    left_window: Window,
    right: &[U],
    right_window: Window,
) -> bool
    requires window { HasWindow T.BITS (map T.value left.now) left_window }
    requires right_window { HasWindow U.BITS (map U.value right.now) right_window }
    ensures { result ≡ stands_in (list_in U.BITS P.at (map U.value right.now) right_window)
        (list_in T.BITS O.at (map T.value left.now) left_window) }
{
    match direction_of::<O, T>() {
        Direction::Down => {
            contains_by::<Msb0, T, O, U, P>(left, left_window, right, right_window)
        }
        _ => contains_by::<Lsb0, T, O, U, P>(left, left_window, right, right_window),
    }
}

/// [`contains_in`], 64 indices at a time by words of the order `W`.
fn contains_by<W: WordOrder, T: BitStore, O: BitOrder, U: BitStore, P: BitOrder>(
    left: &[T],
    left_window: Window,
    right: &[U],
    right_window: Window,
) -> bool
    requires window { HasWindow T.BITS (map T.value left.now) left_window }
    requires right_window { HasWindow U.BITS (map U.value right.now) right_window }
    ensures { result ≡ stands_in (list_in U.BITS P.at (map U.value right.now) right_window)
        (list_in T.BITS O.at (map T.value left.now) left_window) }
{
    if right_window.len > left_window.len {
        return false;
    }
    let last = left_window.len - right_window.len;
    let direction = direction_of::<O, T>();
    let count = right_window.len.min(WORD_BITS);
    let needle = word_from::<W, P, U>(right, right_window, 0, direction_of::<P, U>());
    let mut low = word_from::<W, O, T>(left, left_window, 0, direction);
    let mut from = 0;
    while from <= last {
        let high = word_from::<W, O, T>(left, left_window, from + WORD_BITS, direction);
        let starts = candidates::<W>(low, high, needle, count);
        if starts != 0
            && stands_from::<W, T, O, U, P>(left, left_window, right, right_window, starts, from)
        {
            return true;
        }
        low = high;
        from += WORD_BITS;
    }
    false
}

/// Whether the right window's bits occur in the left one's from one of 64 indices on; `starts` has a
/// 1 for each index that comes into question. Condition: as for [`bitvec_elements::eq_in`], and the indices
/// begin in the left window.
fn stands_from<W: WordOrder, T: BitStore, O: BitOrder, U: BitStore, P: BitOrder>(
    left: &[T],
    left_window: Window,
    right: &[U],
    right_window: Window,
    starts: u64,
    from: usize,
) -> bool
    requires window { HasWindow T.BITS (map T.value left.now) left_window }
    requires right_window { HasWindow U.BITS (map U.value right.now) right_window }
    requires bound { from ≤ left_window.len }
    ensures found { result ≡ true → stands_in (list_in U.BITS P.at (map U.value right.now) right_window)
        (list_in T.BITS O.at (map T.value left.now) left_window) ≡ true }
    ensures absent { result ≡ false → (i : ℕ) → i < 64 → slice_index_or (element_bits 64 W.at starts) i false ≡ true
        → stands_at (list_in U.BITS P.at (map U.value right.now) right_window)
        (list_in T.BITS O.at (map T.value left.now) left_window) (from + i) ≡ false }
{
    for index in 0..WORD_BITS {
        if starts & W::select::<u64>(index) != 0
            && stands_at_in::<T, O, U, P>(left, left_window, right, right_window, from + index)
        {
            return true;
        }
    }
    false
}

/// Whether the right window's bits occur in the left one's from an index on. Condition: as for
/// [`bitvec_elements::eq_in`], and the index is at most 64 behind the left window's end.
fn stands_at_in<T: BitStore, O: BitOrder, U: BitStore, P: BitOrder>(
    left: &[T],
    left_window: Window,
    right: &[U],
    right_window: Window,
    start: usize,
) -> bool
    requires window { HasWindow T.BITS (map T.value left.now) left_window }
    requires right_window { HasWindow U.BITS (map U.value right.now) right_window }
    requires bound { start ≤ left_window.len + 64 }
    ensures { result ≡ stands_at (list_in U.BITS P.at (map U.value right.now) right_window)
        (list_in T.BITS O.at (map T.value left.now) left_window) start }
{
    let end = start + right_window.len;
    if end > left_window.len {
        return false;
    }
    let part = left_window.range(start, end);
    eq_in::<T, O, U, P>(left, part, right, right_window)
}
