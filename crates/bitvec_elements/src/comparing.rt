//! The bits of two windows of slices of elements, compared.
#![tactic(auto, using(crate::proofs::Directions::by_direction, crate::proofs::StoreLemmas::ranged))]

ghost use Rattle.std.specs.Prelude.{◌≡◌, ◌≤◌, map};
ghost use Rattle.std.specs.Cmp.Lexicographic.{slice_cmp};
ghost use Rattle.std.specs.Ordering.{bool_cmp};
ghost use Rattle.bitvec_base.specs.Lists.{same_bits};
ghost use Rattle.bitvec_base.specs.Memory.{HasWindow, list_in};
ghost use Rattle.bitvec_elements.specs.Difference.{DiffersFrom};

use crate::converting::eq_converted;
use crate::difference::{common_bits, common_words};
use crate::tuning::{COMPARE_TURN_BITS, SHORT_EQUAL_BITS};
use bitvec_base::{BitOrder, Window};
use bitvec_cells::{Shared, get_bit};
use bitvec_engine::SliceOrder;
use bitvec_few::{is_few, load_parts};
use bitvec_passes::elements_eq;
use bitvec_store::BitStore;
use bitvec_words::WordOrder;
use std::cmp::Ordering;

/// Whether two windows have the same bits. Where both have elements of one width and orders that run
/// the same way, they are compared by whole elements, as of one type; otherwise by blocks. So few bits as a word has are compared as
/// words. Condition: each memory has at most `MAX_BITS` bits, and each window lies in its memory.
#[inline(always)]
pub fn eq_in<T: BitStore, O: BitOrder, U: BitStore, P: BitOrder>(
    left: &[T],
    left_window: Window,
    right: &[U],
    right_window: Window,
) -> bool
    requires window { HasWindow T.BITS (map T.value left.now) left_window }
    requires right_window { HasWindow U.BITS (map U.value right.now) right_window }
    ensures { result ≡ same_bits (list_in T.BITS O.at (map T.value left.now) left_window)
        (list_in U.BITS P.at (map U.value right.now) right_window) }
{
    if left_window.len != right_window.len {
        return false;
    }
    if is_few(left_window.len) {
        return_by_directions!(O, T; P, U => eq_few::<_, T, U>(left, left_window, right, right_window));
    }
    eq_many::<T, O, U, P>(left, left_window, right, right_window)
}

/// [`eq_in`] of two windows of the same length. It stays out of line, so that few bits save no registers for it.
#[inline(never)]
fn eq_many<T: BitStore, O: BitOrder, U: BitStore, P: BitOrder>(
    left: &[T],
    left_window: Window,
    right: &[U],
    right_window: Window,
) -> bool
    requires window { HasWindow T.BITS (map T.value left.now) left_window }
    requires right_window { HasWindow U.BITS (map U.value right.now) right_window }
    requires lengths { left_window.len ≡ right_window.len }
    ensures { result ≡ same_bits (list_in T.BITS O.at (map T.value left.now) left_window)
        (list_in U.BITS P.at (map U.value right.now) right_window) }
{
    if !is_few(left_window.len) && T::BITS == U::BITS {
        return_by_directions!(O, T; P, T => eq_converted::<_, T, U>(left, left_window, right, right_window));
    }
    common_bits::<T, O, U, P>(left, left_window, right, right_window) == left_window.len
}

/// Whether two windows of elements of the same type and order have the same bits, as the order
/// compares them. Condition: as for [`eq_in`].
#[inline(always)]
pub fn eq_block_in<T: BitStore, O: SliceOrder>(
    left: &[T],
    left_window: Window,
    right: &[T],
    right_window: Window,
) -> bool
    requires window { HasWindow T.BITS (map T.value left.now) left_window }
    requires right_window { HasWindow T.BITS (map T.value right.now) right_window }
    ensures { result ≡ same_bits (list_in T.BITS O.at (map T.value left.now) left_window)
        (list_in T.BITS O.at (map T.value right.now) right_window) }
{
    if left_window.len != right_window.len {
        return false;
    }
    if is_few(left_window.len) {
        return_by_direction!(O, T => eq_few::<_, T, T>(left, left_window, right, right_window));
    }
    eq_blocks_in::<T, O>(left, left_window, right, right_window)
}

/// [`eq_block_in`] by elements at any length: prefer it where the length is not a compile-time
/// constant. Whole elements of a short window are compared in the caller. Condition: as for [`eq_in`].
#[inline(always)]
pub fn eq_blocks_in<T: BitStore, O: SliceOrder>(
    left: &[T],
    left_window: Window,
    right: &[T],
    right_window: Window,
) -> bool
    requires window { HasWindow T.BITS (map T.value left.now) left_window }
    requires right_window { HasWindow T.BITS (map T.value right.now) right_window }
    ensures { result ≡ same_bits (list_in T.BITS O.at (map T.value left.now) left_window)
        (list_in T.BITS O.at (map T.value right.now) right_window) }
{
    let has_edges = left_window.phase::<T>() == 0 && right_window.phase::<T>() == 0;
    let mut left = Shared::new(left);
    let mut right = Shared::new(right);
    let is_whole = left_window.len % T::BITS as usize == 0;
    if has_edges && is_whole && left_window.len < SHORT_EQUAL_BITS {
        return elements_eq::<O, Shared<T>, Shared<T>>(
            &mut left,
            left_window,
            &mut right,
            right_window,
        );
    }
    O::block_eq::<Shared<T>, Shared<T>>(&mut left, left_window, &mut right, right_window)
}

/// [`eq_in`] of two windows of the same length, at most 64 bits, as words.
#[inline(always)]
fn eq_few<W: WordOrder, T: BitStore, U: BitStore>(
    left: &[T],
    left_window: Window,
    right: &[U],
    right_window: Window,
) -> bool
    requires window { HasWindow T.BITS (map T.value left.now) left_window }
    requires right_window { HasWindow U.BITS (map U.value right.now) right_window }
    requires lengths { left_window.len ≡ right_window.len }
    requires bound { left_window.len ≤ 64 }
    ensures { result ≡ same_bits (list_in T.BITS W.at (map T.value left.now) left_window)
        (list_in U.BITS W.at (map U.value right.now) right_window) }
{
    let word = load_parts::<W, Shared<T>>(&mut Shared::new(left), left_window);
    word == load_parts::<W, Shared<U>>(&mut Shared::new(right), right_window)
}

/// How the bits of two windows compare, in the order of lists of truth values. Condition: as for
/// [`eq_in`].
pub fn compare_in<T: BitStore, O: BitOrder, U: BitStore, P: BitOrder>(
    left: &[T],
    left_window: Window,
    right: &[U],
    right_window: Window,
) -> Ordering
    requires window { HasWindow T.BITS (map T.value left.now) left_window }
    requires right_window { HasWindow U.BITS (map U.value right.now) right_window }
    ensures { result ≡ slice_cmp bool_cmp (list_in T.BITS O.at (map T.value left.now) left_window)
        (list_in U.BITS P.at (map U.value right.now) right_window) }
{
    let common = common_bits::<T, O, U, P>(left, left_window, right, right_window);
    compare_at::<T, O, U, P>(left, left_window, right, right_window, common)
}

/// [`compare_in`], where as many first bits as is said are the same.
fn compare_at<T: BitStore, O: BitOrder, U: BitStore, P: BitOrder>(
    left: &[T],
    left_window: Window,
    right: &[U],
    right_window: Window,
    common: usize,
) -> Ordering
    requires window { HasWindow T.BITS (map T.value left.now) left_window }
    requires right_window { HasWindow U.BITS (map U.value right.now) right_window }
    requires common { DiffersFrom (list_in T.BITS O.at (map T.value left.now) left_window)
        (list_in U.BITS P.at (map U.value right.now) right_window) common }
    ensures { result ≡ slice_cmp bool_cmp (list_in T.BITS O.at (map T.value left.now) left_window)
        (list_in U.BITS P.at (map U.value right.now) right_window) }
{
    if common < left_window.len.min(right_window.len) {
        let mut left = Shared::new(left);
        let mut right = Shared::new(right);
        let bit = get_bit::<O, Shared<T>>(&mut left, left_window, common);
        let other = get_bit::<P, Shared<U>>(&mut right, right_window, common);
        return bit.cmp(&other);
    }
    left_window.len.cmp(&right_window.len)
}

/// How the bits of two windows of elements of the same type and order compare, in the order of lists
/// of truth values. The order's own comparison passes equal stretches; from the first stretch that
/// differs it goes by words. Condition: as for [`eq_in`].
#[tactic(auto)]
pub fn compare_block_in<T: BitStore, O: SliceOrder>(
    left: &[T],
    left_window: Window,
    right: &[T],
    right_window: Window,
) -> Ordering
    requires window { HasWindow T.BITS (map T.value left.now) left_window }
    requires right_window { HasWindow T.BITS (map T.value right.now) right_window }
    ensures { result ≡ slice_cmp bool_cmp (list_in T.BITS O.at (map T.value left.now) left_window)
        (list_in T.BITS O.at (map T.value right.now) right_window) }
{
    let len = left_window.len.min(right_window.len);
    let mut from = 0;
    while from < len {
        let to = from + COMPARE_TURN_BITS.min(len - from);
        let part = left_window.range(from, to);
        let other = right_window.range(from, to);
        if !eq_blocks_in::<T, O>(left, part, right, other) {
            let rest = left_window.after(from);
            let other = right_window.after(from);
            let common = common_words::<T, O, T, O>(left, rest, right, other);
            return compare_at::<T, O, T, O>(left, rest, right, other, common);
        }
        from = to;
    }
    left_window.len.cmp(&right_window.len)
}
