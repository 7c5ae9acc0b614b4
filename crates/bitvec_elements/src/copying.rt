//! Bits copied from a window of one slice of elements to a window of another.
#![tactic(auto, using(crate::proofs::Directions::by_direction, crate::proofs::StoreLemmas::ranged))]

ghost use Rattle.std.specs.Prelude.{◌≡◌, ◌≤◌, map};
ghost use Rattle.bitvec_passes.specs.Pairs.{HasPair};
ghost use Rattle.bitvec_base.specs.Memory.{HasWindow, Writes, list_in};
ghost use Rattle.bitvec_base.specs.Spans.{HasSpan};
ghost use Rattle.bitvec_words.specs.Moves.{Copies};

use crate::converting::copy_converted;
use crate::copying_elements::{copy_elements_in, copy_whole_in};
use crate::recutting::recut;
use crate::tuning::COPY_AT_ONCE_BITS;
use crate::window_words::window_word;
use bitvec_base::{BitOrder, Window};
use bitvec_cells::{Exclusive, Shared};
use bitvec_engine::{SliceOrder, direction_of};
use bitvec_few::{is_few, load_parts, load_short, store_parts, store_short};
use bitvec_passes::bits_copy;
use bitvec_store::BitStore;
use bitvec_words::{WORD_BITS, WordOrder};

/// Copies the bits of the right window, which may have elements of any type and order, to the left
/// one. Condition: each memory has at most `MAX_BITS` bits, each window lies in its memory, and
/// both are equally long.
pub fn copy_from_in<T: BitStore, O: BitOrder, U: BitStore, P: BitOrder>(
    left: &mut [T],
    to: Window,
    right: &[U],
    from: Window,
)
    requires window { HasWindow T.BITS (map T.value left.old) to }
    requires right_window { HasWindow U.BITS (map U.value right.now) from }
    requires lengths { to.len ≡ from.len }
    ensures writes { Writes T.BITS O.at (map T.value left.old) (map T.value left.new) to
        (list_in U.BITS P.at (map U.value right.now) from) }
{
    if !is_few(to.len) && T::BITS == U::BITS {
        return_by_directions!(O, T; P, T => copy_converted::<_, T, U>(left, to, right, from));
    }
    return_by_direction!(O, T => recut::<_, P, T, U>(left, to, right, from));
    let mut cells = Exclusive::new(left);
    let mut source = Shared::new(right);
    bits_copy::<O, P, _, _>(&mut cells, to, &mut source, from);
}

/// [`copy_from_in`] under an order that runs from one end of an element to the other, up to 64 bits
/// at a time as a word.
#[tactic(auto)]
pub(crate) fn copy_words<W: WordOrder, T: BitStore, U: BitStore, P: BitOrder>(
    left: &mut [T],
    to: Window,
    right: &[U],
    from: Window,
)
    requires { HasPair T.BITS (map T.value left.old) to U.BITS (map U.value right.now) from }
    ensures writes { Writes T.BITS W.at (map T.value left.old) (map T.value left.new) to
        (list_in U.BITS P.at (map U.value right.now) from) }
{
    let direction = direction_of::<P, U>();
    let mut cells = Exclusive::new(left);
    let mut start = 0;
    while start < to.len {
        let end = start + WORD_BITS.min(to.len - start);
        let word = window_word::<W, P, U>(right, from.range(start, end), direction);
        store_parts::<W, Exclusive<T>>(&mut cells, to.range(start, end), word);
        start = end;
    }
}

/// Copies the bits of the right window, whose elements have the same type and order, to the left
/// one as the order does it. Condition: as for [`copy_from_in`].
#[inline(always)]
pub fn copy_from_block_in<T: BitStore, O: SliceOrder>(
    left: &mut [T],
    to: Window,
    right: &[T],
    from: Window,
)
    requires window { HasWindow T.BITS (map T.value left.old) to }
    requires right_window { HasWindow T.BITS (map T.value right.now) from }
    requires lengths { to.len ≡ from.len }
    ensures writes { Writes T.BITS O.at (map T.value left.old) (map T.value left.new) to
        (list_in T.BITS O.at (map T.value right.now) from) }
{
    if is_few(to.len) {
        return_by_direction!(O, T => copy_few::<_, T>(left, to, right, from));
    }
    copy_from_long_block_in::<T, O>(left, to, right, from);
}

/// [`copy_from_block_in`] with no test for few bits: prefer it where the length is not a compile-time
/// constant. Whole elements are copied at once. Condition: as for [`copy_from_in`].
#[tactic(auto)]
#[inline(always)]
pub fn copy_from_long_block_in<T: BitStore, O: SliceOrder>(
    left: &mut [T],
    to: Window,
    right: &[T],
    from: Window,
)
    requires window { HasWindow T.BITS (map T.value left.old) to }
    requires right_window { HasWindow T.BITS (map T.value right.now) from }
    requires lengths { to.len ≡ from.len }
    ensures writes { Writes T.BITS O.at (map T.value left.old) (map T.value left.new) to
        (list_in T.BITS O.at (map T.value right.now) from) }
{
    let has_edges = to.phase::<T>() == 0 && from.phase::<T>() == 0;
    if has_edges && to.len % T::BITS as usize == 0 {
        copy_whole_in::<T, O>(left, to, right, from);
        return;
    }
    copy_parted_in::<T, O>(left, to, right, from);
}

/// Copies a window. Many bits that begin at the same index of an element are copied as whole elements at once,
/// all others by the order's block function. Condition: as for [`copy_from_in`].
#[tactic(auto)]
fn copy_parted_in<T: BitStore, O: SliceOrder>(left: &mut [T], to: Window, right: &[T], from: Window)
    requires { HasSpan T.BITS (map T.value left.old) (map T.value right.now) to from }
    ensures { Copies T.BITS O.at (map T.value left.old) (map T.value left.new) to (map T.value right.now) from }
{
    if to.len >= COPY_AT_ONCE_BITS && to.phase::<T>() == from.phase::<T>() {
        copy_elements_in::<T, O>(left, to, right, from);
        return;
    }
    let mut left = Exclusive::new(left);
    let mut right = Shared::new(right);
    O::block_copy::<Exclusive<T>, Shared<T>>(&mut left, to, &mut right, from);
}

/// [`copy_from_block_in`] of windows of at most 64 bits, as an element or a word.
#[inline(always)]
fn copy_few<W: WordOrder, T: BitStore>(left: &mut [T], to: Window, right: &[T], from: Window)
    requires span { HasSpan T.BITS (map T.value left.old) (map T.value right.now) to from }
    requires bound { to.len ≤ 64 }
    ensures writes { Writes T.BITS W.at (map T.value left.old) (map T.value left.new) to
        (list_in T.BITS W.at (map T.value right.now) from) }
{
    let mut cells = Exclusive::new(left);
    let mut source = Shared::new(right);
    if to.len <= T::BITS as usize {
        let element = load_short::<W, Shared<T>>(&mut source, from);
        store_short::<W, Exclusive<T>>(&mut cells, to, element);
        return;
    }
    let word = load_parts::<W, Shared<T>>(&mut source, from);
    store_parts::<W, Exclusive<T>>(&mut cells, to, word);
}
