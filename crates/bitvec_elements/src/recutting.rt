//! Bits of a slice as those of elements of another type and order: copied by whole words, and held in blocks.
#![tactic(auto, using(crate::proofs::Directions::by_direction, crate::proofs::StoreLemmas::ranged))]

ghost use Rattle.std.specs.Prelude.{◌≡◌, ◌+◌, ◌-◌, ◌*◌, ◌%◌, ◌<◌, ◌≤◌, length, map};
ghost use Rattle.bitvec_passes.specs.Pairs.{HasPair};
ghost use Rattle.bitvec_base.specs.Memory.{HasWindow, Writes, list_in};

use crate::copying::copy_words;
use crate::window_words::{reordered, word_behind};
use bitvec_base::{BitOrder, Window};
use bitvec_cells::Exclusive;
use bitvec_few::is_few;
use bitvec_store::BitStore;
use bitvec_words::{WORD_BITS, WordOrder, store_elements};

/// Copies a window's bits to a block, and gives the window of the block that has them. Conditions: the window
/// lies in a memory of at most `MAX_BITS` bits, and the block has at most 8192 elements and room for the bits.
#[tactic(auto)]
#[inline(always)]
pub(crate) fn hold<W: WordOrder, P: BitOrder, T: BitStore, U: BitStore>(
    block: &mut [T],
    right: &[U],
    window: Window,
) -> Window
    requires window { HasWindow U.BITS (map U.value right.now) window }
    requires few { length block.old ≤ 8192 }
    requires room { window.len ≤ T.BITS * length block.old }
    ensures window { HasWindow T.BITS (map T.value block.new) result }
    ensures lengths { result.len ≡ window.len }
    ensures bits { list_in T.BITS W.at (map T.value block.new) result ≡ list_in U.BITS P.at (map U.value right.now) window }
    ensures count { length block.new ≡ length block.old }
{
    let held = Window {
        start: 0,
        len: window.len,
    };
    recut::<W, P, T, U>(block, held, right, window);
    held
}

/// How many bits a block of so many elements has. Condition: they are from 1 to 8192.
#[inline(always)]
pub(crate) fn room_of<T: BitStore>(count: usize) -> usize
    requires some { 1 ≤ count }
    requires few { count ≤ 8192 }
    ensures value { result ≡ T.BITS * count }
    ensures some { 0 < result }
    ensures few { result ≤ 1048576 }
{
    T::BITS as usize * count
}

/// [`copy_words`], many bits by whole words. Condition: as for [`crate::copy_from_in`].
#[inline(always)]
pub(crate) fn recut<W: WordOrder, P: BitOrder, T: BitStore, U: BitStore>(
    left: &mut [T],
    to: Window,
    right: &[U],
    from: Window,
)
    requires { HasPair T.BITS (map T.value left.old) to U.BITS (map U.value right.now) from }
    ensures writes { Writes T.BITS W.at (map T.value left.old) (map T.value left.new) to
        (list_in U.BITS P.at (map U.value right.now) from) }
{
    let narrow = T::BITS as usize <= WORD_BITS && U::BITS as usize <= WORD_BITS;
    if narrow && !is_few(to.len) {
        return_by_direction!(P, U => recut_run::<_, W, T, U>(left, to, right, from));
    }
    copy_words::<W, T, U, P>(left, to, right, from);
}

/// [`recut`] where both orders run from one end of an element to the other. Conditions: as for [`recut`]; no element
/// is wider than a word, and the windows have as many bits.
#[tactic(auto)]
fn recut_run<V: WordOrder, W: WordOrder, T: BitStore, U: BitStore>(
    left: &mut [T],
    to: Window,
    right: &[U],
    from: Window,
)
    requires pair { HasPair T.BITS (map T.value left.old) to U.BITS (map U.value right.now) from }
    requires narrow { T.BITS ≤ 64 }
    requires right_narrow { U.BITS ≤ 64 }
    requires some { 64 ≤ to.len }
    ensures writes { Writes T.BITS W.at (map T.value left.old) (map T.value left.new) to
        (list_in U.BITS V.at (map U.value right.now) from) }
{
    let first = (WORD_BITS - to.start % WORD_BITS) % WORD_BITS;
    let last = to.len - (to.len - first) % WORD_BITS;
    copy_words::<W, T, U, V>(left, to.range(0, first), right, from.range(0, first));
    recut_words::<W, V, T, U>(left, to.range(first, last), right, from.range(first, last));
    let (place, source) = (to.range(last, to.len), from.range(last, to.len));
    copy_words::<W, T, U, V>(left, place, right, source);
}

/// [`recut_run`] of whole words of the left memory.
#[tactic(auto)]
#[inline(always)]
fn recut_words<W: WordOrder, V: WordOrder, T: BitStore, U: BitStore>(
    left: &mut [T],
    to: Window,
    right: &[U],
    from: Window,
)
    requires pair { HasPair T.BITS (map T.value left.old) to U.BITS (map U.value right.now) from }
    requires narrow { T.BITS ≤ 64 }
    requires right_narrow { U.BITS ≤ 64 }
    requires edge { to.start % 64 ≡ 0 }
    requires whole { to.len % 64 ≡ 0 }
    ensures writes { Writes T.BITS W.at (map T.value left.old) (map T.value left.new) to
        (list_in U.BITS V.at (map U.value right.now) from) }
{
    let (bits, others) = (T::BITS as usize, U::BITS as usize);
    let (first, source, skip) = (to.start / bits, from.start / others, from.start % others);
    let mut cells = Exclusive::new(left);
    for step in 0..to.len / WORD_BITS {
        let word = word_behind::<V, U>(right, source + step * (WORD_BITS / others), skip);
        let made = reordered::<V, W>(word);
        store_elements::<W, Exclusive<T>>(&mut cells, first + step * (WORD_BITS / bits), made);
    }
}
