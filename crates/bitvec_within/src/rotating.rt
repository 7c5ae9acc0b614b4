//! The bits of a window of a slice of elements rotated: by exchanges of blocks, down to few bits that are held aside.

ghost use Rattle.std.specs.Prelude.{◌≡◌, ◌*◌, ◌-◌, ◌≤◌, length, map, take};
ghost use Rattle.bitvec_base.specs.Lists.{rotated_left, rotated_right};
ghost use Rattle.bitvec_base.specs.Memory.{Edits, HasWindow, element_bits};
ghost use Rattle.bitvec_words.specs.ShortWindow.{padded};

use crate::copying_within::copy_within_in;
use crate::swapping_within::swap_ranges;
use bitvec_base::Window;
use bitvec_cells::{Exclusive, Shared};
use bitvec_elements::{copy_from_long_block_in, return_by_direction};
use bitvec_engine::SliceOrder;
use bitvec_few::{is_few, load_parts, store_parts};
use bitvec_store::BitStore;
use bitvec_words::{WordOrder, moved};

/// Rotates the bits of a window so that the bit at `by` comes first. Condition: the memory has at
/// most `MAX_BITS` bits, the window lies in it, and `by` is at most the window's length. At most 64 bits
/// are rotated as a word, under an order that runs from one end of an element to the other.
#[tactic(auto, using(bitvec_elements::proofs::Directions::by_direction))]
pub fn rotate_left_in<T: BitStore, O: SliceOrder>(elements: &mut [T], window: Window, by: usize)
    requires window { HasWindow T.BITS (map T.value elements.old) window }
    requires bound { by ≤ window.len }
    ensures writes { Edits T.BITS O.at (map T.value elements.old) (map T.value elements.new) window (rotated_left by) }
{
    if is_few(window.len) {
        return_by_direction!(O, T => rotate_few::<_, T>(elements, window, by));
    }
    rotate_many::<T, O>(elements, window, by);
}

/// Rotates the bits of a window so that the last `by` come first. Condition: as for
/// [`rotate_left_in`].
pub fn rotate_right_in<T: BitStore, O: SliceOrder>(elements: &mut [T], window: Window, by: usize)
    requires window { HasWindow T.BITS (map T.value elements.old) window }
    requires bound { by ≤ window.len }
    ensures writes { Edits T.BITS O.at (map T.value elements.old) (map T.value elements.new) window (rotated_right by) }
{
    rotate_left_in::<T, O>(elements, window, window.len - by);
}

/// [`rotate_left_in`] of at most 64 bits, as a word.
fn rotate_few<W: WordOrder, T: BitStore>(elements: &mut [T], window: Window, by: usize)
    requires window { HasWindow T.BITS (map T.value elements.old) window }
    requires bound { by ≤ window.len }
    requires few { window.len ≤ 64 }
    ensures writes { Edits T.BITS W.at (map T.value elements.old) (map T.value elements.new) window (rotated_left by) }
{
    let word = load_parts::<W, Shared<T>>(&mut Shared::new(&*elements), window);
    let rotated = rotated_word::<W>(word, window.len, by);
    store_parts::<W, Exclusive<T>>(&mut Exclusive::new(elements), window, rotated);
}

/// The word whose first `len` bits are those of `word` rotated so that the one at `by` comes first; the
/// others are 0. Condition: `by` is at most `len`, and that at most 64.
#[inline(always)]
fn rotated_word<W: WordOrder>(word: u64, len: usize, by: usize) -> u64
    requires order { by ≤ len }
    requires bound { len ≤ 64 }
    ensures { element_bits 64 W.at result ≡ padded 64 (rotated_left by (take len (element_bits 64 W.at word))) }
{
    let first = moved::<W, u64, u64>(word, by, len - by, 0);
    let last = moved::<W, u64, u64>(word, 0, by, len - by);
    first | last
}

/// [`rotate_left_in`] of any length. Blocks are exchanged until the rest can be held aside, in an array of 1,024
/// bits or more.
fn rotate_many<T: BitStore, O: SliceOrder>(elements: &mut [T], window: Window, by: usize)
    requires window { HasWindow T.BITS (map T.value elements.old) window }
    requires bound { by ≤ window.len }
    ensures writes { Edits T.BITS O.at (map T.value elements.old) (map T.value elements.new) window (rotated_left by) }
{
    if T::BITS <= 32 {
        rotate_aside::<T, O, 128>(elements, window, by);
    } else {
        rotate_aside::<T, O, 16>(elements, window, by);
    }
}

/// Rotates the bits of a window so that the bit at `by` comes first, with up to `HELD` elements held
/// aside. Conditions: as for [`rotate_left_in`], and `HELD` is at most 128.
fn rotate_aside<T: BitStore, O: SliceOrder, const HELD: usize>(
    elements: &mut [T],
    window: Window,
    by: usize,
)
    requires window { HasWindow T.BITS (map T.value elements.old) window }
    requires bound { by ≤ window.len }
    requires few { HELD ≤ 128 }
    ensures writes { Edits T.BITS O.at (map T.value elements.old) (map T.value elements.new) window (rotated_left by) }
{
    T::fits_in_memory();
    let mut held = [T::ZERO; HELD];
    rotate_blocks::<T, O>(elements, window, by, &mut held);
}

/// Rotates the bits of a window so that the bit at `by` comes first, with bits held aside in a memory of
/// at most 128 elements. Conditions: as for [`rotate_left_in`].
///
/// The shorter of the two sides is exchanged with as many bits of the other, which are then in
/// their place, until the shorter one can be held aside. It is not inlined: its loops
/// are slower among those of a caller.
#[inline(never)]
fn rotate_blocks<T: BitStore, O: SliceOrder>(
    elements: &mut [T],
    window: Window,
    by: usize,
    held: &mut [T],
)
    requires window { HasWindow T.BITS (map T.value elements.old) window }
    requires bound { by ≤ window.len }
    requires few { length held.old ≤ 128 }
    ensures writes { Edits T.BITS O.at (map T.value elements.old) (map T.value elements.new) window (rotated_left by) }
{
    let room = T::BITS as usize * held.len();
    // the bits up to `done` are in their place; of the others the one at `left` comes first
    let (mut done, mut left) = (0, by);
    let mut count = by.min(window.len - by);
    while count > room {
        swap_ranges::<T, O>(elements, window, done, done + left, count);
        done += count;
        if count < left {
            left -= count;
        }
        count = left.min(window.len - done - left);
    }
    let rest = window.after(done);
    if count == left {
        rotate_front::<T, O>(elements, rest, left, held);
    } else {
        rotate_back::<T, O>(elements, rest, left, held);
    }
}

/// Rotates the bits of a window so that the bit at `by` comes first, with those before it held
/// aside. Conditions: as for [`rotate_blocks`], and the memory beside holds these bits.
fn rotate_front<T: BitStore, O: SliceOrder>(
    elements: &mut [T],
    window: Window,
    by: usize,
    held: &mut [T],
)
    requires window { HasWindow T.BITS (map T.value elements.old) window }
    requires bound { by ≤ window.len }
    requires room { by ≤ T.BITS * length held.old }
    requires few { length held.old ≤ 128 }
    ensures writes { Edits T.BITS O.at (map T.value elements.old) (map T.value elements.new) window (rotated_left by) }
{
    if by == 0 {
        return;
    }
    let aside = Window { start: 0, len: by };
    copy_from_long_block_in::<T, O>(held, aside, &*elements, window.range(0, by));
    copy_within_in::<T, O>(elements, window, by..window.len, 0);
    let behind = window.range(window.len - by, window.len);
    copy_from_long_block_in::<T, O>(elements, behind, &*held, aside);
}

/// Rotates the bits of a window so that the bit at `by` comes first, with those from it on held
/// aside. Conditions: as for [`rotate_front`], of these bits.
fn rotate_back<T: BitStore, O: SliceOrder>(
    elements: &mut [T],
    window: Window,
    by: usize,
    held: &mut [T],
)
    requires window { HasWindow T.BITS (map T.value elements.old) window }
    requires bound { by ≤ window.len }
    requires room { window.len - by ≤ T.BITS * length held.old }
    requires few { length held.old ≤ 128 }
    ensures writes { Edits T.BITS O.at (map T.value elements.old) (map T.value elements.new) window (rotated_left by) }
{
    let rest = window.len - by;
    if rest == 0 {
        return;
    }
    let aside = Window {
        start: 0,
        len: rest,
    };
    copy_from_long_block_in::<T, O>(held, aside, &*elements, window.range(by, window.len));
    copy_within_in::<T, O>(elements, window, 0..by, rest);
    copy_from_long_block_in::<T, O>(elements, window.range(0, rest), &*held, aside);
}
