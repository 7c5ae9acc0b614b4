//! Two ranges of a window's bits, exchanged.
ghost use Rattle.std.specs.Prelude.{◌+◌, ◌*◌, ◌%◌, ◌≤◌, map};
ghost use Rattle.bitvec_base.specs.Lists.{FitsWithin};
ghost use Rattle.bitvec_base.specs.Memory.{Edits, HasWindow};
ghost use Rattle.bitvec_within.specs.Swaps.{LieApart, swapped_within};

use crate::copying_within::copy_within_in;
use bitvec_base::Window;
use bitvec_elements::{copy_from_long_block_in, swap_with_block_in};
use bitvec_engine::SliceOrder;
use bitvec_store::BitStore;
use std::ops::Range;

/// Exchanges the bits of a range of a window with as many from `dest` on. Conditions: the memory has at
/// most `MAX_BITS` bits, the window lies in it, and both ranges lie in the window, and apart.
///
/// Ranges that lie apart share one element at most. What they have in other elements is exchanged by the
/// order's block function, as for two memories, and then the bits of the shared one, held aside.
pub fn swap_within_in<T: BitStore, O: SliceOrder>(
    elements: &mut [T],
    window: Window,
    src: Range<usize>,
    dest: usize,
)
    requires window { HasWindow T.BITS (map T.value elements.old) window }
    requires fits { FitsWithin src.start src.end dest window.len }
    requires apart { LieApart src.start src.end dest }
    ensures writes { Edits T.BITS O.at (map T.value elements.old) (map T.value elements.new) window (swapped_within src.start src.end dest) }
{
    let len = src.end - src.start;
    if src.end <= dest {
        swap_ranges::<T, O>(elements, window, src.start, dest, len);
    } else {
        swap_ranges::<T, O>(elements, window, dest, src.start, len);
    }
}

/// Exchanges `len` bits of a window from `first` on with as many from `second` on. Conditions: as for
/// [`swap_within_in`]; and the second ones stand behind the first ones.
pub(crate) fn swap_ranges<T: BitStore, O: SliceOrder>(
    elements: &mut [T],
    window: Window,
    first: usize,
    second: usize,
    len: usize,
)
    requires window { HasWindow T.BITS (map T.value elements.old) window }
    requires order { first + len ≤ second }
    requires bound { second + len ≤ window.len }
    ensures writes { Edits T.BITS O.at (map T.value elements.old) (map T.value elements.new) window (swapped_within first (first + len) second) }
{
    let place = window.start + second;
    let edge = place - place % (T::BITS as usize);
    let before = edge.saturating_sub(window.start + first).min(len);
    if before == 0 {
        return swap_few::<T, O>(elements, window, first, second, len);
    }
    swap_sides::<T, O>(elements, window, first, second, before);
    swap_few::<T, O>(
        elements,
        window,
        first + before,
        second + before,
        len - before,
    );
}

/// Exchanges `len` bits of a window from `first` on with as many from `second` on. Conditions: as for
/// [`swap_ranges`]; and the first ones end where the element of the bit at `second` begins, or before.
fn swap_sides<T: BitStore, O: SliceOrder>(
    elements: &mut [T],
    window: Window,
    first: usize,
    second: usize,
    len: usize,
)
    requires window { HasWindow T.BITS (map T.value elements.old) window }
    requires edge { window.start + first + len + (window.start + second) % T.BITS ≤ window.start + second }
    requires bound { second + len ≤ window.len }
    ensures writes { Edits T.BITS O.at (map T.value elements.old) (map T.value elements.new) window (swapped_within first (first + len) second) }
{
    let bits = T::BITS as usize;
    let place = window.start + second;
    let near = window.range(first, first + len);
    let start = place % bits;
    let far = Window { start, len };
    let (front, rest) = elements.split_at_mut(place / bits);
    swap_with_block_in::<T, O>(front, near, rest, far);
}

/// Exchanges `count` bits of a window from `first` on with as many from `second` on, by copies: the first
/// ones are held aside. Conditions: as for [`swap_within_in`]; and `count` is at most the bits of an
/// element.
#[tactic(auto, using(bitvec_elements::proofs::StoreLemmas::ranged))]
fn swap_few<T: BitStore, O: SliceOrder>(
    elements: &mut [T],
    window: Window,
    first: usize,
    second: usize,
    count: usize,
)
    requires window { HasWindow T.BITS (map T.value elements.old) window }
    requires first { first + count ≤ window.len }
    requires second { second + count ≤ window.len }
    requires bound { count ≤ T.BITS }
    ensures writes { Edits T.BITS O.at (map T.value elements.old) (map T.value elements.new) window (swapped_within first (first + count) second) }
{
    T::fits_in_memory();
    let mut held = [T::ZERO];
    let aside = Window {
        start: 0,
        len: count,
    };
    let near = window.range(first, first + count);
    copy_from_long_block_in::<T, O>(&mut held, aside, &*elements, near);
    copy_within_in::<T, O>(elements, window, second..second + count, first);
    copy_from_long_block_in::<T, O>(elements, window.range(second, second + count), &held, aside);
}
