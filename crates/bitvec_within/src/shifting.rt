//! The bits of a window of a slice of elements shifted towards one of its ends.

ghost use Rattle.std.specs.Prelude.{◌≡◌, ◌%◌, ◌≤◌, ◌==◌, map};
ghost use Rattle.bitvec_base.specs.Lists.{shifted_end, shifted_start};
ghost use Rattle.bitvec_base.specs.Memory.{Edits, HasWindow};

use bitvec_base::Window;
use bitvec_cells::{Exclusive, Shared};
use bitvec_elements::{is_at_once, return_by_direction};
use bitvec_engine::{SliceOrder, shift_end, shift_start};
use bitvec_few::{load_parts, store_parts};
use bitvec_store::BitStore;
use bitvec_words::{WORD_BITS, WordOrder, moved};

/// Shifts the bits of a window towards its start, and zeros in at its end. Condition: the memory has at
/// most `MAX_BITS` bits, the window lies in it, and `by` is at most the window's length. Under an order that
/// runs from one end of an element to the other, at most an element's bits, and 64, are shifted as a word. So are the last
/// 64 of more where `by` is below 64 and the window ends with an element.
#[tactic(auto, using(bitvec_elements::proofs::Directions::by_direction))]
pub fn shift_start_in<T: BitStore, O: SliceOrder>(elements: &mut [T], window: Window, by: usize)
    requires window { HasWindow T.BITS (map T.value elements.old) window }
    requires bound { by ≤ window.len }
    ensures writes { Edits T.BITS O.at (map T.value elements.old) (map T.value elements.new) window (shifted_start by) }
{
    return_by_direction!(O, T => shift_start_run::<_, T>(elements, window, by));
    let mut accessor = Exclusive::new(elements);
    shift_start::<O, Exclusive<T>>(&mut accessor, window, by);
}

/// Shifts the bits of a window towards its end, and zeros in at its start. Condition: as for
/// [`shift_start_in`], as are the bits that are shifted as a word, but for the first 64 where the window begins
/// with an element.
#[tactic(auto, using(bitvec_elements::proofs::Directions::by_direction))]
pub fn shift_end_in<T: BitStore, O: SliceOrder>(elements: &mut [T], window: Window, by: usize)
    requires window { HasWindow T.BITS (map T.value elements.old) window }
    requires bound { by ≤ window.len }
    ensures writes { Edits T.BITS O.at (map T.value elements.old) (map T.value elements.new) window (shifted_end by) }
{
    return_by_direction!(O, T => shift_end_run::<_, T>(elements, window, by));
    let mut accessor = Exclusive::new(elements);
    shift_end::<O, Exclusive<T>>(&mut accessor, window, by);
}

/// Whether an element begins at a place of the memory.
fn is_edge<T: BitStore>(place: usize) -> bool
    ensures { result ≡ (place % T.BITS == 0) }
{
    place % T::BITS as usize == 0
}

/// [`shift_start_in`] under an order that runs from one end of an element to the other.
#[inline(always)]
fn shift_start_run<W: WordOrder + SliceOrder, T: BitStore>(
    elements: &mut [T],
    window: Window,
    by: usize,
)
    requires window { HasWindow T.BITS (map T.value elements.old) window }
    requires bound { by ≤ window.len }
    ensures writes { Edits T.BITS W.at (map T.value elements.old) (map T.value elements.new) window (shifted_start by) }
{
    if is_at_once::<T>(window.len) {
        return shift_start_few::<W, T>(elements, window, by);
    }
    let mut accessor = Exclusive::new(&mut *elements);
    if by < WORD_BITS && window.len > WORD_BITS && is_edge::<T>(window.start + window.len) {
        let rest = window.len - WORD_BITS;
        W::block_copy_within::<Exclusive<T>>(&mut accessor, window, by, by + rest, 0);
        return shift_start_few::<W, T>(elements, window.range(rest, window.len), by);
    }
    shift_start::<W, Exclusive<T>>(&mut accessor, window, by);
}

/// [`shift_end_in`] under an order that runs from one end of an element to the other.
#[inline(always)]
fn shift_end_run<W: WordOrder + SliceOrder, T: BitStore>(
    elements: &mut [T],
    window: Window,
    by: usize,
)
    requires window { HasWindow T.BITS (map T.value elements.old) window }
    requires bound { by ≤ window.len }
    ensures writes { Edits T.BITS W.at (map T.value elements.old) (map T.value elements.new) window (shifted_end by) }
{
    if is_at_once::<T>(window.len) {
        return shift_end_few::<W, T>(elements, window, by);
    }
    let mut accessor = Exclusive::new(&mut *elements);
    if by < WORD_BITS && window.len > WORD_BITS && is_edge::<T>(window.start) {
        let (from, to) = (WORD_BITS - by, window.len - by);
        W::block_copy_within::<Exclusive<T>>(&mut accessor, window, from, to, WORD_BITS);
        return shift_end_few::<W, T>(elements, window.range(0, WORD_BITS), by);
    }
    shift_end::<W, Exclusive<T>>(&mut accessor, window, by);
}

/// [`shift_start_in`] of few bits, as a word.
#[inline(always)]
fn shift_start_few<W: WordOrder, T: BitStore>(elements: &mut [T], window: Window, by: usize)
    requires window { HasWindow T.BITS (map T.value elements.old) window }
    requires bound { by ≤ window.len }
    requires few { window.len ≤ 64 }
    ensures writes { Edits T.BITS W.at (map T.value elements.old) (map T.value elements.new) window (shifted_start by) }
{
    let word = load_parts::<W, Shared<T>>(&mut Shared::new(&*elements), window);
    let shifted = moved::<W, u64, u64>(word, by, window.len - by, 0);
    store_parts::<W, Exclusive<T>>(&mut Exclusive::new(elements), window, shifted);
}

/// [`shift_end_in`] of few bits, as a word.
#[inline(always)]
fn shift_end_few<W: WordOrder, T: BitStore>(elements: &mut [T], window: Window, by: usize)
    requires window { HasWindow T.BITS (map T.value elements.old) window }
    requires bound { by ≤ window.len }
    requires few { window.len ≤ 64 }
    ensures writes { Edits T.BITS W.at (map T.value elements.old) (map T.value elements.new) window (shifted_end by) }
{
    let word = load_parts::<W, Shared<T>>(&mut Shared::new(&*elements), window);
    let shifted = moved::<W, u64, u64>(word, 0, window.len - by, by);
    store_parts::<W, Exclusive<T>>(&mut Exclusive::new(elements), window, shifted);
}
