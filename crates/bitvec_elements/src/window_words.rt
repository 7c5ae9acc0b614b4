//! The bits of a window of a slice, up to 64 of them under any order, as the first bits of a word under an order that
//! runs from one end of it to the other.
ghost use Rattle.std.specs.Prelude.{◌≡◌, ◌+◌, ◌/◌, ◌<◌, ◌≤◌, ◌↔◌, ◌⊎◌, map, min, slice_range, true};
ghost use Rattle.bitvec_base.specs.Memory.{HasWindow, element_bits, list_in};
ghost use Rattle.bitvec_words.specs.Elements.{elements_window_from};
ghost use Rattle.bitvec_words.specs.ShortWindow.{padded};
ghost use Rattle.bitvec_elements.specs.BitsFrom.{HasBitsFrom};
ghost use Rattle.bitvec_engine.specs.Direction.{HasDirection};

use bitvec_base::{BitOrder, Lsb0, Msb0, Part, Window, elements_of};
use bitvec_cells::{CellsRead, Shared};
use bitvec_engine::Direction;
use bitvec_few::load_parts;
use bitvec_store::BitStore;
use bitvec_words::{WORD_BITS, WordOrder, gathered, load_across, moved, reversed};

/// The 64 bits of a window from an index on as a word, with zeros past the window's end. Conditions:
/// the window lies in a memory of at most `MAX_BITS` bits, the index is at most 64 behind its end,
/// and the order runs as said.
#[inline(always)]
pub fn word_from<W: WordOrder, O: BitOrder, T: BitStore>(
    elements: &[T],
    window: Window,
    from: usize,
    direction: Direction,
) -> u64
    requires window { HasWindow T.BITS (map T.value elements.now) window }
    requires bound { from ≤ window.len + 64 }
    requires runs { HasDirection direction T.BITS O.at }
    ensures { HasBitsFrom W.at result (list_in T.BITS O.at (map T.value elements.now) window) from }
{
    let start = from.min(window.len);
    let end = (from + WORD_BITS).min(window.len);
    window_word::<W, O, T>(elements, window.range(start, end), direction)
}

/// Whether that many bits are loaded and stored as a word with no loop: at most as many as an element has and at most 64, or
/// exactly 64. Others are counted and shifted in fewer steps by whole elements.
#[inline(always)]
pub fn is_at_once<T: BitStore>(len: usize) -> bool
    ensures few { result ≡ true → len ≤ 64 }
    ensures exact { (result ≡ true) ↔ ((len ≡ 64) ⊎ (len ≤ min 64 T.BITS)) }
{
    len == WORD_BITS || len <= WORD_BITS.min(T::BITS as usize)
}

/// The bits of a window as the first bits of a word; the others are 0. Conditions: the window has at
/// most 64 bits and lies in a memory of at most `MAX_BITS` bits, and the order runs as said.
#[tactic(auto, using(crate::proofs::Directions::by_direction))]
#[inline(always)]
pub(crate) fn window_word<W: WordOrder, O: BitOrder, T: BitStore>(
    elements: &[T],
    window: Window,
    direction: Direction,
) -> u64
    requires window { HasWindow T.BITS (map T.value elements.now) window }
    requires bound { window.len ≤ 64 }
    requires runs { HasDirection direction T.BITS O.at }
    ensures { element_bits 64 W.at result
        ≡ padded 64 (list_in T.BITS O.at (map T.value elements.now) window) }
{
    let mut cells = Shared::new(elements);
    match direction {
        Direction::Up => reordered::<Lsb0, W>(load_parts::<Lsb0, Shared<T>>(&mut cells, window)),
        Direction::Down => reordered::<Msb0, W>(load_parts::<Msb0, Shared<T>>(&mut cells, window)),
        Direction::Other => gathered_word::<W, O, T>(elements, window),
    }
}

/// The word that has under the order `W` the bits of a word under `V`.
#[inline(always)]
pub(crate) fn reordered<V: WordOrder, W: WordOrder>(word: u64) -> u64
    ensures { element_bits 64 W.at result ≡ element_bits 64 V.at word }
{
    if V::HIGH == W::HIGH {
        word
    } else {
        reversed::<V, u64>(word)
    }
}

/// [`load_across`] of a slice.
#[inline(always)]
pub(crate) fn word_behind<W: WordOrder, T: BitStore>(
    elements: &[T],
    first: usize,
    skip: usize,
) -> u64
    requires window { HasWindow T.BITS (map T.value elements.now) (elements_window_from T.BITS first skip (64 / T.BITS)) }
    requires inside { skip < T.BITS }
    requires narrow { T.BITS ≤ 64 }
    ensures { element_bits 64 W.at result
        ≡ list_in T.BITS W.at (map T.value elements.now) (elements_window_from T.BITS first skip (64 / T.BITS)) }
{
    load_across::<W, Shared<T>>(&mut Shared::new(elements), first, skip)
}

/// [`window_word`] of any order: each element is loaded once, and its bits are gathered one by one.
fn gathered_word<W: WordOrder, O: BitOrder, T: BitStore>(elements: &[T], window: Window) -> u64
    requires window { HasWindow T.BITS (map T.value elements.now) window }
    requires bound { window.len ≤ 64 }
    ensures { element_bits 64 W.at result
        ≡ padded 64 (list_in T.BITS O.at (map T.value elements.now) window) }
{
    let mut cells = Shared::new(elements);
    let mut word = 0;
    let mut rest = window;
    while rest.len > 0 {
        let part = rest.first_part::<T>();
        let count = part.len();
        let element = cells.load(part.element);
        let first = gathered_part::<O, W, T>(element, part);
        word |= moved::<W, u64, u64>(first, 0, count, window.len - rest.len);
        rest = rest.after(count);
    }
    word
}

/// [`gathered`], of a whole element by eight bits at a time, which the compiler unrolls. Condition:
/// as for [`gathered`].
#[inline(always)]
fn gathered_part<O: BitOrder, W: WordOrder, T: BitStore>(element: T, part: Part) -> u64
    requires order { part.from ≤ part.to }
    requires bound { part.to ≤ T.BITS }
    requires fits { part.to ≤ part.from + 64 }
    ensures { element_bits 64 W.at result
        ≡ padded 64 (slice_range (element_bits T.BITS O.at (T.value element)) part.from part.to) }
{
    let bits = T::BITS as usize;
    if part.len() < bits {
        return gathered::<O, W, T>(element, part);
    }
    let mut word = 0;
    for step in 0..bits / 8 {
        let from = step * 8;
        let eight = Part {
            element: 0,
            from,
            to: from + 8,
        };
        let few = gathered::<O, W, T>(element, eight);
        word |= moved::<W, u64, u64>(few, 0, 8, from);
    }
    word
}
