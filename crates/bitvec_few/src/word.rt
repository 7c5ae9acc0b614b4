//! Up to 64 bits of a window as the first bits of a word.
ghost use Rattle.std.specs.Prelude.{◌≡◌, ◌≢◌, ◌%◌, ◌<◌, ◌≤◌, false, take, true};
ghost use Rattle.bitvec_base.specs.Memory.{HasWindow, Writes, element_bits, list_in};
ghost use Rattle.bitvec_cells.specs.Access.{CostsAtMost, OnlyReads};
ghost use Rattle.bitvec_cells.specs.Cost.{fill_loads, touched_count};
ghost use Rattle.bitvec_words.specs.ShortWindow.{padded};

use crate::element::{load_short, store_short};
use bitvec_base::{Part, Window, elements_of};
use bitvec_cells::{Cells, CellsRead};
use bitvec_store::BitStore;
use bitvec_words::{WORD_BITS, WordOrder, load_across, moved, store_elements, store_part};

/// Whether that many bits go as a word: at most 64.
#[inline(always)]
pub fn is_few(len: usize) -> bool
    ensures few { result ≡ true → len ≤ 64 }
    ensures many { result ≡ false → 64 < len }
{
    len <= WORD_BITS
}

/// The bits of a window as the first bits of a word; the others are 0. Condition: the window has at most 64 bits,
/// and lies in a memory of at most `MAX_BITS` bits. It loads each element that the window touches once, and has no loop
/// where the window is no longer than an element or has 64 bits.
#[inline(always)]
pub fn load_parts<O: WordOrder, C: CellsRead>(cells: &mut C, window: Window) -> u64
    requires window { HasWindow C.Elem.BITS (C.numbers cells.old) window }
    requires bound { window.len ≤ 64 }
    ensures value { element_bits 64 O.at result ≡ padded 64 (list_in C.Elem.BITS O.at (C.numbers cells.old) window) }
    ensures reads { OnlyReads C.CellsRead cells.old cells.new (touched_count C.Elem.BITS window.start window.len) }
{
    if window.len <= C::Elem::BITS as usize {
        let element = load_short::<O, C>(cells, window);
        return moved::<O, C::Elem, u64>(element, 0, window.len, 0);
    }
    if window.len < WORD_BITS {
        return load_each::<O, C>(cells, window);
    }
    load_across::<O, C>(
        cells,
        window.element::<C::Elem>(),
        window.phase::<C::Elem>(),
    )
}

/// [`load_parts`] part by part of elements.
fn load_each<O: WordOrder, C: CellsRead>(cells: &mut C, window: Window) -> u64
    requires window { HasWindow C.Elem.BITS (C.numbers cells.old) window }
    requires bound { window.len ≤ 64 }
    ensures value { element_bits 64 O.at result ≡ padded 64 (list_in C.Elem.BITS O.at (C.numbers cells.old) window) }
    ensures reads { OnlyReads C.CellsRead cells.old cells.new (touched_count C.Elem.BITS window.start window.len) }
{
    let mut word = 0;
    let mut rest = window;
    while rest.len > 0 {
        let part = rest.first_part::<C::Elem>();
        let element = cells.load(part.element);
        word |= moved::<O, C::Elem, u64>(element, part.from, part.len(), window.len - rest.len);
        rest = rest.after(part.len());
    }
    word
}

/// A window gets the first bits of a word, as many as it has; all other bits of the memory stay. Condition, and where it
/// has no loop: as for [`load_parts`]. It stores each element that the window touches once, and loads at most the first
/// and the last.
#[inline(always)]
pub fn store_parts<O: WordOrder, C: Cells>(cells: &mut C, window: Window, word: u64)
    requires window { HasWindow C.Elem.BITS (C.numbers cells.old) window }
    requires bound { window.len ≤ 64 }
    ensures writes { Writes C.Elem.BITS O.at (C.numbers cells.old) (C.numbers cells.new) window
        (take window.len (element_bits 64 O.at word)) }
    ensures cost { CostsAtMost C.CellsRead cells.old cells.new (fill_loads window.len) (touched_count C.Elem.BITS window.start window.len) }
{
    if window.len <= C::Elem::BITS as usize {
        let element = moved::<O, u64, C::Elem>(word, 0, window.len, 0);
        store_short::<O, C>(cells, window, element);
    } else if window.len < WORD_BITS {
        store_each::<O, C>(cells, window, word);
    } else if window.phase::<C::Elem>() > 0 {
        store_across::<O, C>(cells, window, word);
    } else {
        store_elements::<O, C>(cells, window.element::<C::Elem>(), word);
    }
}

/// [`store_parts`] part by part of elements.
fn store_each<O: WordOrder, C: Cells>(cells: &mut C, window: Window, word: u64)
    requires window { HasWindow C.Elem.BITS (C.numbers cells.old) window }
    requires bound { window.len ≤ 64 }
    ensures writes { Writes C.Elem.BITS O.at (C.numbers cells.old) (C.numbers cells.new) window
        (take window.len (element_bits 64 O.at word)) }
    ensures cost { CostsAtMost C.CellsRead cells.old cells.new (fill_loads window.len) (touched_count C.Elem.BITS window.start window.len) }
{
    let mut rest = window;
    while rest.len > 0 {
        let part = rest.first_part::<C::Elem>();
        let element = moved::<O, u64, C::Elem>(word, window.len - rest.len, part.len(), part.from);
        store_part::<O, C>(cells, part, element);
        rest = rest.after(part.len());
    }
}

/// [`store_parts`] of 64 bits that begin inside an element narrower than a word: the elements of one word, of which the
/// first keeps its bits before the window, and a part of the next.
#[inline(always)]
fn store_across<O: WordOrder, C: Cells>(cells: &mut C, window: Window, word: u64)
    requires window { HasWindow C.Elem.BITS (C.numbers cells.old) window }
    requires size { window.len ≡ 64 }
    requires narrow { C.Elem.BITS < 64 }
    requires inside { window.start % C.Elem.BITS ≢ 0 }
    ensures writes { Writes C.Elem.BITS O.at (C.numbers cells.old) (C.numbers cells.new) window
        (take window.len (element_bits 64 O.at word)) }
    ensures cost { CostsAtMost C.CellsRead cells.old cells.new (fill_loads window.len) (touched_count C.Elem.BITS window.start window.len) }
{
    let first = window.element::<C::Elem>();
    let skip = window.phase::<C::Elem>();
    let kept = moved::<O, C::Elem, u64>(cells.load(first), 0, skip, 0);
    let front = kept | moved::<O, u64, u64>(word, 0, WORD_BITS - skip, skip);
    store_elements::<O, C>(cells, first, front);
    let tail = Part {
        element: first + elements_of::<C::Elem>(WORD_BITS),
        from: 0,
        to: skip,
    };
    let behind = moved::<O, u64, C::Elem>(word, WORD_BITS - skip, skip, 0);
    store_part::<O, C>(cells, tail, behind);
}
