//! The bits of a window of at most an element's width, loaded to the front of an element and stored from there.
ghost use Rattle.std.specs.Prelude.{◌≡◌, ◌+◌, ◌-◌, ◌/◌, ◌≤◌, slice_index, take};
ghost use Rattle.bitvec_base.specs.Memory.{HasWindow, Writes, element_bits, list_in};
ghost use Rattle.bitvec_cells.specs.Access.{CostsAtMost, OnlyReads};
ghost use Rattle.bitvec_cells.specs.Cost.{touched_count};
ghost use Rattle.bitvec_words.specs.ShortWindow.{HasShortWindow};

use bitvec_base::{Part, Window};
use bitvec_cells::{Cells, CellsRead};
use bitvec_store::BitStore;
use bitvec_words::{WordOrder, joined, store_part, toward_end, toward_start};

/// An element that begins with the bits of a window of at most an element's width, and the last element that the
/// window touches. Condition: the memory has at most `MAX_BITS` bits, the window lies in it and isn't empty. It
/// loads each element that the window touches once.
pub fn load_element<O: WordOrder, C: CellsRead>(cells: &mut C, window: Window) -> (C::Elem, C::Elem)
    requires { HasShortWindow C.Elem.BITS (C.numbers cells.old) window }
    ensures value { take window.len (element_bits C.Elem.BITS O.at (C.Elem.value result.0))
        ≡ list_in C.Elem.BITS O.at (C.numbers cells.old) window }
    ensures last { C.Elem.value result.1
        ≡ slice_index (C.numbers cells.old) ((window.start + window.len - 1) / C.Elem.BITS) }
    ensures reads { OnlyReads C.CellsRead cells.old cells.new (touched_count C.Elem.BITS window.start window.len) }
{
    let first = cells.load(window.element::<C::Elem>());
    load_element_after::<O, C>(cells, window, first)
}

/// [`load_element`] of a window whose first element was loaded before, and isn't loaded again.
pub fn load_element_after<O: WordOrder, C: CellsRead>(
    cells: &mut C,
    window: Window,
    first: C::Elem,
) -> (C::Elem, C::Elem)
    requires short { HasShortWindow C.Elem.BITS (C.numbers cells.old) window }
    requires first { C.Elem.value first ≡ slice_index (C.numbers cells.old) (window.start / C.Elem.BITS) }
    ensures value { take window.len (element_bits C.Elem.BITS O.at (C.Elem.value result.0))
        ≡ list_in C.Elem.BITS O.at (C.numbers cells.old) window }
    ensures last { C.Elem.value result.1
        ≡ slice_index (C.numbers cells.old) ((window.start + window.len - 1) / C.Elem.BITS) }
    ensures reads { OnlyReads C.CellsRead cells.old cells.new (touched_count C.Elem.BITS window.start window.len - 1) }
{
    let skip = window.phase::<C::Elem>();
    if window.len <= C::Elem::BITS as usize - skip {
        return (toward_start::<O, C::Elem>(first, skip), first);
    }
    let second = cells.load(window.element::<C::Elem>() + 1);
    (joined::<O, C::Elem>(first, second, skip), second)
}

/// An element that begins with the bits of a window of at most an element's width, which may be empty. Condition: the
/// memory has at most `MAX_BITS` bits, and the window lies in it. It loads each element that the window touches once.
pub fn load_short<O: WordOrder, C: CellsRead>(cells: &mut C, window: Window) -> C::Elem
    requires window { HasWindow C.Elem.BITS (C.numbers cells.old) window }
    requires bound { window.len ≤ C.Elem.BITS }
    ensures value { take window.len (element_bits C.Elem.BITS O.at (C.Elem.value result))
        ≡ list_in C.Elem.BITS O.at (C.numbers cells.old) window }
    ensures reads { OnlyReads C.CellsRead cells.old cells.new (touched_count C.Elem.BITS window.start window.len) }
{
    if window.len == 0 {
        return C::Elem::ZERO;
    }
    load_element::<O, C>(cells, window).0
}

/// A window of at most an element's width gets as many of the first bits of an element as it has. All other bits of
/// the memory stay. Condition: the memory has at most `MAX_BITS` bits, and the window lies in it. It stores each element
/// that the window touches once, and loads each at most once.
#[inline(always)]
pub fn store_short<O: WordOrder, C: Cells>(cells: &mut C, window: Window, element: C::Elem)
    requires window { HasWindow C.Elem.BITS (C.numbers cells.old) window }
    requires bound { window.len ≤ C.Elem.BITS }
    ensures writes { Writes C.Elem.BITS O.at (C.numbers cells.old) (C.numbers cells.new) window
        (take window.len (element_bits C.Elem.BITS O.at (C.Elem.value element))) }
    ensures cost { let touched = touched_count C.Elem.BITS window.start window.len in
        CostsAtMost C.CellsRead cells.old cells.new touched touched }
{
    if window.len == 0 {
        return;
    }
    let head = window.first_part::<C::Elem>();
    store_part::<O, C>(cells, head, toward_end::<O, C::Elem>(element, head.from));
    let count = head.len();
    if count < window.len {
        let tail = Part {
            element: head.element + 1,
            from: 0,
            to: window.len - count,
        };
        store_part::<O, C>(cells, tail, toward_start::<O, C::Elem>(element, count));
    }
}
