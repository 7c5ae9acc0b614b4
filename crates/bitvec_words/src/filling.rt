//! Each bit of a window set, cleared or flipped: the edges behind masks, whole elements as they are.
ghost use Rattle.std.specs.Prelude.{◌≡◌, ◌+◌, ◌-◌, ◌*◌, ◌%◌, ◌^◌, ◌≤◌, if◌then◌else◌, Bool, not, map, replicate};
ghost use Rattle.bitvec_base.specs.Memory.{Edits, HasWindow, Writes};
ghost use Rattle.bitvec_cells.specs.Access.{Costs, CostsAtMost};
ghost use Rattle.bitvec_cells.specs.Cost.{fill_loads, touched_count};
ghost use Rattle.bitvec_words.specs.Elements.{elements_window};

use crate::split::{split_head, split_tail};
use bitvec_base::{BitOrder, Window};
use bitvec_cells::{Cells, CellsRead, fill_part, invert_part};
use bitvec_store::BitStore;

/// Makes each bit of a window `bit`; all other bits of the memory stay. Condition: the memory has at most
/// `MAX_BITS` bits, and the window lies in it. It stores each element that the window touches once, and loads at
/// most the first and the last of them.
pub fn fill<O: BitOrder, C: Cells>(cells: &mut C, window: Window, bit: bool)
    requires { HasWindow C.Elem.BITS (C.numbers cells.old) window }
    ensures writes { Writes C.Elem.BITS O.at (C.numbers cells.old) (C.numbers cells.new) window
        (replicate window.len bit) }
    ensures cost { CostsAtMost C.CellsRead cells.old cells.new (fill_loads window.len) (touched_count C.Elem.BITS window.start window.len) }
    ensures stores { C.stores cells.new ≡ C.stores cells.old + touched_count C.Elem.BITS window.start window.len }
    ensures loads { C.loads cells.new ≤ C.loads cells.old + touched_count C.Elem.BITS window.start window.len }
{
    if window.len == 0 {
        return;
    }
    let (head, rest) = split_head::<C::Elem>(window);
    fill_part::<O, C>(cells, head, bit);
    if rest.len == 0 {
        return;
    }
    fill_aligned::<O, C>(cells, rest, bit);
}

/// Fills a window that begins where an element does. It loads at most the last of its elements.
fn fill_aligned<O: BitOrder, C: Cells>(cells: &mut C, window: Window, bit: bool)
    requires window { HasWindow C.Elem.BITS (C.numbers cells.old) window }
    requires edge { window.start % C.Elem.BITS ≡ 0 }
    ensures writes { Writes C.Elem.BITS O.at (C.numbers cells.old) (C.numbers cells.new) window
        (replicate window.len bit) }
    ensures cost { CostsAtMost C.CellsRead cells.old cells.new 1 (touched_count C.Elem.BITS window.start window.len) }
    ensures stores { C.stores cells.new ≡ C.stores cells.old + touched_count C.Elem.BITS window.start window.len }
    ensures loads { C.loads cells.new ≤ C.loads cells.old + touched_count C.Elem.BITS window.start window.len }
{
    let (first, count, tail) = split_tail::<C::Elem>(window);
    fill_whole::<O, C>(cells, first, count, bit);
    if tail.to == 0 {
        return;
    }
    fill_part::<O, C>(cells, tail, bit);
}

/// Fills `count` whole elements, each with one store.
fn fill_whole<O: BitOrder, C: Cells>(cells: &mut C, first: usize, count: usize, bit: bool)
    requires { HasWindow C.Elem.BITS (C.numbers cells.old) (elements_window C.Elem.BITS first count) }
    ensures writes { Writes C.Elem.BITS O.at (C.numbers cells.old) (C.numbers cells.new) (elements_window C.Elem.BITS first count)
        (replicate (count * C.Elem.BITS) bit) }
    ensures cost { Costs C.CellsRead cells.old cells.new 0 count }
{
    // a constant element in each loop, since a compiler makes the fastest fill of one
    if bit {
        store_whole::<O, C>(cells, first, count, C::Elem::ALL);
    } else {
        store_whole::<O, C>(cells, first, count, C::Elem::ZERO);
    }
}

/// Stores an element into `count` elements, each with one store. If all its bits are the same, so are theirs.
fn store_whole<O: BitOrder, C: Cells>(cells: &mut C, first: usize, count: usize, element: C::Elem)
    requires { HasWindow C.Elem.BITS (C.numbers cells.old) (elements_window C.Elem.BITS first count) }
    ensures writes { (bit : Bool) → C.Elem.value element ≡ (if bit then 2 ^ C.Elem.BITS - 1 else 0) →
        Writes C.Elem.BITS O.at (C.numbers cells.old) (C.numbers cells.new) (elements_window C.Elem.BITS first count)
        (replicate (count * C.Elem.BITS) bit) }
    ensures cost { Costs C.CellsRead cells.old cells.new 0 count }
{
    for step in 0..count {
        cells.store(first + step, element);
    }
}

/// Flips each bit of a window; all other bits of the memory stay. Condition: as for [`fill`]. It loads and stores
/// each element that the window touches once.
pub fn invert<O: BitOrder, C: Cells>(cells: &mut C, window: Window)
    requires { HasWindow C.Elem.BITS (C.numbers cells.old) window }
    ensures writes { Edits C.Elem.BITS O.at (C.numbers cells.old) (C.numbers cells.new) window (map not) }
    ensures cost { let each = touched_count C.Elem.BITS window.start window.len in
        Costs C.CellsRead cells.old cells.new each each }
{
    if window.len == 0 {
        return;
    }
    let bits = C::Elem::BITS as usize;
    if window.len > bits && window.start % bits == 0 {
        invert_aligned::<O, C>(cells, window);
        return;
    }
    let (head, rest) = split_head::<C::Elem>(window);
    invert_part::<O, C>(cells, head);
    if rest.len == 0 {
        return;
    }
    invert_aligned::<O, C>(cells, rest);
}

/// Flips the bits of a window that begins where an element does.
fn invert_aligned<O: BitOrder, C: Cells>(cells: &mut C, window: Window)
    requires window { HasWindow C.Elem.BITS (C.numbers cells.old) window }
    requires edge { window.start % C.Elem.BITS ≡ 0 }
    ensures writes { Edits C.Elem.BITS O.at (C.numbers cells.old) (C.numbers cells.new) window (map not) }
    ensures cost { let each = touched_count C.Elem.BITS window.start window.len in
        Costs C.CellsRead cells.old cells.new each each }
{
    let (first, count, tail) = split_tail::<C::Elem>(window);
    invert_whole::<O, C>(cells, first, count);
    if tail.to == 0 {
        return;
    }
    invert_part::<O, C>(cells, tail);
}

/// Flips the bits of `count` whole elements, each with one load and one store.
fn invert_whole<O: BitOrder, C: Cells>(cells: &mut C, first: usize, count: usize)
    requires { HasWindow C.Elem.BITS (C.numbers cells.old) (elements_window C.Elem.BITS first count) }
    ensures writes { Edits C.Elem.BITS O.at (C.numbers cells.old) (C.numbers cells.new) (elements_window C.Elem.BITS first count) (map not) }
    ensures cost { Costs C.CellsRead cells.old cells.new count count }
{
    for step in 0..count {
        let element = cells.load(first + step);
        cells.store(first + step, element.not());
    }
}
