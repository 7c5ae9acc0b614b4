//! Bits exchanged between windows that begin at the same index of an element: elements as they are.
ghost use Rattle.std.specs.Prelude.{◌≡◌, ◌%◌, ◌<◌, length};
ghost use Rattle.bitvec_base.specs.Parts.{HasPart, part_window};
ghost use Rattle.bitvec_base.specs.Spans.{HasSpan};
ghost use Rattle.bitvec_cells.specs.Access.{Costs};
ghost use Rattle.bitvec_cells.specs.Cost.{touched_count};
ghost use Rattle.bitvec_words.specs.Elements.{elements_window};
ghost use Rattle.bitvec_words.specs.Moves.{SwapsWindows};

use crate::head_of;
use bitvec_base::{BitOrder, Part, Window};
use bitvec_cells::{Cells, CellsRead};
use bitvec_store::BitStore;
use bitvec_words::merged;

/// Exchanges two windows whose first bits have the same index in their elements, under any order.
/// Condition: as for [`crate::swap`], and the windows aren't empty. It loads and stores each element
/// that a window touches once.
pub fn swap_equal<O: BitOrder, C: Cells, D: Cells + CellsRead<Elem = C::Elem>>(
    left: &mut C,
    left_window: Window,
    right: &mut D,
    right_window: Window,
)
    requires span { HasSpan C.Elem.BITS (C.numbers left.old) (D.numbers right.old) left_window right_window }
    requires some { 0 < left_window.len }
    requires phases { left_window.start % C.Elem.BITS ≡ right_window.start % C.Elem.BITS }
    ensures swaps { SwapsWindows C.Elem.BITS O.at (C.numbers left.old) (C.numbers left.new) (D.numbers right.old) (D.numbers right.new) left_window right_window }
    ensures cost { let each = touched_count C.Elem.BITS left_window.start left_window.len in Costs C.CellsRead left.old left.new each each }
    ensures right_cost { let each = touched_count C.Elem.BITS right_window.start right_window.len in Costs D.CellsRead right.old right.new each each }
{
    if left_window.len > C::Elem::BITS as usize && left_window.phase::<C::Elem>() == 0 {
        swap_aligned::<O, C, D>(left, left_window, right, right_window);
        return;
    }
    let (head, passed) = head_of::<C::Elem>(left_window);
    swap_part::<O, C, D>(left, head, right, right_window.element::<C::Elem>());
    if passed == left_window.len {
        return;
    }
    let rest = left_window.after(passed);
    let behind = right_window.after(passed);
    swap_aligned::<O, C, D>(left, rest, right, behind);
}

/// Exchanges two windows that begin where elements do.
fn swap_aligned<O: BitOrder, C: Cells, D: Cells + CellsRead<Elem = C::Elem>>(
    left: &mut C,
    left_window: Window,
    right: &mut D,
    right_window: Window,
)
    requires span { HasSpan C.Elem.BITS (C.numbers left.old) (D.numbers right.old) left_window right_window }
    requires edge { left_window.start % C.Elem.BITS ≡ 0 }
    requires right_edge { right_window.start % C.Elem.BITS ≡ 0 }
    ensures swaps { SwapsWindows C.Elem.BITS O.at (C.numbers left.old) (C.numbers left.new) (D.numbers right.old) (D.numbers right.new) left_window right_window }
    ensures cost { let each = touched_count C.Elem.BITS left_window.start left_window.len in Costs C.CellsRead left.old left.new each each }
    ensures right_cost { let each = touched_count C.Elem.BITS right_window.start right_window.len in Costs D.CellsRead right.old right.new each each }
{
    let (first, count) = left_window.whole_elements::<C::Elem>();
    let source = right_window.element::<C::Elem>();
    swap_whole::<O, C, D>(left, first, right, source, count);
    let tail = left_window.tail_part::<C::Elem>();
    if tail.to == 0 {
        return;
    }
    swap_part::<O, C, D>(left, tail, right, source + count);
}

/// Exchanges `count` whole elements, each with one load and one store.
fn swap_whole<O: BitOrder, C: Cells, D: Cells + CellsRead<Elem = C::Elem>>(
    left: &mut C,
    first: usize,
    right: &mut D,
    source: usize,
    count: usize,
)
    requires { HasSpan C.Elem.BITS (C.numbers left.old) (D.numbers right.old) (elements_window C.Elem.BITS first count) (elements_window C.Elem.BITS source count) }
    ensures swaps { SwapsWindows C.Elem.BITS O.at (C.numbers left.old) (C.numbers left.new) (D.numbers right.old) (D.numbers right.new)
        (elements_window C.Elem.BITS first count) (elements_window C.Elem.BITS source count) }
    ensures cost { Costs C.CellsRead left.old left.new count count }
    ensures right_cost { Costs D.CellsRead right.old right.new count count }
{
    for step in 0..count {
        let (here, there) = (first + step, source + step);
        let element = left.load(here);
        let other = right.load(there);
        left.store(here, other);
        right.store(there, element);
    }
}

/// Exchanges a part with the same indices of an element of the other memory, each with one load and
/// one store.
fn swap_part<O: BitOrder, C: Cells, D: Cells + CellsRead<Elem = C::Elem>>(
    left: &mut C,
    part: Part,
    right: &mut D,
    source: usize,
)
    requires part { HasPart C.Elem.BITS (C.numbers left.old) part }
    requires source { source < length (D.numbers right.old) }
    ensures swaps { SwapsWindows C.Elem.BITS O.at (C.numbers left.old) (C.numbers left.new) (D.numbers right.old) (D.numbers right.new)
        (part_window C.Elem.BITS part) (part_window C.Elem.BITS (record part { element = source })) }
    ensures cost { Costs C.CellsRead left.old left.new 1 1 }
    ensures right_cost { Costs D.CellsRead right.old right.new 1 1 }
{
    let element = left.load(part.element);
    let other = right.load(source);
    let new = merged::<O, C::Elem>(element, other, part.from, part.to);
    left.store(part.element, new);
    let right_new = merged::<O, C::Elem>(other, element, part.from, part.to);
    right.store(source, right_new);
}
