//! Bits exchanged between windows that begin at different indices of an element. The last element
//! that was loaded on the right waits until the rest of its bits are known, and is stored then.
ghost use Rattle.std.specs.Prelude.{◌≢◌, ◌+◌, ◌-◌, ◌/◌, ◌%◌, ◌<◌, slice_set};
ghost use Rattle.bitvec_base.specs.Parts.{part_window};
ghost use Rattle.bitvec_base.specs.Spans.{HasSpan};
ghost use Rattle.bitvec_cells.specs.Access.{Costs};
ghost use Rattle.bitvec_cells.specs.Cost.{touched_count};
ghost use Rattle.bitvec_words.specs.Moves.{HasPartSpan, HasSkippedElements, HasSkippedSpan, SwapsWindows, SwapsElements};

use crate::{bits_from, head_of, last_element};
use bitvec_base::{BitOrder, Part, Window};
use bitvec_cells::{Cells, CellsRead};
use bitvec_store::BitStore;
use bitvec_words::{
    Stretch, WordOrder, at_known_skip, joined, known_skip_pays, merged, toward_end, toward_start,
    whole_bits,
};

/// Exchanges two windows whose first bits have different indices in their elements. Condition: as
/// of [`crate::swap`], and the windows aren't empty.
#[inline(always)]
pub(crate) fn swap_shifted<O: WordOrder, C: Cells, D: Cells + CellsRead<Elem = C::Elem>>(
    left: &mut C,
    left_window: Window,
    right: &mut D,
    right_window: Window,
)
    requires span { HasSpan C.Elem.BITS (C.numbers left.old) (D.numbers right.old) left_window right_window }
    requires some { 0 < left_window.len }
    requires phases { left_window.start % C.Elem.BITS ≢ right_window.start % C.Elem.BITS }
    ensures swaps { SwapsWindows C.Elem.BITS O.at (C.numbers left.old) (C.numbers left.new) (D.numbers right.old) (D.numbers right.new) left_window right_window }
    ensures cost { let each = touched_count C.Elem.BITS left_window.start left_window.len in Costs C.CellsRead left.old left.new each each }
    ensures right_cost { let each = touched_count C.Elem.BITS right_window.start right_window.len in Costs D.CellsRead right.old right.new each each }
{
    let (head, passed) = head_of::<C::Elem>(left_window);
    let waiting = right.load(right_window.element::<C::Elem>());
    let met = right_window.until(right_window.len - passed);
    let last = swap_waiting::<O, C, D>(left, head, right, met, waiting);
    if passed == left_window.len {
        right.store(last_element::<C::Elem>(met), last);
        return;
    }
    let rest = left_window.after(passed);
    let behind = right_window.after(passed);
    swap_rest::<O, C, D>(left, rest, right, behind, last);
}

/// Exchanges two windows of which the left one begins where an element does and the right one
/// doesn't, where `waiting` is to be stored as the right one's first element.
#[inline(always)]
fn swap_rest<O: WordOrder, C: Cells, D: Cells + CellsRead<Elem = C::Elem>>(
    left: &mut C,
    left_window: Window,
    right: &mut D,
    right_window: Window,
    waiting: C::Elem,
)
    requires skipped { HasSkippedSpan C.Elem.BITS (C.numbers left.old) (D.numbers right.old) left_window right_window }
    requires some { 0 < left_window.len }
    ensures swaps { SwapsWindows C.Elem.BITS O.at (C.numbers left.old) (C.numbers left.new)
        (slice_set (D.numbers right.old) (right_window.start / C.Elem.BITS) (C.Elem.value waiting)) (D.numbers right.new) left_window right_window }
    ensures cost { let each = touched_count C.Elem.BITS left_window.start left_window.len in Costs C.CellsRead left.old left.new each each }
    ensures right_cost { let each = touched_count C.Elem.BITS right_window.start right_window.len in Costs D.CellsRead right.old right.new (each - 1) each }
{
    let stretch = Stretch::of::<C::Elem>(left_window, right_window);
    let last = swap_across::<O, C, D>(left, right, stretch, waiting);
    let tail = left_window.tail_part::<C::Elem>();
    if tail.to == 0 {
        right.store(stretch.source + stretch.count, last);
        return;
    }
    let behind = right_window.after(whole_bits::<C::Elem>(left_window.len));
    let end = swap_waiting::<O, C, D>(left, tail, right, behind, last);
    right.store(last_element::<C::Elem>(behind), end);
}

/// Exchanges `count` whole elements with the bits at the index `skip` of an element on, each with
/// one load and one store, where `waiting` is to be stored as that element. It gives the element
/// that is to be stored as the last one.
#[inline(always)]
fn swap_across<O: WordOrder, C: Cells, D: Cells + CellsRead<Elem = C::Elem>>(
    left: &mut C,
    right: &mut D,
    stretch: Stretch,
    waiting: C::Elem,
) -> C::Elem
    requires { HasSkippedElements C.Elem.BITS (C.numbers left.old) (D.numbers right.old) stretch.first stretch.source stretch.skip stretch.count }
    ensures swaps { SwapsElements C.Elem.BITS O.at (C.numbers left.old) (C.numbers left.new) (D.numbers right.old) (D.numbers right.new)
        stretch.first stretch.source stretch.skip stretch.count (C.Elem.value waiting) (C.Elem.value result) }
    ensures cost { Costs C.CellsRead left.old left.new stretch.count stretch.count }
    ensures right_cost { Costs D.CellsRead right.old right.new stretch.count stretch.count }
{
    let (first, source, skip, count) = (stretch.first, stretch.source, stretch.skip, stretch.count);
    if known_skip_pays::<C::Elem>(count) {
        return at_known_skip!(
            skip,
            swap_each::<O, C, D>(left, first, right, source, waiting, skip, count)
        );
    }
    swap_each::<O, C, D>(left, first, right, source, waiting, skip, count)
}

/// Exchanges shifted elements one at a time. It takes a stretch's numbers: the compiler may know `skip`.
#[inline(always)]
fn swap_each<O: WordOrder, C: Cells, D: Cells + CellsRead<Elem = C::Elem>>(
    left: &mut C,
    first: usize,
    right: &mut D,
    source: usize,
    waiting: C::Elem,
    skip: usize,
    count: usize,
) -> C::Elem
    requires { HasSkippedElements C.Elem.BITS (C.numbers left.old) (D.numbers right.old) first source skip count }
    ensures swaps { SwapsElements C.Elem.BITS O.at (C.numbers left.old) (C.numbers left.new) (D.numbers right.old) (D.numbers right.new)
        first source skip count (C.Elem.value waiting) (C.Elem.value result) }
    ensures cost { Costs C.CellsRead left.old left.new count count }
    ensures right_cost { Costs D.CellsRead right.old right.new count count }
{
    let rest = bits_from::<C::Elem>(skip);
    let mut last = waiting;
    // what a pass needs of `last` is in the two elements that were loaded before it, and is taken
    // from there: so the passes can go many at once
    let mut before = toward_end::<O, C::Elem>(waiting, rest);
    let mut latest = waiting;
    for step in 0..count {
        let (here, there) = (first + step, source + step);
        let element = left.load(here);
        let next = right.load(there + 1);
        left.store(here, joined::<O, C::Elem>(latest, next, skip));
        right.store(there, joined::<O, C::Elem>(before, element, rest));
        let carried = toward_start::<O, C::Elem>(element, rest);
        last = merged::<O, C::Elem>(next, carried, 0, skip);
        before = element;
        latest = next;
    }
    last
}

/// Exchanges a part of an element with a window, where `waiting` is to be stored as the first
/// element that the window touches. It gives the element that is to be stored as the last one.
fn swap_waiting<O: WordOrder, C: Cells, D: Cells + CellsRead<Elem = C::Elem>>(
    left: &mut C,
    part: Part,
    right: &mut D,
    from: Window,
    waiting: C::Elem,
) -> C::Elem
    requires { HasPartSpan C.Elem.BITS (C.numbers left.old) (D.numbers right.old) part from }
    ensures swaps { SwapsWindows C.Elem.BITS O.at (C.numbers left.old) (C.numbers left.new)
        (slice_set (D.numbers right.old) (from.start / C.Elem.BITS) (C.Elem.value waiting))
        (slice_set (D.numbers right.new) ((from.start + from.len - 1) / C.Elem.BITS) (C.Elem.value result)) (part_window C.Elem.BITS part) from }
    ensures cost { Costs C.CellsRead left.old left.new 1 1 }
    ensures right_cost { let more = touched_count C.Elem.BITS from.start from.len - 1 in Costs D.CellsRead right.old right.new more more }
{
    let (index, skip) = (from.element::<C::Elem>(), from.phase::<C::Elem>());
    let room = bits_from::<C::Elem>(skip);
    let element = left.load(part.element);
    let moved = toward_start::<O, C::Elem>(element, part.from);
    if from.len <= room {
        let front = toward_start::<O, C::Elem>(waiting, skip);
        let new = toward_end::<O, C::Elem>(front, part.from);
        left.store(
            part.element,
            merged::<O, C::Elem>(element, new, part.from, part.to),
        );
        let back = toward_end::<O, C::Elem>(moved, skip);
        return merged::<O, C::Elem>(waiting, back, skip, skip + from.len);
    }
    let next = right.load(index + 1);
    let front = joined::<O, C::Elem>(waiting, next, skip);
    let new = toward_end::<O, C::Elem>(front, part.from);
    left.store(
        part.element,
        merged::<O, C::Elem>(element, new, part.from, part.to),
    );
    let back = toward_end::<O, C::Elem>(moved, skip);
    right.store(
        index,
        merged::<O, C::Elem>(waiting, back, skip, skip + room),
    );
    let carried = toward_start::<O, C::Elem>(moved, room);
    merged::<O, C::Elem>(next, carried, 0, from.len - room)
}
