//! Bits moved to another place of the same memory. Whole elements are moved from the end at which none
//! is written over before it is read: the last ones first where `LATER`, which says that the place
//! begins no earlier, else the first ones first, and it begins no later.
ghost use Rattle.std.specs.Prelude.{if◌then◌else◌, ◌≡◌, ◌+◌, ◌-◌, ◌*◌, ◌<◌, ◌≤◌, slice_index};
ghost use Rattle.bitvec_base.specs.Spans.{HasSpan};
ghost use Rattle.bitvec_cells.specs.Access.{Costs, CostsAtMost};
ghost use Rattle.bitvec_cells.specs.Cost.{touched_count};
ghost use Rattle.bitvec_words.specs.Elements.{elements_window, elements_window_from};
ghost use Rattle.bitvec_words.specs.Moves.{Copies, CopiesElements, HasSkippedElements, IsToward, late_words, nth_place, waiting_place};

use crate::head_of;
use crate::moving_words::{goes_by_words, shift_words};
use crate::tuning::MOVE_TURN;
use bitvec_base::{BitOrder, Window};
use bitvec_cells::{Cells, CellsRead};
use bitvec_few::{load_short, store_short};
use bitvec_store::BitStore;
use bitvec_words::{
    Carried, Lanes, Stretch, Whole, WordOrder, at_known_skip, known_skip_pays, whole_bits,
};

/// Moves the bits of a window to another of the same length. Condition: both lie in the memory, and
/// aren't empty. The bits at both edges are loaded before the whole elements between them are moved,
/// and stored behind them.
#[inline(always)]
pub(crate) fn move_to<O: WordOrder, C: Cells, const LATER: bool>(
    cells: &mut C,
    to: Window,
    from: Window,
)
    requires span { HasSpan C.Elem.BITS (C.numbers cells.old) (C.numbers cells.old) to from }
    requires some { 0 < to.len }
    requires towards { IsToward LATER to.start from.start }
    ensures writes { Copies C.Elem.BITS O.at (C.numbers cells.old) (C.numbers cells.new) to (C.numbers cells.old) from }
    ensures cost { let late = late_words C.Elem.BITS (2 * C.Elem.BITS) to.len in
        CostsAtMost C.CellsRead cells.old cells.new (touched_count C.Elem.BITS from.start from.len + 4 + late) (touched_count C.Elem.BITS to.start to.len + late) }
{
    let (_, head) = head_of::<C::Elem>(to);
    let (rest, behind) = (to.after(head), from.after(head));
    let moved = Stretch::of::<C::Elem>(rest, behind);
    let passed = whole_bits::<C::Elem>(rest.len);
    let front = load_short::<O, C>(cells, from.until(from.len - head));
    let back = load_short::<O, C>(cells, behind.after(passed));
    move_elements::<O, C, LATER>(cells, moved);
    store_short::<O, C>(cells, to.until(rest.len), front);
    store_short::<O, C>(cells, rest.after(passed), back);
}

/// Moves a stretch of one memory to its whole elements.
#[inline(always)]
pub fn move_elements<O: WordOrder, C: Cells, const LATER: bool>(cells: &mut C, moved: Stretch)
    requires span { HasSpan C.Elem.BITS (C.numbers cells.old) (C.numbers cells.old) (elements_window C.Elem.BITS moved.first moved.count) (elements_window_from C.Elem.BITS moved.source moved.skip moved.count) }
    requires bound { moved.skip < C.Elem.BITS }
    requires towards { IsToward LATER moved.first moved.source }
    ensures writes { CopiesElements C.Elem.BITS O.at (C.numbers cells.old) (C.numbers cells.new) (C.numbers cells.old) moved.first moved.source moved.skip moved.count }
    ensures cost { let late = late_words C.Elem.BITS 0 (moved.count * C.Elem.BITS) in CostsAtMost C.CellsRead cells.old cells.new (moved.count + 1 + late) (moved.count + late) }
{
    if moved.skip == 0 {
        move_whole::<O, C, LATER>(cells, moved);
    } else if C::Elem::BITS == u8::BITS && goes_by_words(moved.count) {
        shift_words::<O, C, LATER>(cells, moved);
    } else {
        let (source, count) = (moved.source, moved.count);
        let waiting = cells.load(source + read_place::<LATER>(0, count));
        shift_elements::<O, C, LATER>(cells, moved.first, source, moved.skip, count, waiting);
    }
}

/// Moves elements where `skip` is above 0: each stored element is joined of two. `waiting` is the first
/// one that is read, which was loaded before.
#[inline(always)]
fn shift_elements<O: WordOrder, C: Cells, const LATER: bool>(
    cells: &mut C,
    first: usize,
    source: usize,
    skip: usize,
    count: usize,
    waiting: C::Elem,
)
    requires skipped { HasSkippedElements C.Elem.BITS (C.numbers cells.old) (C.numbers cells.old) first source skip count }
    requires towards { IsToward LATER first source }
    requires waiting { C.Elem.value waiting ≡ slice_index (C.numbers cells.old) (source + waiting_place LATER 0 count) }
    ensures writes { CopiesElements C.Elem.BITS O.at (C.numbers cells.old) (C.numbers cells.new) (C.numbers cells.old) first source skip count }
    ensures cost { Costs C.CellsRead cells.old cells.new count count }
{
    if C::Elem::BITS == u128::BITS {
        shift_carried::<O, C, Lanes, LATER>(cells, first, source, skip, count, waiting);
    } else if known_skip_pays::<C::Elem>(count) {
        at_known_skip!(
            skip,
            shift_carried::<O, C, Whole<C::Elem>, LATER>(cells, first, source, skip, count, waiting)
        );
    } else {
        shift_carried::<O, C, Whole<C::Elem>, LATER>(cells, first, source, skip, count, waiting);
    }
}

/// Moves whole elements as they are, each with one load and one store: [`MOVE_TURN`] of them in a turn, and then the rest.
#[inline(always)]
fn move_whole<O: BitOrder, C: Cells, const LATER: bool>(cells: &mut C, moved: Stretch)
    requires span { HasSpan C.Elem.BITS (C.numbers cells.old) (C.numbers cells.old) (elements_window C.Elem.BITS moved.first moved.count) (elements_window_from C.Elem.BITS moved.source 0 moved.count) }
    requires towards { IsToward LATER moved.first moved.source }
    ensures writes { CopiesElements C.Elem.BITS O.at (C.numbers cells.old) (C.numbers cells.new) (C.numbers cells.old) moved.first moved.source 0 moved.count }
    ensures cost { Costs C.CellsRead cells.old cells.new moved.count moved.count }
{
    let turns = moved.count / MOVE_TURN;
    for step in 0..turns {
        let here = turn_place::<LATER>(step * MOVE_TURN, MOVE_TURN, moved.count);
        move_each::<O, C, LATER>(cells, moved.first + here, moved.source + here, MOVE_TURN);
    }
    let passed = turns * MOVE_TURN;
    let rest = moved.count - passed;
    let behind = turn_place::<LATER>(passed, rest, moved.count);
    move_each::<O, C, LATER>(cells, moved.first + behind, moved.source + behind, rest);
}

/// [`move_whole`], an element at a time.
#[inline(always)]
fn move_each<O: BitOrder, C: Cells, const LATER: bool>(
    cells: &mut C,
    first: usize,
    source: usize,
    count: usize,
)
    requires span { HasSpan C.Elem.BITS (C.numbers cells.old) (C.numbers cells.old) (elements_window C.Elem.BITS first count) (elements_window_from C.Elem.BITS source 0 count) }
    requires towards { IsToward LATER first source }
    ensures writes { CopiesElements C.Elem.BITS O.at (C.numbers cells.old) (C.numbers cells.new) (C.numbers cells.old) first source 0 count }
    ensures cost { Costs C.CellsRead cells.old cells.new count count }
{
    for passed in 0..count {
        let place = next_place::<LATER>(passed, count);
        let element = cells.load(source + place);
        cells.store(first + place, element);
    }
}

/// The place of the first of `more` elements that are moved after `passed` others.
fn turn_place<const LATER: bool>(passed: usize, more: usize, count: usize) -> usize
    requires { passed + more ≤ count }
    ensures place { result ≡ (if LATER then count - (passed + more) else passed) }
    ensures fits { result + more ≤ count }
{
    if LATER {
        count - (passed + more)
    } else {
        passed
    }
}

/// [`shift_elements`], where each element is loaded once, and carried to the next pass in a form that
/// fits the width.
#[inline(always)]
fn shift_carried<O: WordOrder, C: Cells, K: Carried<C::Elem>, const LATER: bool>(
    cells: &mut C,
    first: usize,
    source: usize,
    skip: usize,
    count: usize,
    waiting: C::Elem,
)
    requires form { K.fits C.Elem.BITS }
    requires skipped { HasSkippedElements C.Elem.BITS (C.numbers cells.old) (C.numbers cells.old) first source skip count }
    requires towards { IsToward LATER first source }
    requires waiting { C.Elem.value waiting ≡ slice_index (C.numbers cells.old) (source + waiting_place LATER 0 count) }
    ensures writes { CopiesElements C.Elem.BITS O.at (C.numbers cells.old) (C.numbers cells.new) (C.numbers cells.old) first source skip count }
    ensures cost { Costs C.CellsRead cells.old cells.new count count }
{
    let mut last = K::of(waiting);
    for passed in 0..count {
        let place = next_place::<LATER>(passed, count);
        let read = read_place::<LATER>(passed + 1, count);
        let next = K::of(cells.load(source + read));
        let (low, high) = in_order::<K, LATER>(last, next);
        cells.store(first + place, low.joined::<O>(&high, skip));
        last = next;
    }
}

/// The place of the element that is moved after so many others: from the first one on, or from the
/// last one back where `LATER`.
///
/// This and its kin are so small that they are inlined without being told to be, and so don't count
/// where it is seen how much is inlined always.
fn next_place<const LATER: bool>(passed: usize, count: usize) -> usize
    requires { passed < count }
    ensures place { result ≡ nth_place LATER passed count }
    ensures fits { result < count }
{
    if LATER { count - 1 - passed } else { passed }
}

/// The place of the element that is read after so many others, of `count` and one more.
pub(crate) fn read_place<const LATER: bool>(passed: usize, count: usize) -> usize
    requires { passed ≤ count }
    ensures place { result ≡ waiting_place LATER passed count }
    ensures fits { result ≤ count }
{
    if LATER { count - passed } else { passed }
}

/// Two elements that are read one after the other, in the order of their places.
pub(crate) fn in_order<K: Copy + Drop, const LATER: bool>(last: K, next: K) -> (K, K)
    ensures { result ≡ (if LATER then (next, last) else (last, next)) }
{
    if LATER { (next, last) } else { (last, next) }
}
