//! Searches of a window for a bit.
ghost use Rattle.std.specs.Prelude.{◌≡◌, ◌+◌, ◌-◌, ◌*◌, ◌%◌, ◌<◌};
ghost use Rattle.bitvec_base.specs.Lists.{first_place, last_place};
ghost use Rattle.bitvec_base.specs.Memory.{HasWindow, element_bits, list_in};
ghost use Rattle.bitvec_cells.specs.Access.{OnlyReadsAtMost};
ghost use Rattle.bitvec_cells.specs.Cost.{first_loads, last_loads};
ghost use Rattle.bitvec_words.specs.Elements.{elements_window};

use crate::pieces::bit_behind;
use crate::split::{elements_from_edge, split_head, split_tail};
use crate::tuning::SCAN_TURN;
use bitvec_base::{BitOrder, Part, Window};
use bitvec_cells::{
    CellsRead, filled, first_in_element, first_in_part, last_in_element, last_in_part,
};
use bitvec_store::BitStore;

/// The index of a window's first bit that is `want`, if there is one. Condition: the memory has at most `MAX_BITS`
/// bits, and the window lies in it. It loads each element that the window touches at most once, from the first on,
/// and none behind the bit.
pub fn bits_scan_first<O: BitOrder, C: CellsRead>(
    cells: &mut C,
    window: Window,
    want: bool,
) -> Option<usize>
    requires { HasWindow C.Elem.BITS (C.numbers cells.old) window }
    ensures value { result ≡ first_place want (list_in C.Elem.BITS O.at (C.numbers cells.old) window) }
    ensures reads { OnlyReadsAtMost C.CellsRead cells.old cells.new (first_loads C.Elem.BITS window result) }
{
    if window.len == 0 || window.phase::<C::Elem>() == 0 {
        return first_aligned::<O, C>(cells, window, want);
    }
    let (head, rest) = split_head::<C::Elem>(window);
    if let Some(found) = first_in_part::<O, C>(cells, head, want) {
        return Some(found);
    }
    let found = first_aligned::<O, C>(cells, rest, want)?;
    Some(head.len() + found)
}

/// The first of a window that is empty or begins where an element does: of all elements that it touches, where it
/// isn't behind the window's end.
fn first_aligned<O: BitOrder, C: CellsRead>(
    cells: &mut C,
    window: Window,
    want: bool,
) -> Option<usize>
    requires window { HasWindow C.Elem.BITS (C.numbers cells.old) window }
    requires edge { 0 < window.len → window.start % C.Elem.BITS ≡ 0 }
    ensures value { result ≡ first_place want (list_in C.Elem.BITS O.at (C.numbers cells.old) window) }
    ensures reads { OnlyReadsAtMost C.CellsRead cells.old cells.new (first_loads C.Elem.BITS window result) }
{
    let (first, count) = elements_from_edge::<C::Elem>(window);
    let found = first_whole::<O, C>(cells, first, count, want)?;
    (found < window.len).then_some(found)
}

/// The first of `count` whole elements, each of which is passed by one comparison if it lacks the bit.
pub(crate) fn first_whole<O: BitOrder, C: CellsRead>(
    cells: &mut C,
    first: usize,
    count: usize,
    want: bool,
) -> Option<usize>
    requires { HasWindow C.Elem.BITS (C.numbers cells.old) (elements_window C.Elem.BITS first count) }
    ensures value { result
        ≡ first_place want (list_in C.Elem.BITS O.at (C.numbers cells.old) (elements_window C.Elem.BITS first count)) }
    ensures reads { OnlyReadsAtMost C.CellsRead cells.old cells.new
        (first_loads C.Elem.BITS (elements_window C.Elem.BITS first count) result) }
{
    let lacking = filled::<C::Elem>(!want);
    for step in 0..count {
        let element = cells.load(first + step);
        if element.xor(lacking).to_u128() != 0 {
            let found = first_in_whole::<O, C::Elem>(element, want)?;
            return Some(bit_behind::<C::Elem>(step, found));
        }
    }
    None
}

/// The first of an element.
#[inline(always)]
pub(crate) fn first_in_whole<O: BitOrder, T: BitStore>(element: T, want: bool) -> Option<usize>
    ensures { result ≡ first_place want (element_bits T.BITS O.at (T.value element)) }
{
    let whole = Part {
        element: 0,
        from: 0,
        to: T::BITS as usize,
    };
    first_in_element::<O, T>(element, whole, want)
}

/// The index of a window's last bit that is `want`, if there is one. Condition: as for [`bits_scan_first`]. It
/// loads each element that the window touches at most once, from the last on, and none before the bit.
pub fn bits_scan_last<O: BitOrder, C: CellsRead>(
    cells: &mut C,
    window: Window,
    want: bool,
) -> Option<usize>
    requires { HasWindow C.Elem.BITS (C.numbers cells.old) window }
    ensures value { result ≡ last_place want (list_in C.Elem.BITS O.at (C.numbers cells.old) window) }
    ensures reads { OnlyReadsAtMost C.CellsRead cells.old cells.new (last_loads C.Elem.BITS window result) }
{
    if window.len == 0 {
        return None;
    }
    let (head, rest) = split_head::<C::Elem>(window);
    if rest.len == 0 {
        return last_in_part::<O, C>(cells, head, want);
    }
    if let Some(found) = last_aligned::<O, C>(cells, rest, want) {
        return Some(head.len() + found);
    }
    last_in_part::<O, C>(cells, head, want)
}

/// The last of a window that begins where an element does.
fn last_aligned<O: BitOrder, C: CellsRead>(
    cells: &mut C,
    window: Window,
    want: bool,
) -> Option<usize>
    requires window { HasWindow C.Elem.BITS (C.numbers cells.old) window }
    requires edge { window.start % C.Elem.BITS ≡ 0 }
    ensures value { result ≡ last_place want (list_in C.Elem.BITS O.at (C.numbers cells.old) window) }
    ensures reads { OnlyReadsAtMost C.CellsRead cells.old cells.new (last_loads C.Elem.BITS window result) }
{
    let (first, count, tail) = split_tail::<C::Elem>(window);
    if tail.to == 0 {
        return last_whole::<O, C>(cells, first, count, want);
    }
    if let Some(found) = last_in_part::<O, C>(cells, tail, want) {
        return Some(bit_behind::<C::Elem>(count, found));
    }
    last_whole::<O, C>(cells, first, count, want)
}

/// The last of `count` whole elements: of turns from the back, and then of fewer elements.
fn last_whole<O: BitOrder, C: CellsRead>(
    cells: &mut C,
    first: usize,
    count: usize,
    want: bool,
) -> Option<usize>
    requires { HasWindow C.Elem.BITS (C.numbers cells.old) (elements_window C.Elem.BITS first count) }
    ensures value { result
        ≡ last_place want (list_in C.Elem.BITS O.at (C.numbers cells.old) (elements_window C.Elem.BITS first count)) }
    ensures reads { OnlyReadsAtMost C.CellsRead cells.old cells.new
        (last_loads C.Elem.BITS (elements_window C.Elem.BITS first count) result) }
{
    let left = count % SCAN_TURN;
    for step in (0..count / SCAN_TURN).rev() {
        let passed = left + step * SCAN_TURN;
        if let Some(found) = last_of_turn::<O, C>(cells, first + passed, SCAN_TURN, want) {
            return Some(bit_behind::<C::Elem>(passed, found));
        }
    }
    last_of_turn::<O, C>(cells, first, left, want)
}

/// The last of `count` whole elements, each of which is passed by one comparison if it lacks the bit. The compiler
/// unrolls the loop where they are a turn.
#[inline(always)]
fn last_of_turn<O: BitOrder, C: CellsRead>(
    cells: &mut C,
    first: usize,
    count: usize,
    want: bool,
) -> Option<usize>
    requires { HasWindow C.Elem.BITS (C.numbers cells.old) (elements_window C.Elem.BITS first count) }
    ensures value { result
        ≡ last_place want (list_in C.Elem.BITS O.at (C.numbers cells.old) (elements_window C.Elem.BITS first count)) }
    ensures reads { OnlyReadsAtMost C.CellsRead cells.old cells.new
        (last_loads C.Elem.BITS (elements_window C.Elem.BITS first count) result) }
{
    let lacking = filled::<C::Elem>(!want);
    for step in (0..count).rev() {
        let element = cells.load(first + step);
        if element.xor(lacking).to_u128() != 0 {
            let found = last_in_whole::<O, C::Elem>(element, want)?;
            return Some(bit_behind::<C::Elem>(step, found));
        }
    }
    None
}

/// The last of an element.
#[inline(always)]
fn last_in_whole<O: BitOrder, T: BitStore>(element: T, want: bool) -> Option<usize>
    ensures { result ≡ last_place want (element_bits T.BITS O.at (T.value element)) }
{
    let whole = Part {
        element: 0,
        from: 0,
        to: T::BITS as usize,
    };
    last_in_element::<O, T>(element, whole, want)
}
