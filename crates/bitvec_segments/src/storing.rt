//! A number put into the bits of a window.
ghost use Rattle.std.specs.Prelude.{◌≡◌, ℕ, List, ◌+◌, ◌*◌, ◌/◌, ◌%◌, ◌<◌, ◌≤◌};
ghost use Rattle.bitvec_base.specs.Memory.{HasWindow};
ghost use Rattle.bitvec_base.specs.Parts.{first_part_of};
ghost use Rattle.bitvec_cells.specs.Access.{Costs, CostsAtMost};
ghost use Rattle.bitvec_segments.specs.Windows.{HasNumber, StoresIn};
ghost use Rattle.bitvec_cells.specs.Cost.{fill_loads, part_loads, touched_count};

use crate::cutting::{full_part_at, is_whole, lower_bits, only_part_at, part_at};
use crate::part::store_part_number;
use bitvec_base::Window;
use bitvec_cells::Cells;
use bitvec_store::BitStore;
use bitvec_words::{WordOrder, touched};

/// Gives a window the bits for which [`load`](crate::load) gives the number, without those of its bits for which the
/// window is too short. Condition: as for [`load`](crate::load). It stores each element that the window touches once,
/// loads at most the first and the last, and takes no loop where the window lies in few elements.
#[inline(always)]
pub fn store<const BIG: bool, O: WordOrder, C: Cells>(cells: &mut C, window: Window, number: u128)
    requires { HasNumber C.Elem.BITS (C.numbers cells.old) window }
    ensures writes { StoresIn BIG O.HIGH C.Elem.BITS O.at (C.numbers cells.old) (C.numbers cells.new) window number }
    ensures cost { CostsAtMost C.CellsRead cells.old cells.new (fill_loads window.len) (touched_count C.Elem.BITS window.start window.len) }
{
    if window.len == 0 {
        return;
    }
    if touched::<C::Elem>(window) == 1 {
        let (element, from) = (window.element::<C::Elem>(), window.phase::<C::Elem>());
        store_one::<BIG, O, C>(cells, window, element, from, number);
    } else if is_whole::<C::Elem>(window, 2) {
        store_in::<BIG, O, C>(cells, window, 2, number);
    } else if is_whole::<C::Elem>(window, 4) {
        store_in::<BIG, O, C>(cells, window, 4, number);
    } else if is_whole::<C::Elem>(window, 8) {
        store_in::<BIG, O, C>(cells, window, 8, number);
    } else {
        store_segments::<BIG, O, C>(cells, window, number);
    }
}

/// `store` of a window that reaches past its first element: straight where it lies in three.
#[inline(always)]
fn store_segments<const BIG: bool, O: WordOrder, C: Cells>(
    cells: &mut C,
    window: Window,
    number: u128,
)
    requires number { HasNumber C.Elem.BITS (C.numbers cells.old) window }
    requires some { 0 < window.len }
    requires passes { 1 < touched_count C.Elem.BITS window.start window.len }
    ensures writes { StoresIn BIG O.HIGH C.Elem.BITS O.at (C.numbers cells.old) (C.numbers cells.new) window number }
    ensures cost { CostsAtMost C.CellsRead cells.old cells.new (fill_loads window.len) (touched_count C.Elem.BITS window.start window.len) }
{
    let count = touched::<C::Elem>(window);
    if count > 3 {
        store_in::<BIG, O, C>(cells, window, count, number);
        return;
    }
    let (element, from) = (window.element::<C::Elem>(), window.phase::<C::Elem>());
    let (rest, left) = store_first::<BIG, O, C>(cells, window, element, from, number);
    store_two::<BIG, O, C>(cells, rest, element + 1, left);
}

/// `store` of a window that begins where the element `element` does, isn't empty, and isn't longer than
/// two elements.
#[inline(always)]
fn store_two<const BIG: bool, O: WordOrder, C: Cells>(
    cells: &mut C,
    window: Window,
    element: usize,
    number: u128,
)
    requires number { HasNumber C.Elem.BITS (C.numbers cells.old) window }
    requires some { 0 < window.len }
    requires few { window.len ≤ 2 * C.Elem.BITS }
    requires element { element ≡ window.start / C.Elem.BITS }
    requires edge { 0 ≡ window.start % C.Elem.BITS }
    ensures writes { StoresIn BIG O.HIGH C.Elem.BITS O.at (C.numbers cells.old) (C.numbers cells.new) window number }
    ensures cost { CostsAtMost C.CellsRead cells.old cells.new 1 (touched_count C.Elem.BITS window.start window.len) }
{
    if window.len <= C::Elem::BITS as usize {
        store_one::<BIG, O, C>(cells, window, element, 0, number);
        return;
    }
    let (rest, left) = store_first::<BIG, O, C>(cells, window, element, 0, number);
    store_one::<BIG, O, C>(cells, rest, element + 1, 0, left);
}

/// Stores the bits of the element `element` alone, of a window that begins at its index `from`, isn't empty,
/// and reaches past it. The result is what is left of the window and of the number.
#[inline(always)]
fn store_first<const BIG: bool, O: WordOrder, C: Cells>(
    cells: &mut C,
    window: Window,
    element: usize,
    from: usize,
    number: u128,
) -> (Window, u128)
    requires number { HasNumber C.Elem.BITS (C.numbers cells.old) window }
    requires some { 0 < window.len }
    requires element { element ≡ window.start / C.Elem.BITS }
    requires from { from ≡ window.start % C.Elem.BITS }
    requires passes { C.Elem.BITS < from + window.len }
    ensures number { HasNumber C.Elem.BITS (C.numbers cells.new) result.0 }
    ensures some { 0 < result.0.len }
    ensures len { result.0.len + C.Elem.BITS ≡ from + window.len }
    ensures element { element + 1 ≡ result.0.start / C.Elem.BITS }
    ensures edge { 0 ≡ result.0.start % C.Elem.BITS }
    ensures touched { touched_count C.Elem.BITS window.start window.len ≡ 1 + touched_count C.Elem.BITS result.0.start result.0.len }
    ensures left { (after : List ℕ) → StoresIn BIG O.HIGH C.Elem.BITS O.at (C.numbers cells.new) after result.0 result.1
        → StoresIn BIG O.HIGH C.Elem.BITS O.at (C.numbers cells.old) after window number }
    ensures cost { Costs C.CellsRead cells.old cells.new (part_loads C.Elem.BITS (first_part_of C.Elem.BITS window)) 1 }
{
    let part = full_part_at::<C::Elem>(window, element, from);
    let len = part.len();
    let rest = window.after(len);
    store_part_number::<O, C>(cells, part, number >> lower_bits::<BIG>(0, rest.len));
    (rest, number >> lower_bits::<BIG>(len, 0))
}

/// `store` of a window that begins at the index `from` of the element `element`, isn't empty, and lies in that
/// element.
#[inline(always)]
fn store_one<const BIG: bool, O: WordOrder, C: Cells>(
    cells: &mut C,
    window: Window,
    element: usize,
    from: usize,
    number: u128,
)
    requires window { HasWindow C.Elem.BITS (C.numbers cells.old) window }
    requires some { 0 < window.len }
    requires element { element ≡ window.start / C.Elem.BITS }
    requires from { from ≡ window.start % C.Elem.BITS }
    requires inside { from + window.len ≤ C.Elem.BITS }
    ensures writes { StoresIn BIG O.HIGH C.Elem.BITS O.at (C.numbers cells.old) (C.numbers cells.new) window number }
    ensures cost { CostsAtMost C.CellsRead cells.old cells.new 1 1 }
{
    let part = only_part_at::<C::Elem>(window, element, from);
    store_part_number::<O, C>(cells, part, number);
}

/// `store` of a window that touches `count` elements, a part of one at a time. Where the compiler knows
/// that these are few whole elements, the machine code has no loop, no mask and no test.
#[inline(always)]
fn store_in<const BIG: bool, O: WordOrder, C: Cells>(
    cells: &mut C,
    window: Window,
    count: usize,
    number: u128,
)
    requires number { HasNumber C.Elem.BITS (C.numbers cells.old) window }
    requires count { count ≡ touched_count C.Elem.BITS window.start window.len }
    ensures writes { StoresIn BIG O.HIGH C.Elem.BITS O.at (C.numbers cells.old) (C.numbers cells.new) window number }
    ensures cost { CostsAtMost C.CellsRead cells.old cells.new (fill_loads window.len) (touched_count C.Elem.BITS window.start window.len) }
{
    let (mut element, mut from) = (window.element::<C::Elem>(), window.phase::<C::Elem>());
    let mut rest = window;
    let mut left = count;
    while left > 0 {
        let part = part_at::<C::Elem>(rest, element, from);
        let len = part.len();
        let below = lower_bits::<BIG>(window.len - rest.len, rest.len - len);
        store_part_number::<O, C>(cells, part, number >> below);
        rest = rest.after(len);
        element += 1;
        from = 0;
        left -= 1;
    }
}
