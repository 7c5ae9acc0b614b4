//! The number of the bits of a window.
ghost use Rattle.std.specs.Prelude.{◌≡◌, ◌<◌, ◌≤◌};
ghost use Rattle.bitvec_cells.specs.Access.{OnlyReads};
ghost use Rattle.bitvec_segments.specs.Windows.{HasNumber, loaded_in};
ghost use Rattle.bitvec_cells.specs.Cost.{touched_count};

use crate::cutting::{lower_bits, part_at};
use crate::joining::joined_number;
use crate::part::{number_between, part_number};
use bitvec_base::Window;
use bitvec_cells::CellsRead;
use bitvec_few::load_element;
use bitvec_store::BitStore;
use bitvec_words::{WORD_BITS, WordOrder, load_elements, touched};

/// The number of a window's segments. Condition: the window has at most 128 bits, and lies in a
/// memory of at most `MAX_BITS` bits. It loads each element that the window touches once.
///
/// Where the segments make one number under the order, the elements of a word are loaded at once, and a window no
/// longer than an element as an element.
#[inline(always)]
pub fn load<const BIG: bool, O: WordOrder, C: CellsRead>(cells: &mut C, window: Window) -> u128
    requires { HasNumber C.Elem.BITS (C.numbers cells.old) window }
    ensures value { result ≡ loaded_in BIG O.HIGH C.Elem.BITS O.at (C.numbers cells.old) window }
    ensures reads { OnlyReads C.CellsRead cells.old cells.new (touched_count C.Elem.BITS window.start window.len) }
{
    if window.len == 0 {
        return 0;
    }
    let from = window.phase::<C::Elem>();
    if BIG == O::HIGH {
        if C::Elem::BITS as usize <= WORD_BITS {
            if from == 0 && window.len == WORD_BITS {
                return load_elements::<O, C>(cells, window.element::<C::Elem>()) as u128;
            }
            if from + window.len <= WORD_BITS {
                return joined_number::<O, C>(cells, window) as u128;
            }
        }
        if window.len <= C::Elem::BITS as usize {
            let (front, _) = load_element::<O, C>(cells, window);
            return number_between::<O, C::Elem>(front, 0, window.len);
        }
    }
    load_segments::<BIG, O, C>(cells, window)
}

/// `load` by parts of elements: the compiler unrolls the loop where there are one or two.
fn load_segments<const BIG: bool, O: WordOrder, C: CellsRead>(cells: &mut C, window: Window) -> u128
    requires number { HasNumber C.Elem.BITS (C.numbers cells.old) window }
    requires some { 0 < window.len }
    ensures value { result ≡ loaded_in BIG O.HIGH C.Elem.BITS O.at (C.numbers cells.old) window }
    ensures reads { OnlyReads C.CellsRead cells.old cells.new (touched_count C.Elem.BITS window.start window.len) }
{
    match touched::<C::Elem>(window) {
        1 => load_in::<BIG, O, C>(cells, window, 1),
        2 => load_in::<BIG, O, C>(cells, window, 2),
        count => load_in::<BIG, O, C>(cells, window, count),
    }
}

/// `load` of a window that touches `count` elements, a part of one at a time.
#[inline(always)]
fn load_in<const BIG: bool, O: WordOrder, C: CellsRead>(
    cells: &mut C,
    window: Window,
    count: usize,
) -> u128
    requires number { HasNumber C.Elem.BITS (C.numbers cells.old) window }
    requires count { count ≡ touched_count C.Elem.BITS window.start window.len }
    ensures value { result ≡ loaded_in BIG O.HIGH C.Elem.BITS O.at (C.numbers cells.old) window }
    ensures reads { OnlyReads C.CellsRead cells.old cells.new (touched_count C.Elem.BITS window.start window.len) }
{
    let (mut element, mut from) = (window.element::<C::Elem>(), window.phase::<C::Elem>());
    let mut number = 0;
    let mut rest = window;
    let mut left = count;
    while left > 0 {
        let part = part_at::<C::Elem>(rest, element, from);
        let len = part.len();
        let below = lower_bits::<BIG>(window.len - rest.len, rest.len - len);
        number += part_number::<O, C>(cells, part) << below;
        rest = rest.after(len);
        element += 1;
        from = 0;
        left -= 1;
    }
    number
}
