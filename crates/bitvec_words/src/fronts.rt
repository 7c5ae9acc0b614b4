//! The first bits of a window as a word.
ghost use Rattle.std.specs.Prelude.{◌≡◌, ◌+◌, ◌<◌, ◌≤◌, slice_range};
ghost use Rattle.bitvec_base.specs.Memory.{HasWindow, element_bits};
ghost use Rattle.bitvec_cells.specs.Access.{OnlyReads};
ghost use Rattle.bitvec_words.specs.Front.{IsFront, front_window};
ghost use Rattle.bitvec_cells.specs.Cost.{touched_count};
ghost use Rattle.bitvec_words.specs.ShortWindow.{padded};

use crate::split::split_head;
use crate::word_elements::load_elements;
use crate::word_order::WordOrder;
use crate::word_parts::{WORD_BITS, moved};
use bitvec_base::{BitOrder, Lsb0, Part, Window};
use bitvec_cells::CellsRead;
use bitvec_store::BitStore;

/// The first bits of a window as the first bits of a word, and how many they are: 64 where it begins with an
/// element that isn't wider and has so many, else those of the first element, up to 64. Condition: the window isn't
/// empty, and lies in a memory of at most `MAX_BITS` bits. It loads each element that these bits touch once.
#[inline(always)]
pub fn words_load_front<O: WordOrder, C: CellsRead>(cells: &mut C, window: Window) -> (u64, usize)
    requires window { HasWindow C.Elem.BITS (C.numbers cells.old) window }
    requires some { 0 < window.len }
    ensures value { IsFront C.Elem.BITS O.at (C.numbers cells.old) window result.0 result.1 }
    ensures reads { OnlyReads C.CellsRead cells.old cells.new (touched_count C.Elem.BITS window.start result.1) }
{
    if C::Elem::BITS <= u64::BITS && window.len >= WORD_BITS && window.phase::<C::Elem>() == 0 {
        let word = load_elements::<O, C>(cells, window.element::<C::Elem>());
        return (word, WORD_BITS);
    }
    let (part, _) = split_head::<C::Elem>(front_window(window));
    let element = cells.load(part.element);
    let word = moved::<O, C::Elem, u64>(element, part.from, part.len(), 0);
    (word, part.len())
}

/// The first bits of a window under any order: those of the first element, up to 64.
pub fn bits_load_front<O: BitOrder, C: CellsRead>(cells: &mut C, window: Window) -> (u64, usize)
    requires window { HasWindow C.Elem.BITS (C.numbers cells.old) window }
    requires some { 0 < window.len }
    ensures value { IsFront C.Elem.BITS O.at (C.numbers cells.old) window result.0 result.1 }
    ensures reads { OnlyReads C.CellsRead cells.old cells.new (touched_count C.Elem.BITS window.start result.1) }
{
    let (part, _) = split_head::<C::Elem>(front_window(window));
    let element = cells.load(part.element);
    let word = gathered::<O, O, C::Elem>(element, part);
    (word, part.len())
}

/// The first bits of a window, at most those of a word.
#[inline(always)]
fn front_window(window: Window) -> Window
    ensures { result ≡ front_window window }
{
    Window {
        start: window.start,
        len: window.len.min(WORD_BITS),
    }
}

/// The word whose bit number `i`, from the least significant one, is the bit at index `i` of the order.
pub fn bits_lowest_first<O: BitOrder>(word: u64) -> u64
    ensures { element_bits 64 (λ b i. i) result ≡ element_bits 64 O.at word }
{
    let part = Part {
        element: 0,
        from: 0,
        to: WORD_BITS,
    };
    gathered::<O, Lsb0, u64>(word, part)
}

/// The bits of a part of an element under one order as the first bits of a word under another; the word's other
/// bits are 0. Condition: `from <= to`, `to` is at most the width, and the part has at most 64 bits.
#[inline(always)]
pub fn gathered<O: BitOrder, P: BitOrder, T: BitStore>(element: T, part: Part) -> u64
    requires order { part.from ≤ part.to }
    requires bound { part.to ≤ T.BITS }
    requires fits { part.to ≤ part.from + 64 }
    ensures { element_bits 64 P.at result
        ≡ padded 64 (slice_range (element_bits T.BITS O.at (T.value element)) part.from part.to) }
{
    let mut word = 0;
    for index in part.from..part.to {
        if element.and(O::select::<T>(index)).to_u128() != 0 {
            word |= P::select::<u64>(index - part.from);
        }
    }
    word
}
