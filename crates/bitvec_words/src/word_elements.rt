//! The elements of a word of 64 bits.
ghost use Rattle.std.specs.Prelude.{◌≡◌, ◌+◌, ◌*◌, ◌/◌, ◌<◌, ◌≤◌};
ghost use Rattle.bitvec_base.specs.Memory.{HasWindow, Writes, element_bits, list_in};
ghost use Rattle.bitvec_cells.specs.Access.{Costs, OnlyReads};
ghost use Rattle.bitvec_cells.specs.Cost.{touched_count};
ghost use Rattle.bitvec_words.specs.Elements.{SameElements, elements_window, elements_window_from};

use crate::element::joined;
use crate::pieces::behind_pieces;
use crate::word_order::WordOrder;
use crate::word_parts::{WORD_BITS, moved};
use bitvec_base::{Lsb0, elements_of};
use bitvec_cells::{Cells, CellsRead};
use bitvec_store::BitStore;

/// The bits of the elements of one word from the element `first` on. Condition: they are not wider than a word, and
/// lie in a memory of at most `MAX_BITS` bits. It loads each of them once.
#[inline(always)]
pub fn load_elements<O: WordOrder, C: CellsRead>(cells: &mut C, first: usize) -> u64
    requires window { HasWindow C.Elem.BITS (C.numbers cells.old) (elements_window C.Elem.BITS first (64 / C.Elem.BITS)) }
    requires narrow { C.Elem.BITS ≤ 64 }
    ensures value { element_bits 64 O.at result
        ≡ list_in C.Elem.BITS O.at (C.numbers cells.old) (elements_window C.Elem.BITS first (64 / C.Elem.BITS)) }
    ensures reads { OnlyReads C.CellsRead cells.old cells.new (64 / C.Elem.BITS) }
{
    ordered::<O, C::Elem>(cells.load_word(first))
}

/// [`load_elements`] of the word behind `count` words from the element `first` on.
#[inline(always)]
pub(crate) fn load_word_behind<O: WordOrder, C: CellsRead>(
    cells: &mut C,
    first: usize,
    count: usize,
) -> u64
    requires window { HasWindow C.Elem.BITS (C.numbers cells.old) (elements_window C.Elem.BITS (first + count * (64 / C.Elem.BITS)) (64 / C.Elem.BITS)) }
    requires narrow { C.Elem.BITS ≤ 64 }
    ensures value { element_bits 64 O.at result
        ≡ list_in C.Elem.BITS O.at (C.numbers cells.old) (elements_window C.Elem.BITS (first + count * (64 / C.Elem.BITS)) (64 / C.Elem.BITS)) }
    ensures reads { OnlyReads C.CellsRead cells.old cells.new (64 / C.Elem.BITS) }
{
    load_elements::<O, C>(cells, behind_pieces::<C::Elem>(WORD_BITS, first, count))
}

/// The 64 bits from the index `skip` of the element `first` on: those of one word, and what is left of them with the next
/// element. Condition: `skip` is below the width; elements are not wider than a word, and the bits lie in a memory of at
/// most `MAX_BITS` bits. It loads each element that the bits touch once.
#[inline(always)]
pub fn load_across<O: WordOrder, C: CellsRead>(cells: &mut C, first: usize, skip: usize) -> u64
    requires window { HasWindow C.Elem.BITS (C.numbers cells.old) (elements_window_from C.Elem.BITS first skip (64 / C.Elem.BITS)) }
    requires inside { skip < C.Elem.BITS }
    requires narrow { C.Elem.BITS ≤ 64 }
    ensures value { element_bits 64 O.at result
        ≡ list_in C.Elem.BITS O.at (C.numbers cells.old) (elements_window_from C.Elem.BITS first skip (64 / C.Elem.BITS)) }
    ensures reads { OnlyReads C.CellsRead cells.old cells.new (touched_count C.Elem.BITS (first * C.Elem.BITS + skip) 64) }
{
    let word = load_elements::<O, C>(cells, first);
    if skip == 0 {
        return word;
    }
    let next = cells.load(first + elements_of::<C::Elem>(WORD_BITS));
    let behind = moved::<O, C::Elem, u64>(next, 0, C::Elem::BITS as usize, 0);
    joined::<O, u64>(word, behind, skip)
}

/// Stores the elements of one word from the element `first` on. Condition: as for [`load_elements`].
#[inline(always)]
pub fn store_elements<O: WordOrder, C: Cells>(cells: &mut C, first: usize, word: u64)
    requires window { HasWindow C.Elem.BITS (C.numbers cells.old) (elements_window C.Elem.BITS first (64 / C.Elem.BITS)) }
    requires narrow { C.Elem.BITS ≤ 64 }
    ensures writes { Writes C.Elem.BITS O.at (C.numbers cells.old) (C.numbers cells.new) (elements_window C.Elem.BITS first (64 / C.Elem.BITS))
        (element_bits 64 O.at word) }
    ensures cost { Costs C.CellsRead cells.old cells.new 0 (64 / C.Elem.BITS) }
{
    cells.store_word(first, ordered::<O, C::Elem>(word));
}

/// The word that has under the order the elements that `word` has from its least significant bit on. Condition:
/// they are not wider than a word. The compiler makes no more of it than an exchange of bytes, and inlines it then.
#[inline]
pub(crate) fn ordered<O: WordOrder, T: BitStore>(word: u64) -> u64
    requires { T.BITS ≤ 64 }
    ensures { SameElements T.BITS O.at word result }
{
    let bits = T::BITS as usize;
    let mut ordered = 0;
    for step in 0..elements_of::<T>(WORD_BITS) {
        let element = moved::<Lsb0, u64, T>(word, step * bits, bits, 0);
        ordered |= moved::<O, T, u64>(element, 0, bits, step * bits);
    }
    ordered
}
