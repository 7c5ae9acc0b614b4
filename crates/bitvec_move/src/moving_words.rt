//! Bytes moved within one memory by words of 64 bits, each carried to the next pass. One word more makes up for
//! what no whole number of words covers: it ends or begins where they do, and so overlaps another. It is loaded
//! before any word is stored, and stored last. The last words go first where `LATER`.
ghost use Rattle.std.specs.Prelude.{if◌then◌else◌, ◌≡◌, ◌+◌, ◌-◌, ◌<◌, ◌≤◌, ◌↔◌, IsTrue, slice_range};
ghost use Rattle.bitvec_base.specs.Memory.{HasWindow, element_bits, list_in};
ghost use Rattle.bitvec_cells.specs.Access.{CostsAtMost, OnlyReads};
ghost use Rattle.bitvec_words.specs.Elements.{elements_window_from};
ghost use Rattle.bitvec_words.specs.Moves.{CopiesElements, HasSkippedElements, IsToward};

use crate::moving::{in_order, read_place};
use bitvec_cells::{Cells, CellsRead};
use bitvec_store::BitStore;
use bitvec_words::{Stretch, WORD_BITS, WordOrder, joined, load_elements, moved, store_elements};

/// Whether so many bytes are moved by words: if they are many, but not very many, since those are moved faster by the
/// loop for their shift.
pub(crate) fn goes_by_words(count: usize) -> bool
    ensures { IsTrue result ↔ ((80 ≤ count) × (count < 512)) }
{
    count >= 80 && count < 512
}

/// Moves a stretch of one memory to its whole bytes, by words. Condition: it has at least eight, and begins inside a
/// byte. It loads at most ten bytes more than it moves, and stores eight more. The compiler inlines it.
#[inline]
pub(crate) fn shift_words<O: WordOrder, C: Cells, const LATER: bool>(cells: &mut C, moved: Stretch)
    requires bytes { C.Elem.BITS ≡ 8 }
    requires skipped { HasSkippedElements C.Elem.BITS (C.numbers cells.old) (C.numbers cells.old) moved.first moved.source moved.skip moved.count }
    requires towards { IsToward LATER moved.first moved.source }
    requires word { 8 ≤ moved.count }
    ensures writes { CopiesElements C.Elem.BITS O.at (C.numbers cells.old) (C.numbers cells.new) (C.numbers cells.old) moved.first moved.source moved.skip moved.count }
    ensures cost { CostsAtMost C.CellsRead cells.old cells.new (moved.count + 10) (moved.count + 8) }
{
    let edge = word_place::<LATER>(moved.count, moved.count);
    let (to, ahead) = carried_place::<LATER>();
    let held = load_skipped::<O, C>(cells, moved.source + edge, moved.skip);
    let from = read_place::<LATER>(0, moved.count);
    let mut last = placed::<O, C::Elem>(cells.load(moved.source + from), to);
    for step in 0..moved.count / 8 {
        let place = word_place::<LATER>(step * 8 + 8, moved.count);
        let next = load_elements::<O, C>(cells, moved.source + place + ahead);
        let (low, high) = in_order::<u64, LATER>(last, next);
        let word = joined::<O, u64>(low, high, to + moved.skip);
        store_elements::<O, C>(cells, moved.first + place, word);
        last = next;
    }
    store_elements::<O, C>(cells, moved.first + edge, held);
}

/// The byte at which the word begins after which `done` bytes of `count` are moved. Condition: `done` is at least 8, and at
/// most `count`.
fn word_place<const LATER: bool>(done: usize, count: usize) -> usize
    requires word { 8 ≤ done }
    requires most { done ≤ count }
    ensures place { result ≡ (if LATER then count - done else done - 8) }
    ensures fits { result + 8 ≤ count }
{
    if LATER { count - done } else { done - 8 }
}

/// The bit of a word at which the byte that is carried begins, and how many bytes behind the word that is stored the next one is
/// read.
fn carried_place<const LATER: bool>() -> (usize, usize)
    ensures to { result.0 ≡ (if LATER then 0 else 56) }
    ensures ahead { result.1 ≡ (if LATER then 0 else 1) }
    ensures near { result.1 ≤ 1 }
{
    if LATER { (0, 0) } else { (WORD_BITS - 8, 1) }
}

/// The 64 bits from the index `skip` of a byte on. Condition: `skip` is above 0 and below 8, and the bits lie in a
/// memory of at most `MAX_BITS` bits. It loads nine bytes. The compiler inlines it.
#[inline]
fn load_skipped<O: WordOrder, C: CellsRead>(cells: &mut C, source: usize, skip: usize) -> u64
    requires bytes { C.Elem.BITS ≡ 8 }
    requires window { HasWindow C.Elem.BITS (C.numbers cells.old) (elements_window_from C.Elem.BITS source skip 8) }
    requires some { 0 < skip }
    requires bound { skip < 8 }
    ensures value { element_bits 64 O.at result
        ≡ list_in C.Elem.BITS O.at (C.numbers cells.old) (elements_window_from C.Elem.BITS source skip 8) }
    ensures reads { OnlyReads C.CellsRead cells.old cells.new 9 }
{
    let word = load_elements::<O, C>(cells, source);
    let behind = placed::<O, C::Elem>(cells.load(source + 8), 0);
    joined::<O, u64>(word, behind, skip)
}

/// A word that has an element's bits from the index `to` on. Condition: there is room for them. The compiler inlines it.
#[inline]
fn placed<O: WordOrder, T: BitStore>(element: T, to: usize) -> u64
    requires { to + T.BITS ≤ 64 }
    ensures { slice_range (element_bits 64 O.at result) to (to + T.BITS)
        ≡ element_bits T.BITS O.at (T.value element) }
{
    moved::<O, T, u64>(element, 0, T::BITS as usize, to)
}
