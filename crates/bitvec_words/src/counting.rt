//! How many bits of a window are 1, or 0.
ghost use Rattle.std.specs.Prelude.{◌≡◌, ◌+◌, ◌*◌, ◌/◌, ◌%◌, ◌<◌, ◌≤◌, not, count_by};
ghost use Rattle.bitvec_base.specs.Memory.{HasWindow, list_in};
ghost use Rattle.bitvec_cells.specs.Access.{OnlyReads};
ghost use Rattle.bitvec_cells.specs.Cost.{touched_count};
ghost use Rattle.bitvec_words.specs.Elements.{elements_window};

use crate::pieces::{behind_pieces, left_behind, pieces_of};
use crate::split::{split_head, split_tail};
use crate::tuning::{COUNT_BLOCK_BITS, COUNT_BLOCK_WORDS};
use crate::word_parts::WORD_BITS;
use bitvec_base::{BitOrder, Window};
use bitvec_cells::{CellsRead, count_part};
use bitvec_store::BitStore;

/// How many bits of a window are 1. Condition: the memory has at most `MAX_BITS` bits, and the window lies in it.
/// It loads each element that the window touches once.
pub fn count<O: BitOrder, C: CellsRead>(cells: &mut C, window: Window) -> usize
    requires { HasWindow C.Elem.BITS (C.numbers cells.old) window }
    ensures value { result ≡ count_by (λ bit. bit) (list_in C.Elem.BITS O.at (C.numbers cells.old) window) }
    ensures reads { OnlyReads C.CellsRead cells.old cells.new (touched_count C.Elem.BITS window.start window.len) }
{
    if window.len == 0 {
        return 0;
    }
    if window.len > C::Elem::BITS as usize && window.phase::<C::Elem>() == 0 {
        return count_aligned::<O, C>(cells, window);
    }
    let (head, rest) = split_head::<C::Elem>(window);
    let ones = count_part::<O, C>(cells, head);
    if rest.len == 0 {
        return ones;
    }
    ones + count_aligned::<O, C>(cells, rest)
}

/// How many bits are 1 of a window that begins where an element does.
fn count_aligned<O: BitOrder, C: CellsRead>(cells: &mut C, window: Window) -> usize
    requires window { HasWindow C.Elem.BITS (C.numbers cells.old) window }
    requires edge { window.start % C.Elem.BITS ≡ 0 }
    ensures value { result ≡ count_by (λ bit. bit) (list_in C.Elem.BITS O.at (C.numbers cells.old) window) }
    ensures reads { OnlyReads C.CellsRead cells.old cells.new (touched_count C.Elem.BITS window.start window.len) }
{
    let (first, count, tail) = split_tail::<C::Elem>(window);
    let ones = count_whole::<O, C>(cells, first, count);
    if tail.to == 0 {
        return ones;
    }
    ones + count_part::<O, C>(cells, tail)
}

/// How many bits of `count` whole elements are 1. Elements narrower than a word are counted by the word, which has as
/// many ones in every order. It loads each element once.
fn count_whole<O: BitOrder, C: CellsRead>(cells: &mut C, first: usize, count: usize) -> usize
    requires { HasWindow C.Elem.BITS (C.numbers cells.old) (elements_window C.Elem.BITS first count) }
    ensures value { result
        ≡ count_by (λ bit. bit) (list_in C.Elem.BITS O.at (C.numbers cells.old) (elements_window C.Elem.BITS first count)) }
    ensures reads { OnlyReads C.CellsRead cells.old cells.new count }
{
    if C::Elem::BITS >= u64::BITS {
        return count_elements::<O, C>(cells, first, count);
    }
    let blocks = pieces_of::<C::Elem>(COUNT_BLOCK_BITS, count);
    let mut ones = 0;
    for step in 0..blocks {
        let block = behind_pieces::<C::Elem>(COUNT_BLOCK_BITS, first, step);
        ones += count_words::<C>(cells, block, COUNT_BLOCK_WORDS);
    }
    let (next, left) = left_behind::<C::Elem>(COUNT_BLOCK_BITS, first, count);
    ones + count_rest::<O, C>(cells, next, left)
}

/// How many bits of `count` whole elements are 1, by the word and then one element at a time. Condition: the elements are
/// narrower than a word. It loads each element once.
#[inline(always)]
fn count_rest<O: BitOrder, C: CellsRead>(cells: &mut C, first: usize, count: usize) -> usize
    requires window { HasWindow C.Elem.BITS (C.numbers cells.old) (elements_window C.Elem.BITS first count) }
    requires narrow { C.Elem.BITS ≤ 64 }
    ensures value { result
        ≡ count_by (λ bit. bit) (list_in C.Elem.BITS O.at (C.numbers cells.old) (elements_window C.Elem.BITS first count)) }
    ensures reads { OnlyReads C.CellsRead cells.old cells.new count }
{
    let words = pieces_of::<C::Elem>(WORD_BITS, count);
    let ones = count_words::<C>(cells, first, words);
    let (next, left) = left_behind::<C::Elem>(WORD_BITS, first, count);
    ones + count_elements::<O, C>(cells, next, left)
}

/// How many bits of the elements of `count` words are 1. The compiler unrolls the loop where they are a block.
/// Condition: the elements are narrower than a word. It loads each element once.
#[inline(always)]
fn count_words<C: CellsRead>(cells: &mut C, first: usize, count: usize) -> usize
    requires window { HasWindow C.Elem.BITS (C.numbers cells.old) (elements_window C.Elem.BITS first (count * (64 / C.Elem.BITS))) }
    requires narrow { C.Elem.BITS ≤ 64 }
    ensures value { result
        ≡ count_by (λ bit. bit) (list_in C.Elem.BITS (λ b i. i) (C.numbers cells.old) (elements_window C.Elem.BITS first (count * (64 / C.Elem.BITS)))) }
    ensures reads { OnlyReads C.CellsRead cells.old cells.new (count * (64 / C.Elem.BITS)) }
{
    let mut ones = 0;
    for step in 0..count {
        let word = behind_pieces::<C::Elem>(WORD_BITS, first, step);
        ones += cells.load_word(word).count_ones() as usize;
    }
    ones
}

/// How many bits of `count` whole elements are 1, one element at a time. It loads each element once.
fn count_elements<O: BitOrder, C: CellsRead>(cells: &mut C, first: usize, count: usize) -> usize
    requires { HasWindow C.Elem.BITS (C.numbers cells.old) (elements_window C.Elem.BITS first count) }
    ensures value { result
        ≡ count_by (λ bit. bit) (list_in C.Elem.BITS O.at (C.numbers cells.old) (elements_window C.Elem.BITS first count)) }
    ensures reads { OnlyReads C.CellsRead cells.old cells.new count }
{
    let mut ones = 0;
    for step in 0..count {
        ones += cells.load(first + step).count_ones() as usize;
    }
    ones
}

/// How many bits of a window are 0. Condition: as for [`count`]. It loads each element that the window touches
/// once.
pub fn count_zeros<O: BitOrder, C: CellsRead>(cells: &mut C, window: Window) -> usize
    requires { HasWindow C.Elem.BITS (C.numbers cells.old) window }
    ensures value { result ≡ count_by not (list_in C.Elem.BITS O.at (C.numbers cells.old) window) }
    ensures reads { OnlyReads C.CellsRead cells.old cells.new (touched_count C.Elem.BITS window.start window.len) }
{
    window.len - count::<O, C>(cells, window)
}
