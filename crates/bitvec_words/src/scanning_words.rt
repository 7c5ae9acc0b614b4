//! Searches of a window by blocks of words.
ghost use Rattle.std.specs.Prelude.{◌≡◌, ◌*◌, ◌/◌, ◌%◌, ◌<◌, ◌++◌};
ghost use Rattle.bitvec_base.specs.Lists.{first_place};
ghost use Rattle.bitvec_base.specs.Memory.{HasWindow, element_bits, list_in};
ghost use Rattle.bitvec_cells.specs.Access.{OnlyReads, OnlyReadsAtMost};
ghost use Rattle.bitvec_cells.specs.Cost.{touched_count};
ghost use Rattle.bitvec_words.specs.Elements.{elements_window};

use crate::pieces::{behind_pieces, left_behind, pieces_of, place_behind};
use crate::scanning::{first_in_whole, first_whole};
use crate::split::{elements_from_edge, split_head};
use crate::tuning::{SCAN_BLOCK_BITS, SCAN_TURN_BITS};
use crate::word_elements::{load_elements, load_word_behind, ordered};
use crate::word_order::WordOrder;
use crate::word_parts::WORD_BITS;
use bitvec_base::{BitOrder, Lsb0, Window, elements_of};
use bitvec_cells::{CellsRead, filled, first_in_part};
use bitvec_store::BitStore;

/// The index of a window's first bit that is `want`, if there is one. Condition: the memory has at most `MAX_BITS`
/// bits, and the window lies in it. It loads each element that the window touches at most once, those of a block
/// together.
#[inline(always)]
pub fn words_scan_first<O: WordOrder, C: CellsRead>(
    cells: &mut C,
    window: Window,
    want: bool,
) -> Option<usize>
    requires { HasWindow C.Elem.BITS (C.numbers cells.old) window }
    ensures value { result ≡ first_place want (list_in C.Elem.BITS O.at (C.numbers cells.old) window) }
    ensures reads { OnlyReadsAtMost C.CellsRead cells.old cells.new (touched_count C.Elem.BITS window.start window.len) }
{
    if window.len == 0 || window.phase::<C::Elem>() == 0 {
        return first_from_edge::<O, C>(cells, window, want);
    }
    let (head, rest) = split_head::<C::Elem>(window);
    if let Some(found) = first_in_part::<O, C>(cells, head, want) {
        return Some(found);
    }
    let found = first_from_edge::<O, C>(cells, rest, want)?;
    Some(head.len() + found)
}

/// The first of a window that is empty or begins where an element does: of all elements that it touches, where it
/// isn't behind the window's end.
#[inline(always)]
fn first_from_edge<O: WordOrder, C: CellsRead>(
    cells: &mut C,
    window: Window,
    want: bool,
) -> Option<usize>
    requires window { HasWindow C.Elem.BITS (C.numbers cells.old) window }
    requires edge { 0 < window.len → window.start % C.Elem.BITS ≡ 0 }
    ensures value { result ≡ first_place want (list_in C.Elem.BITS O.at (C.numbers cells.old) window) }
    ensures reads { OnlyReadsAtMost C.CellsRead cells.old cells.new (touched_count C.Elem.BITS window.start window.len) }
{
    let (first, count) = elements_from_edge::<C::Elem>(window);
    let found = first_in_elements::<O, C>(cells, first, count, want)?;
    (found < window.len).then_some(found)
}

/// The first of `count` elements: of turns of four blocks, and then of fewer elements, where they make a block. A jump
/// back costs as much as the comparison of a block.
#[inline(always)]
fn first_in_elements<O: WordOrder, C: CellsRead>(
    cells: &mut C,
    first: usize,
    count: usize,
    want: bool,
) -> Option<usize>
    requires { HasWindow C.Elem.BITS (C.numbers cells.old) (elements_window C.Elem.BITS first count) }
    ensures value { result
        ≡ first_place want (list_in C.Elem.BITS O.at (C.numbers cells.old) (elements_window C.Elem.BITS first count)) }
    ensures reads { OnlyReadsAtMost C.CellsRead cells.old cells.new count }
{
    if count < elements_of::<C::Elem>(SCAN_BLOCK_BITS) {
        return first_in_rest::<O, C>(cells, first, count, want);
    }
    let turns = pieces_of::<C::Elem>(SCAN_TURN_BITS, count);
    for step in 0..turns {
        let turn = behind_pieces::<C::Elem>(SCAN_TURN_BITS, first, step);
        if let Some(found) = first_in_blocks::<O, C>(cells, turn, 4, want) {
            return Some(place_behind(SCAN_TURN_BITS, step, found));
        }
    }
    let (next, left) = left_behind::<C::Elem>(SCAN_TURN_BITS, first, count);
    let found = first_in_fewer::<O, C>(cells, next, left, want)?;
    Some(place_behind(SCAN_TURN_BITS, turns, found))
}

/// The first of `count` elements: of blocks, and then of fewer elements.
#[inline(always)]
fn first_in_fewer<O: WordOrder, C: CellsRead>(
    cells: &mut C,
    first: usize,
    count: usize,
    want: bool,
) -> Option<usize>
    requires { HasWindow C.Elem.BITS (C.numbers cells.old) (elements_window C.Elem.BITS first count) }
    ensures value { result
        ≡ first_place want (list_in C.Elem.BITS O.at (C.numbers cells.old) (elements_window C.Elem.BITS first count)) }
    ensures reads { OnlyReadsAtMost C.CellsRead cells.old cells.new count }
{
    let blocks = pieces_of::<C::Elem>(SCAN_BLOCK_BITS, count);
    if let Some(found) = first_in_blocks::<O, C>(cells, first, blocks, want) {
        return Some(found);
    }
    let (next, left) = left_behind::<C::Elem>(SCAN_BLOCK_BITS, first, count);
    let found = first_in_rest::<O, C>(cells, next, left, want)?;
    Some(place_behind(SCAN_BLOCK_BITS, blocks, found))
}

/// The first of the elements of `count` blocks. The compiler unrolls the loop where they are those of a turn.
#[inline(always)]
fn first_in_blocks<O: WordOrder, C: CellsRead>(
    cells: &mut C,
    first: usize,
    count: usize,
    want: bool,
) -> Option<usize>
    requires { HasWindow C.Elem.BITS (C.numbers cells.old) (elements_window C.Elem.BITS first (count * (256 / C.Elem.BITS))) }
    ensures value { result
        ≡ first_place want (list_in C.Elem.BITS O.at (C.numbers cells.old) (elements_window C.Elem.BITS first (count * (256 / C.Elem.BITS)))) }
    ensures reads { OnlyReadsAtMost C.CellsRead cells.old cells.new (count * (256 / C.Elem.BITS)) }
{
    for step in 0..count {
        let block = behind_pieces::<C::Elem>(SCAN_BLOCK_BITS, first, step);
        if let Some(found) = first_in_block::<O, C>(cells, block, want) {
            return Some(place_behind(SCAN_BLOCK_BITS, step, found));
        }
    }
    None
}

/// The first of `count` elements: of words, where they are narrower, and then of single ones.
#[inline(always)]
fn first_in_rest<O: WordOrder, C: CellsRead>(
    cells: &mut C,
    first: usize,
    count: usize,
    want: bool,
) -> Option<usize>
    requires { HasWindow C.Elem.BITS (C.numbers cells.old) (elements_window C.Elem.BITS first count) }
    ensures value { result
        ≡ first_place want (list_in C.Elem.BITS O.at (C.numbers cells.old) (elements_window C.Elem.BITS first count)) }
    ensures reads { OnlyReadsAtMost C.CellsRead cells.old cells.new count }
{
    if C::Elem::BITS >= u64::BITS {
        return first_whole::<O, C>(cells, first, count, want);
    }
    let words = pieces_of::<C::Elem>(WORD_BITS, count);
    for step in 0..words {
        let word = load_word_behind::<O, C>(cells, first, step);
        if let Some(found) = first_in_whole::<O, u64>(word, want) {
            return Some(place_behind(WORD_BITS, step, found));
        }
    }
    let (next, left) = left_behind::<C::Elem>(WORD_BITS, first, count);
    let found = first_whole::<O, C>(cells, next, left, want)?;
    Some(place_behind(WORD_BITS, words, found))
}

/// The first of the elements of a block. If they are wider than a word they are two. Else the machine loads them as
/// words from the least significant bit on, and they are put in the order only where the block has the bit.
#[inline(always)]
fn first_in_block<O: WordOrder, C: CellsRead>(
    cells: &mut C,
    first: usize,
    want: bool,
) -> Option<usize>
    requires { HasWindow C.Elem.BITS (C.numbers cells.old) (elements_window C.Elem.BITS first (256 / C.Elem.BITS)) }
    ensures value { result ≡ first_place want
        (list_in C.Elem.BITS O.at (C.numbers cells.old) (elements_window C.Elem.BITS first (256 / C.Elem.BITS))) }
    ensures reads { OnlyReads C.CellsRead cells.old cells.new (256 / C.Elem.BITS) }
{
    if C::Elem::BITS > u64::BITS {
        let one = cells.load(first);
        let two = cells.load(first + 1);
        return first_in_pair::<O, C::Elem>(one, two, want);
    }
    let one = load_elements::<Lsb0, C>(cells, first);
    let two = load_word_behind::<Lsb0, C>(cells, first, 1);
    let three = load_word_behind::<Lsb0, C>(cells, first, 2);
    let four = load_word_behind::<Lsb0, C>(cells, first, 3);
    let lacking = filled::<u64>(!want);
    if (one ^ lacking) | (two ^ lacking) | (three ^ lacking) | (four ^ lacking) == 0 {
        return None;
    }
    let (one, two) = (ordered::<O, C::Elem>(one), ordered::<O, C::Elem>(two));
    let (three, four) = (ordered::<O, C::Elem>(three), ordered::<O, C::Elem>(four));
    first_of_four::<O>(one, two, three, four, want)
}

/// The first place of a bit in four words, one after the other: None where all bits are the other one.
#[inline(always)]
fn first_of_four<O: BitOrder>(
    one: u64,
    two: u64,
    three: u64,
    four: u64,
    want: bool,
) -> Option<usize>
    ensures { result ≡ first_place want
        ((element_bits 64 O.at one ++ element_bits 64 O.at two)
        ++ (element_bits 64 O.at three ++ element_bits 64 O.at four)) }
{
    if let Some(found) = first_of_two::<O, u64>(one, two, want) {
        return Some(found);
    }
    let found = first_of_two::<O, u64>(three, four, want)?;
    Some(2 * WORD_BITS + found)
}

/// The first of two elements, which are passed by one comparison if they lack the bit.
#[inline(always)]
fn first_in_pair<O: BitOrder, T: BitStore>(one: T, two: T, want: bool) -> Option<usize>
    ensures { result ≡ first_place want (element_bits T.BITS O.at (T.value one) ++ element_bits T.BITS O.at (T.value two)) }
{
    let lacking = filled::<T>(!want);
    if one.xor(lacking).or(two.xor(lacking)).to_u128() == 0 {
        return None;
    }
    first_of_two::<O, T>(one, two, want)
}

/// The first of two elements.
fn first_of_two<O: BitOrder, T: BitStore>(one: T, two: T, want: bool) -> Option<usize>
    ensures { result ≡ first_place want (element_bits T.BITS O.at (T.value one) ++ element_bits T.BITS O.at (T.value two)) }
{
    if let Some(found) = first_in_whole::<O, T>(one, want) {
        return Some(found);
    }
    let found = first_in_whole::<O, T>(two, want)?;
    Some(T::BITS as usize + found)
}
