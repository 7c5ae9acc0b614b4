//! Bit operations on whole windows by words. What loops is inlined into the function that makes the accessors:
//! vectors come only where the compiler sees through them, in loops of each caller's own.
#![tactic(auto, using(bitvec_cells::specs::CostLaws::enough))]

ghost use Rattle.std.specs.Prelude.{refl, true};

use crate::slice_order::{ByWords, SliceOrder};
use bitvec_base::{Lsb0, Msb0, Window};
use bitvec_cells::{Cells, CellsRead};
use bitvec_combine::{combine, copy, equal};
use bitvec_move::{copy_within, swap};
use bitvec_passes::words_reverse;
use bitvec_words::{BitOp, WordOrder, reversed, words_load_front, words_scan_first};

/// The orders that work by words here. An order of another crate says itself how it works.
trait InWords: WordOrder {}

impl InWords for Lsb0 {}

impl InWords for Msb0 {}

impl<O: InWords> SliceOrder for O {
    ghost WORDS = { true };

    const WORDS: bool = true;

    #[inline(always)]
    fn block_eq<C: CellsRead, D: CellsRead<Elem = C::Elem>>(
        left: &mut C,
        left_window: Window,
        right: &mut D,
        right_window: Window,
    ) -> bool {
        equal::<Self, C, D>(left, left_window, right, right_window)
    }

    #[inline(always)]
    fn block_copy<C: Cells, D: CellsRead<Elem = C::Elem>>(
        left: &mut C,
        to: Window,
        right: &mut D,
        from: Window,
    ) {
        copy::<Self, C, D>(left, to, right, from);
    }

    #[inline(always)]
    fn block_swap<C: Cells, D: Cells + CellsRead<Elem = C::Elem>>(
        left: &mut C,
        left_window: Window,
        right: &mut D,
        right_window: Window,
    ) {
        swap::<Self, C, D>(left, left_window, right, right_window);
    }

    #[inline(always)]
    fn block_copy_within<C: Cells>(
        cells: &mut C,
        window: Window,
        from: usize,
        to: usize,
        dest: usize,
    ) {
        copy_within::<Self, C>(cells, window, from, to, dest);
    }

    #[inline(always)]
    fn block_op<C: Cells, D: CellsRead<Elem = C::Elem>>(
        left: &mut C,
        to: Window,
        right: &mut D,
        from: Window,
        op: BitOp,
    ) {
        combine::<Self, C, D>(left, to, right, from, op);
    }

    #[inline(always)]
    fn block_reverse<C: Cells>(cells: &mut C, window: Window) {
        words_reverse::<Self, C>(cells, window);
    }

    #[inline(always)]
    fn find_first<C: CellsRead>(cells: &mut C, window: Window, want: bool) -> Option<usize> {
        words_scan_first::<Self, C>(cells, window, want)
    }

    #[inline(always)]
    fn load_front<C: CellsRead>(cells: &mut C, window: Window) -> (u64, usize) {
        words_load_front::<Self, C>(cells, window)
    }

    #[inline(always)]
    fn lowest_first(word: u64) -> u64 {
        if Self::HIGH {
            reversed::<Self, u64>(word)
        } else {
            word
        }
    }
}

impl ByWords for Lsb0 {
    ghost words_law = { refl };
}

impl ByWords for Msb0 {
    ghost words_law = { refl };
}
