//! How an order works on whole windows.
ghost use Rattle.std.specs.Prelude.{◌≡◌, ◌-◌, ◌<◌, Bool, reverse, true};
ghost use Rattle.bitvec_base.specs.Lists.{FitsWithin, combined, copied_within, first_place, last_place, same_bits};
ghost use Rattle.bitvec_base.specs.Memory.{Edits, HasWindow, Writes, element_bits, list_in};
ghost use Rattle.bitvec_base.specs.Spans.{HasSpan};
ghost use Rattle.bitvec_cells.specs.Access.{CostsAtMost, OnlyReads, OnlyReadsAtMost};
ghost use Rattle.bitvec_words.specs.Front.{IsFront};
ghost use Rattle.bitvec_words.specs.Operator.{operator};
ghost use Rattle.bitvec_cells.specs.Cost.{edit_loads, equal_loads, first_loads, last_loads, read_loads, reverse_loads, reverse_stores, touched_count, write_loads, write_stores};

use bitvec_base::{BitOrder, Window};
use bitvec_cells::{Cells, CellsRead};
use bitvec_store::BitStore;
use bitvec_words::{BitOp, bits_load_front, bits_lowest_first, bits_scan_first, bits_scan_last};

/// A bit order with its way of working on whole windows.
///
/// An order with `WORDS` works by words of `usize` where it can. One without goes by elements where
/// the windows begin at the same index of one, and bit by bit elsewhere: by the functions
/// `elements_..` and `bits_..`, one line each. Both meet one contract, and the constant stands in
/// its bounds on loads and stores alone. Conditions of all: each memory has at most `MAX_BITS`
/// bits, and each window lies in its memory.
pub trait SliceOrder: BitOrder {
    ghost WORDS: { Bool };

    /// Whether the order works by words.
    const WORDS: bool;

    /// Whether two windows have the same bits; windows that aren't as long take no load.
    fn block_eq<C: CellsRead, D: CellsRead<Elem = C::Elem>>(
        left: &mut C,
        left_window: Window,
        right: &mut D,
        right_window: Window,
    ) -> bool
        requires window { HasWindow C.Elem.BITS (C.numbers left.old) left_window }
        requires right_window { HasWindow C.Elem.BITS (D.numbers right.old) right_window }
        ensures value { result ≡ same_bits (list_in C.Elem.BITS Self.at (C.numbers left.old) left_window)
            (list_in C.Elem.BITS Self.at (D.numbers right.old) right_window) }
        ensures reads { OnlyReadsAtMost C.CellsRead left.old left.new (equal_loads C.Elem.BITS WORDS left_window.len right_window.len) }
        ensures right { OnlyReadsAtMost D.CellsRead right.old right.new (equal_loads C.Elem.BITS WORDS left_window.len right_window.len) };

    /// Copies the bits of a window of another memory. Condition: the windows are as long.
    fn block_copy<C: Cells, D: CellsRead<Elem = C::Elem>>(
        left: &mut C,
        to: Window,
        right: &mut D,
        from: Window,
    )
        requires { HasSpan C.Elem.BITS (C.numbers left.old) (D.numbers right.old) to from }
        ensures writes { Writes C.Elem.BITS Self.at (C.numbers left.old) (C.numbers left.new) to
            (list_in C.Elem.BITS Self.at (D.numbers right.old) from) }
        ensures cost { CostsAtMost C.CellsRead left.old left.new (write_loads C.Elem.BITS WORDS to.len) (write_stores C.Elem.BITS WORDS to.len) }
        ensures right { OnlyReadsAtMost D.CellsRead right.old right.new (read_loads C.Elem.BITS WORDS to.len) };

    /// Exchanges the bits of two windows of two memories. Condition: the windows are as long.
    fn block_swap<C: Cells, D: Cells + CellsRead<Elem = C::Elem>>(
        left: &mut C,
        left_window: Window,
        right: &mut D,
        right_window: Window,
    )
        requires { HasSpan C.Elem.BITS (C.numbers left.old) (D.numbers right.old) left_window right_window }
        ensures writes { Writes C.Elem.BITS Self.at (C.numbers left.old) (C.numbers left.new) left_window
            (list_in C.Elem.BITS Self.at (D.numbers right.old) right_window) }
        ensures cost { CostsAtMost C.CellsRead left.old left.new (edit_loads C.Elem.BITS WORDS left_window.len) (write_stores C.Elem.BITS WORDS left_window.len) }
        ensures right_writes { Writes C.Elem.BITS Self.at (D.numbers right.old) (D.numbers right.new) right_window
            (list_in C.Elem.BITS Self.at (C.numbers left.old) left_window) }
        ensures right_cost { CostsAtMost D.CellsRead right.old right.new (edit_loads C.Elem.BITS WORDS left_window.len) (write_stores C.Elem.BITS WORDS left_window.len) };

    /// Copies the bits `from..to` of a window to `dest` on, also where they overlap. Condition:
    /// `from <= to`, and both the bits read and those written lie in the window.
    fn block_copy_within<C: Cells>(
        cells: &mut C,
        window: Window,
        from: usize,
        to: usize,
        dest: usize,
    )
        requires window { HasWindow C.Elem.BITS (C.numbers cells.old) window }
        requires fits { FitsWithin from to dest window.len }
        ensures writes { Edits C.Elem.BITS Self.at (C.numbers cells.old) (C.numbers cells.new) window (copied_within from to dest) }
        ensures cost { CostsAtMost C.CellsRead cells.old cells.new (edit_loads C.Elem.BITS WORDS (to - from)) (write_stores C.Elem.BITS WORDS (to - from)) };

    /// Replaces each bit of a window by what the operator makes of it and the one at its index in
    /// another window, which counts as 0 past that window's end.
    fn block_op<C: Cells, D: CellsRead<Elem = C::Elem>>(
        left: &mut C,
        to: Window,
        right: &mut D,
        from: Window,
        op: BitOp,
    )
        requires window { HasWindow C.Elem.BITS (C.numbers left.old) to }
        requires right_window { HasWindow C.Elem.BITS (D.numbers right.old) from }
        ensures writes { Writes C.Elem.BITS Self.at (C.numbers left.old) (C.numbers left.new) to
            (combined (operator op) (list_in C.Elem.BITS Self.at (C.numbers left.old) to) (list_in C.Elem.BITS Self.at (D.numbers right.old) from)) }
        ensures cost { CostsAtMost C.CellsRead left.old left.new (edit_loads C.Elem.BITS WORDS to.len) (write_stores C.Elem.BITS WORDS to.len) }
        ensures right { OnlyReadsAtMost D.CellsRead right.old right.new (read_loads C.Elem.BITS WORDS to.len) };

    /// Puts the bits of a window in the opposite order.
    fn block_reverse<C: Cells>(cells: &mut C, window: Window)
        requires { HasWindow C.Elem.BITS (C.numbers cells.old) window }
        ensures writes { Edits C.Elem.BITS Self.at (C.numbers cells.old) (C.numbers cells.new) window reverse }
        ensures cost { CostsAtMost C.CellsRead cells.old cells.new (reverse_loads C.Elem.BITS WORDS window.len) (reverse_stores C.Elem.BITS WORDS window.len) };

    /// The index of a window's first bit that is `want`, if there is one. It loads each element at
    /// most once, from the first on, and none behind the bit.
    fn scan_first<C: CellsRead>(cells: &mut C, window: Window, want: bool) -> Option<usize>
        requires { HasWindow C.Elem.BITS (C.numbers cells.old) window }
        ensures value { result ≡ first_place want (list_in C.Elem.BITS Self.at (C.numbers cells.old) window) }
        ensures reads { OnlyReadsAtMost C.CellsRead cells.old cells.new (first_loads C.Elem.BITS window result) }
    {
        bits_scan_first::<Self, C>(cells, window, want)
    }

    /// The index that [`SliceOrder::scan_first`] gives, by the fastest order of loads: it loads
    /// each element that the window touches at most once, perhaps some behind the bit. An order that
    /// says nothing of it searches by its own `scan_first`.
    fn find_first<C: CellsRead>(cells: &mut C, window: Window, want: bool) -> Option<usize>
        requires { HasWindow C.Elem.BITS (C.numbers cells.old) window }
        ensures value { result ≡ first_place want (list_in C.Elem.BITS Self.at (C.numbers cells.old) window) }
        ensures reads { OnlyReadsAtMost C.CellsRead cells.old cells.new (touched_count C.Elem.BITS window.start window.len) }
    {
        Self::scan_first::<C>(cells, window, want)
    }

    /// The index of a window's last bit that is `want`, if there is one. It loads each element at
    /// most once, from the last on, and none before the bit.
    fn scan_last<C: CellsRead>(cells: &mut C, window: Window, want: bool) -> Option<usize>
        requires { HasWindow C.Elem.BITS (C.numbers cells.old) window }
        ensures value { result ≡ last_place want (list_in C.Elem.BITS Self.at (C.numbers cells.old) window) }
        ensures reads { OnlyReadsAtMost C.CellsRead cells.old cells.new (last_loads C.Elem.BITS window result) }
    {
        bits_scan_last::<Self, C>(cells, window, want)
    }

    /// The first bits of a window as the first bits of a word, and how many they are: at least one, and
    /// at most 64. Where more are left, and elements have at most 64 bits, the next one begins an
    /// element. The word's other bits are 0. Condition: the window isn't empty. It loads each element
    /// that these bits touch once.
    fn load_front<C: CellsRead>(cells: &mut C, window: Window) -> (u64, usize)
        requires window { HasWindow C.Elem.BITS (C.numbers cells.old) window }
        requires some { 0 < window.len }
        ensures value { IsFront C.Elem.BITS Self.at (C.numbers cells.old) window result.0 result.1 }
        ensures reads { OnlyReads C.CellsRead cells.old cells.new (touched_count C.Elem.BITS window.start result.1) }
    {
        bits_load_front::<Self, C>(cells, window)
    }

    /// The word whose bit number `i`, from the least significant one, is the bit at index `i` of
    /// the order.
    fn lowest_first(word: u64) -> u64
        ensures { element_bits 64 (λ b i. i) result ≡ element_bits 64 Self.at word }
    {
        bits_lowest_first::<Self>(word)
    }
}

/// An order that works by words: what its block functions cost at most is told in steps of 64 bits.
pub trait ByWords: SliceOrder {
    ghost words_law: { Self.WORDS ≡ true };
}
