//! Orders under which the bits of a window are a number.
ghost use Rattle.std.specs.Prelude.{◌≡◌, ◌≤◌};
ghost use Rattle.bitvec_base.specs.Memory.{Edits, HasWindow, list_in};
ghost use Rattle.bitvec_cells.specs.Access.{CostsAtMost, OnlyReads};
ghost use Rattle.bitvec_segments.specs.Segments.{loaded_be, loaded_le, stored_be, stored_le};
ghost use Rattle.bitvec_cells.specs.Cost.{fill_loads, touched_count};

use bitvec_base::{Lsb0, Msb0, Window};
use bitvec_cells::{Cells, CellsRead};
use bitvec_segments::{load, store};
use bitvec_store::BitStore;
use bitvec_words::WordOrder;

/// An order under which a window of at most 128 bits is loaded and stored as a number, whose segments
/// are the window's bits cut at the edges of elements.
///
/// The first bit of a segment is its highest where the order begins with the most significant bit of
/// an element (`HIGH`), and else its lowest. `le` takes the first segment as the lowest, `be` as the
/// highest. Conditions of all: the window has at most 128 bits, and lies in a memory of at most
/// `MAX_BITS` bits; the number of no bits is 0.
pub trait FieldOrder: WordOrder {
    /// The number of a window, its first segment lowest. It loads each element that the window
    /// touches once.
    #[inline(always)]
    fn load_le<C: CellsRead>(cells: &mut C, window: Window) -> u128
        requires window { HasWindow C.Elem.BITS (C.numbers cells.old) window }
        requires bound { window.len ≤ 128 }
        ensures value { result
            ≡ loaded_le Self.HIGH C.Elem.BITS window.start (list_in C.Elem.BITS Self.at (C.numbers cells.old) window) }
        ensures reads { OnlyReads C.CellsRead cells.old cells.new (touched_count C.Elem.BITS window.start window.len) }
    {
        load::<false, Self, C>(cells, window)
    }

    /// The number of a window, its first segment highest. It loads each element that the window
    /// touches once.
    #[inline(always)]
    fn load_be<C: CellsRead>(cells: &mut C, window: Window) -> u128
        requires window { HasWindow C.Elem.BITS (C.numbers cells.old) window }
        requires bound { window.len ≤ 128 }
        ensures value { result
            ≡ loaded_be Self.HIGH C.Elem.BITS window.start (list_in C.Elem.BITS Self.at (C.numbers cells.old) window) }
        ensures reads { OnlyReads C.CellsRead cells.old cells.new (touched_count C.Elem.BITS window.start window.len) }
    {
        load::<true, Self, C>(cells, window)
    }

    /// Gives a window of `n` bits those for which `load_le` gives the number modulo `2^n`. It stores
    /// each element that the window touches once, and loads at most the first and the last.
    #[inline(always)]
    fn store_le<C: Cells>(cells: &mut C, window: Window, number: u128)
        requires window { HasWindow C.Elem.BITS (C.numbers cells.old) window }
        requires bound { window.len ≤ 128 }
        ensures writes { Edits C.Elem.BITS Self.at (C.numbers cells.old) (C.numbers cells.new) window
            (stored_le Self.HIGH C.Elem.BITS window.start number) }
        ensures cost { CostsAtMost C.CellsRead cells.old cells.new (fill_loads window.len) (touched_count C.Elem.BITS window.start window.len) }
    {
        store::<false, Self, C>(cells, window, number);
    }

    /// Gives a window of `n` bits those for which `load_be` gives the number modulo `2^n`. It stores
    /// each element that the window touches once, and loads at most the first and the last.
    #[inline(always)]
    fn store_be<C: Cells>(cells: &mut C, window: Window, number: u128)
        requires window { HasWindow C.Elem.BITS (C.numbers cells.old) window }
        requires bound { window.len ≤ 128 }
        ensures writes { Edits C.Elem.BITS Self.at (C.numbers cells.old) (C.numbers cells.new) window
            (stored_be Self.HIGH C.Elem.BITS window.start number) }
        ensures cost { CostsAtMost C.CellsRead cells.old cells.new (fill_loads window.len) (touched_count C.Elem.BITS window.start window.len) }
    {
        store::<true, Self, C>(cells, window, number);
    }
}

// Both impls write them as the trait has them: a body that is taken over is compiled as a call, without the trait's mark.

impl FieldOrder for Lsb0 {
    #[inline(always)]
    fn load_le<C: CellsRead>(cells: &mut C, window: Window) -> u128 {
        load::<false, Lsb0, C>(cells, window)
    }

    #[inline(always)]
    fn load_be<C: CellsRead>(cells: &mut C, window: Window) -> u128 {
        load::<true, Lsb0, C>(cells, window)
    }

    #[inline(always)]
    fn store_le<C: Cells>(cells: &mut C, window: Window, number: u128) {
        store::<false, Lsb0, C>(cells, window, number);
    }

    #[inline(always)]
    fn store_be<C: Cells>(cells: &mut C, window: Window, number: u128) {
        store::<true, Lsb0, C>(cells, window, number);
    }
}

impl FieldOrder for Msb0 {
    #[inline(always)]
    fn load_le<C: CellsRead>(cells: &mut C, window: Window) -> u128 {
        load::<false, Msb0, C>(cells, window)
    }

    #[inline(always)]
    fn load_be<C: CellsRead>(cells: &mut C, window: Window) -> u128 {
        load::<true, Msb0, C>(cells, window)
    }

    #[inline(always)]
    fn store_le<C: Cells>(cells: &mut C, window: Window, number: u128) {
        store::<false, Msb0, C>(cells, window, number);
    }

    #[inline(always)]
    fn store_be<C: Cells>(cells: &mut C, window: Window, number: u128) {
        store::<true, Msb0, C>(cells, window, number);
    }
}
