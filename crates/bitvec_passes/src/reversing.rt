//! The bits of a window in the opposite order, by blocks from both ends: the elements of each are loaded into an
//! array in the opposite order, and copied from it to the other end.
ghost use Rattle.std.specs.Prelude.{◌≡◌, ◌+◌, ◌-◌, ◌*◌, ◌/◌, ◌%◌, ◌^◌, ◌<◌, length, map, reverse as reversal, true};
ghost use Rattle.bitvec_base.specs.Memory.{Edits, HasWindow, list_in};
ghost use Rattle.bitvec_cells.specs.Access.{CostsAtMost, OnlyReads};
ghost use Rattle.bitvec_cells.specs.Cost.{reverse_loads, reverse_stores, step_span, touched_count, work_steps};
ghost use Rattle.bitvec_passes.specs.Ends.{HasEnds, HoldsBeside, IsAmid, IsBlock, Mirrors, ends_exchanged};

use bitvec_base::Window;
use bitvec_cells::{Cells, CellsRead, Exclusive, Shared};
use bitvec_combine::copy_equal;
use bitvec_move::move_elements;
use bitvec_store::BitStore;
use bitvec_words::{Stretch, WordOrder, reversed, touched};

/// Reverses the bits of a window; all other bits of the memory stay. Condition: the memory has at
/// most `MAX_BITS` bits, and the window lies in it.
///
/// It exchanges blocks of 16 elements a side, or of 128 in windows of more than 32 elements. It loads each touched
/// element of a block once, and at most four of them again.
#[inline(always)]
pub fn words_reverse<O: WordOrder, C: Cells>(cells: &mut C, window: Window)
    requires { HasWindow C.Elem.BITS (C.numbers cells.old) window }
    ensures writes { Edits C.Elem.BITS O.at (C.numbers cells.old) (C.numbers cells.new) window reversal }
    ensures cost { CostsAtMost C.CellsRead cells.old cells.new (reverse_loads C.Elem.BITS true window.len) (reverse_stores C.Elem.BITS true window.len) }
{
    if window.len <= 32 * C::Elem::BITS as usize {
        reverse_blocks::<O, C, 19>(cells, window);
    } else {
        reverse_blocks::<O, C, 131>(cells, window);
    }
}

/// [`words_reverse`] by blocks from each end, of the bits of three elements fewer than `HELD`.
#[inline(always)]
fn reverse_blocks<O: WordOrder, C: Cells, const HELD: usize>(cells: &mut C, window: Window)
    requires window { HasWindow C.Elem.BITS (C.numbers cells.old) window }
    requires held { IsBlock HELD }
    ensures writes { Edits C.Elem.BITS O.at (C.numbers cells.old) (C.numbers cells.new) window reversal }
    ensures cost { CostsAtMost C.CellsRead cells.old cells.new (reverse_loads C.Elem.BITS true window.len) (reverse_stores C.Elem.BITS true window.len) }
{
    C::Elem::fits_in_memory();
    let mut first = [C::Elem::ZERO; HELD];
    let mut last = [C::Elem::ZERO; HELD];
    let room = bits_of::<C::Elem>(HELD - 3);
    let half = window.len / 2;
    let mut low = 0;
    while low < half {
        let count = room.min(half - low);
        exchange_ends::<O, C>(cells, window, low, count, &mut first, &mut last);
        low += count;
    }
}

/// Exchanges `count` bits of a window from `low` on with those that end as far before its end, each in
/// the opposite order, which two arrays hold in between. Condition: as for [`words_reverse`]; there are some, and they
/// lie apart; the arrays are as long, with room for them and three elements more.
#[inline(always)]
fn exchange_ends<O: WordOrder, C: Cells>(
    cells: &mut C,
    window: Window,
    low: usize,
    count: usize,
    first: &mut [C::Elem],
    last: &mut [C::Elem],
)
    requires window { HasWindow C.Elem.BITS (C.numbers cells.old) window }
    requires ends { HasEnds window.len low count }
    requires held { HoldsBeside C.Elem.BITS count (length first.old) }
    requires lengths { length last.old ≡ length first.old }
    ensures writes { Edits C.Elem.BITS O.at (C.numbers cells.old) (C.numbers cells.new) window (ends_exchanged low (window.len - low) count) }
    ensures cost { let steps = 2 * work_steps true count in
        CostsAtMost C.CellsRead cells.old cells.new (steps * (step_span C.Elem.BITS true + 2)) (steps * step_span C.Elem.BITS true) }
{
    let high = window.len - low;
    let front = window.range(low, low + count);
    let back = window.range(high - count, high);
    let mirrored = load_mirrored::<O, C>(cells, front, first);
    let from_first = in_phase::<O, C::Elem>(first, mirrored, back);
    let mirrored = load_mirrored::<O, C>(cells, back, last);
    let from_last = in_phase::<O, C::Elem>(last, mirrored, front);
    copy_equal::<O, C, Shared<C::Elem>>(cells, front, &mut Shared::new(&*last), from_last);
    copy_equal::<O, C, Shared<C::Elem>>(cells, back, &mut Shared::new(&*first), from_first);
}

/// Loads the elements that a window touches into the last ones but one of some others, each in the opposite
/// order, and gives the window of these that has the window's bits. Condition: as for [`words_reverse`]; the window
/// isn't empty, and the others have room for it and three elements more.
#[inline(always)]
fn load_mirrored<O: WordOrder, C: Cells>(
    cells: &mut C,
    window: Window,
    held: &mut [C::Elem],
) -> Window
    requires window { HasWindow C.Elem.BITS (C.numbers cells.old) window }
    requires some { 0 < window.len }
    requires held { HoldsBeside C.Elem.BITS window.len (length held.old) }
    ensures mirrors { Mirrors C.Elem.BITS O.at (C.numbers cells.old) window (map C.Elem.value held.new) result }
    ensures reads { OnlyReads C.CellsRead cells.old cells.new (touched_count C.Elem.BITS window.start window.len) }
{
    let first = window.element::<C::Elem>();
    let count = touched::<C::Elem>(window);
    let most = held.len();
    let (from, last) = (most - 1 - count, first + count - 1);
    for step in 0..count {
        held[from + step] = reversed::<O, C::Elem>(cells.load(last - step));
    }
    let skip = window.phase::<C::Elem>();
    let room = bits_of::<C::Elem>(most - 1);
    Window {
        start: room - skip - window.len,
        len: window.len,
    }
}

/// How many bits so many elements of type `T` have. Condition: they are a `usize`.
#[inline(always)]
fn bits_of<T: BitStore>(count: usize) -> usize
    requires { T.BITS * count < 2 ^ 64 }
    ensures { result ≡ T.BITS * count }
{
    T::BITS as usize * count
}

/// Moves a window of some elements toward their start until it begins at the same index of an element as
/// another one, and gives its new place. Condition: an element stands before the window, and one behind it.
///
/// It is left out of line, since it works on an array alone: so what is inlined into [`words_reverse`] stays small.
fn in_phase<O: WordOrder, T: BitStore>(held: &mut [T], window: Window, other: Window) -> Window
    requires { IsAmid T.BITS (map T.value held.old) window }
    ensures window { HasWindow T.BITS (map T.value held.new) result }
    ensures len { result.len ≡ window.len }
    ensures phase { result.start % T.BITS ≡ other.start % T.BITS }
    ensures list { list_in T.BITS O.at (map T.value held.new) result ≡ list_in T.BITS O.at (map T.value held.old) window }
{
    let skip = other.phase::<T>();
    let before = Window {
        start: window.start - skip,
        ..window
    };
    let by = before.phase::<T>();
    let place = Window {
        start: window.start - by,
        ..window
    };
    if by > 0 {
        let first = place.element::<T>();
        let count = touched::<T>(place);
        let mut cells = Exclusive::new(held);
        let moved = Stretch {
            first,
            source: first,
            skip: by,
            count,
        };
        move_elements::<O, Exclusive<T>, false>(&mut cells, moved);
    }
    place
}
