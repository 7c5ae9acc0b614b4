//! The bits of a window copied to another place of it: by whole elements, from the end at which none
//! is written over before it is read. All down to the loops is inlined into the function that makes
//! the accessor, since a loop that has only a reference to it reads the slice's address again after
//! each store.
ghost use Rattle.std.specs.Prelude.{◌-◌, true, ◌≤◌};
ghost use Rattle.bitvec_base.specs.Lists.{FitsWithin, copied_within};
ghost use Rattle.bitvec_base.specs.Memory.{Edits, HasWindow};
ghost use Rattle.bitvec_base.specs.Spans.{HasSpan};
ghost use Rattle.bitvec_cells.specs.Access.{CostsAtMost};
ghost use Rattle.bitvec_cells.specs.Cost.{edit_loads, write_stores};
ghost use Rattle.bitvec_words.specs.Moves.{Copies};

use crate::moving::move_to;
use bitvec_base::Window;
use bitvec_cells::Cells;
use bitvec_few::{is_few, load_parts, store_parts};
use bitvec_words::WordOrder;

/// Copies the bits `from..to` of a window to `dest` on, also where they overlap; all other bits of
/// the memory stay. Condition: the memory has at most `MAX_BITS` bits, the window lies in it,
/// `from <= to`, and both the bits read and those written lie in the window. It loads each element
/// that the bits touch once, and stores each element that their new place touches once. At each of
/// the two edges it may load the element that it stores, and one of more than 64 bits once more. Of
/// 80 to 511 bytes up to ten are loaded, and up to eight are stored, once more.
#[inline(always)]
pub fn copy_within<O: WordOrder, C: Cells>(
    cells: &mut C,
    window: Window,
    from: usize,
    to: usize,
    dest: usize,
)
    requires window { HasWindow C.Elem.BITS (C.numbers cells.old) window }
    requires fits { FitsWithin from to dest window.len }
    ensures writes { Edits C.Elem.BITS O.at (C.numbers cells.old) (C.numbers cells.new) window (copied_within from to dest) }
    ensures cost { CostsAtMost C.CellsRead cells.old cells.new (edit_loads C.Elem.BITS true (to - from)) (write_stores C.Elem.BITS true (to - from)) }
{
    let source = window.range(from, to);
    let target = window.range(dest, dest + (to - from));
    move_window::<O, C>(cells, target, source);
}

/// Moves the bits of a window to another of the same memory and of the same length, also where they
/// overlap: at most 64 bits as one word, more by whole elements.
#[inline(always)]
fn move_window<O: WordOrder, C: Cells>(cells: &mut C, to: Window, from: Window)
    requires { HasSpan C.Elem.BITS (C.numbers cells.old) (C.numbers cells.old) to from }
    ensures writes { Copies C.Elem.BITS O.at (C.numbers cells.old) (C.numbers cells.new) to (C.numbers cells.old) from }
    ensures cost { CostsAtMost C.CellsRead cells.old cells.new (edit_loads C.Elem.BITS true to.len) (write_stores C.Elem.BITS true to.len) }
{
    if is_few(to.len) {
        move_few::<O, C>(cells, to, from);
        return;
    }
    if to.start <= from.start {
        move_to::<O, C, false>(cells, to, from);
    } else {
        move_to::<O, C, true>(cells, to, from);
    }
}

/// [`move_window`] of at most 64 bits. It stands out of line, so that the loops over more bits stay small enough to be inlined.
#[inline(never)]
fn move_few<O: WordOrder, C: Cells>(cells: &mut C, to: Window, from: Window)
    requires span { HasSpan C.Elem.BITS (C.numbers cells.old) (C.numbers cells.old) to from }
    requires few { to.len ≤ 64 }
    ensures writes { Copies C.Elem.BITS O.at (C.numbers cells.old) (C.numbers cells.new) to (C.numbers cells.old) from }
    ensures cost { CostsAtMost C.CellsRead cells.old cells.new (edit_loads C.Elem.BITS true to.len) (write_stores C.Elem.BITS true to.len) }
{
    let word = load_parts::<O, C>(cells, from);
    store_parts::<O, C>(cells, to, word);
}
