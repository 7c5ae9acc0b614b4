//! The first and the last place of a bit that a walk has yet to reach.
ghost use Rattle.std.specs.Prelude.{◌≡◌, ◌+◌, ◌-◌, length};
ghost use Rattle.std.specs.Iterator.{YieldsFirst, YieldsLast};
ghost use Rattle.bitvec_base.specs.Memory.{HasWindow, list_in};
ghost use Rattle.bitvec_cells.specs.Access.{OnlyReads};
ghost use Rattle.bitvec_cells.specs.Cost.{touched_count};
ghost use Rattle.bitvec_places.specs.Loads.{LoadsPassed};
ghost use Rattle.bitvec_places.specs.Places.{IsRestOf, ShortensBack, places_left};

use crate::rest::Rest;
use bitvec_base::{BitOrder, Window};
use bitvec_cells::CellsRead;
use bitvec_engine::SliceOrder;
use bitvec_store::BitStore;
use bitvec_words::{count, count_zeros};

/// The first index of the rest whose bit is `want`, if there is one; the rest then begins behind
/// it, or is empty. Condition: the memory has at most `MAX_BITS` bits, the window lies in it, and
/// the rest is a range of its indices. It loads each element up to the index once.
pub fn take_first<O: SliceOrder, C: CellsRead>(
    cells: &mut C,
    window: Window,
    want: bool,
    rest: &mut Rest,
) -> Option<usize>
    requires window { HasWindow C.Elem.BITS (C.numbers cells.old) window }
    requires inside { IsRestOf rest.old window.len }
    ensures inside { IsRestOf rest.new window.len }
    ensures gives { YieldsFirst (places_left want (list_in C.Elem.BITS O.at (C.numbers cells.old) window)) rest.old result rest.new }
    ensures reads { LoadsPassed C.CellsRead C.Elem.BITS window rest.old rest.new result cells.old cells.new }
{
    let left = window.range(rest.front, rest.back);
    match O::scan_first::<C>(cells, left, want) {
        Some(found) => {
            let index = rest.front + found;
            rest.front = index + 1;
            Some(index)
        }
        None => {
            rest.front = rest.back;
            None
        }
    }
}

/// The last index of the rest whose bit is `want`, if there is one; the rest then ends before it,
/// or is empty, and begins where it did. Condition: as for [`take_first`]. It loads each element from
/// the index on once.
pub fn take_last<O: SliceOrder, C: CellsRead>(
    cells: &mut C,
    window: Window,
    want: bool,
    rest: &mut Rest,
) -> Option<usize>
    requires window { HasWindow C.Elem.BITS (C.numbers cells.old) window }
    requires inside { IsRestOf rest.old window.len }
    ensures rest { ShortensBack rest.old rest.new window.len }
    ensures gives { YieldsLast (places_left want (list_in C.Elem.BITS O.at (C.numbers cells.old) window)) rest.old result rest.new }
    ensures reads { LoadsPassed C.CellsRead C.Elem.BITS window rest.old rest.new result cells.old cells.new }
{
    let left = window.range(rest.front, rest.back);
    match O::scan_last::<C>(cells, left, want) {
        Some(found) => {
            let index = rest.front + found;
            rest.back = index;
            Some(index)
        }
        None => {
            rest.back = rest.front;
            None
        }
    }
}

/// How many bits of the rest are `want`. Condition: as for [`take_first`]. It loads each element that
/// the rest touches once.
pub fn count_left<O: BitOrder, C: CellsRead>(
    cells: &mut C,
    window: Window,
    want: bool,
    rest: Rest,
) -> usize
    requires window { HasWindow C.Elem.BITS (C.numbers cells.old) window }
    requires inside { IsRestOf rest window.len }
    ensures value { result ≡ length (places_left want (list_in C.Elem.BITS O.at (C.numbers cells.old) window) rest) }
    ensures reads { OnlyReads C.CellsRead cells.old cells.new (touched_count C.Elem.BITS (window.start + rest.front) (rest.back - rest.front)) }
{
    let left = window.range(rest.front, rest.back);
    if want {
        count::<O, C>(cells, left)
    } else {
        count_zeros::<O, C>(cells, left)
    }
}
