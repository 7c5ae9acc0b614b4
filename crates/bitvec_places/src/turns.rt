//! Turns of a walk, each from the end that it names.
ghost use Rattle.std.specs.Prelude.{◌≡◌, ◌+◌, length};
ghost use Rattle.bitvec_base.specs.Lists.{places_of};
ghost use Rattle.bitvec_base.specs.Memory.{HasWindow, list_in};
ghost use Rattle.bitvec_cells.specs.Access.{OnlyReadsAtMost};
ghost use Rattle.bitvec_cells.specs.Cost.{touched_count};
ghost use Rattle.bitvec_places.specs.Loads.{LoadsPassed};
ghost use Rattle.bitvec_places.specs.Places.{IsRestOf, places_left};
ghost use Rattle.bitvec_places.specs.Turns.{TurnGives, count_given, turns_give};

use crate::rest::Rest;
use crate::taking::{take_first, take_last};
use bitvec_base::Window;
use bitvec_cells::CellsRead;
use bitvec_engine::SliceOrder;
use bitvec_store::BitStore;

/// An end of a walk.
#[derive(Clone, Copy, PartialEq, Eq, Debug)]
pub enum End {
    /// That of the lowest index.
    Front,
    /// That of the highest index.
    Back,
}

/// Walks over the indices of a window's bits that are `want`: entry `k` of `out` becomes the index
/// that turn `k` gives from its end, or `None` where none is left. Condition: the memory has at
/// most `MAX_BITS` bits, the window lies in it, and there are as many turns as entries. It loads
/// each element that the window touches at most once, and one element more for each index given.
pub fn scan_turns<O: SliceOrder, C: CellsRead>(
    cells: &mut C,
    window: Window,
    want: bool,
    turns: &[End],
    out: &mut [Option<usize>],
)
    requires window { HasWindow C.Elem.BITS (C.numbers cells.old) window }
    requires lengths { length turns.now ≡ length out.old }
    ensures gives { out.new ≡ turns_give (places_of want (list_in C.Elem.BITS O.at (C.numbers cells.old) window)) turns.now }
    ensures reads { OnlyReadsAtMost C.CellsRead cells.old cells.new (touched_count C.Elem.BITS window.start window.len + count_given out.new) }
{
    let mut rest = Rest {
        front: 0,
        back: window.len,
    };
    for (number, end) in turns.iter().enumerate() {
        out[number] = take_from::<O, C>(cells, window, want, &mut rest, *end);
    }
}

/// The index that a turn from this end gives. Condition: as for [`take_first`].
fn take_from<O: SliceOrder, C: CellsRead>(
    cells: &mut C,
    window: Window,
    want: bool,
    rest: &mut Rest,
    end: End,
) -> Option<usize>
    requires window { HasWindow C.Elem.BITS (C.numbers cells.old) window }
    requires inside { IsRestOf rest.old window.len }
    ensures inside { IsRestOf rest.new window.len }
    ensures gives { let places = places_left want (list_in C.Elem.BITS O.at (C.numbers cells.old) window) in
        TurnGives (places rest.old) end result (places rest.new) }
    ensures reads { LoadsPassed C.CellsRead C.Elem.BITS window rest.old rest.new result cells.old cells.new }
{
    match end {
        End::Front => take_first::<O, C>(cells, window, want, rest),
        End::Back => take_last::<O, C>(cells, window, want, rest),
    }
}
