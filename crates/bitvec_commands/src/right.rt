//! Commands with a right list.
ghost use Rattle.std.specs.Prelude.{◌≡◌, ◌+◌, ◌<◌, ◌^◌};
ghost use Rattle.bitvec_base.specs.Memory.{HasWindow, list_in};
ghost use Rattle.bitvec_base.specs.Window.{IsWithin};
ghost use Rattle.bitvec_commands.specs.Commands.{op_row};
ghost use Rattle.bitvec_commands.specs.Follows.{FollowsBoth, window_inside};
ghost use Rattle.bitvec_commands.specs.Groups.{Combine, Compare, FitsList, FitsRight, group};

use crate::{Op, Reply};
use bitvec_base::Window;
use bitvec_cells::{Cells, CellsRead};
use bitvec_engine::{SliceOrder, contains, ends_with, starts_with};
use bitvec_store::BitStore;
use bitvec_words::BitOp;

/// An edit of the list that a window holds, by bits of the right list, which `source` holds.
/// Condition: each memory has at most `MAX_BITS` bits, each window lies in its memory, the right
/// window in the right list, and the bits of a copy are as many as the list's.
pub(crate) fn combine<O, C, D>(
    cells: &mut C,
    target: Window,
    right: &mut D,
    source: Window,
    op: Op,
) -> Reply
where
    O: SliceOrder,
    C: Cells,
    D: CellsRead<Elem = C::Elem>,
    requires window { HasWindow C.Elem.BITS (C.numbers cells.old) target }
    requires right_window { HasWindow C.Elem.BITS (D.numbers right.old) source }
    requires group { group op ≡ Combine }
    requires fits { FitsList target.len op }
    requires fits_right { FitsRight source.len op }
    ensures { let row = op_row (list_in C.Elem.BITS O.at (D.numbers right.old) source) target.len op in
        FollowsBoth C.CellsRead D.CellsRead C.Elem.BITS O.at O.WORDS row target cells.old cells.new right.old right.new result }
{
    match op {
        Op::CopyFrom(window) => {
            O::block_copy::<C, D>(cells, target, right, inside(source, window));
        }
        Op::And(window) => {
            O::block_op::<C, D>(cells, target, right, inside(source, window), BitOp::And);
        }
        Op::Or(window) => {
            O::block_op::<C, D>(cells, target, right, inside(source, window), BitOp::Or);
        }
        Op::Xor(window) => {
            O::block_op::<C, D>(cells, target, right, inside(source, window), BitOp::Xor);
        }
        _ => unreachable!(),
    }
    Reply::Done
}

/// A comparison of the list that a window holds with bits of the right list, which `source` holds.
/// Condition: as for [`combine`].
pub(crate) fn compare<O, C, D>(
    cells: &mut C,
    target: Window,
    right: &mut D,
    source: Window,
    op: Op,
) -> Reply
where
    O: SliceOrder,
    C: CellsRead,
    D: CellsRead<Elem = C::Elem>,
    requires window { HasWindow C.Elem.BITS (C.numbers cells.old) target }
    requires right_window { HasWindow C.Elem.BITS (D.numbers right.old) source }
    requires group { group op ≡ Compare }
    requires fits_right { FitsRight source.len op }
    ensures { let row = op_row (list_in C.Elem.BITS O.at (D.numbers right.old) source) target.len op in
        FollowsBoth C.CellsRead D.CellsRead C.Elem.BITS O.at O.WORDS row target cells.old cells.new right.old right.new result }
{
    match op {
        Op::Eq(window) => {
            Reply::Bit(O::block_eq::<C, D>(cells, target, right, inside(source, window)))
        }
        Op::Cmp(window) => {
            let other = inside(source, window);
            Reply::Order(bitvec_passes::compare::<O, O, C, D>(cells, target, right, other))
        }
        Op::StartsWith(window) => {
            Reply::Bit(starts_with::<O, C, D>(cells, target, right, inside(source, window)))
        }
        Op::EndsWith(window) => {
            Reply::Bit(ends_with::<O, C, D>(cells, target, right, inside(source, window)))
        }
        Op::Contains(window) => {
            Reply::Bit(contains::<O, C, D>(cells, target, right, inside(source, window)))
        }
        _ => unreachable!(),
    }
}

/// A window of the list that `source` holds, as one of the memory. Condition: it lies in the list,
/// and the end of `source` is a `usize`.
fn inside(source: Window, window: Window) -> Window
    requires inside { IsWithin window source.len }
    requires end { source.start + source.len < 2 ^ 64 }
    ensures { result ≡ window_inside source window }
{
    Window {
        start: source.start + window.start,
        len: window.len,
    }
}
