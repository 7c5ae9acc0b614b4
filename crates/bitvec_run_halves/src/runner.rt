//! Runs of whole lists of commands through two halves.
ghost use Rattle.std.specs.Prelude.{◌≡◌, ◌≤◌, length, map};
ghost use Rattle.bitvec_base.specs.Memory.{HasWindow, list_in};
ghost use Rattle.bitvec_run.specs.Fold.{list_after, replies_of};
ghost use Rattle.bitvec_slice.specs.Views.{seen, seen_mut};
ghost use Rattle.bitvec_slice.specs.Writes.{WritesBits};
ghost use Rattle.bitvec_run_halves.specs.Sides.{RunsSides, halves_of, joined, side_lists, side_reply};

use crate::Side;
use crate::halves::side_window;
use bitvec_base::Window;
use bitvec_cells::{Cells, CellsRead, Exclusive, Shared};
use bitvec_commands::Reply;
use bitvec_engine::SliceOrder;
use bitvec_run::{RunStep, Step};
use bitvec_slice::{BitSlice, BitSliceMut, Sealed, ViewMut};
use bitvec_store::BitStore;

/// Runs commands through the two halves of a view, which meet at the index `mid`, in the order given.
///
/// The replies, one a step, are those of the plain lists of the halves' bits, each step made on the
/// list that its [`Side`] names, and the view afterwards holds the two lists in order, with all bits
/// outside it as before. Right windows are windows of `right`. A step whose condition fails is answered
/// by [`Reply::Refused`], and changes nothing. Nothing is allocated. Conditions: `mid` is at most `len`,
/// and `out` has a place for each step's reply.
pub fn run_halves<T: BitStore, O: SliceOrder>(
    bits: &mut BitSliceMut<'_, T, O>,
    mid: usize,
    steps: &[(Side, Step)],
    right: BitSlice<'_, T, O>,
    out: &mut [Reply],
)
    requires bound { mid ≤ (seen_mut bits.old).window.len }
    requires lengths { length steps.now ≡ length out.old }
    ensures replies { out.new ≡ replies_of (side_reply (seen right.entry).bits) (side_lists (seen right.entry).bits) (halves_of mid (seen_mut bits.old).bits) steps.now }
    ensures bits { WritesBits bits.old bits.new
        (joined (list_after (side_lists (seen right.entry).bits) (halves_of mid (seen_mut bits.old).bits) steps.now)) }
{
    let window = bits.window();
    let source = right.window();
    let elements = right.elements();
    run_in::<T, O>(
        bits.elements_mut(Sealed),
        window,
        mid,
        elements,
        source,
        steps,
        out,
    );
}

/// Runs the steps on a window of a slice. Conditions: each slice has at most `MAX_BITS` bits, and
/// each window lies in its slice.
fn run_in<T: BitStore, O: SliceOrder>(
    elements: &mut [T],
    window: Window,
    mid: usize,
    right: &[T],
    source: Window,
    steps: &[(Side, Step)],
    out: &mut [Reply],
)
    requires window { HasWindow T.BITS (map T.value elements.old) window }
    requires right_window { HasWindow T.BITS (map T.value right.now) source }
    requires bound { mid ≤ window.len }
    requires lengths { length steps.now ≡ length out.old }
    ensures { RunsSides T.BITS O.at (list_in T.BITS O.at (map T.value right.now) source)
        window mid steps.now (map T.value elements.old) (map T.value elements.new) out.new }
{
    let mut accessor = Exclusive::new(elements);
    let mut beside = Shared::new(right);
    run_sides::<O, Exclusive<T>, Shared<T>>(
        &mut accessor,
        window,
        mid,
        &mut beside,
        source,
        steps,
        out,
    );
}

/// Runs the steps through accessors.
fn run_sides<O, C, D>(
    cells: &mut C,
    window: Window,
    mid: usize,
    right: &mut D,
    source: Window,
    steps: &[(Side, Step)],
    out: &mut [Reply],
)
where
    O: SliceOrder,
    C: Cells,
    D: CellsRead<Elem = C::Elem>,
    requires window { HasWindow C.Elem.BITS (C.numbers cells.old) window }
    requires right_window { HasWindow C.Elem.BITS (D.numbers right.old) source }
    requires bound { mid ≤ window.len }
    requires lengths { length steps.now ≡ length out.old }
    ensures runs { RunsSides C.Elem.BITS O.at (list_in C.Elem.BITS O.at (D.numbers right.old) source)
        window mid steps.now (C.numbers cells.old) (C.numbers cells.new) out.new }
    ensures borrow { C.borrow cells.new ≡ C.borrow cells.old }
{
    for index in 0..steps.len() {
        let (side, next) = steps[index];
        let part = side_window(window, mid, side);
        out[index] = <Step as RunStep<O>>::carry_out::<C, D>(next, cells, part, right, source);
    }
}
