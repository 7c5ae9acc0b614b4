//! What a run asks of its steps.
ghost use Rattle.std.specs.Prelude.{ℕ, Bool, List};
ghost use Rattle.bitvec_base.specs.Memory.{HasWindow, list_in};
ghost use Rattle.bitvec_commands.specs.Follows.{FollowsBoth};
ghost use Rattle.bitvec_commands.specs.Rows.{CommandRow};

use bitvec_base::Window;
use bitvec_cells::{Cells, CellsRead};
use bitvec_commands::Reply;
use bitvec_engine::SliceOrder;
use bitvec_store::BitStore;

/// A step that a run can make under an order. `bitvec` has no such trait.
pub trait RunStep<O: SliceOrder>: Copy {
    // What comes of a step: elements have `b` bits, the window begins at the place `s`, and its list has `n` bits beside a
    // right list.
    ghost outcome: { (b s : ℕ) (right : List Bool) (n : ℕ) → Self → CommandRow };

    /// Makes the step in a window, whose right list is the one that `source` holds: it replies, and
    /// leaves in the window the list after it. Condition: each memory has at most `MAX_BITS` bits, and
    /// each window lies in its memory.
    fn carry_out<C, D>(self, cells: &mut C, window: Window, right: &mut D, source: Window) -> Reply
    where
        C: Cells,
        D: CellsRead<Elem = C::Elem>,
        requires window { HasWindow C.Elem.BITS (C.numbers cells.old) window }
        requires right_window { HasWindow C.Elem.BITS (D.numbers right.old) source }
        ensures { let row = outcome C.Elem.BITS window.start (list_in C.Elem.BITS O.at (D.numbers right.old) source) window.len self in
            FollowsBoth C.CellsRead D.CellsRead C.Elem.BITS O.at O.WORDS row window cells.old cells.new right.old right.new result };
}
