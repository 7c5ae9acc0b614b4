//! The block functions under an order that works by words, as `Lsb0` and `Msb0`, with their costs in numbers: `n` bits
//! take at most `ceil(n / 64)` word steps.
#![tactic(auto, using(crate::specs::WordStepsLaws::in_words))]

ghost use Rattle.std.specs.Prelude.{◌≡◌, ◌-◌, ◌==◌, if◌then◌else◌};
ghost use Rattle.std.specs.Int.{div_ceil};
ghost use Rattle.bitvec_base.specs.Lists.{FitsWithin, combined, copied_within, same_bits};
ghost use Rattle.bitvec_base.specs.Memory.{Edits, HasWindow, Writes, list_in};
ghost use Rattle.bitvec_base.specs.Spans.{HasSpan};
ghost use Rattle.bitvec_words.specs.Operator.{operator};
ghost use Rattle.bitvec_engine.specs.WordSteps.{EditsInSteps, ReadsInSteps, WritesInSteps};

use crate::slice_order::{ByWords, SliceOrder};
use bitvec_base::{BitOrder, Window};
use bitvec_cells::{Cells, CellsRead};
use bitvec_store::BitStore;
use bitvec_words::BitOp;

/// Whether two windows have the same bits: [`SliceOrder::block_eq`]. Windows that aren't as long
/// take no load.
#[inline(always)]
pub fn block_eq<O: ByWords, C: CellsRead, D: CellsRead<Elem = C::Elem>>(
    left: &mut C,
    left_window: Window,
    right: &mut D,
    right_window: Window,
) -> bool
    requires window { HasWindow C.Elem.BITS (C.numbers left.old) left_window }
    requires right_window { HasWindow C.Elem.BITS (D.numbers right.old) right_window }
    ensures value { result ≡ same_bits (list_in C.Elem.BITS O.at (C.numbers left.old) left_window)
        (list_in C.Elem.BITS O.at (D.numbers right.old) right_window) }
    ensures reads { let steps = (if left_window.len == right_window.len then div_ceil left_window.len 64 else 0) in
        ReadsInSteps C.CellsRead left.old left.new C.Elem.BITS steps }
    ensures right { let steps = (if left_window.len == right_window.len then div_ceil left_window.len 64 else 0) in
        ReadsInSteps D.CellsRead right.old right.new C.Elem.BITS steps }
{
    O::block_eq::<C, D>(left, left_window, right, right_window)
}

/// Copies the bits of a window of another memory: [`SliceOrder::block_copy`]. Condition: the windows
/// are as long.
#[inline(always)]
pub fn block_copy<O: ByWords, C: Cells, D: CellsRead<Elem = C::Elem>>(
    left: &mut C,
    to: Window,
    right: &mut D,
    from: Window,
)
    requires { HasSpan C.Elem.BITS (C.numbers left.old) (D.numbers right.old) to from }
    ensures writes { Writes C.Elem.BITS O.at (C.numbers left.old) (C.numbers left.new) to
        (list_in C.Elem.BITS O.at (D.numbers right.old) from) }
    ensures cost { WritesInSteps C.CellsRead left.old left.new C.Elem.BITS (div_ceil to.len 64) }
    ensures right { ReadsInSteps D.CellsRead right.old right.new C.Elem.BITS (div_ceil to.len 64) }
{
    O::block_copy::<C, D>(left, to, right, from);
}

/// Exchanges the bits of two windows of two memories: [`SliceOrder::block_swap`]. Condition: the
/// windows are as long.
#[inline(always)]
pub fn block_swap<O: ByWords, C: Cells, D: Cells + CellsRead<Elem = C::Elem>>(
    left: &mut C,
    left_window: Window,
    right: &mut D,
    right_window: Window,
)
    requires { HasSpan C.Elem.BITS (C.numbers left.old) (D.numbers right.old) left_window right_window }
    ensures writes { Writes C.Elem.BITS O.at (C.numbers left.old) (C.numbers left.new) left_window
        (list_in C.Elem.BITS O.at (D.numbers right.old) right_window) }
    ensures cost { EditsInSteps C.CellsRead left.old left.new C.Elem.BITS (div_ceil left_window.len 64) }
    ensures right_writes { Writes C.Elem.BITS O.at (D.numbers right.old) (D.numbers right.new) right_window
        (list_in C.Elem.BITS O.at (C.numbers left.old) left_window) }
    ensures right_cost { EditsInSteps D.CellsRead right.old right.new C.Elem.BITS (div_ceil left_window.len 64) }
{
    O::block_swap::<C, D>(left, left_window, right, right_window);
}

/// Copies the bits `from..to` of a window to `dest` on, also where they overlap:
/// [`SliceOrder::block_copy_within`]. Condition: `from <= to`, and both the bits read and those
/// written lie in the window.
#[inline(always)]
pub fn block_copy_within<O: ByWords, C: Cells>(
    cells: &mut C,
    window: Window,
    from: usize,
    to: usize,
    dest: usize,
)
    requires window { HasWindow C.Elem.BITS (C.numbers cells.old) window }
    requires fits { FitsWithin from to dest window.len }
    ensures writes { Edits C.Elem.BITS O.at (C.numbers cells.old) (C.numbers cells.new) window (copied_within from to dest) }
    ensures cost { EditsInSteps C.CellsRead cells.old cells.new C.Elem.BITS (div_ceil (to - from) 64) }
{
    O::block_copy_within::<C>(cells, window, from, to, dest);
}

/// Replaces each bit of a window by what the operator makes of it and the one at its index in
/// another window, which counts as 0 past that window's end: [`SliceOrder::block_op`].
#[inline(always)]
pub fn block_op<O: ByWords, C: Cells, D: CellsRead<Elem = C::Elem>>(
    left: &mut C,
    to: Window,
    right: &mut D,
    from: Window,
    op: BitOp,
)
    requires window { HasWindow C.Elem.BITS (C.numbers left.old) to }
    requires right_window { HasWindow C.Elem.BITS (D.numbers right.old) from }
    ensures writes { Writes C.Elem.BITS O.at (C.numbers left.old) (C.numbers left.new) to
        (combined (operator op) (list_in C.Elem.BITS O.at (C.numbers left.old) to) (list_in C.Elem.BITS O.at (D.numbers right.old) from)) }
    ensures cost { EditsInSteps C.CellsRead left.old left.new C.Elem.BITS (div_ceil to.len 64) }
    ensures right { ReadsInSteps D.CellsRead right.old right.new C.Elem.BITS (div_ceil to.len 64) }
{
    O::block_op::<C, D>(left, to, right, from, op);
}
