//! Bit operations on whole windows bit by bit, under any order, and of two windows over any two element widths and
//! orders.
ghost use Rattle.std.specs.Prelude.{◌≡◌, ◌-◌, ◌*◌, ◌==◌, if◌then◌else◌, min, reverse};
ghost use Rattle.std.specs.Cmp.Lexicographic.{slice_cmp};
ghost use Rattle.std.specs.Ordering.{bool_cmp};
ghost use Rattle.bitvec_base.specs.Lists.{FitsWithin, combined, copied_within, same_bits};
ghost use Rattle.bitvec_base.specs.Memory.{Edits, HasWindow, Writes, list_in};
ghost use Rattle.bitvec_cells.specs.Access.{Costs, CostsAtMost, OnlyReads, OnlyReadsAtMost};
ghost use Rattle.bitvec_words.specs.Operator.{operator};
ghost use Rattle.bitvec_passes.specs.Pairs.{HasPair};

use bitvec_base::{BitOrder, Window};
use bitvec_cells::{Cells, CellsRead, get_bit, replace_bit, swap_bits};
use bitvec_store::BitStore;
use bitvec_words::BitOp;
use std::cmp::Ordering;

/// Copies the bits of a window of another memory. Condition: each memory has at most `MAX_BITS` bits, each window
/// lies in its memory, and the windows are as long. It loads and stores once a bit on the left, and loads once a bit
/// on the right.
pub fn bits_copy<O: BitOrder, P: BitOrder, C: Cells, D: CellsRead>(
    left: &mut C,
    to: Window,
    right: &mut D,
    from: Window,
)
    requires { HasPair C.Elem.BITS (C.numbers left.old) to D.Elem.BITS (D.numbers right.old) from }
    ensures writes { Writes C.Elem.BITS O.at (C.numbers left.old) (C.numbers left.new) to
        (list_in D.Elem.BITS P.at (D.numbers right.old) from) }
    ensures cost { Costs C.CellsRead left.old left.new to.len to.len }
    ensures right { OnlyReads D.CellsRead right.old right.new from.len }
{
    for index in 0..to.len {
        let bit = get_bit::<P, D>(right, from, index);
        replace_bit::<O, C>(left, to, index, bit);
    }
}

/// Exchanges the bits of two windows of two memories. Condition: as for [`bits_copy`]. It loads and stores once a bit
/// on the left, and loads twice and stores once a bit on the right.
pub fn bits_swap<O: BitOrder, P: BitOrder, C: Cells, D: Cells>(
    left: &mut C,
    left_window: Window,
    right: &mut D,
    right_window: Window,
)
    requires { HasPair C.Elem.BITS (C.numbers left.old) left_window D.Elem.BITS (D.numbers right.old) right_window }
    ensures writes { Writes C.Elem.BITS O.at (C.numbers left.old) (C.numbers left.new) left_window
        (list_in D.Elem.BITS P.at (D.numbers right.old) right_window) }
    ensures cost { Costs C.CellsRead left.old left.new left_window.len left_window.len }
    ensures right_writes { Writes D.Elem.BITS P.at (D.numbers right.old) (D.numbers right.new) right_window
        (list_in C.Elem.BITS O.at (C.numbers left.old) left_window) }
    ensures right_cost { Costs D.CellsRead right.old right.new (2 * right_window.len) right_window.len }
{
    for index in 0..left_window.len {
        let bit = get_bit::<P, D>(right, right_window, index);
        let replaced = replace_bit::<O, C>(left, left_window, index, bit);
        replace_bit::<P, D>(right, right_window, index, replaced);
    }
}

/// Copies the bits `from..to` of a window to `dest` on, also where they overlap; all other bits of the memory stay.
/// It is `copy_within` of `bitvec`'s `BitSlice`. Condition: the memory has at most `MAX_BITS` bits, the window lies
/// in it, and both the bits read and those written lie in the window. It loads twice and stores once for each bit
/// that is copied.
pub fn bits_copy_within<O: BitOrder, C: Cells>(
    cells: &mut C,
    window: Window,
    from: usize,
    to: usize,
    dest: usize,
)
    requires window { HasWindow C.Elem.BITS (C.numbers cells.old) window }
    requires fits { FitsWithin from to dest window.len }
    ensures writes { Edits C.Elem.BITS O.at (C.numbers cells.old) (C.numbers cells.new) window (copied_within from to dest) }
    ensures cost { Costs C.CellsRead cells.old cells.new (2 * (to - from)) (to - from) }
{
    let count = to - from;
    for step in 0..count {
        // towards the end the last bit first, so that none is written over before it is read
        let index = if dest <= from { step } else { count - 1 - step };
        let bit = get_bit::<O, C>(cells, window, from + index);
        replace_bit::<O, C>(cells, window, dest + index, bit);
    }
}

/// Replaces each bit of a window by what the operator makes of it and the one at its index in a window of another
/// memory, which counts as 0 past that window's end. Condition: each memory has at most `MAX_BITS` bits, and each
/// window lies in its memory. It loads twice and stores once a bit on the left, and loads once a bit that both have
/// on the right.
pub fn bits_op<O: BitOrder, P: BitOrder, C: Cells, D: CellsRead>(
    left: &mut C,
    to: Window,
    right: &mut D,
    from: Window,
    op: BitOp,
)
    requires window { HasWindow C.Elem.BITS (C.numbers left.old) to }
    requires right_window { HasWindow D.Elem.BITS (D.numbers right.old) from }
    ensures writes { Writes C.Elem.BITS O.at (C.numbers left.old) (C.numbers left.new) to
        (combined (operator op) (list_in C.Elem.BITS O.at (C.numbers left.old) to) (list_in D.Elem.BITS P.at (D.numbers right.old) from)) }
    ensures cost { Costs C.CellsRead left.old left.new (2 * to.len) to.len }
    ensures right { OnlyReads D.CellsRead right.old right.new (min to.len from.len) }
{
    for index in 0..to.len {
        let other = index < from.len && get_bit::<P, D>(right, from, index);
        let bit = get_bit::<O, C>(left, to, index);
        replace_bit::<O, C>(left, to, index, op.of(bit, other));
    }
}

/// Whether two windows have the same bits: `==` of `bitvec`. Condition: as for [`bits_op`]. It loads at most once a
/// bit and side, and not at all where the windows aren't as long.
pub fn bits_eq<O: BitOrder, P: BitOrder, C: CellsRead, D: CellsRead>(
    left: &mut C,
    left_window: Window,
    right: &mut D,
    right_window: Window,
) -> bool
    requires window { HasWindow C.Elem.BITS (C.numbers left.old) left_window }
    requires right_window { HasWindow D.Elem.BITS (D.numbers right.old) right_window }
    ensures value { result ≡ same_bits (list_in C.Elem.BITS O.at (C.numbers left.old) left_window)
        (list_in D.Elem.BITS P.at (D.numbers right.old) right_window) }
    ensures reads { OnlyReadsAtMost C.CellsRead left.old left.new (if left_window.len == right_window.len then left_window.len else 0) }
    ensures right { OnlyReadsAtMost D.CellsRead right.old right.new (if left_window.len == right_window.len then left_window.len else 0) }
{
    left_window.len == right_window.len
        && compare::<O, P, C, D>(left, left_window, right, right_window).is_eq()
}

/// How the bits of two windows compare, from the first index on, as lists of truth values do: `cmp` of `bitvec`.
/// Condition: as for [`bits_op`]. It loads at most once a bit that both have, a side.
pub fn compare<O: BitOrder, P: BitOrder, C: CellsRead, D: CellsRead>(
    left: &mut C,
    left_window: Window,
    right: &mut D,
    right_window: Window,
) -> Ordering
    requires window { HasWindow C.Elem.BITS (C.numbers left.old) left_window }
    requires right_window { HasWindow D.Elem.BITS (D.numbers right.old) right_window }
    ensures value { result ≡ slice_cmp bool_cmp (list_in C.Elem.BITS O.at (C.numbers left.old) left_window)
        (list_in D.Elem.BITS P.at (D.numbers right.old) right_window) }
    ensures reads { OnlyReadsAtMost C.CellsRead left.old left.new (min left_window.len right_window.len) }
    ensures right { OnlyReadsAtMost D.CellsRead right.old right.new (min left_window.len right_window.len) }
{
    for index in 0..left_window.len.min(right_window.len) {
        let bit = get_bit::<O, C>(left, left_window, index);
        let other = get_bit::<P, D>(right, right_window, index);
        if bit != other {
            return bit.cmp(&other);
        }
    }
    left_window.len.cmp(&right_window.len)
}

/// Reverses the bits of a window; all other bits of the memory stay: `reverse` of `bitvec`'s `BitSlice`. Condition:
/// the memory has at most `MAX_BITS` bits, and the window lies in it. It takes at most two loads and one store for
/// each bit.
pub fn bits_reverse<O: BitOrder, C: Cells>(cells: &mut C, window: Window)
    requires { HasWindow C.Elem.BITS (C.numbers cells.old) window }
    ensures writes { Edits C.Elem.BITS O.at (C.numbers cells.old) (C.numbers cells.new) window reverse }
    ensures cost { CostsAtMost C.CellsRead cells.old cells.new (2 * window.len) window.len }
{
    let mut low = 0;
    let mut high = window.len;
    while low + 1 < high {
        swap_bits::<O, C>(cells, window, low, high - 1);
        low += 1;
        high -= 1;
    }
}
