//! Each bit of a window with the one at its index in another. All down to the loops is inlined into the function that
//! makes the accessors, so that each operator has loops of its own.
ghost use Rattle.std.specs.Prelude.{◌≡◌, ◌+◌, ◌-◌, ◌%◌, ◌^◌, ◌<◌, ◌≤◌, true, false, []};
ghost use Rattle.std.proofs.Common.{rules};
ghost use Rattle.bitvec_base.specs.Lists.{combined};
ghost use Rattle.bitvec_base.specs.Memory.{HasWindow, Writes, list_in};
ghost use Rattle.bitvec_base.specs.Spans.{HasSpan};
ghost use Rattle.bitvec_cells.specs.Access.{CostsAtMost, OnlyReadsAtMost};
ghost use Rattle.bitvec_cells.specs.Cost.{edit_loads, read_loads, touched_count, write_stores};
ghost use Rattle.bitvec_words.specs.Operator.{operator};
ghost use Rattle.bitvec_store.specs.WidthLaws.{width_some};
ghost use Rattle.bitvec_combine.specs.CombineLaws.{combines-empty, combines-join};
ghost use Rattle.bitvec_combine.specs.Sides.{Combines, CombinesBits};

use crate::{Act, Equal, act, act_phased};
use bitvec_base::{BitOrder, Part, Window};
use bitvec_cells::{Cells, CellsRead};
use bitvec_store::BitStore;
use bitvec_words::{BitOp, WordOrder, fill, merged};

/// The act that replaces each bit by what an operator makes of it and the other one.
#[derive(Clone, Copy)]
struct Apply {
    op: BitOp,
}

impl<C: Cells> Act<C> for Apply {
    ghost Done = { λ at old new window list s t. CombinesBits C.CellsRead C.Elem.BITS at old new window list s.op t.op };

    ghost stopped = { λ s. false };

    #[inline(always)]
    fn stops(&self) -> bool {
        false
    }

    #[inline(always)]
    fn whole<O: BitOrder>(&mut self, cells: &mut C, index: usize, other: C::Elem) {
        let element = cells.load(index);
        cells.store(index, self.op.of_elements::<O, C::Elem>(element, other));
    }

    fn part<O: BitOrder>(&mut self, cells: &mut C, part: Part, other: C::Elem) {
        let old = cells.load(part.element);
        let new = self.op.of_elements::<O, C::Elem>(old, other);
        let made = merged::<O, C::Elem>(old, new, part.from, part.to);
        cells.store(part.element, made);
    }

    ghost empty_law = { λ at c window s. combines-empty C.CellsRead C.Elem.BITS at c window s.op };

    ghost join_law = { λ at c d e whole first second list other s t u. combines-join C.CellsRead C.Elem.BITS at c d e whole first second list other s.op t.op u.op (width_some C.Elem.BITS C.Elem.width_law) };

    ghost stop_law = { Prim.search rules };

    ghost kept_law = { λ at c d window list s t done. done.writes.elements };
}

/// Replaces each bit of a window by what the operator makes of it and the one at its index in a
/// window of another memory of the same elements, which counts as 0 past that window's end.
/// Condition: each memory has at most `MAX_BITS` bits, and each window lies in its memory. It loads
/// and stores each element that the window touches at most once, and loads each element with a bit
/// that both have on the right once.
#[tactic(auto, using(bitvec_cells::specs::CostLaws::in_steps, bitvec_store::specs::WidthLaws::width_some, crate::specs::CombineLaws::passed))]
#[inline(always)]
pub fn combine<O: WordOrder, C: Cells, D: CellsRead<Elem = C::Elem>>(
    left: &mut C,
    to: Window,
    right: &mut D,
    from: Window,
    op: BitOp,
)
    requires window { HasWindow C.Elem.BITS (C.numbers left.old) to }
    requires right_window { HasWindow C.Elem.BITS (D.numbers right.old) from }
    ensures writes { Writes C.Elem.BITS O.at (C.numbers left.old) (C.numbers left.new) to
        (combined (operator op) (list_in C.Elem.BITS O.at (C.numbers left.old) to) (list_in C.Elem.BITS O.at (D.numbers right.old) from)) }
    ensures cost { CostsAtMost C.CellsRead left.old left.new (edit_loads C.Elem.BITS true to.len) (write_stores C.Elem.BITS true to.len) }
    ensures right { OnlyReadsAtMost D.CellsRead right.old right.new (read_loads C.Elem.BITS true to.len) }
{
    let met = to.len.min(from.len);
    if met == 0 {
        combine_zeros::<O, C>(left, to, op);
        return;
    }
    let passed = reached::<C::Elem>(to, met);
    let first = to.until(to.len - passed);
    let other = from.until(from.len - met);
    act::<O, C, D, Apply>(left, first, right, other, &mut Apply { op });
    combine_zeros::<O, C>(left, to.after(passed), op);
}

/// How many bits of a window stand up to the end of the element in which its first `met` bits end.
#[inline(always)]
fn reached<T: BitStore>(window: Window, met: usize) -> usize
    requires bound { met ≤ window.len }
    requires end { window.start + window.len < 2 ^ 64 }
    ensures bound { result ≤ window.len }
    ensures met { met ≤ result }
    ensures inside { met < result → 0 < (window.start + met) % T.BITS }
    ensures reach { (window.start + met) % T.BITS + (result - met) ≤ T.BITS }
    ensures edge { result < window.len → (window.start + result) % T.BITS ≡ 0 }
{
    if met == window.len {
        return met;
    }
    let rest = window.after(met);
    if rest.phase::<T>() == 0 {
        return met;
    }
    met + rest.first_part::<T>().len()
}

/// Replaces each bit of a window by what the operator makes of it and the one at its index in a
/// window that is as long and begins at the same index of an element, under any order. Condition: as
/// of [`crate::combine`], and the windows aren't empty. It loads and stores each element that the
/// window touches at most once, and loads each on the right once.
pub fn combine_equal<O: BitOrder, C: Cells, D: CellsRead<Elem = C::Elem>>(
    left: &mut C,
    to: Window,
    right: &mut D,
    from: Window,
    op: BitOp,
)
    requires span { HasSpan C.Elem.BITS (C.numbers left.old) (D.numbers right.old) to from }
    requires some { 0 < to.len }
    requires phases { to.start % C.Elem.BITS ≡ from.start % C.Elem.BITS }
    ensures writes { Combines C.Elem.BITS O.at op (C.numbers left.old) (C.numbers left.new) (D.numbers right.old) to from }
    ensures cost { let each = touched_count C.Elem.BITS to.start to.len in CostsAtMost C.CellsRead left.old left.new each each }
    ensures right { OnlyReadsAtMost D.CellsRead right.old right.new (touched_count C.Elem.BITS from.start from.len) }
{
    act_phased::<O, C, D, Apply, Equal>(left, to, right, from, &mut Apply { op });
}

/// Replaces the bits of a window by what the operator makes of them and zeros. Condition: the memory
/// has at most `MAX_BITS` bits, and the window lies in it. It loads and stores each element that the
/// window touches at most once.
pub fn combine_zeros<O: BitOrder, C: Cells>(cells: &mut C, window: Window, op: BitOp)
    requires { HasWindow C.Elem.BITS (C.numbers cells.old) window }
    ensures writes { Writes C.Elem.BITS O.at (C.numbers cells.old) (C.numbers cells.new) window
        (combined (operator op) (list_in C.Elem.BITS O.at (C.numbers cells.old) window) []) }
    ensures cost { let each = touched_count C.Elem.BITS window.start window.len in CostsAtMost C.CellsRead cells.old cells.new each each }
{
    match op {
        BitOp::And => fill::<O, C>(cells, window, false),
        BitOp::Or | BitOp::Xor | BitOp::AndNot => {}
    }
}
