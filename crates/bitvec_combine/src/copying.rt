//! Bits copied from one window to another.
ghost use Rattle.std.specs.Prelude.{◌≡◌, ◌%◌, ◌==◌, ◌<◌, true, false};
ghost use Rattle.std.proofs.Common.{rules};
ghost use Rattle.bitvec_base.specs.Spans.{HasSpan};
ghost use Rattle.bitvec_cells.specs.Access.{CostsAtMost, OnlyReadsAtMost};
ghost use Rattle.bitvec_cells.specs.Cost.{read_loads, touched_count, write_loads, write_stores};
ghost use Rattle.bitvec_combine.specs.Acts.{PutsBits};
ghost use Rattle.bitvec_words.specs.Moves.{Copies};
ghost use Rattle.bitvec_combine.specs.PutLaws.{Puts-join, Puts-none};

use crate::acting::Act;
use crate::acting_equal::Equal;
use crate::acting_on_windows::{act, act_phased};
use crate::acting_short::act_short;
use crate::tuning::COPY_TURN;
use bitvec_base::{BitOrder, Part, Window};
use bitvec_cells::{Cells, CellsRead};
use bitvec_store::BitStore;
use bitvec_words::{WordOrder, store_part};

/// The act that puts the other bits in the place of the window's.
#[derive(Clone, Copy)]
struct Put {}

impl<C: Cells> Act<C> for Put {
    ghost Done = { λ at old new window list s t. PutsBits C.CellsRead C.Elem.BITS at old new window list };

    ghost stopped = { λ s. false };

    #[inline(always)]
    fn turn() -> usize {
        COPY_TURN
    }

    #[inline(always)]
    fn stops(&self) -> bool {
        false
    }

    #[tactic(auto, using(crate::specs::PutLaws::stored))]
    #[inline(always)]
    fn whole<O: BitOrder>(&mut self, cells: &mut C, index: usize, other: C::Elem) {
        cells.store(index, other);
    }

    #[tactic(auto, using(crate::specs::PutLaws::stored))]
    #[inline(always)]
    fn part<O: BitOrder>(&mut self, cells: &mut C, part: Part, other: C::Elem) {
        store_part::<O, C>(cells, part, other);
    }

    ghost empty_law = { λ at c window s has none. Puts-none C.CellsRead C.Elem.BITS at c window has none };

    ghost join_law = { λ at c d e whole first second list other s t u has cut before after. Puts-join C.CellsRead C.Elem.BITS at c d e whole first second list other C.Elem.width_law has cut before after };

    ghost stop_law = { λ at c d whole first list other s t has start len stopped done. Prim.search rules };

    ghost kept_law = { λ at c d window list s t done. done.writes.elements };
}

/// Copies the bits of a window of another memory of the same elements. Condition: each memory has
/// at most `MAX_BITS` bits, each window lies in its memory, and the windows are as long. On the left
/// it stores each element that the window touches once, and loads at most the first and the last;
/// on the right it loads each element that the window touches once.
#[tactic(auto, using(bitvec_cells::specs::CostLaws::in_steps, bitvec_store::specs::WidthLaws::width_some))]
#[inline(always)]
pub fn copy<O: WordOrder, C: Cells, D: CellsRead<Elem = C::Elem>>(
    left: &mut C,
    to: Window,
    right: &mut D,
    from: Window,
)
    requires { HasSpan C.Elem.BITS (C.numbers left.old) (D.numbers right.old) to from }
    ensures writes { Copies C.Elem.BITS O.at (C.numbers left.old) (C.numbers left.new) to (D.numbers right.old) from }
    ensures cost { CostsAtMost C.CellsRead left.old left.new (write_loads C.Elem.BITS true to.len) (write_stores C.Elem.BITS true to.len) }
    ensures right { OnlyReadsAtMost D.CellsRead right.old right.new (read_loads C.Elem.BITS true to.len) }
{
    if to.len == 0 {
        return;
    }
    let as_long = from.until(from.len - to.len);
    act::<O, C, D, Put>(left, to, right, as_long, &mut Put {});
}

/// Copies a window whose first bit has the same index in its element as that of the other window,
/// under any order. Condition: as for [`crate::copy`], and the windows aren't empty. On the left it
/// stores each element that the window touches once, and loads at most the first and the last; on
/// the right it loads each once.
#[inline(always)]
pub fn copy_equal<O: BitOrder, C: Cells, D: CellsRead<Elem = C::Elem>>(
    left: &mut C,
    to: Window,
    right: &mut D,
    from: Window,
)
    requires span { HasSpan C.Elem.BITS (C.numbers left.old) (D.numbers right.old) to from }
    requires some { 0 < to.len }
    requires phases { to.start % C.Elem.BITS ≡ from.start % C.Elem.BITS }
    ensures writes { Copies C.Elem.BITS O.at (C.numbers left.old) (C.numbers left.new) to (D.numbers right.old) from }
    ensures cost { CostsAtMost C.CellsRead left.old left.new 2 (touched_count C.Elem.BITS to.start to.len) }
    ensures right { OnlyReadsAtMost D.CellsRead right.old right.new (touched_count C.Elem.BITS from.start from.len) }
{
    let as_long = from.until(from.len - to.len);
    act_phased::<O, C, D, Put, Equal>(left, to, right, as_long, &mut Put {});
}

/// [`copy`] of windows that aren't empty and begin at different indices of their elements: prefer it where they are
/// short. Condition: as for [`crate::copy`]. On the left it stores each element that the window touches once, and loads
/// at most the first and the last; on the right it loads each once.
#[inline(always)]
pub fn copy_shifted<O: WordOrder, C: Cells, D: CellsRead<Elem = C::Elem>>(
    left: &mut C,
    to: Window,
    right: &mut D,
    from: Window,
)
    requires span { HasSpan C.Elem.BITS (C.numbers left.old) (D.numbers right.old) to from }
    requires some { 0 < to.len }
    requires phases { (to.start % C.Elem.BITS == from.start % C.Elem.BITS) ≡ false }
    ensures writes { Copies C.Elem.BITS O.at (C.numbers left.old) (C.numbers left.new) to (D.numbers right.old) from }
    ensures cost { CostsAtMost C.CellsRead left.old left.new 2 (touched_count C.Elem.BITS to.start to.len) }
    ensures right { OnlyReadsAtMost D.CellsRead right.old right.new (touched_count C.Elem.BITS from.start from.len) }
{
    act_short::<O, C, D, Put>(left, to, right, from, &mut Put {});
}
