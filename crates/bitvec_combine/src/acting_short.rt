//! An act on a short window, given one that begins at a different index of its element.
ghost use Rattle.std.specs.Prelude.{◌≡◌, ◌%◌, ◌==◌, ◌<◌, false};
ghost use Rattle.bitvec_base.specs.Spans.{HasSpan};
ghost use Rattle.bitvec_cells.specs.Access.{OnlyReadsAtMost};
ghost use Rattle.bitvec_cells.specs.Cost.{touched_count};
ghost use Rattle.bitvec_combine.specs.Acts.{bits_beside};

use crate::acting::Act;
use crate::acting_on_windows::{act_from_edge, act_phased};
use crate::acting_shifted::{Shifted, act_carried};
use crate::phases::Phases;
use bitvec_base::Window;
use bitvec_cells::CellsRead;
use bitvec_words::{Stretch, Whole, WordOrder};

/// As [`Shifted`], with one loop for any number of elements and no turns of many, so that little stands before the loop.
pub struct ShiftedShort {}

impl<O: WordOrder> Phases<O> for ShiftedShort {
    ghost equal = { false };

    #[inline(always)]
    fn first<D: CellsRead>(right: &mut D, element: usize) -> D::Elem {
        right.load(element)
    }

    #[inline(always)]
    fn beside<D: CellsRead>(
        right: &mut D,
        window: Window,
        index: usize,
        carry: D::Elem,
    ) -> (D::Elem, D::Elem) {
        <Shifted as Phases<O>>::beside::<D>(right, window, index, carry)
    }

    #[inline(always)]
    fn act_on_stretch<C: CellsRead, D: CellsRead<Elem = C::Elem>, A: Act<C>>(
        left: &mut C,
        stretch: Stretch,
        right: &mut D,
        carry: C::Elem,
        act: &mut A,
    ) -> C::Elem {
        let (from, at, skip, count) = (stretch.first, stretch.source, stretch.skip, stretch.count);
        act_carried::<O, C, D, A, Whole<_>>(left, from, right, at, skip, count, carry, act)
    }
}

/// [`crate::act`] on windows that are as long, aren't empty, and begin at different indices of their elements. Prefer it
/// where they are short: a window that begins where an element does goes straight to its loop.
#[inline(always)]
pub fn act_short<O: WordOrder, C: CellsRead, D: CellsRead<Elem = C::Elem>, A: Act<C>>(
    left: &mut C,
    to: Window,
    right: &mut D,
    from: Window,
    act: &mut A,
)
    requires span { HasSpan C.Elem.BITS (C.numbers left.old) (D.numbers right.old) to from }
    requires some { 0 < to.len }
    requires phases { (to.start % C.Elem.BITS == from.start % C.Elem.BITS) ≡ false }
    ensures done { A.Done O.at left.old left.new to (bits_beside C.Elem.BITS O.at (D.numbers right.old) to from) act.old act.new }
    ensures right { OnlyReadsAtMost D.CellsRead right.old right.new (touched_count C.Elem.BITS from.start from.len) }
{
    if to.phase::<C::Elem>() > 0 {
        act_phased::<O, C, D, A, ShiftedShort>(left, to, right, from, act);
        return;
    }
    let carry = right.load(from.element::<C::Elem>());
    act_from_edge::<O, C, D, A, ShiftedShort>(left, to, right, from, carry, act);
}
