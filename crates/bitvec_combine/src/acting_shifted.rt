//! Elements joined of two, for windows that begin at different indices of their elements.
ghost use Rattle.std.specs.Prelude.{◌≡◌, false};
ghost use Rattle.bitvec_combine.specs.Acts.{ActsOnStretch, HasStretch, stretch_at};

use crate::acting::{Act, spans_in};
use crate::phases::Phases;
use bitvec_base::Window;
use bitvec_cells::CellsRead;
use bitvec_few::load_element_after;
use bitvec_store::BitStore;
use bitvec_words::{
    Carried, Lanes, Stretch, Whole, WordOrder, at_known_skip, known_skip_pays, toward_end,
};

/// The windows begin at different indices of their elements: the last element loaded is carried, and joined with the
/// next one.
pub struct Shifted {}

impl<O: WordOrder> Phases<O> for Shifted {
    ghost equal = { false };

    #[inline(always)]
    fn first<D: CellsRead>(right: &mut D, element: usize) -> D::Elem {
        right.load(element)
    }

    #[inline(always)]
    fn beside<D: CellsRead>(
        right: &mut D,
        window: Window,
        index: usize,
        carry: D::Elem,
    ) -> (D::Elem, D::Elem) {
        let (front, last) = load_element_after::<O, D>(right, window, carry);
        (toward_end::<O, D::Elem>(front, index), last)
    }

    #[inline(always)]
    fn act_on_stretch<C: CellsRead, D: CellsRead<Elem = C::Elem>, A: Act<C>>(
        left: &mut C,
        stretch: Stretch,
        right: &mut D,
        carry: C::Elem,
        act: &mut A,
    ) -> C::Elem {
        if C::Elem::BITS == u128::BITS {
            return act_in_turns::<O, C, D, A, Lanes>(left, stretch, right, carry, act, 2);
        }
        let (from, at, skip, count) = (stretch.first, stretch.source, stretch.skip, stretch.count);
        if known_skip_pays::<C::Elem>(count) {
            return at_known_skip!(
                skip,
                act_carried::<O, C, D, A, Whole<_>>(left, from, right, at, skip, count, carry, act)
            );
        }
        act_in_turns::<O, C, D, A, Whole<_>>(left, stretch, right, carry, act, A::turn())
    }

    /// Out of line, with the act in registers.
    fn act_on_span<C: CellsRead, D: CellsRead<Elem = C::Elem>, A: Act<C>>(
        left: &mut C,
        span: Stretch,
        right: &mut D,
        carry: C::Elem,
        act: &mut A,
    ) -> C::Elem {
        let mut held = *act;
        let last = <Self as Phases<O>>::act_on_stretch::<C, D, A>(
            left, span, right, carry, &mut held,
        );
        *act = held;
        last
    }
}

/// Acts on so many elements in each turn, which the compiler unrolls since it knows how many they are, and then on the
/// rest. If `turn` is 0, all are the rest. The compiler unrolls a loop over elements of 128 bits for no number of passes that
/// it doesn't know.
#[inline(always)]
fn act_in_turns<
    O: WordOrder,
    C: CellsRead,
    D: CellsRead<Elem = C::Elem>,
    A: Act<C>,
    K: Carried<C::Elem>,
>(
    left: &mut C,
    stretch: Stretch,
    right: &mut D,
    carry: C::Elem,
    act: &mut A,
    turn: usize,
) -> C::Elem
    requires form { K.fits C.Elem.BITS }
    requires stretch { HasStretch C.Elem.BITS (C.numbers left.old) (D.numbers right.old) stretch false (C.Elem.value carry) }
    ensures { ActsOnStretch D.CellsRead A.Done C.Elem.BITS O.at left.old left.new right.old right.new stretch false act.old act.new (C.Elem.value result) }
{
    let turns = spans_in(stretch.count, turn);
    let mut last = carry;
    for step in 0..turns {
        let here = stretch.part(step * turn, turn);
        let (from, at, skip) = (here.first, here.source, here.skip);
        last = act_carried::<O, C, D, A, K>(left, from, right, at, skip, turn, last, act);
    }
    let passed = turns * turn;
    let rest = stretch.part(passed, stretch.count - passed);
    let (from, at, skip) = (rest.first, rest.source, rest.skip);
    act_carried::<O, C, D, A, K>(left, from, right, at, skip, rest.count, last, act)
}

/// Acts on whole elements, each given one that is joined of two, where each of the right ones is carried to the next pass
/// in a form that fits the width. It takes a stretch's numbers: the compiler may know `skip`, and a struct's fields
/// count where it is seen how much is inlined.
#[inline(always)]
pub(crate) fn act_carried<
    O: WordOrder,
    C: CellsRead,
    D: CellsRead<Elem = C::Elem>,
    A: Act<C>,
    K: Carried<C::Elem>,
>(
    left: &mut C,
    first: usize,
    right: &mut D,
    source: usize,
    skip: usize,
    count: usize,
    carry: C::Elem,
    act: &mut A,
) -> C::Elem
    requires form { K.fits C.Elem.BITS }
    requires stretch { HasStretch C.Elem.BITS (C.numbers left.old) (D.numbers right.old) (stretch_at first source skip count) false (C.Elem.value carry) }
    ensures { ActsOnStretch D.CellsRead A.Done C.Elem.BITS O.at left.old left.new right.old right.new (stretch_at first source skip count) false act.old act.new (C.Elem.value result) }
{
    let mut last = K::of(carry);
    for step in 0..count {
        let next = K::of(right.load(source + step + 1));
        let other = last.joined::<O>(&next, skip);
        act.whole::<O>(left, first + step, other);
        last = next;
    }
    last.element()
}
