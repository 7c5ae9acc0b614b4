//! An act on a window, given another one: on the bits before the first edge of an element, on whole elements, and on the
//! bits behind them.
ghost use Rattle.std.specs.Prelude.{◌≡◌, ◌+◌, ◌-◌, ◌*◌, ◌/◌, ◌%◌, ◌==◌, ◌≤◌, false, slice_range};
ghost use Rattle.bitvec_base.specs.Memory.{element_bits, list_in};
ghost use Rattle.bitvec_base.specs.Parts.{HasPart, part_window};
ghost use Rattle.bitvec_cells.specs.Access.{OnlyReads, OnlyReadsAtMost};
ghost use Rattle.bitvec_cells.specs.Cost.{touched_count};
ghost use Rattle.bitvec_words.specs.ShortWindow.{padded};
ghost use Rattle.bitvec_combine.specs.Acts.{HasBeside, HasMet, HasStretch, IsCarried, bits_beside, held, stretch_source, stretch_window};

use crate::acting::{Act, spans_in};
use crate::acting_equal::Equal;
use crate::acting_shifted::Shifted;
use crate::phases::Phases;
use bitvec_base::{BitOrder, Part, Window};
use bitvec_cells::CellsRead;
use bitvec_store::BitStore;
use bitvec_words::{Stretch, WordOrder, merged, whole_bits};

/// Acts on a window, given one with its first bit at any index of an element. Condition: each memory has at most
/// `MAX_BITS` bits, each window lies in its memory, and the right one isn't empty. It ends where the left one does, or
/// before it in the same element; then zeros follow it. It loads each element that the right window touches at most
/// once.
#[inline(always)]
pub fn act<O: WordOrder, C: CellsRead, D: CellsRead<Elem = C::Elem>, A: Act<C>>(
    left: &mut C,
    to: Window,
    right: &mut D,
    from: Window,
    act: &mut A,
)
    requires { HasMet C.Elem.BITS (C.numbers left.old) (D.numbers right.old) to from }
    ensures done { A.Done O.at left.old left.new to (bits_beside C.Elem.BITS O.at (D.numbers right.old) to from) act.old act.new }
    ensures right { OnlyReadsAtMost D.CellsRead right.old right.new (touched_count C.Elem.BITS from.start from.len) }
{
    if to.phase::<C::Elem>() == from.phase::<C::Elem>() {
        act_phased::<O, C, D, A, Equal>(left, to, right, from, act);
    } else {
        act_phased::<O, C, D, A, Shifted>(left, to, right, from, act);
    }
}

/// [`act`] where it is known whether the windows begin at the same index of an element: by [`Equal`], under any order,
/// or by [`Shifted`].
#[inline(always)]
pub fn act_phased<O: BitOrder, C: CellsRead, D: CellsRead<Elem = C::Elem>, A: Act<C>, P: Phases<O>>(
    left: &mut C,
    to: Window,
    right: &mut D,
    from: Window,
    act: &mut A,
)
    requires met { HasMet C.Elem.BITS (C.numbers left.old) (D.numbers right.old) to from }
    requires phases { (to.start % C.Elem.BITS == from.start % C.Elem.BITS) ≡ P.equal }
    ensures done { A.Done O.at left.old left.new to (bits_beside C.Elem.BITS O.at (D.numbers right.old) to from) act.old act.new }
    ensures right { OnlyReadsAtMost D.CellsRead right.old right.new (touched_count C.Elem.BITS from.start from.len) }
{
    let mut carry = P::first::<D>(right, from.element::<C::Elem>());
    let mut passed = 0;
    if to.len <= C::Elem::BITS as usize || to.phase::<C::Elem>() > 0 {
        let head = to.first_part::<C::Elem>();
        passed = head.len();
        let met = from.until(from.len - passed.min(from.len));
        carry = act_on_part::<O, C, D, A, P>(left, head, right, met, carry, act);
        if passed == to.len || act.stops() {
            return;
        }
    }
    let rest = from.after(passed);
    act_from_edge::<O, C, D, A, P>(left, to.after(passed), right, rest, carry, act);
}

/// Acts on a window that begins where an element does.
#[inline(always)]
pub(crate) fn act_from_edge<
    O: BitOrder,
    C: CellsRead,
    D: CellsRead<Elem = C::Elem>,
    A: Act<C>,
    P: Phases<O>,
>(left: &mut C, to: Window, right: &mut D, from: Window, carry: C::Elem, act: &mut A)
    requires met { HasMet C.Elem.BITS (C.numbers left.old) (D.numbers right.old) to from }
    requires edge { to.start % C.Elem.BITS ≡ 0 }
    requires phases { (0 == from.start % C.Elem.BITS) ≡ P.equal }
    requires carried { IsCarried P.equal (D.numbers right.old) (from.start / C.Elem.BITS) (C.Elem.value carry) }
    ensures done { A.Done O.at left.old left.new to (bits_beside C.Elem.BITS O.at (D.numbers right.old) to from) act.old act.new }
    ensures right { OnlyReadsAtMost D.CellsRead right.old right.new (touched_count C.Elem.BITS from.start from.len - held P.equal) }
{
    let met = Window {
        len: from.len,
        ..to
    };
    let stretch = Stretch::of::<C::Elem>(met, from);
    let last = act_in_spans::<O, C, D, A, P>(left, stretch, right, carry, act);
    let passed = whole_bits::<C::Elem>(from.len);
    if passed == from.len || act.stops() {
        return;
    }
    let tail = Part {
        element: stretch.first + stretch.count,
        from: 0,
        to: to.len - passed,
    };
    act_on_part::<O, C, D, A, P>(left, tail, right, from.after(passed), last, act);
}

/// Acts on whole elements, and asks after each span of them whether the act stops.
#[inline(always)]
fn act_in_spans<O: BitOrder, C: CellsRead, D: CellsRead<Elem = C::Elem>, A: Act<C>, P: Phases<O>>(
    left: &mut C,
    stretch: Stretch,
    right: &mut D,
    carry: C::Elem,
    act: &mut A,
) -> C::Elem
    requires { HasStretch C.Elem.BITS (C.numbers left.old) (D.numbers right.old) stretch P.equal (C.Elem.value carry) }
    ensures done { A.Done O.at left.old left.new (stretch_window C.Elem.BITS stretch)
        (list_in C.Elem.BITS O.at (D.numbers right.old) (stretch_source C.Elem.BITS stretch)) act.old act.new }
    ensures carried { A.stopped act.new ≡ false → IsCarried P.equal (D.numbers right.old) (stretch.source + stretch.count) (C.Elem.value result) }
    ensures right { OnlyReadsAtMost D.CellsRead right.old right.new stretch.count }
{
    let span = A::span();
    let spans = spans_in(stretch.count, span);
    let mut last = carry;
    for step in 0..spans {
        let here = stretch.part(step * span, span);
        last = P::act_on_span::<C, D, A>(left, here, right, last, act);
        if act.stops() {
            return last;
        }
    }
    let passed = spans * span;
    let rest = stretch.part(passed, stretch.count - passed);
    P::act_on_stretch::<C, D, A>(left, rest, right, last, act)
}

/// Acts on a part, given the bits of a window from its first one on, and zeros behind them. It gives the element that is
/// carried to the next bits.
#[inline(always)]
fn act_on_part<O: BitOrder, C: CellsRead, D: CellsRead<Elem = C::Elem>, A: Act<C>, P: Phases<O>>(
    left: &mut C,
    part: Part,
    right: &mut D,
    from: Window,
    carry: C::Elem,
    act: &mut A,
) -> C::Elem
    requires part { HasPart C.Elem.BITS (C.numbers left.old) part }
    requires from { HasBeside C.Elem.BITS (D.numbers right.old) from part.from P.equal (C.Elem.value carry) }
    requires bound { from.len ≤ part.to - part.from }
    ensures done { A.Done O.at left.old left.new (part_window C.Elem.BITS part)
        (padded (part.to - part.from) (list_in C.Elem.BITS O.at (D.numbers right.old) from)) act.old act.new }
    ensures carried { IsCarried P.equal (D.numbers right.old) ((from.start + from.len - 1) / C.Elem.BITS) (C.Elem.value result) }
    ensures right { OnlyReads D.CellsRead right.old right.new (touched_count C.Elem.BITS from.start from.len - held P.equal) }
{
    let (other, last) = P::beside::<D>(right, from, part.from, carry);
    let cut = with_zeros::<O, C::Elem>(other, part, from.len);
    act.part::<O>(left, part, cut);
    last
}

/// The element with zeros in a part, behind the first `len` bits of the part.
fn with_zeros<O: BitOrder, T: BitStore>(element: T, part: Part, len: usize) -> T
    requires order { part.from ≤ part.to }
    requires inside { part.to ≤ T.BITS }
    requires bound { len ≤ part.to - part.from }
    ensures { slice_range (element_bits T.BITS O.at (T.value result)) part.from part.to
        ≡ padded (part.to - part.from) (slice_range (element_bits T.BITS O.at (T.value element)) part.from (part.from + len)) }
{
    if len == part.len() {
        return element;
    }
    merged::<O, T>(T::ZERO, element, part.from, part.from + len)
}
