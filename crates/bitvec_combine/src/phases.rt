//! At which indices of their elements two windows begin.
ghost use Rattle.std.specs.Prelude.{◌≡◌, ◌+◌, ◌-◌, ◌/◌, ◌<◌, Bool, length, slice_range};
ghost use Rattle.bitvec_base.specs.Memory.{element_bits, list_in};
ghost use Rattle.bitvec_cells.specs.Access.{OnlyReads};
ghost use Rattle.bitvec_cells.specs.Cost.{touched_count};
ghost use Rattle.bitvec_combine.specs.Acts.{ActsOnStretch, HasBeside, HasStretch, IsCarried, held};

use crate::acting::Act;
use bitvec_base::{BitOrder, Window};
use bitvec_cells::CellsRead;
use bitvec_words::Stretch;

/// How bits of a right memory come to the indices of a left one's. An element that was loaded for the bits before may be
/// needed for the next ones too; then it is carried to them.
pub trait Phases<O: BitOrder> {
    // Whether the bits have the same indices on both sides. None is carried then.
    ghost equal: { Bool };

    /// The element that is carried to the bits that begin in it.
    fn first<D: CellsRead>(right: &mut D, element: usize) -> D::Elem
        requires { element < length (D.numbers right.old) }
        ensures carried { IsCarried equal (D.numbers right.old) element (D.Elem.value result) }
        ensures reads { OnlyReads D.CellsRead right.old right.new (held equal) };

    /// An element that has the bits of a window from the index `index` on, and the element that is carried to the next
    /// bits.
    fn beside<D: CellsRead>(
        right: &mut D,
        window: Window,
        index: usize,
        carry: D::Elem,
    ) -> (D::Elem, D::Elem)
        requires { HasBeside D.Elem.BITS (D.numbers right.old) window index equal (D.Elem.value carry) }
        ensures value { slice_range (element_bits D.Elem.BITS O.at (D.Elem.value result.0)) index (index + window.len)
            ≡ list_in D.Elem.BITS O.at (D.numbers right.old) window }
        ensures carried { IsCarried equal (D.numbers right.old) ((window.start + window.len - 1) / D.Elem.BITS) (D.Elem.value result.1) }
        ensures reads { OnlyReads D.CellsRead right.old right.new (touched_count D.Elem.BITS window.start window.len - held equal) };

    /// Acts on whole elements, each given as many bits. It gives the element that is carried to the next bits.
    fn act_on_stretch<C: CellsRead, D: CellsRead<Elem = C::Elem>, A: Act<C>>(
        left: &mut C,
        stretch: Stretch,
        right: &mut D,
        carry: C::Elem,
        act: &mut A,
    ) -> C::Elem
        requires { HasStretch C.Elem.BITS (C.numbers left.old) (D.numbers right.old) stretch equal (C.Elem.value carry) }
        ensures { ActsOnStretch D.CellsRead A.Done C.Elem.BITS O.at left.old left.new right.old right.new stretch equal act.old act.new (C.Elem.value result) };

    /// [`Phases::act_on_stretch`] on the elements between two tests.
    #[inline(always)]
    fn act_on_span<C: CellsRead, D: CellsRead<Elem = C::Elem>, A: Act<C>>(
        left: &mut C,
        span: Stretch,
        right: &mut D,
        carry: C::Elem,
        act: &mut A,
    ) -> C::Elem
        requires { HasStretch C.Elem.BITS (C.numbers left.old) (D.numbers right.old) span equal (C.Elem.value carry) }
        ensures { ActsOnStretch D.CellsRead A.Done C.Elem.BITS O.at left.old left.new right.old right.new span equal act.old act.new (C.Elem.value result) }
    {
        Self::act_on_stretch::<C, D, A>(left, span, right, carry, act)
    }
}
