//! Elements as they are, for windows that begin at the same index of an element.
ghost use Rattle.std.specs.Prelude.{true};

use crate::acting::Act;
use crate::phases::Phases;
use bitvec_base::{BitOrder, Window};
use bitvec_cells::CellsRead;
use bitvec_store::BitStore;
use bitvec_words::Stretch;

/// Both windows begin at the same index of an element: each element is taken as it is.
pub struct Equal {}

impl<O: BitOrder> Phases<O> for Equal {
    ghost equal = { true };

    #[inline(always)]
    fn first<D: CellsRead>(_right: &mut D, _element: usize) -> D::Elem {
        D::Elem::ZERO
    }

    #[inline(always)]
    fn beside<D: CellsRead>(
        right: &mut D,
        window: Window,
        _index: usize,
        carry: D::Elem,
    ) -> (D::Elem, D::Elem) {
        (right.load(window.element::<D::Elem>()), carry)
    }

    #[inline(always)]
    fn act_on_stretch<C: CellsRead, D: CellsRead<Elem = C::Elem>, A: Act<C>>(
        left: &mut C,
        stretch: Stretch,
        right: &mut D,
        carry: C::Elem,
        act: &mut A,
    ) -> C::Elem {
        for step in 0..stretch.count {
            let other = right.load(stretch.source + step);
            act.whole::<O>(left, stretch.first + step, other);
        }
        carry
    }
}
