//! How a window is cut at the edges of elements.
ghost use Rattle.std.specs.Prelude.{◌≡◌, ◌+◌, ◌^◌, ◌<◌, length, map};
ghost use Rattle.bitvec_base.specs.Memory.{HasWindow};
ghost use Rattle.bitvec_domain.specs.Cuts.{IsCutWithin, cut_across, cut_of};

use bitvec_base::{Part, Window};
use bitvec_store::BitStore;

/// A window of a memory, cut at the edges of its elements.
#[derive(Clone, Copy)]
pub enum Cut {
    /// All inside one element, touching neither of its edges.
    Inside(Part),
    /// Whole elements, and parts of one at either end.
    Across {
        /// The bits of the first element, if the window begins inside it.
        head: Option<Part>,
        /// The first of the whole elements.
        start: usize,
        /// The element past the whole ones.
        end: usize,
        /// The bits of the last element, if the window ends inside it.
        tail: Option<Part>,
    },
}

impl Cut {
    /// The cut of a window of some elements. Condition: they have at most `MAX_BITS` bits, and the
    /// window lies in them.
    pub fn of_elements<T: BitStore>(_elements: &[T], window: Window) -> Cut
        requires { HasWindow T.BITS (map T.value _elements.now) window }
        ensures value { result ≡ cut_of T.BITS window }
        ensures within { IsCutWithin T.BITS (length _elements.now) result }
    {
        Cut::of::<T>(window)
    }

    /// The cut of a window of a memory of such elements. Condition: the window's end fits a `usize`.
    pub fn of<T: BitStore>(window: Window) -> Cut
        requires { window.start + window.len < 2 ^ 64 }
        ensures { result ≡ cut_of T.BITS window }
    {
        if window.len == 0 {
            let element = window.element::<T>();
            return Cut::Across {
                head: None,
                start: element,
                end: element,
                tail: None,
            };
        }
        let first = window.first_part::<T>();
        let last = window.last_part::<T>();
        if first.from == 0 {
            return Cut::across::<T>(None, first.element, last);
        }
        if first.to == T::BITS as usize {
            return Cut::across::<T>(Some(first), first.element + 1, last);
        }
        Cut::Inside(first)
    }

    // From the head and the whole element `start` on, up to the end of the last part, which is the
    // tail if it doesn't end its element.
    fn across<T: BitStore>(head: Option<Part>, start: usize, last: Part) -> Cut
        requires { last.element + 1 < 2 ^ 64 }
        ensures { result ≡ cut_across T.BITS head start last }
    {
        if last.to == T::BITS as usize {
            return Cut::Across {
                head,
                start,
                end: last.element + 1,
                tail: None,
            };
        }
        Cut::Across {
            head,
            start,
            end: last.element,
            tail: Some(last),
        }
    }
}
