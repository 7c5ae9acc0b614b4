//! The first and the last bit of a window of a slice of elements that is 1, or 0.
ghost use Rattle.std.specs.Prelude.{◌≡◌, ◌≤◌, map};
ghost use Rattle.std.specs.List.{list_all, list_any};
ghost use Rattle.bitvec_base.specs.Lists.{first_place, last_place};
ghost use Rattle.bitvec_base.specs.Memory.{HasWindow, list_in};

use crate::window_words::is_at_once;
use bitvec_base::{Part, Window};
use bitvec_cells::{Shared, first_in_element};
use bitvec_engine::{SliceOrder, all, any};
use bitvec_few::load_parts;
use bitvec_store::BitStore;
use bitvec_words::WordOrder;

/// The index of a window's first bit that is `want`, if there is one. So few bits as are loaded at once are searched as a word.
/// Condition: the memory has at most `MAX_BITS` bits, and the window lies in it.
#[tactic(auto, using(crate::proofs::Directions::by_direction))]
#[inline(always)]
pub fn find_first_in<T: BitStore, O: SliceOrder>(
    elements: &[T],
    window: Window,
    want: bool,
) -> Option<usize>
    requires window { HasWindow T.BITS (map T.value elements.now) window }
    ensures { result ≡ first_place want (list_in T.BITS O.at (map T.value elements.now) window) }
{
    if is_at_once::<T>(window.len) {
        return_by_direction!(O, T => find_first_few::<_, T>(elements, window, want));
    }
    find_first_many::<T, O>(elements, window, want)
}

/// [`find_first_in`] of at most 64 bits, as a word.
#[inline(always)]
fn find_first_few<W: WordOrder, T: BitStore>(
    elements: &[T],
    window: Window,
    want: bool,
) -> Option<usize>
    requires window { HasWindow T.BITS (map T.value elements.now) window }
    requires bound { window.len ≤ 64 }
    ensures { result ≡ first_place want (list_in T.BITS W.at (map T.value elements.now) window) }
{
    let word = load_parts::<W, Shared<T>>(&mut Shared::new(elements), window);
    let bits = Part {
        element: 0,
        from: 0,
        to: window.len,
    };
    first_in_element::<W, u64>(word, bits, want)
}

/// [`find_first_in`] by the order. It stays out of line, so that few bits save no registers for it.
#[inline(never)]
fn find_first_many<T: BitStore, O: SliceOrder>(
    elements: &[T],
    window: Window,
    want: bool,
) -> Option<usize>
    requires window { HasWindow T.BITS (map T.value elements.now) window }
    ensures { result ≡ first_place want (list_in T.BITS O.at (map T.value elements.now) window) }
{
    O::find_first::<Shared<T>>(&mut Shared::new(elements), window, want)
}

/// The index of a window's last bit that is `want`, if there is one. Condition: as for [`find_first_in`].
pub fn find_last_in<T: BitStore, O: SliceOrder>(
    elements: &[T],
    window: Window,
    want: bool,
) -> Option<usize>
    requires window { HasWindow T.BITS (map T.value elements.now) window }
    ensures { result ≡ last_place want (list_in T.BITS O.at (map T.value elements.now) window) }
{
    O::scan_last::<Shared<T>>(&mut Shared::new(elements), window, want)
}

/// Whether a bit of a window is 1. Condition: as for [`find_first_in`].
pub fn any_in<T: BitStore, O: SliceOrder>(elements: &[T], window: Window) -> bool
    requires window { HasWindow T.BITS (map T.value elements.now) window }
    ensures { result ≡ list_any (λ bit. bit) (list_in T.BITS O.at (map T.value elements.now) window) }
{
    any::<O, Shared<T>>(&mut Shared::new(elements), window)
}

/// Whether every bit of a window is 1. Condition: as for [`find_first_in`].
pub fn all_in<T: BitStore, O: SliceOrder>(elements: &[T], window: Window) -> bool
    requires window { HasWindow T.BITS (map T.value elements.now) window }
    ensures { result ≡ list_all (λ bit. bit) (list_in T.BITS O.at (map T.value elements.now) window) }
{
    all::<O, Shared<T>>(&mut Shared::new(elements), window)
}
