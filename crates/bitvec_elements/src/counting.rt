//! How many bits of a window of a slice of elements are 1.
ghost use Rattle.std.specs.Prelude.{◌≡◌, ◌≤◌, count_by, map};
ghost use Rattle.bitvec_base.specs.Memory.{HasWindow, list_in};

use crate::window_words::is_at_once;
use bitvec_base::{BitOrder, Window};
use bitvec_cells::Shared;
use bitvec_few::load_parts;
use bitvec_store::BitStore;
use bitvec_words::{WordOrder, count};

/// How many bits of a window are 1. At most an element's bits, and 64, go as a word under an order that runs from one end of an
/// element to the other, and all others by whole elements. Condition: the memory has at most `MAX_BITS` bits, and the window lies in it.
#[tactic(auto, using(crate::proofs::Directions::by_direction))]
#[inline(always)]
pub fn count_in<T: BitStore, O: BitOrder>(elements: &[T], window: Window) -> usize
    requires window { HasWindow T.BITS (map T.value elements.now) window }
    ensures { result ≡ count_by (λ bit. bit) (list_in T.BITS O.at (map T.value elements.now) window) }
{
    if is_at_once::<T>(window.len) {
        return_by_direction!(O, T => count_few::<_, T>(elements, window));
    }
    count_blocks_in::<T, O>(elements, window)
}

/// [`count_in`] of at most 64 bits, as a word.
#[inline(always)]
fn count_few<W: WordOrder, T: BitStore>(elements: &[T], window: Window) -> usize
    requires window { HasWindow T.BITS (map T.value elements.now) window }
    requires few { window.len ≤ 64 }
    ensures { result ≡ count_by (λ bit. bit) (list_in T.BITS W.at (map T.value elements.now) window) }
{
    load_parts::<W, Shared<T>>(&mut Shared::new(elements), window).count_ones() as usize
}

/// [`count_in`] by whole elements at any length: prefer it where the length is not a compile-time
/// constant. Condition: as for [`count_in`].
pub fn count_blocks_in<T: BitStore, O: BitOrder>(elements: &[T], window: Window) -> usize
    requires window { HasWindow T.BITS (map T.value elements.now) window }
    ensures { result ≡ count_by (λ bit. bit) (list_in T.BITS O.at (map T.value elements.now) window) }
{
    count::<O, Shared<T>>(&mut Shared::new(elements), window)
}
