//! Short windows of two memories that begin at different indices of their elements: each operation in one loop, with little
//! before it.
ghost use Rattle.std.specs.Prelude.{◌≡◌, ◌*◌, ◌%◌, ◌==◌, ◌<◌, ◌≤◌, ◌↔◌, IsTrue, true, false, map};
ghost use Rattle.bitvec_base.specs.Lists.{same_bits};
ghost use Rattle.bitvec_base.specs.Memory.{list_in};
ghost use Rattle.bitvec_base.specs.Spans.{HasSpan};
ghost use Rattle.bitvec_words.specs.Moves.{Copies};

use crate::tuning::SHORT_SHIFTED_BITS;
use bitvec_base::Window;
use bitvec_cells::{Exclusive, Shared};
use bitvec_combine::{copy_shifted, equal_shifted};
use bitvec_store::BitStore;
use bitvec_words::WordOrder;

/// Whether two windows are short ones, as long, and begin at different indices of their elements, of at least 32 bits:
/// narrower elements are faster where the compiler knows by how much it shifts.
#[inline(always)]
pub(crate) fn are_short_shifted<T: BitStore>(window: Window, right_window: Window) -> bool
    ensures { IsTrue result ↔ (32 ≤ T.BITS) × ((window.start % T.BITS == right_window.start % T.BITS) ≡ false) × (window.len ≡ right_window.len) × (0 < window.len) × (window.len < 9 * 128) }
{
    T::BITS >= u32::BITS
        && window.phase::<T>() != right_window.phase::<T>()
        && window.len == right_window.len
        && 0 < window.len
        && window.len < SHORT_SHIFTED_BITS
}

/// Copies the bits of the right window.
#[inline(always)]
pub(crate) fn copy_shifted_in<T: BitStore, O: WordOrder>(
    elements: &mut [T],
    window: Window,
    right: &[T],
    right_window: Window,
)
    requires span { HasSpan T.BITS (map T.value elements.old) (map T.value right.now) window right_window }
    requires some { 0 < window.len }
    requires phases { (window.start % T.BITS == right_window.start % T.BITS) ≡ false }
    ensures { Copies T.BITS O.at (map T.value elements.old) (map T.value elements.new) window (map T.value right.now) right_window }
{
    let mut cells = Exclusive::new(elements);
    let mut beside = Shared::new(right);
    copy_shifted::<O, Exclusive<T>, Shared<T>>(&mut cells, window, &mut beside, right_window);
}

/// Whether two windows have the same bits.
#[inline(always)]
pub(crate) fn eq_shifted_in<T: BitStore, O: WordOrder>(
    elements: &[T],
    window: Window,
    right: &[T],
    right_window: Window,
) -> bool
    requires span { HasSpan T.BITS (map T.value elements.now) (map T.value right.now) window right_window }
    requires some { 0 < window.len }
    requires phases { (window.start % T.BITS == right_window.start % T.BITS) ≡ false }
    ensures { result ≡ same_bits (list_in T.BITS O.at (map T.value elements.now) window) (list_in T.BITS O.at (map T.value right.now) right_window) }
{
    let mut cells = Shared::new(elements);
    let mut beside = Shared::new(right);
    equal_shifted::<O, Shared<T>, Shared<T>>(&mut cells, window, &mut beside, right_window)
}
