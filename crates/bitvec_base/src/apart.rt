//! Where the bits of a window come apart into two sides that share no element.
ghost use Rattle.std.specs.Prelude.{◌+◌, ◌≤◌, ◌↔◌, IsTrue};
ghost use Rattle.bitvec_base.specs.Window.{max_bits};
ghost use Rattle.bitvec_base.specs.Apart.{ComesApart};

use crate::window::Window;
use bitvec_store::BitStore;

/// Whether the bits of a window before the index `mid` share no element with those from it on: the
/// latter begin with an element, or one of the two sides has no bits. Condition: `mid` is at most
/// `len`, and the window ends in a memory of at most `MAX_BITS` bits.
#[inline(always)]
pub fn comes_apart<T: BitStore>(window: Window, mid: usize) -> bool
    requires mid { mid ≤ window.len }
    requires fits { window.start + window.len ≤ max_bits }
    ensures { IsTrue result ↔ ComesApart T.BITS window mid }
{
    mid == 0 || mid == window.len || (window.start + mid) % (T::BITS as usize) == 0
}
