//! Whether the bits of one window of a slice begin with those of another, or end with them.
ghost use Rattle.std.specs.Prelude.{◌≡◌, map};
ghost use Rattle.bitvec_base.specs.Lists.{is_prefix, is_suffix};
ghost use Rattle.bitvec_base.specs.Memory.{HasWindow, list_in};

use crate::comparing::eq_in;
use bitvec_base::{BitOrder, Window};
use bitvec_store::BitStore;

/// Whether the left window's bits begin with the right window's. Condition: each memory has at most
/// `MAX_BITS` bits, and each window lies in its memory.
pub fn starts_with_in<T: BitStore, O: BitOrder, U: BitStore, P: BitOrder>(
    left: &[T],
    left_window: Window,
    right: &[U],
    right_window: Window,
) -> bool
    requires window { HasWindow T.BITS (map T.value left.now) left_window }
    requires right_window { HasWindow U.BITS (map U.value right.now) right_window }
    ensures { result ≡ is_prefix (list_in U.BITS P.at (map U.value right.now) right_window)
        (list_in T.BITS O.at (map T.value left.now) left_window) }
{
    let head = left_window.range(0, right_window.len.min(left_window.len));
    eq_in::<T, O, U, P>(left, head, right, right_window)
}

/// Whether the left window's bits end with the right window's. Condition: as for
/// [`starts_with_in`].
pub fn ends_with_in<T: BitStore, O: BitOrder, U: BitStore, P: BitOrder>(
    left: &[T],
    left_window: Window,
    right: &[U],
    right_window: Window,
) -> bool
    requires window { HasWindow T.BITS (map T.value left.now) left_window }
    requires right_window { HasWindow U.BITS (map U.value right.now) right_window }
    ensures { result ≡ is_suffix (list_in U.BITS P.at (map U.value right.now) right_window)
        (list_in T.BITS O.at (map T.value left.now) left_window) }
{
    let tail = left_window.after(left_window.len.saturating_sub(right_window.len));
    eq_in::<T, O, U, P>(left, tail, right, right_window)
}
