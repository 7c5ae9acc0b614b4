//! Integers in windows of borrowed slices of elements.
ghost use Rattle.std.specs.Prelude.{◌≡◌, ◌<◌, ◌≤◌, map};
ghost use Rattle.bitvec_base.specs.Memory.{Edits, HasWindow, list_in};
ghost use Rattle.bitvec_numbers.specs.Integers.{integer_of, remainder_of};
ghost use Rattle.bitvec_segments.specs.Segments.{loaded_be, loaded_le, stored_be, stored_le};

use crate::Integral;
use bitvec_base::Window;
use bitvec_cells::{Exclusive, Shared};
use bitvec_numbers::FieldOrder;
use bitvec_store::BitStore;

/// The integer of a window's bits, the first segment lowest. Condition: the memory has at most
/// `MAX_BITS` bits, the window lies in it, and has from 1 to `I::BITS` bits.
#[inline(always)]
pub fn load_le_in<T: BitStore, O: FieldOrder, I: Integral>(elements: &[T], window: Window) -> I
    requires window { HasWindow T.BITS (map T.value elements.now) window }
    requires some { 0 < window.len }
    requires bound { window.len ≤ I.BITS }
    ensures { I.value result ≡ integer_of I.SIGNED window.len
        (loaded_le O.HIGH T.BITS window.start (list_in T.BITS O.at (map T.value elements.now) window)) }
{
    let mut accessor = Shared::new(elements);
    let number = O::load_le::<Shared<T>>(&mut accessor, window);
    I::from_bits(number, window.len as u32)
}

/// The integer of a window's bits, the first segment highest. Condition: as for [`load_le_in`].
#[inline(always)]
pub fn load_be_in<T: BitStore, O: FieldOrder, I: Integral>(elements: &[T], window: Window) -> I
    requires window { HasWindow T.BITS (map T.value elements.now) window }
    requires some { 0 < window.len }
    requires bound { window.len ≤ I.BITS }
    ensures { I.value result ≡ integer_of I.SIGNED window.len
        (loaded_be O.HIGH T.BITS window.start (list_in T.BITS O.at (map T.value elements.now) window)) }
{
    let mut accessor = Shared::new(elements);
    let number = O::load_be::<Shared<T>>(&mut accessor, window);
    I::from_bits(number, window.len as u32)
}

/// Stores an integer in a window, the first segment lowest. Condition: as for [`load_le_in`], but the
/// window may be empty.
pub fn store_le_in<T: BitStore, O: FieldOrder, I: Integral>(
    elements: &mut [T],
    window: Window,
    value: I,
)
    requires window { HasWindow T.BITS (map T.value elements.old) window }
    requires bound { window.len ≤ I.BITS }
    ensures writes { Edits T.BITS O.at (map T.value elements.old) (map T.value elements.new) window
        (stored_le O.HIGH T.BITS window.start (remainder_of I.BITS (I.value value))) }
{
    let mut accessor = Exclusive::new(elements);
    O::store_le::<Exclusive<T>>(&mut accessor, window, value.to_bits());
}

/// Stores an integer in a window, the first segment highest. Condition: as for [`load_le_in`], but the
/// window may be empty.
pub fn store_be_in<T: BitStore, O: FieldOrder, I: Integral>(
    elements: &mut [T],
    window: Window,
    value: I,
)
    requires window { HasWindow T.BITS (map T.value elements.old) window }
    requires bound { window.len ≤ I.BITS }
    ensures writes { Edits T.BITS O.at (map T.value elements.old) (map T.value elements.new) window
        (stored_be O.HIGH T.BITS window.start (remainder_of I.BITS (I.value value))) }
{
    let mut accessor = Exclusive::new(elements);
    O::store_be::<Exclusive<T>>(&mut accessor, window, value.to_bits());
}
