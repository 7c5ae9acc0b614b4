//! Numbers of 1 to 64 bits in windows.
ghost use Rattle.std.specs.Prelude.{◌≡◌, ◌≤◌, map};
ghost use Rattle.bitvec_base.specs.Memory.{Edits, HasWindow, list_in};
ghost use Rattle.bitvec_segments.specs.Segments.{loaded_be, loaded_le, stored_be, stored_le};
ghost use Rattle.bitvec_checked.specs.Calls.{Loads, Stores};
ghost use Rattle.bitvec_checked.specs.Statuses.{bits_from};

use crate::status::{or_next, width_status, window_status};
use bitvec_base::Window;
use bitvec_cells::{Exclusive, Shared};
use bitvec_numbers::FieldOrder;
use bitvec_store::BitStore;

/// The number of the bits of a window, the first segment lowest.
pub fn load_le<T: BitStore>(
    order: u32,
    elements: &[T],
    start: usize,
    len: usize,
    number: &mut u64,
) -> u32
    ensures { Loads order T.BITS T.value loaded_le (bits_from start len) elements.now number.old number.new result }
{
    let window = Window { start, len };
    let status = or_next(window_status(order, elements, window), width_status(len));
    tested!(status, *number, order, load_le_in::<T>(elements, window))
}

fn load_le_in<T: BitStore, O: FieldOrder>(elements: &[T], window: Window) -> u64
    requires window { HasWindow T.BITS (map T.value elements.now) window }
    requires bound { window.len ≤ 64 }
    ensures { result ≡ loaded_le O.HIGH T.BITS window.start (list_in T.BITS O.at (map T.value elements.now) window) }
{
    let mut cells = Shared::new(elements);
    O::load_le::<Shared<T>>(&mut cells, window) as u64
}

/// The number of the bits of a window, the first segment highest.
pub fn load_be<T: BitStore>(
    order: u32,
    elements: &[T],
    start: usize,
    len: usize,
    number: &mut u64,
) -> u32
    ensures { Loads order T.BITS T.value loaded_be (bits_from start len) elements.now number.old number.new result }
{
    let window = Window { start, len };
    let status = or_next(window_status(order, elements, window), width_status(len));
    tested!(status, *number, order, load_be_in::<T>(elements, window))
}

fn load_be_in<T: BitStore, O: FieldOrder>(elements: &[T], window: Window) -> u64
    requires window { HasWindow T.BITS (map T.value elements.now) window }
    requires bound { window.len ≤ 64 }
    ensures { result ≡ loaded_be O.HIGH T.BITS window.start (list_in T.BITS O.at (map T.value elements.now) window) }
{
    let mut cells = Shared::new(elements);
    O::load_be::<Shared<T>>(&mut cells, window) as u64
}

/// Gives the bits of a window a number modulo `2^len`, the first segment lowest.
pub fn store_le<T: BitStore>(
    order: u32,
    elements: &mut [T],
    start: usize,
    len: usize,
    number: u64,
) -> u32
    ensures { Stores order T.BITS T.value stored_le number (bits_from start len) elements.old elements.new result }
{
    let window = Window { start, len };
    let status = or_next(window_status(order, elements, window), width_status(len));
    tested!(status, order, store_le_in::<T>(elements, window, number))
}

fn store_le_in<T: BitStore, O: FieldOrder>(elements: &mut [T], window: Window, number: u64)
    requires window { HasWindow T.BITS (map T.value elements.old) window }
    requires bound { window.len ≤ 64 }
    ensures writes { Edits T.BITS O.at (map T.value elements.old) (map T.value elements.new) window (stored_le O.HIGH T.BITS window.start number) }
{
    let mut cells = Exclusive::new(elements);
    O::store_le::<Exclusive<T>>(&mut cells, window, number as u128);
}

/// Gives the bits of a window a number modulo `2^len`, the first segment highest.
pub fn store_be<T: BitStore>(
    order: u32,
    elements: &mut [T],
    start: usize,
    len: usize,
    number: u64,
) -> u32
    ensures { Stores order T.BITS T.value stored_be number (bits_from start len) elements.old elements.new result }
{
    let window = Window { start, len };
    let status = or_next(window_status(order, elements, window), width_status(len));
    tested!(status, order, store_be_in::<T>(elements, window, number))
}

fn store_be_in<T: BitStore, O: FieldOrder>(elements: &mut [T], window: Window, number: u64)
    requires window { HasWindow T.BITS (map T.value elements.old) window }
    requires bound { window.len ≤ 64 }
    ensures writes { Edits T.BITS O.at (map T.value elements.old) (map T.value elements.new) window (stored_be O.HIGH T.BITS window.start number) }
{
    let mut cells = Exclusive::new(elements);
    O::store_be::<Exclusive<T>>(&mut cells, window, number as u128);
}
