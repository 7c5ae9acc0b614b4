//! The first and the last bit of a window that is 1, or 0.
ghost use Rattle.bitvec_commands.specs.declared.command.Op.TheVariants.{FirstOne, FirstZero, LastOne, LastZero};
ghost use Rattle.bitvec_checked.specs.Calls.{Seeks};
ghost use Rattle.bitvec_checked.specs.Statuses.{bits_from};

use crate::status::{DONE, NONE, window_status};
use bitvec_base::Window;
use bitvec_elements::{find_first_in, find_last_in};
use bitvec_store::BitStore;

/// The index of the first bit of a window that is 1.
pub fn first_one<T: BitStore>(
    order: u32,
    elements: &[T],
    start: usize,
    len: usize,
    index: &mut usize,
) -> u32
    ensures { Seeks order T.BITS T.value FirstOne (bits_from start len) elements.now index.old index.new result }
{
    let window = Window { start, len };
    let status = window_status(order, elements, window);
    if status != DONE {
        return status;
    }
    match under!(order, find_first_in::<T>(elements, window, true)) {
        Some(place) => {
            *index = place;
            DONE
        }
        None => NONE,
    }
}

/// The index of the first bit of a window that is 0.
pub fn first_zero<T: BitStore>(
    order: u32,
    elements: &[T],
    start: usize,
    len: usize,
    index: &mut usize,
) -> u32
    ensures { Seeks order T.BITS T.value FirstZero (bits_from start len) elements.now index.old index.new result }
{
    let window = Window { start, len };
    let status = window_status(order, elements, window);
    if status != DONE {
        return status;
    }
    match under!(order, find_first_in::<T>(elements, window, false)) {
        Some(place) => {
            *index = place;
            DONE
        }
        None => NONE,
    }
}

/// The index of the last bit of a window that is 1.
pub fn last_one<T: BitStore>(
    order: u32,
    elements: &[T],
    start: usize,
    len: usize,
    index: &mut usize,
) -> u32
    ensures { Seeks order T.BITS T.value LastOne (bits_from start len) elements.now index.old index.new result }
{
    let window = Window { start, len };
    let status = window_status(order, elements, window);
    if status != DONE {
        return status;
    }
    match under!(order, find_last_in::<T>(elements, window, true)) {
        Some(place) => {
            *index = place;
            DONE
        }
        None => NONE,
    }
}

/// The index of the last bit of a window that is 0.
pub fn last_zero<T: BitStore>(
    order: u32,
    elements: &[T],
    start: usize,
    len: usize,
    index: &mut usize,
) -> u32
    ensures { Seeks order T.BITS T.value LastZero (bits_from start len) elements.now index.old index.new result }
{
    let window = Window { start, len };
    let status = window_status(order, elements, window);
    if status != DONE {
        return status;
    }
    match under!(order, find_last_in::<T>(elements, window, false)) {
        Some(place) => {
            *index = place;
            DONE
        }
        None => NONE,
    }
}
