//! The indices of the ones of a window, in turn.
ghost use Rattle.std.specs.Prelude.{◌≡◌, ◌++◌, ◌≤◌, drop, length, map, min, take};
ghost use Rattle.bitvec_base.specs.Memory.{HasWindow, list_in};
ghost use Rattle.bitvec_checked.specs.Statuses.{bits_from};
ghost use Rattle.bitvec_c.specs.Ones.{Lists, ones_from};

use bitvec_base::{Lsb0, Msb0, Window};
use bitvec_checked::{DONE, LSB0, end_status, or_next, window_status};
use bitvec_engine::SliceOrder;
use bitvec_places::write_places;
use bitvec_store::BitStore;
use bitvec_words::WordOrder;

/// The indices, from `from` on, of the bits of a window that are 1, ascending, as many as there are
/// places for, and how many these are.
pub(crate) fn ones<T: BitStore>(
    order: u32,
    elements: &[T],
    start: usize,
    len: usize,
    from: usize,
    indices: &mut [usize],
    found: &mut usize,
) -> u32
    ensures { Lists order T.BITS T.value from (bits_from start len) elements.now indices.old indices.new found.old found.new result }
{
    let window = Window { start, len };
    let status = or_next(
        window_status(order, elements, window),
        end_status(from, len),
    );
    if status == DONE {
        *found = match order {
            LSB0 => ones_in::<T, Lsb0>(elements, window, from, indices),
            _ => ones_in::<T, Msb0>(elements, window, from, indices),
        };
    }
    status
}

/// Writes the places under one order. Conditions: the memory has at most `MAX_BITS` bits, the window lies in it,
/// and has so many bits.
fn ones_in<T: BitStore, O: SliceOrder + WordOrder>(
    elements: &[T],
    window: Window,
    from: usize,
    indices: &mut [usize],
) -> usize
    requires window { HasWindow T.BITS (map T.value elements.now) window }
    requires bound { from ≤ window.len }
    ensures found { result ≡ min (length (ones_from from (list_in T.BITS O.at (map T.value elements.now) window))) (length indices.old) }
    ensures indices { indices.new ≡ take result (ones_from from (list_in T.BITS O.at (map T.value elements.now) window)) ++ drop result indices.old }
{
    write_places::<T, O>(elements, window, true, from, indices)
}
