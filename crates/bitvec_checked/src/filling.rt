//! Each bit of a window set, cleared or flipped.
ghost use Rattle.bitvec_commands.specs.declared.command.Op.TheVariants.{Fill, Invert};
ghost use Rattle.bitvec_checked.specs.Calls.{EditsBy};
ghost use Rattle.bitvec_checked.specs.Statuses.{bits_from};

use crate::status::window_status;
use bitvec_base::Window;
use bitvec_elements::{fill_in, invert_in};
use bitvec_store::BitStore;

/// Makes each bit of a window `bit`.
pub fn fill<T: BitStore>(order: u32, elements: &mut [T], start: usize, len: usize, bit: bool) -> u32
    ensures { EditsBy order T.BITS T.value (Fill bit) (bits_from start len) elements.old elements.new result }
{
    let window = Window { start, len };
    let status = window_status(order, elements, window);
    tested!(status, order, fill_in::<T>(elements, window, bit))
}

/// Flips each bit of a window.
pub fn invert<T: BitStore>(order: u32, elements: &mut [T], start: usize, len: usize) -> u32
    ensures { EditsBy order T.BITS T.value Invert (bits_from start len) elements.old elements.new result }
{
    let window = Window { start, len };
    let status = window_status(order, elements, window);
    tested!(status, order, invert_in::<T>(elements, window))
}
