//! How many bits of a window are 1, or 0, and whether any or all are 1.
ghost use Rattle.std.specs.Prelude.{◌≡◌, count_by, map, not};
ghost use Rattle.bitvec_base.specs.Memory.{HasWindow, list_in};
ghost use Rattle.bitvec_commands.specs.declared.command.Op.TheVariants.{All, Any, CountOnes, CountZeros};
ghost use Rattle.bitvec_checked.specs.Calls.{Asks};
ghost use Rattle.bitvec_checked.specs.Replies.{bit_of, count_of};
ghost use Rattle.bitvec_checked.specs.Statuses.{bits_from};

use crate::status::window_status;
use bitvec_base::{BitOrder, Window};
use bitvec_cells::Shared;
use bitvec_elements::{all_in, any_in, count_blocks_in};
use bitvec_store::BitStore;

/// How many bits of a window are 1.
pub fn count_ones<T: BitStore>(
    order: u32,
    elements: &[T],
    start: usize,
    len: usize,
    ones: &mut usize,
) -> u32
    ensures { Asks order T.BITS T.value CountOnes count_of (bits_from start len) elements.now ones.old ones.new result }
{
    let window = Window { start, len };
    let status = window_status(order, elements, window);
    tested!(status, *ones, order, count_blocks_in::<T>(elements, window))
}

/// How many bits of a window are 0.
pub fn count_zeros<T: BitStore>(
    order: u32,
    elements: &[T],
    start: usize,
    len: usize,
    zeros: &mut usize,
) -> u32
    ensures { Asks order T.BITS T.value CountZeros count_of (bits_from start len) elements.now zeros.old zeros.new result }
{
    let window = Window { start, len };
    let status = window_status(order, elements, window);
    tested!(status, *zeros, order, count_zeros_in::<T>(elements, window))
}

fn count_zeros_in<T: BitStore, O: BitOrder>(elements: &[T], window: Window) -> usize
    requires window { HasWindow T.BITS (map T.value elements.now) window }
    ensures { result ≡ count_by not (list_in T.BITS O.at (map T.value elements.now) window) }
{
    let mut cells = Shared::new(elements);
    bitvec_words::count_zeros::<O, Shared<T>>(&mut cells, window)
}

/// Whether some bit of a window is 1.
pub fn any<T: BitStore>(
    order: u32,
    elements: &[T],
    start: usize,
    len: usize,
    answer: &mut bool,
) -> u32
    ensures { Asks order T.BITS T.value Any bit_of (bits_from start len) elements.now answer.old answer.new result }
{
    let window = Window { start, len };
    let status = window_status(order, elements, window);
    tested!(status, *answer, order, any_in::<T>(elements, window))
}

/// Whether each bit of a window is 1.
pub fn all<T: BitStore>(
    order: u32,
    elements: &[T],
    start: usize,
    len: usize,
    answer: &mut bool,
) -> u32
    ensures { Asks order T.BITS T.value All bit_of (bits_from start len) elements.now answer.old answer.new result }
{
    let window = Window { start, len };
    let status = window_status(order, elements, window);
    tested!(status, *answer, order, all_in::<T>(elements, window))
}
