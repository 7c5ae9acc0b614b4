//! Single bits of a window.
ghost use Rattle.bitvec_commands.specs.declared.command.Op.TheVariants.{Get, Replace, Set, Swap};
ghost use Rattle.bitvec_checked.specs.Calls.{Asks, EditsBy};
ghost use Rattle.bitvec_checked.specs.Replies.{bit_of};
ghost use Rattle.bitvec_checked.specs.Statuses.{bits_from};

use crate::status::{op_status, or_next, window_status};
use bitvec_base::Window;
use bitvec_commands::Op;
use bitvec_domain::{bit_in, replace_in, set_in, swap_in};
use bitvec_store::BitStore;

/// The bit at an index of a window.
pub fn get<T: BitStore>(
    order: u32,
    elements: &[T],
    start: usize,
    len: usize,
    index: usize,
    bit: &mut bool,
) -> u32
    ensures { Asks order T.BITS T.value (Get index) bit_of (bits_from start len) elements.now bit.old bit.new result }
{
    let window = Window { start, len };
    let status = or_next(
        window_status(order, elements, window),
        op_status(Op::Get(index), len),
    );
    tested!(status, *bit, order, bit_in::<T>(elements, window, index))
}

/// Makes the bit at an index of a window `bit`.
pub fn set<T: BitStore>(
    order: u32,
    elements: &mut [T],
    start: usize,
    len: usize,
    index: usize,
    bit: bool,
) -> u32
    ensures { EditsBy order T.BITS T.value (Set index bit) (bits_from start len) elements.old elements.new result }
{
    let window = Window { start, len };
    let status = or_next(
        window_status(order, elements, window),
        op_status(Op::Set(index, bit), len),
    );
    tested!(status, order, set_in::<T>(elements, window, index, bit))
}

/// Makes the bit at an index of a window `bit`, and gives the old one.
pub fn replace<T: BitStore>(
    order: u32,
    elements: &mut [T],
    start: usize,
    len: usize,
    index: usize,
    bit: bool,
    old: &mut bool,
) -> u32
    ensures value { Asks order T.BITS T.value (Replace index bit) bit_of (bits_from start len) elements.old old.old old.new result }
    ensures writes { EditsBy order T.BITS T.value (Replace index bit) (bits_from start len) elements.old elements.new result }
{
    let window = Window { start, len };
    let status = or_next(
        window_status(order, elements, window),
        op_status(Op::Replace(index, bit), len),
    );
    tested!(
        status,
        *old,
        order,
        replace_in::<T>(elements, window, index, bit)
    )
}

/// Exchanges the bits at two indices of a window.
pub fn swap_bits<T: BitStore>(
    order: u32,
    elements: &mut [T],
    start: usize,
    len: usize,
    first: usize,
    second: usize,
) -> u32
    ensures { EditsBy order T.BITS T.value (Swap first second) (bits_from start len) elements.old elements.new result }
{
    let window = Window { start, len };
    let status = or_next(
        window_status(order, elements, window),
        op_status(Op::Swap(first, second), len),
    );
    tested!(status, order, swap_in::<T>(elements, window, first, second))
}
