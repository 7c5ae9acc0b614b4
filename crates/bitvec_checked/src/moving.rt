//! The bits of a window moved to other places of it.
ghost use Rattle.bitvec_commands.specs.declared.command.Op.TheVariants.{CopyWithin, Reverse, RotateLeft, RotateRight, ShiftEnd, ShiftStart};
ghost use Rattle.bitvec_checked.specs.Calls.{EditsBy};
ghost use Rattle.bitvec_checked.specs.Statuses.{bits_from};

use crate::status::{op_status, or_next, window_status};
use bitvec_base::Window;
use bitvec_commands::Op;
use bitvec_store::BitStore;
use bitvec_within::{
    copy_within_in, reverse_in, rotate_left_in, rotate_right_in, shift_end_in, shift_start_in,
};

/// Puts the bits of a window in the opposite order.
pub fn reverse<T: BitStore>(order: u32, elements: &mut [T], start: usize, len: usize) -> u32
    ensures { EditsBy order T.BITS T.value Reverse (bits_from start len) elements.old elements.new result }
{
    let window = Window { start, len };
    let status = window_status(order, elements, window);
    tested!(status, order, reverse_in::<T>(elements, window))
}

/// Shifts the bits of a window towards its start: as many zeros as were lost follow the others.
pub fn shift_start<T: BitStore>(
    order: u32,
    elements: &mut [T],
    start: usize,
    len: usize,
    by: usize,
) -> u32
    ensures { EditsBy order T.BITS T.value (ShiftStart by) (bits_from start len) elements.old elements.new result }
{
    let window = Window { start, len };
    let status = or_next(
        window_status(order, elements, window),
        op_status(Op::ShiftStart(by), len),
    );
    tested!(status, order, shift_start_in::<T>(elements, window, by))
}

/// Shifts the bits of a window towards its end: as many zeros as were lost stand before the others.
pub fn shift_end<T: BitStore>(
    order: u32,
    elements: &mut [T],
    start: usize,
    len: usize,
    by: usize,
) -> u32
    ensures { EditsBy order T.BITS T.value (ShiftEnd by) (bits_from start len) elements.old elements.new result }
{
    let window = Window { start, len };
    let status = or_next(
        window_status(order, elements, window),
        op_status(Op::ShiftEnd(by), len),
    );
    tested!(status, order, shift_end_in::<T>(elements, window, by))
}

/// Rotates the bits of a window so that the one at `by` comes first.
pub fn rotate_left<T: BitStore>(
    order: u32,
    elements: &mut [T],
    start: usize,
    len: usize,
    by: usize,
) -> u32
    ensures { EditsBy order T.BITS T.value (RotateLeft by) (bits_from start len) elements.old elements.new result }
{
    let window = Window { start, len };
    let status = or_next(
        window_status(order, elements, window),
        op_status(Op::RotateLeft(by), len),
    );
    tested!(status, order, rotate_left_in::<T>(elements, window, by))
}

/// Rotates the bits of a window so that the last `by` come first.
pub fn rotate_right<T: BitStore>(
    order: u32,
    elements: &mut [T],
    start: usize,
    len: usize,
    by: usize,
) -> u32
    ensures { EditsBy order T.BITS T.value (RotateRight by) (bits_from start len) elements.old elements.new result }
{
    let window = Window { start, len };
    let status = or_next(
        window_status(order, elements, window),
        op_status(Op::RotateRight(by), len),
    );
    tested!(status, order, rotate_right_in::<T>(elements, window, by))
}

/// Copies the bits `from` up to, without, `to` of a window to those from `dest` on, also where they overlap.
pub fn copy_within<T: BitStore>(
    order: u32,
    elements: &mut [T],
    start: usize,
    len: usize,
    from: usize,
    to: usize,
    dest: usize,
) -> u32
    ensures { EditsBy order T.BITS T.value (CopyWithin from to dest) (bits_from start len) elements.old elements.new result }
{
    let window = Window { start, len };
    let status = or_next(
        window_status(order, elements, window),
        op_status(Op::CopyWithin(from, to, dest), len),
    );
    tested!(
        status,
        order,
        copy_within_in::<T>(elements, window, from..to, dest)
    )
}
