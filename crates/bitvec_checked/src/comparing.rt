//! The bits of two windows compared.
ghost use Rattle.std.specs.Prelude.{◌≡◌};
ghost use Rattle.bitvec_commands.specs.declared.command.Op.TheVariants.{Cmp, Eq};
ghost use Rattle.bitvec_checked.specs.Calls.{AsksBeside};
ghost use Rattle.bitvec_checked.specs.Replies.{bit_of, order_number, order_of};
ghost use Rattle.bitvec_checked.specs.Statuses.{bits_from};

use crate::shifted::eq_shifted_in;
use crate::status::{DONE, windows_status};
use bitvec_base::Window;
use bitvec_elements::{compare_block_in, eq_blocks_in};
use bitvec_store::BitStore;
use std::cmp::Ordering;

/// Whether two windows have the same bits.
pub fn equal<T: BitStore>(
    order: u32,
    elements: &[T],
    start: usize,
    len: usize,
    right: &[T],
    right_start: usize,
    right_len: usize,
    answer: &mut bool,
) -> u32
    ensures { AsksBeside order T.BITS T.value (Eq (bits_from right_start right_len)) bit_of (bits_from start len) elements.now right.now answer.old answer.new result }
{
    tested_beside!(
        windows_status,
        *answer,
        order,
        elements[start, len],
        right[right_start, right_len],
        eq_blocks_in::<T> or eq_shifted_in
    )
}

/// How the bits of two windows compare, as lists of truth values do: -1, 0 or 1.
pub fn compare<T: BitStore>(
    order: u32,
    elements: &[T],
    start: usize,
    len: usize,
    right: &[T],
    right_start: usize,
    right_len: usize,
    ordering: &mut i32,
) -> u32
    ensures { AsksBeside order T.BITS T.value (Cmp (bits_from right_start right_len)) order_of (bits_from start len) elements.now right.now ordering.old ordering.new result }
{
    let window = Window { start, len };
    let right_window = Window {
        start: right_start,
        len: right_len,
    };
    let status = windows_status(order, elements, window, right, right_window);
    if status == DONE {
        *ordering = order_number(under!(
            order,
            compare_block_in::<T>(elements, window, right, right_window)
        ));
    }
    status
}

/// An order as a number: below 0 for less.
fn order_number(order: Ordering) -> i32
    ensures { result ≡ order_number order }
{
    match order {
        Ordering::Less => -1,
        Ordering::Equal => 0,
        Ordering::Greater => 1,
    }
}
