//! Bits of a window copied from a window of another memory, combined with its bits, or exchanged for them.
ghost use Rattle.bitvec_commands.specs.declared.command.Op.TheVariants.{And, CopyFrom, Or, Xor};
ghost use Rattle.bitvec_checked.specs.Calls.{EditsBeside, Joins, Swaps};
ghost use Rattle.bitvec_checked.specs.Pairs.{only_first};
ghost use Rattle.bitvec_checked.specs.Statuses.{bits_from};

use crate::shifted::copy_shifted_in;
use crate::status::{equal_windows_status, windows_status};
use bitvec_base::Window;
use bitvec_elements::{combine_block_in, copy_from_long_block_in, swap_with_block_in};
use bitvec_store::BitStore;
use bitvec_words::BitOp;

/// Copies the bits of the right window, which is as long.
pub fn copy<T: BitStore>(
    order: u32,
    elements: &mut [T],
    start: usize,
    len: usize,
    right: &[T],
    right_start: usize,
    right_len: usize,
) -> u32
    ensures { EditsBeside order T.BITS T.value (CopyFrom (bits_from right_start right_len)) (bits_from start len) elements.old elements.new right.now result }
{
    tested_beside!(
        equal_windows_status,
        order,
        elements[start, len],
        right[right_start, right_len],
        copy_from_long_block_in::<T> or copy_shifted_in
    )
}

/// Makes each bit of a window that bit and the one at its index in the right window, 0 past its end.
pub fn and<T: BitStore>(
    order: u32,
    elements: &mut [T],
    start: usize,
    len: usize,
    right: &[T],
    right_start: usize,
    right_len: usize,
) -> u32
    ensures { EditsBeside order T.BITS T.value (And (bits_from right_start right_len)) (bits_from start len) elements.old elements.new right.now result }
{
    tested_beside!(
        windows_status,
        order,
        elements[start, len],
        right[right_start, right_len],
        combine_block_in::<T>,
        BitOp::And
    )
}

/// Makes each bit of a window that bit or the one at its index in the right window, 0 past its end.
pub fn or<T: BitStore>(
    order: u32,
    elements: &mut [T],
    start: usize,
    len: usize,
    right: &[T],
    right_start: usize,
    right_len: usize,
) -> u32
    ensures { EditsBeside order T.BITS T.value (Or (bits_from right_start right_len)) (bits_from start len) elements.old elements.new right.now result }
{
    tested_beside!(
        windows_status,
        order,
        elements[start, len],
        right[right_start, right_len],
        combine_block_in::<T>,
        BitOp::Or
    )
}

/// Makes each bit of a window whether it differs from the one at its index in the right window, 0 past its
/// end.
pub fn xor<T: BitStore>(
    order: u32,
    elements: &mut [T],
    start: usize,
    len: usize,
    right: &[T],
    right_start: usize,
    right_len: usize,
) -> u32
    ensures { EditsBeside order T.BITS T.value (Xor (bits_from right_start right_len)) (bits_from start len) elements.old elements.new right.now result }
{
    tested_beside!(
        windows_status,
        order,
        elements[start, len],
        right[right_start, right_len],
        combine_block_in::<T>,
        BitOp::Xor
    )
}

/// Clears each bit of a window where the one at its index in the right window, 0 past its end, is 1.
pub fn and_not<T: BitStore>(
    order: u32,
    elements: &mut [T],
    start: usize,
    len: usize,
    right: &[T],
    right_start: usize,
    right_len: usize,
) -> u32
    ensures { Joins order T.BITS T.value only_first (bits_from start len) (bits_from right_start right_len) elements.old elements.new right.now result }
{
    tested_beside!(
        windows_status,
        order,
        elements[start, len],
        right[right_start, right_len],
        combine_block_in::<T>,
        BitOp::AndNot
    )
}

/// Exchanges the bits of two windows, which are as long.
pub fn swap<T: BitStore>(
    order: u32,
    elements: &mut [T],
    start: usize,
    len: usize,
    right: &mut [T],
    right_start: usize,
    right_len: usize,
) -> u32
    ensures { Swaps order T.BITS T.value (bits_from start len) (bits_from right_start right_len) elements.old elements.new right.old right.new result }
{
    tested_beside!(
        equal_windows_status,
        order,
        elements[start, len],
        right[right_start, right_len],
        swap_with_block_in::<T>
    )
}
