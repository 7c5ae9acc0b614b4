//! Every so many bits of a window, from the first one on.
ghost use Rattle.std.specs.Prelude.{◌≡◌, ◌<◌, ◌≤◌, true, false, map, count_by, slice_index_or};
ghost use Rattle.std.specs.Int.{div_ceil};
ghost use Rattle.bitvec_base.specs.Memory.{Edits, HasWindow, list_in};
ghost use Rattle.bitvec_words.specs.declared.operator.BitOp.TheVariants.{And, Or};
ghost use Rattle.bitvec_checked.specs.Calls.{CopiesEvery, CountsEvery, FillsEvery};
ghost use Rattle.bitvec_checked.specs.Every.{every, with_every};
ghost use Rattle.bitvec_checked.specs.Statuses.{bits_from};

use crate::status::{or_next, step_status, steps_status, window_status, windows_status};
use crate::tuning::{BLOCK_ELEMENTS, FAR_STEP};
use bitvec_base::{BitOrder, Window};
use bitvec_domain::{bit_in, set_in};
use bitvec_elements::{combine_block_in, fill_in};
use bitvec_engine::SliceOrder;
use bitvec_store::BitStore;
use bitvec_words::BitOp;

/// Makes every so many bits of a window `bit`.
pub fn fill_step<T: BitStore>(
    order: u32,
    elements: &mut [T],
    start: usize,
    len: usize,
    step: usize,
    bit: bool,
) -> u32
    ensures { FillsEvery order T.BITS T.value step bit (bits_from start len) elements.old elements.new result }
{
    let window = Window { start, len };
    let status = or_next(window_status(order, elements, window), step_status(step));
    tested!(
        status,
        order,
        fill_every_in::<T>(elements, window, step, bit)
    )
}

/// How many of every so many bits of a window are 1.
pub fn count_step<T: BitStore>(
    order: u32,
    elements: &[T],
    start: usize,
    len: usize,
    step: usize,
    ones: &mut usize,
) -> u32
    ensures { CountsEvery order T.BITS T.value step (bits_from start len) elements.now ones.old ones.new result }
{
    let window = Window { start, len };
    let status = or_next(window_status(order, elements, window), step_status(step));
    tested!(
        status,
        *ones,
        order,
        count_each::<T>(elements, window, step)
    )
}

/// Copies every so many bits of the right window to every so many places of a window, which are as many.
pub fn copy_step<T: BitStore>(
    order: u32,
    elements: &mut [T],
    start: usize,
    len: usize,
    right: &[T],
    right_start: usize,
    right_len: usize,
    step: usize,
    right_step: usize,
) -> u32
    ensures { CopiesEvery order T.BITS T.value step (bits_from start len) (bits_from right_start right_len) right_step elements.old elements.new right.now result }
{
    let window = Window { start, len };
    let right_window = Window {
        start: right_start,
        len: right_len,
    };
    let status = or_next(
        windows_status(order, elements, window, right, right_window),
        steps_status(step, len, right_step, right_len),
    );
    tested!(
        status,
        order,
        copy_each::<T>(elements, window, step, right, right_window, right_step)
    )
}

/// Makes every so many bits of a window `bit`: those of a far step one by one, and those of a near one by elements.
/// Condition: the memory has at most `MAX_BITS` bits, the window lies in it, and the step isn't 0.
fn fill_every_in<T: BitStore, O: SliceOrder>(
    elements: &mut [T],
    window: Window,
    step: usize,
    bit: bool,
)
    requires window { HasWindow T.BITS (map T.value elements.old) window }
    requires some { 0 < step }
    ensures writes { Edits T.BITS O.at (map T.value elements.old) (map T.value elements.new) window (with_every step (λ k. bit)) }
{
    if step > FAR_STEP || window.len <= T::BITS as usize * FAR_STEP {
        fill_each::<T, O>(elements, window, step, bit);
    } else if bit {
        fill_blocks::<T, O>(elements, window, step, true, BitOp::Or);
    } else {
        fill_blocks::<T, O>(elements, window, step, false, BitOp::And);
    }
}
/// Makes every so many bits of a window `bit`, one after the other.
fn fill_each<T: BitStore, O: BitOrder>(elements: &mut [T], window: Window, step: usize, bit: bool)
    requires window { HasWindow T.BITS (map T.value elements.old) window }
    requires some { 0 < step }
    ensures writes { Edits T.BITS O.at (map T.value elements.old) (map T.value elements.new) window (with_every step (λ k. bit)) }
{
    for place in 0..window.len.div_ceil(step) {
        set_in::<T, O>(elements, window, place * step, bit);
    }
}

/// Copies every so many bits of a right window to every so many places of a window.
fn copy_each<T: BitStore, O: BitOrder>(
    elements: &mut [T],
    window: Window,
    step: usize,
    right: &[T],
    right_window: Window,
    right_step: usize,
)
    requires window { HasWindow T.BITS (map T.value elements.old) window }
    requires right_window { HasWindow T.BITS (map T.value right.now) right_window }
    requires some { 0 < step }
    requires right_some { 0 < right_step }
    requires lengths { div_ceil window.len step ≡ div_ceil right_window.len right_step }
    ensures writes { Edits T.BITS O.at (map T.value elements.old) (map T.value elements.new) window
        (with_every step (λ k. slice_index_or (every right_step (list_in T.BITS O.at (map T.value right.now) right_window)) k false)) }
{
    for place in 0..window.len.div_ceil(step) {
        let bit = bit_in::<T, O>(right, right_window, place * right_step);
        set_in::<T, O>(elements, window, place * step, bit);
    }
}

/// How many of every so many bits of a window are 1.
fn count_each<T: BitStore, O: BitOrder>(elements: &[T], window: Window, step: usize) -> usize
    requires window { HasWindow T.BITS (map T.value elements.now) window }
    requires some { 0 < step }
    ensures { result ≡ count_by (λ bit. bit) (every step (list_in T.BITS O.at (map T.value elements.now) window)) }
{
    let mut ones = 0;
    for place in 0..window.len.div_ceil(step) {
        if bit_in::<T, O>(elements, window, place * step) {
            ones += 1;
        }
    }
    ones
}

/// [`fill_every_in`] by elements: a block has the bit at the places of the step, and the other bit elsewhere, and the
/// operator brings it into the window. Conditions: the step is at most [`FAR_STEP`], and the operator leaves bits beside the
/// other bit as they are.
#[inline(always)]
fn fill_blocks<T: BitStore, O: SliceOrder>(
    elements: &mut [T],
    window: Window,
    step: usize,
    bit: bool,
    op: BitOp,
)
    requires window { HasWindow T.BITS (map T.value elements.old) window }
    requires some { 0 < step }
    requires near { step ≤ 64 }
    requires sets { bit ≡ true → op ≡ Or }
    requires clears { bit ≡ false → op ≡ And }
    ensures writes { Edits T.BITS O.at (map T.value elements.old) (map T.value elements.new) window (with_every step (λ k. bit)) }
{
    T::fits_in_memory();
    let bits = T::BITS as usize;
    let mut block = [T::ZERO; BLOCK_ELEMENTS + 1];
    let room = BLOCK_ELEMENTS * bits;
    let size = (room - room % step).min(window.len);
    let pattern = Window {
        start: window.start % bits,
        len: size,
    };
    fill_in::<T, O>(&mut block, pattern, !bit);
    fill_each::<T, O>(&mut block, pattern, step, bit);
    let mut from = 0;
    while from < window.len {
        let count = size.min(window.len - from);
        let part = window.range(from, from + count);
        combine_block_in::<T, O>(elements, part, &block, pattern.range(0, count), op);
        from += count;
    }
}
