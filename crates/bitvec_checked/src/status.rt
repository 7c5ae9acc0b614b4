//! Whether a call is carried out, and if not, why: its status, a number.
ghost use Rattle.std.specs.Prelude.{◌≡◌, ◌*◌, ◌<◌, ◌≤◌, ◌↔◌, IsTrue, [], false, length, map, replicate};
ghost use Rattle.std.specs.Int.{div_ceil};
ghost use Rattle.bitvec_base.specs.Memory.{FitsMaxBits, HasWindow};
ghost use Rattle.bitvec_commands.specs.Commands.{op_refusal, right_refusal};
ghost use Rattle.bitvec_commands.specs.Groups.{FitsList};
ghost use Rattle.bitvec_commands.specs.Rows.{unless};
ghost use Rattle.bitvec_commands.specs.declared.command.Op.TheVariants.{CopyFrom};
ghost use Rattle.bitvec_checked.specs.Statuses.{end_status, memories_status, or_next, refusal_status, status_beside, step_status, steps_status, width_status, window_status};

use bitvec_base::Window;
use bitvec_cells::{Shared, fits_max_bits};
use bitvec_commands::{Op, Refusal, command_refusal};
use bitvec_store::BitStore;

/// The order that begins with the least significant bit of an element.
pub const LSB0: u32 = 0;
/// The order that begins with the most significant bit of an element.
pub const MSB0: u32 = 1;

/// The call was carried out.
pub const DONE: u32 = 0;
/// There is no order of that number.
pub const ORDER: u32 = 9;
/// A memory has more than `MAX_BITS` bits.
pub const SIZE: u32 = 10;
/// There is no bit such as was looked for.
pub const NONE: u32 = 11;
/// A step is 0.
pub const STEP: u32 = 14;

/// The first of two statuses that isn't `DONE`.
#[inline(always)]
pub fn or_next(status: u32, next: u32) -> u32
    ensures value { result ≡ or_next status next }
    ensures done { result ≡ 0 → (status ≡ 0) × (next ≡ 0) }
{
    if status == DONE { next } else { status }
}

/// `DONE` where the test holds, and else the refusal's number.
#[inline(always)]
fn unless(test: bool, refusal: Refusal) -> u32
    ensures { result ≡ refusal_status (unless test refusal) }
{
    if test { DONE } else { refusal as u32 }
}

/// Whether a window lies in a memory of at most `MAX_BITS` bits, by one comparison.
#[inline(always)]
fn lies_in<T: BitStore>(window: Window, elements: &[T]) -> bool
    requires { FitsMaxBits T.BITS (map T.value elements.now) }
    ensures { IsTrue result ↔ HasWindow T.BITS (map T.value elements.now) window }
{
    let bits = elements.len() * T::BITS as usize;
    window.start.saturating_add(window.len) <= bits
}

/// What a call on one memory tests.
#[inline(always)]
pub fn window_status<T: BitStore>(order: u32, elements: &[T], window: Window) -> u32
    ensures status { result ≡ window_status order T.BITS (map T.value elements.now) window }
    ensures order { result ≡ 0 → order ≤ 1 }
    ensures window { result ≡ 0 → HasWindow T.BITS (map T.value elements.now) window }
{
    let cells = Shared::new(elements);
    if order > MSB0 {
        ORDER
    } else if !fits_max_bits(&cells) {
        SIZE
    } else {
        unless(lies_in::<T>(window, elements), Refusal::Range)
    }
}

/// What a call on two memories tests.
#[inline(always)]
pub fn memories_status<T: BitStore>(order: u32, elements: &[T], window: Window, right: &[T]) -> u32
    ensures status { result ≡ memories_status order T.BITS (map T.value elements.now) window (map T.value right.now) }
    ensures order { result ≡ 0 → order ≤ 1 }
    ensures window { result ≡ 0 → HasWindow T.BITS (map T.value elements.now) window }
    ensures right { result ≡ 0 → FitsMaxBits T.BITS (map T.value right.now) }
{
    let cells = Shared::new(elements);
    let beside = Shared::new(right);
    if order > MSB0 {
        ORDER
    } else if !fits_max_bits(&cells) || !fits_max_bits(&beside) {
        SIZE
    } else {
        unless(lies_in::<T>(window, elements), Refusal::Range)
    }
}

/// What a call tests that works with a window of a right memory.
#[inline(always)]
pub(crate) fn windows_status<T: BitStore>(
    order: u32,
    elements: &[T],
    window: Window,
    right: &[T],
    right_window: Window,
) -> u32
    ensures status { let xs = map T.value elements.now in let ys = map T.value right.now in
        result ≡ or_next (memories_status order T.BITS xs window ys) (refusal_status (right_refusal (replicate (T.BITS * length ys) false) right_window)) }
    ensures order { result ≡ 0 → order ≤ 1 }
    ensures window { result ≡ 0 → HasWindow T.BITS (map T.value elements.now) window }
    ensures right_window { result ≡ 0 → HasWindow T.BITS (map T.value right.now) right_window }
{
    let status = memories_status(order, elements, window, right);
    if status != DONE {
        return status;
    }
    unless(lies_in::<T>(right_window, right), Refusal::Right)
}

/// The status of a call that needs two windows of one length.
#[inline(always)]
pub(crate) fn equal_windows_status<T: BitStore>(
    order: u32,
    elements: &[T],
    window: Window,
    right: &[T],
    right_window: Window,
) -> u32
    ensures status { result ≡ status_beside order T.BITS (map T.value elements.now) window (map T.value right.now) (CopyFrom right_window) }
    ensures order { result ≡ 0 → order ≤ 1 }
    ensures window { result ≡ 0 → HasWindow T.BITS (map T.value elements.now) window }
    ensures right_window { result ≡ 0 → HasWindow T.BITS (map T.value right.now) right_window }
    ensures lengths { result ≡ 0 → window.len ≡ right_window.len }
{
    let status = windows_status(order, elements, window, right, right_window);
    if status != DONE {
        return status;
    }
    unless(right_window.len == window.len, Refusal::Length)
}

/// Whether a command with no right window is carried out on `len` bits, and if not, why.
#[inline(always)]
pub(crate) fn op_status(op: Op, len: usize) -> u32
    ensures status { result ≡ refusal_status (op_refusal [] len op) }
    ensures fits { result ≡ 0 → FitsList len op }
{
    match command_refusal(op, len, 0) {
        None => DONE,
        Some(refusal) => refusal as u32,
    }
}

/// Whether a walk of a window may begin at an index, which may be its end.
#[inline(always)]
pub fn end_status(from: usize, len: usize) -> u32
    ensures status { result ≡ end_status from len }
    ensures most { result ≡ 0 → from ≤ len }
{
    unless(from <= len, Refusal::Index)
}

/// Whether a number can have so many bits.
#[inline(always)]
pub(crate) fn width_status(len: usize) -> u32
    ensures status { result ≡ width_status len }
    ensures most { result ≡ 0 → len ≤ 64 }
{
    unless(1 <= len && len <= 64, Refusal::Width)
}

/// Whether a step goes on.
#[inline(always)]
pub(crate) fn step_status(step: usize) -> u32
    ensures status { result ≡ step_status step }
    ensures some { result ≡ 0 → 0 < step }
{
    if step == 0 { STEP } else { DONE }
}

/// Whether two steps go on, and go through windows of so many bits as often as one another.
#[inline(always)]
pub(crate) fn steps_status(step: usize, len: usize, right_step: usize, right_len: usize) -> u32
    ensures status { result ≡ steps_status step len right_step right_len }
    ensures some { result ≡ 0 → 0 < step }
    ensures right_some { result ≡ 0 → 0 < right_step }
    ensures lengths { result ≡ 0 → div_ceil len step ≡ div_ceil right_len right_step }
{
    let status = or_next(step_status(step), step_status(right_step));
    if status != DONE {
        return status;
    }
    unless(
        len.div_ceil(step) == right_len.div_ceil(right_step),
        Refusal::Length,
    )
}
