//! Runs of steps as C functions, an element type each.
//!
//! They stand apart from the other exports, in an archive of their own that `bindings/` joins to that of
//! `bitvec_c`: a library is compiled as one, and a kernel that a run calls beside an operation of its
//! own is no longer compiled into that. Conditions are as for `bitvec_c`.
#![tactic(auto)]

ghost use Rattle.bitvec_checked_run.specs.Runs.{Runs};
ghost use Rattle.bitvec_checked.specs.Statuses.{bits_from};

use bitvec_checked_run::{RawReply, RawStep, run};

/// Carries out steps on a window, one after the other, with all bits of the right memory as the
/// right list, and writes the reply to each.
#[unsafe(no_mangle)]
pub extern "C" fn fb_u8_run(
    order: u32,
    elements: &mut [u8],
    start: usize,
    len: usize,
    right: &[u8],
    steps: &[RawStep],
    replies: &mut [RawReply],
) -> u32
    ensures { Runs order 8 (λ x. x) (bits_from start len) elements.old elements.new right.now steps.now replies.old replies.new result }
{
    run(order, elements, start, len, right, steps, replies)
}

/// Carries out steps on a window, one after the other, with all bits of the right memory as the
/// right list, and writes the reply to each.
#[unsafe(no_mangle)]
pub extern "C" fn fb_u16_run(
    order: u32,
    elements: &mut [u16],
    start: usize,
    len: usize,
    right: &[u16],
    steps: &[RawStep],
    replies: &mut [RawReply],
) -> u32
    ensures { Runs order 16 (λ x. x) (bits_from start len) elements.old elements.new right.now steps.now replies.old replies.new result }
{
    run(order, elements, start, len, right, steps, replies)
}

/// Carries out steps on a window, one after the other, with all bits of the right memory as the
/// right list, and writes the reply to each.
#[unsafe(no_mangle)]
pub extern "C" fn fb_u32_run(
    order: u32,
    elements: &mut [u32],
    start: usize,
    len: usize,
    right: &[u32],
    steps: &[RawStep],
    replies: &mut [RawReply],
) -> u32
    ensures { Runs order 32 (λ x. x) (bits_from start len) elements.old elements.new right.now steps.now replies.old replies.new result }
{
    run(order, elements, start, len, right, steps, replies)
}

/// Carries out steps on a window, one after the other, with all bits of the right memory as the
/// right list, and writes the reply to each.
#[unsafe(no_mangle)]
pub extern "C" fn fb_u64_run(
    order: u32,
    elements: &mut [u64],
    start: usize,
    len: usize,
    right: &[u64],
    steps: &[RawStep],
    replies: &mut [RawReply],
) -> u32
    ensures { Runs order 64 (λ x. x) (bits_from start len) elements.old elements.new right.now steps.now replies.old replies.new result }
{
    run(order, elements, start, len, right, steps, replies)
}
