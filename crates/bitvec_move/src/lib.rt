//! Bits that change places, many at a time: moved to another place of their memory, or exchanged between two windows.
#![tactic(auto)]

ghost use Rattle.std.specs.Prelude.{◌≡◌, ◌+◌, ◌-◌, ◌*◌, ◌/◌, ◌%◌, ◌^◌, ◌<◌, ◌≤◌, min};
ghost use Rattle.bitvec_base.specs.Parts.{first_part_of};

use bitvec_base::{Part, Window, elements_of};
use bitvec_store::BitStore;

mod copying_within;
mod moving;
mod moving_words;
mod swapping;
mod swapping_equal;
mod swapping_shifted;
mod tuning;

pub use copying_within::copy_within;
pub use moving::move_elements;
pub use swapping::swap;
pub use swapping_equal::swap_equal;

/// The first part of a window that isn't empty, and how many bits it has.
#[inline]
fn head_of<T: BitStore>(window: Window) -> (Part, usize)
    requires { 0 < window.len }
    ensures part { result.0 ≡ first_part_of T.BITS window }
    ensures long { result.1 ≡ min window.len (T.BITS - window.start % T.BITS) }
    ensures fits { result.1 ≤ window.len }
{
    let part = window.first_part::<T>();
    (part, part.len())
}

/// How many bits an element has from the index `skip` on. Condition: `skip` is at most the width.
#[inline(always)]
fn bits_from<T: BitStore>(skip: usize) -> usize
    requires { skip ≤ T.BITS }
    ensures { result ≡ T.BITS - skip }
{
    T::BITS as usize - skip
}

/// The element in which a window's last bit stands. Condition: the window isn't empty, and its end is a `usize`.
#[inline(always)]
fn last_element<T: BitStore>(window: Window) -> usize
    requires some { 0 < window.len }
    requires end { window.start + window.len < 2 ^ 64 }
    ensures { result ≡ (window.start + window.len - 1) / T.BITS }
{
    elements_of::<T>(window.start + window.len - 1)
}
