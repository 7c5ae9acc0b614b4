//! How many elements bits touch, and how many bits make whole elements.
ghost use Rattle.std.specs.Prelude.{◌≡◌, ◌+◌, ◌-◌, ◌*◌, ◌/◌, ◌%◌, ◌^◌, ◌<◌, ◌≤◌};
ghost use Rattle.bitvec_cells.specs.Cost.{touched_count};

use bitvec_base::{Window, elements_of};
use bitvec_store::BitStore;

/// How many elements of type `T` a window touches. Condition: the window isn't empty, and its end is a `usize`.
#[inline(always)]
pub fn touched<T: BitStore>(window: Window) -> usize
    requires some { 0 < window.len }
    requires end { window.start + window.len < 2 ^ 64 }
    ensures touched { result ≡ touched_count T.BITS window.start window.len }
    ensures places { result ≡ (window.start % T.BITS + window.len - 1) / T.BITS + 1 }
{
    elements_of::<T>(window.phase::<T>() + window.len - 1) + 1
}

/// How many of that many bits make whole elements of type `T`.
#[inline(always)]
pub fn whole_bits<T: BitStore>(bits: usize) -> usize
    ensures value { result ≡ bits / T.BITS * T.BITS }
    ensures fits { result ≤ bits }
{
    elements_of::<T>(bits) * T::BITS as usize
}
