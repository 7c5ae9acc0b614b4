//! A predicate says which bits of a sequence stay.
ghost use Rattle.std.specs.Prelude.{◌≡◌, ◌≤◌, ◌⊎◌, Bool, List, map, take};
ghost use Rattle.std.specs.Fn.{always_mut};
ghost use Rattle.bitvec_base.specs.Memory.{HasWindow, Writes, list_in};
ghost use Rattle.bitvec_owned.specs.Copies.{KeepsAround};
ghost use Rattle.bitvec_owned.specs.Retained.{Retains};
ghost use Rattle.bitvec_domain.specs.Predicates.{MayAsk};
ghost use Rattle.bitvec_owned.specs.Owned.{bit_capacity, owned};

use crate::BitVec;
use bitvec_base::{BitOrder, Window};
use bitvec_domain::{bit_in, set_in};
use bitvec_store::BitStore;
use std::alloc::Allocator;

/// Moves the bits of a window that `pred` keeps to its front, and gives how many these are. It is asked about each index
/// and bit in ascending order.
fn move_kept<T: BitStore, O: BitOrder, P: FnMut(usize, &bool) -> bool>(
    elements: &mut [T],
    window: Window,
    mut pred: P,
) -> usize
    requires window { HasWindow T.BITS (map T.value elements.old) window }
    requires callable { MayAsk P.FnMut window.len pred }
    ensures bound { result ≤ window.len }
    ensures writes { (new : List Bool) × Writes T.BITS O.at (map T.value elements.old) (map T.value elements.new) window new
        × Retains P.FnMut pred (list_in T.BITS O.at (map T.value elements.old) window) (take result new) }
{
    let mut kept = 0;
    for index in 0..window.len {
        let bit = bit_in::<T, O>(elements, window, index);
        let keeps = pred(index, &bit);
        if keeps {
            set_in::<T, O>(elements, window, kept, bit);
            kept += 1;
        }
    }
    kept
}

impl<T: BitStore, O: BitOrder, A: Allocator> BitVec<T, O, A> {
    /// Keeps the bits for which `pred` answers true, and drops the others. It is asked about each index and the bit there
    /// once, in ascending order. Nothing is asked of the allocator, and the capacity stays. Condition: `pred` may always be
    /// called, or at least asked about indices below `len`, so many times.
    ///
    /// ```
    /// bits.retain(|place, bit| *bit || place % 3 == 0);
    /// ```
    pub fn retain<P: FnMut(usize, &bool) -> bool>(&mut self, pred: P)
        requires { always_mut P.FnMut pred ⊎ MayAsk P.FnMut (owned self.old).window.len pred }
        ensures bits { Retains P.FnMut pred (owned self.old).bits (owned self.new).bits }
        ensures bound { (owned self.new).window.len ≤ (owned self.old).window.len }
        ensures around { KeepsAround T.BITS (owned self.old) (owned self.new) }
        ensures capacity { bit_capacity self.new ≡ bit_capacity self.old }
    {
        let window = Window {
            start: self.head,
            len: self.len,
        };
        let kept = move_kept::<T, O, P>(self.as_raw_mut_slice(), window, pred);
        self.truncate(kept);
    }
}
