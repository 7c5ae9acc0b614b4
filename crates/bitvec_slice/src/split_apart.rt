//! A writable view's bits, cut in two that are written at once.
ghost use Rattle.std.specs.Prelude.{◌≡◌, ◌+◌, ◌%◌, ◌<◌, ◌≤◌, ◌↔◌, IfSome, IsSome};

use crate::BitSliceMut;
use crate::touching::touched_range;
use bitvec_base::{BitOrder, comes_apart};
use bitvec_store::BitStore;

impl<'a, T: BitStore, O: BitOrder> BitSliceMut<'a, T, O> {
    ghost use Rattle.bitvec_base.specs.Apart.{ComesApart};
    ghost use Rattle.bitvec_slice.specs.Apart.{IsSideOf};
    ghost use Rattle.bitvec_slice.specs.Seen.{IsRangeOf};
    ghost use Rattle.bitvec_slice.specs.Views.{seen_mut};

    /// The bits before the index `mid` and those from it on, both for writing, if they share no
    /// element. That is so exactly where the bit at `mid` begins an element, or one side has no bits.
    /// Condition: `mid` is at most `len`. `bitvec`'s `split_at_mut` cuts anywhere, by two views of the
    /// element that is cut.
    pub fn split_apart_mut(
        &mut self,
        mid: usize,
    ) -> Option<(BitSliceMut<'_, T, O>, BitSliceMut<'_, T, O>)>
        requires { mid ≤ (seen_mut self.old).window.len }
        ensures some { IsSome result ↔ ComesApart T.BITS (seen_mut self.old).window mid }
        ensures front { IfSome result (λ sides. IsSideOf T.BITS (seen_mut self.old) 0 mid (seen_mut sides.0)) }
        ensures rest { IfSome result
            (λ sides. IsSideOf T.BITS (seen_mut self.old) mid (seen_mut self.old).window.len (seen_mut sides.1)) }
    {
        self.as_mut().into_sides(mid)
    }

    fn into_sides(self, mid: usize) -> Option<(Self, Self)>
        requires { mid ≤ (seen_mut self).window.len }
        ensures some { IsSome result ↔ ComesApart T.BITS (seen_mut self.entry).window mid }
        ensures front { IfSome result (λ sides. IsSideOf T.BITS (seen_mut self.entry) 0 mid (seen_mut sides.0)) }
        ensures rest { IfSome result
            (λ sides. IsSideOf T.BITS (seen_mut self.entry) mid (seen_mut self.entry).window.len (seen_mut sides.1)) }
    {
        let window = self.window();
        if !comes_apart::<T>(window, mid) {
            return None;
        }
        if mid == 0 {
            return Some((BitSliceMut::empty_mut(), self.into_part(0..window.len)));
        }
        if mid == window.len {
            return Some((self.into_part(0..mid), BitSliceMut::empty_mut()));
        }
        Some(self.into_halves(mid))
    }

    /// The bits before the index `mid`, which begins an element, and those from it on.
    fn into_halves(self, mid: usize) -> (Self, Self)
        requires edge { ((seen_mut self).window.start + mid) % T.BITS ≡ 0 }
        requires bound { mid < (seen_mut self).window.len }
        ensures front { IsRangeOf T.BITS (seen_mut self.entry) 0 mid (seen_mut result.0) }
        ensures rest { IsRangeOf T.BITS (seen_mut self.entry) mid (seen_mut self.entry).window.len (seen_mut result.1) }
    {
        let window = self.window();
        let middle = window.start + mid;
        let front = touched_range::<T>(window.start, middle);
        let rest = touched_range::<T>(middle, window.start + window.len);
        let (before, after) = self.into_elements().split_at_mut(rest.start);
        let before = &mut before[front.start..];
        let after = &mut after[..rest.end - rest.start];
        (
            BitSliceMut::from_parts(before, window.phase::<T>(), mid),
            BitSliceMut::from_parts(after, 0, window.len - mid),
        )
    }
}
