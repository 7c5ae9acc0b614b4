//! A view's bits, cut in two.
ghost use Rattle.std.specs.Prelude.{◌≤◌};

use crate::{BitSlice, BitSliceMut};
use bitvec_base::BitOrder;
use bitvec_store::BitStore;

impl<'a, T: BitStore, O: BitOrder> BitSlice<'a, T, O> {
    ghost use Rattle.bitvec_slice.specs.Seen.{AreHalves};
    ghost use Rattle.bitvec_slice.specs.Views.{seen};

    /// The bits before the index `mid`, and those from it on. Condition: `mid` is at most `len`.
    ///
    /// ```
    /// let elements = [0xF0u8];
    /// let view = BitSlice::<u8, Lsb0>::from_slice(&elements);
    /// assert!(rt; counts(view.split_at(4)) == [(4, 0), (4, 4)]);
    /// ```
    pub fn split_at(self, mid: usize) -> (BitSlice<'a, T, O>, BitSlice<'a, T, O>)
        requires { mid ≤ (seen self).window.len }
        ensures { AreHalves T.BITS (seen self.entry) mid (seen result.0) (seen result.1) }
    {
        let left = self.into_part(0..mid);
        let right = self.into_part(mid..self.len());
        (left, right)
    }

    /// Alias of [`BitSlice::split_at`], under its condition.
    pub fn split_at_unchecked(self, mid: usize) -> (BitSlice<'a, T, O>, BitSlice<'a, T, O>)
        requires { mid ≤ (seen self).window.len }
        ensures { AreHalves T.BITS (seen self.entry) mid (seen result.0) (seen result.1) }
    {
        self.split_at(mid)
    }
}

impl<'a, T: BitStore, O: BitOrder> BitSliceMut<'a, T, O> {
    ghost use Rattle.bitvec_slice.specs.Seen.{AreHalves};
    ghost use Rattle.bitvec_slice.specs.Views.{seen, seen_mut};

    /// The bits before the index `mid`, and those from it on. Condition: `mid` is at most `len`.
    pub fn split_at(&self, mid: usize) -> (BitSlice<'_, T, O>, BitSlice<'_, T, O>)
        requires { mid ≤ (seen_mut self.now).window.len }
        ensures { AreHalves T.BITS (seen_mut self.now) mid (seen result.0) (seen result.1) }
    {
        self.as_ref().split_at(mid)
    }

    /// Alias of [`BitSliceMut::split_at`], under its condition.
    pub fn split_at_unchecked(&self, mid: usize) -> (BitSlice<'_, T, O>, BitSlice<'_, T, O>)
        requires { mid ≤ (seen_mut self.now).window.len }
        ensures { AreHalves T.BITS (seen_mut self.now) mid (seen result.0) (seen result.1) }
    {
        self.split_at(mid)
    }
}
