//! The first and the last bit of a view. Of a view without bits each call gives `None`.
ghost use Rattle.std.specs.Prelude.{◌-◌, ◌<◌};

use crate::{BitSlice, BitSliceMut};
use bitvec_base::BitOrder;
use bitvec_domain::{BitRef, BitRefMut};
use bitvec_store::BitStore;

impl<'a, T: BitStore, O: BitOrder> BitSlice<'a, T, O> {
    ghost use Rattle.bitvec_slice.specs.Indices.{IsBitOf};
    ghost use Rattle.bitvec_slice.specs.Seen.{IsGiven, IsRangeOf};
    ghost use Rattle.bitvec_slice.specs.Views.{seen};

    /// The first bit: `None` exactly where there is no bit.
    pub fn first(self) -> Option<BitRef<'a, T, O>>
        ensures { IsGiven (0 < (seen self.entry).window.len) (IsBitOf (seen self.entry) 0) result }
    {
        if self.is_empty() {
            None
        } else {
            Some(self.into_bit(0))
        }
    }

    /// The last bit: `None` exactly where there is no bit.
    pub fn last(self) -> Option<BitRef<'a, T, O>>
        ensures { IsGiven (0 < (seen self.entry).window.len)
            (IsBitOf (seen self.entry) ((seen self.entry).window.len - 1)) result }
    {
        if self.is_empty() {
            None
        } else {
            Some(self.into_bit(self.len() - 1))
        }
    }

    /// The first bit, and the others: `None` exactly where there is no bit.
    pub fn split_first(self) -> Option<(BitRef<'a, T, O>, BitSlice<'a, T, O>)>
        ensures { IsGiven (0 < (seen self.entry).window.len)
            (λ parts. IsBitOf (seen self.entry) 0 parts.0
            × IsRangeOf T.BITS (seen self.entry) 1 (seen self.entry).window.len (seen parts.1)) result }
    {
        if self.is_empty() {
            None
        } else {
            Some((self.into_bit(0), self.into_part(1..self.len())))
        }
    }

    /// The last bit, and the others: `None` exactly where there is no bit.
    pub fn split_last(self) -> Option<(BitRef<'a, T, O>, BitSlice<'a, T, O>)>
        ensures { IsGiven (0 < (seen self.entry).window.len)
            (λ parts. IsBitOf (seen self.entry) ((seen self.entry).window.len - 1) parts.0
            × IsRangeOf T.BITS (seen self.entry) 0 ((seen self.entry).window.len - 1) (seen parts.1)) result }
    {
        if self.is_empty() {
            None
        } else {
            let last = self.len() - 1;
            Some((self.into_bit(last), self.into_part(0..last)))
        }
    }
}

impl<'a, T: BitStore, O: BitOrder> BitSliceMut<'a, T, O> {
    ghost use Rattle.bitvec_slice.specs.Indices.{IsBitOf, WritesBitOf};
    ghost use Rattle.bitvec_slice.specs.Seen.{IsGiven, IsRangeOf};
    ghost use Rattle.bitvec_slice.specs.Views.{seen, seen_mut};

    /// The first bit: `None` exactly where there is no bit.
    pub fn first(&self) -> Option<BitRef<'_, T, O>>
        ensures { IsGiven (0 < (seen_mut self.now).window.len) (IsBitOf (seen_mut self.now) 0) result }
    {
        self.as_ref().first()
    }

    /// The last bit: `None` exactly where there is no bit.
    pub fn last(&self) -> Option<BitRef<'_, T, O>>
        ensures { IsGiven (0 < (seen_mut self.now).window.len)
            (IsBitOf (seen_mut self.now) ((seen_mut self.now).window.len - 1)) result }
    {
        self.as_ref().last()
    }

    /// The first bit, and the others: `None` exactly where there is no bit.
    pub fn split_first(&self) -> Option<(BitRef<'_, T, O>, BitSlice<'_, T, O>)>
        ensures { IsGiven (0 < (seen_mut self.now).window.len)
            (λ parts. IsBitOf (seen_mut self.now) 0 parts.0
            × IsRangeOf T.BITS (seen_mut self.now) 1 (seen_mut self.now).window.len (seen parts.1)) result }
    {
        self.as_ref().split_first()
    }

    /// The last bit, and the others: `None` exactly where there is no bit.
    pub fn split_last(&self) -> Option<(BitRef<'_, T, O>, BitSlice<'_, T, O>)>
        ensures { IsGiven (0 < (seen_mut self.now).window.len)
            (λ parts. IsBitOf (seen_mut self.now) ((seen_mut self.now).window.len - 1) parts.0
            × IsRangeOf T.BITS (seen_mut self.now) 0 ((seen_mut self.now).window.len - 1) (seen parts.1)) result }
    {
        self.as_ref().split_last()
    }

    /// The first bit for writing: `None` exactly where there is no bit.
    pub fn first_mut(&mut self) -> Option<BitRefMut<'_, T, O>>
        ensures { IsGiven (0 < (seen_mut self.old).window.len) (WritesBitOf (seen_mut self.old) 0) result }
    {
        self.first_lent().bit()
    }

    /// The last bit for writing: `None` exactly where there is no bit.
    pub fn last_mut(&mut self) -> Option<BitRefMut<'_, T, O>>
        ensures { IsGiven (0 < (seen_mut self.old).window.len)
            (WritesBitOf (seen_mut self.old) ((seen_mut self.old).window.len - 1)) result }
    {
        self.last_lent().bit()
    }
}
