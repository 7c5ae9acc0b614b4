//! A view without the bits that begin or end it.
ghost use Rattle.std.specs.Prelude.{◌≡◌, ◌-◌, true};
ghost use Rattle.bitvec_base.specs.Lists.{is_prefix, is_suffix};

use crate::{BitSlice, BitSliceMut};
use bitvec_base::BitOrder;
use bitvec_elements::{ends_with_in, starts_with_in};
use bitvec_store::BitStore;

impl<'a, T: BitStore, O: BitOrder> BitSlice<'a, T, O> {
    ghost use Rattle.bitvec_slice.specs.Seen.{IsGiven, IsRangeOf};
    ghost use Rattle.bitvec_slice.specs.Views.{seen};

    /// The bits behind the needle's, if those begin the view: `None` exactly where they don't.
    ///
    /// ```
    /// let zero_one = BitSlice::<u8, Lsb0>::from_slice(&[0x02]).into_part(0..2);
    /// let rest = view.strip_prefix(zero_one);
    /// assert!(rt; is_left(rest, part(&[0x04], 0, 6)) == Some(true));
    /// ```
    pub fn strip_prefix<'b, U: BitStore, P: BitOrder>(
        self,
        needle: BitSlice<'b, U, P>,
    ) -> Option<Self>
        ensures { IsGiven (is_prefix (seen needle.entry).bits (seen self.entry).bits ≡ true)
            (λ part. IsRangeOf T.BITS (seen self.entry) (seen needle.entry).window.len (seen self.entry).window.len (seen part)) result }
    {
        if self.begins_with(needle) {
            Some(self.into_part(needle.len()..self.len()))
        } else {
            None
        }
    }

    /// The bits before the needle's, if those end the view: `None` exactly where they don't.
    pub fn strip_suffix<'b, U: BitStore, P: BitOrder>(
        self,
        needle: BitSlice<'b, U, P>,
    ) -> Option<Self>
        ensures { IsGiven (is_suffix (seen needle.entry).bits (seen self.entry).bits ≡ true)
            (λ part. IsRangeOf T.BITS (seen self.entry) 0 ((seen self.entry).window.len - (seen needle.entry).window.len) (seen part)) result }
    {
        if self.finishes_with(needle) {
            Some(self.into_part(0..self.len() - needle.len()))
        } else {
            None
        }
    }

    fn begins_with<'b, U: BitStore, P: BitOrder>(&self, needle: BitSlice<'b, U, P>) -> bool
        ensures { result ≡ is_prefix (seen needle.entry).bits (seen self.now).bits }
    {
        starts_with_in::<T, O, U, P>(
            self.elements(),
            self.window(),
            needle.elements(),
            needle.window(),
        )
    }

    fn finishes_with<'b, U: BitStore, P: BitOrder>(&self, needle: BitSlice<'b, U, P>) -> bool
        ensures { result ≡ is_suffix (seen needle.entry).bits (seen self.now).bits }
    {
        ends_with_in::<T, O, U, P>(
            self.elements(),
            self.window(),
            needle.elements(),
            needle.window(),
        )
    }
}

impl<'a, T: BitStore, O: BitOrder> BitSliceMut<'a, T, O> {
    ghost use Rattle.bitvec_slice.specs.Seen.{IsGiven, IsRangeOf};
    ghost use Rattle.bitvec_slice.specs.Views.{seen, seen_mut};

    /// The bits behind the needle's, if those begin the view: `None` exactly where they don't.
    pub fn strip_prefix<'b, U: BitStore, P: BitOrder>(
        &self,
        needle: BitSlice<'b, U, P>,
    ) -> Option<BitSlice<'_, T, O>>
        ensures { IsGiven (is_prefix (seen needle.entry).bits (seen_mut self.now).bits ≡ true)
            (λ part. IsRangeOf T.BITS (seen_mut self.now) (seen needle.entry).window.len (seen_mut self.now).window.len (seen part)) result }
    {
        self.as_ref().strip_prefix(needle)
    }

    /// The bits before the needle's, if those end the view: `None` exactly where they don't.
    pub fn strip_suffix<'b, U: BitStore, P: BitOrder>(
        &self,
        needle: BitSlice<'b, U, P>,
    ) -> Option<BitSlice<'_, T, O>>
        ensures { IsGiven (is_suffix (seen needle.entry).bits (seen_mut self.now).bits ≡ true)
            (λ part. IsRangeOf T.BITS (seen_mut self.now) 0 ((seen_mut self.now).window.len - (seen needle.entry).window.len) (seen part)) result }
    {
        self.as_ref().strip_suffix(needle)
    }
}
