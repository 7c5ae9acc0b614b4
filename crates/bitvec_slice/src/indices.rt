//! Indices of a view, and ranges of them.
ghost use Rattle.std.specs.Prelude.{◌≡◌, ◌+◌, ◌<◌, false, slice_index_or};

use crate::touching::touched_part;
use crate::{BitSlice, BitSliceIndex, BitSliceMut};
use bitvec_base::{BitOrder, Window};
use bitvec_domain::{BitRef, BitRefMut, bit_in};
use bitvec_store::BitStore;
use std::ops::{Index, Range};

impl<'a, T: BitStore, O: BitOrder> BitSlice<'a, T, O> {
    ghost use Rattle.bitvec_slice.specs.Indices.{IsBitOf};
    ghost use Rattle.bitvec_slice.specs.Seen.{IsGiven};
    ghost use Rattle.bitvec_slice.specs.Views.{seen};

    /// What stands at an index or at a range of indices, if the view has it.
    ///
    /// ```
    /// assert!(rt; view.get(5).is_none());
    /// assert!(rt; *view.get(4).ok_or("no such bit")?);
    /// let pair = view.get(1..=2).ok_or("no such bits")?;
    /// ```
    pub fn get<I: BitSliceIndex<Self>>(self, index: I) -> Option<I::Immut>
        ensures { IsGiven (I.fits index (seen self.entry).window.len) (I.gives index (seen self.entry)) result }
    {
        index.get(self)
    }

    /// What stands at an index or at a range of indices. Condition: the view has it.
    pub fn get_unchecked<I: BitSliceIndex<Self>>(self, index: I) -> I::Immut
        requires { I.fits index (seen self).window.len }
        ensures { I.gives index (seen self.entry) result }
    {
        index.get_unchecked(self)
    }

    /// The bit at an index, as `get(index)` gives it. Condition: the index is below `len`. `bitvec` has
    /// no such call.
    pub fn into_bit(self, index: usize) -> BitRef<'a, T, O>
        requires { index < (seen self).window.len }
        ensures { IsBitOf (seen self.entry) index result }
    {
        BitRef::new(self.bit(index))
    }

    pub(crate) fn bit(self, index: usize) -> bool
        requires { index < (seen self).window.len }
        ensures { result ≡ slice_index_or (seen self.entry).bits index false }
    {
        bit_in::<T, O>(self.elements(), self.window(), index)
    }
}

impl<'a, T: BitStore, O: BitOrder> BitSliceMut<'a, T, O> {
    ghost use Rattle.std.specs.Borrow.{sem};
    ghost use Rattle.bitvec_slice.specs.Indices.{HasRange, WritesBitOf};
    ghost use Rattle.bitvec_slice.specs.Seen.{IsGiven, IsRangeOf};
    ghost use Rattle.bitvec_slice.specs.Lending.{lends_bits};
    ghost use Rattle.bitvec_domain.specs.References.{bit_of_ref_mut, elements_of_ref_mut, name_of_ref_mut, place_of_ref_mut};
    ghost use Rattle.bitvec_slice.specs.Views.{name_of, seen_mut};

    /// What stands at an index or at a range of indices, if the view has it.
    pub fn get<'s, I: BitSliceIndex<BitSlice<'s, T, O>>>(&'s self, index: I) -> Option<I::Immut>
        ensures { IsGiven (I.fits index (seen_mut self.now).window.len) (I.gives index (seen_mut self.now)) result }
    {
        index.get(self.as_ref())
    }

    /// What stands at an index or at a range of indices, for writing, if the view has it.
    pub fn get_mut<'s, I: BitSliceIndex<BitSlice<'s, T, O>>>(
        &'s mut self,
        index: I,
    ) -> Option<I::Mut>
        ensures { IsGiven (I.fits index (seen_mut self.old).window.len) (I.gives_mut index (seen_mut self.old)) result }
    {
        index.get_mut(self.as_mut())
    }

    /// What stands at an index or at a range of indices. Condition: the view has it.
    pub fn get_unchecked<'s, I: BitSliceIndex<BitSlice<'s, T, O>>>(&'s self, index: I) -> I::Immut
        requires { I.fits index (seen_mut self.now).window.len }
        ensures { I.gives index (seen_mut self.now) result }
    {
        index.get_unchecked(self.as_ref())
    }

    /// What stands at an index or at a range of indices, for writing. Condition: the view has it.
    pub fn get_unchecked_mut<'s, I: BitSliceIndex<BitSlice<'s, T, O>>>(
        &'s mut self,
        index: I,
    ) -> I::Mut
        requires { I.fits index (seen_mut self.old).window.len }
        ensures { I.gives_mut index (seen_mut self.old) result }
    {
        index.get_unchecked_mut(self.as_mut())
    }

    /// The bits of a range for writing, as `get_mut(range)` gives them. Condition:
    /// `start <= end <= len`. `bitvec` has no such call: with it a caller knows that the view's window
    /// stays, and its elements that the range doesn't touch.
    ///
    /// ```
    /// let mut front = view.part_mut(0..index);
    /// front.fill(true);
    /// ```
    pub fn part_mut(&mut self, range: Range<usize>) -> BitSliceMut<'_, T, O>
        requires { HasRange range (seen_mut self.old).window.len }
        ensures* writes_back { sem 𝓛 (lends_bits T.row O.row self.entry range.start range.end (name_of result)) }
        ensures part { IsRangeOf T.BITS (seen_mut self.old) range.start range.end (seen_mut result) }
    {
        let window = Window {
            start: self.head,
            len: self.len,
        };
        let part = touched_part::<T>(self.elements.len(), window, range.start, range.end);
        let elements = self.elements_part_mut(part.first, part.end);
        BitSliceMut::from_parts(elements, part.head, part.len)
    }

    /// The bit at an index for writing, as `get_mut(index)` gives it. Condition: the index is below
    /// `len`. `bitvec` has no such call: with it a caller knows that the view's window stays, and each
    /// element but the bit's.
    ///
    /// ```
    /// let mut bit = view.bit_mut(index);
    /// bit.set(true);
    /// ```
    pub fn bit_mut(&mut self, index: usize) -> BitRefMut<'_, T, O>
        requires { index < (seen_mut self.old).window.len }
        ensures* writes_back { sem 𝓛 (lends_bits T.row O.row self.entry index (index + 1) (name_of_ref_mut result)) }
        ensures bit { WritesBitOf (seen_mut self.old) index result }
    {
        self.part_mut(index..index + 1).into_reference()
    }

    /// The bit at an index for writing, as `get_mut(index)` gives it, for as long as the view was
    /// borrowed. Condition: the index is below `len`. `bitvec` has no such call.
    #[tactic(auto, using(bitvec_base::specs::WindowLaws::reading))]
    pub fn into_bit(self, index: usize) -> BitRefMut<'a, T, O>
        requires { index < (seen_mut self).window.len }
        ensures { WritesBitOf (seen_mut self.entry) index result }
    {
        self.into_part(index..index + 1).into_reference()
    }

    /// The bit of a view that has just one, for a call of a crate above. Condition: it has one. `bitvec`
    /// has no such call.
    #[doc(hidden)]
    #[tactic(auto, using(bitvec_base::specs::WindowLaws::reading))]
    pub fn into_reference(self) -> BitRefMut<'a, T, O>
        requires { (seen_mut self).window.len ≡ 1 }
        ensures bit { bit_of_ref_mut result ≡ slice_index_or (seen_mut self.entry).bits 0 false }
        ensures place { place_of_ref_mut result ≡ (seen_mut self.entry).window.start }
        ensures elements { elements_of_ref_mut result ≡ (seen_mut self.entry).elements }
        ensures name { name_of_ref_mut result ≡ name_of self.entry }
    {
        let place = self.window().start;
        BitRefMut::new(self.into_elements(), place)
    }
}

impl<'a, T: BitStore, O: BitOrder> Index<usize> for BitSlice<'a, T, O> {
    ghost use Rattle.bitvec_slice.specs.Views.{seen};

    type Output = bool;

    ghost can_index = { λ view i. i < (seen view).window.len };

    ghost index_gives = { λ view i bit. bit ≡ slice_index_or (seen view).bits i false };

    /// The bit at an index. Condition: the index is below `len`.
    fn index(&self, index: usize) -> &bool {
        if self.bit(index) { &true } else { &false }
    }
}

impl<'a, T: BitStore, O: BitOrder> Index<usize> for BitSliceMut<'a, T, O> {
    ghost use Rattle.bitvec_slice.specs.Views.{seen_mut};

    type Output = bool;

    ghost can_index = { λ view i. i < (seen_mut view).window.len };

    ghost index_gives = { λ view i bit. bit ≡ slice_index_or (seen_mut view).bits i false };

    /// The bit at an index. Condition: the index is below `len`.
    fn index(&self, index: usize) -> &bool {
        if self.as_ref().bit(index) {
            &true
        } else {
            &false
        }
    }
}
