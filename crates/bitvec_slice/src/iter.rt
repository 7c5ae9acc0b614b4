//! The bits of a view, one by one.
ghost use Rattle.std.specs.Prelude.{◌≡◌, Some, IfSome, ⊤, length};
ghost use Rattle.std.specs.Iterator.{UpTo, at_most, item_count};
ghost use Rattle.std.specs.Iterator.SizeHint.{IsWithinCount};
ghost use Rattle.bitvec_slice.specs.Indices.{HasRange};
ghost use Rattle.bitvec_slice.specs.Views.{seen};

use crate::{BitRefIter, BitSlice, BitValIter};
use bitvec_base::BitOrder;
use bitvec_domain::BitRef;
use bitvec_store::BitStore;
use std::alloc::AllocError;
use std::iter::FusedIterator;
use std::ops::Range;

/// The bits of a view, one by one and from both ends: `iter()` makes it.
///
/// Contracts see it as `remaining_bits`, the bits that are still to come.
#[derive(Drop)]
pub struct Iter<'a, T: BitStore, O: BitOrder> {
    pub(crate) view: BitSlice<'a, T, O>,
    pub(crate) indices: Range<usize>,
    ghost inside: { HasRange indices (seen view).window.len },
}

impl<'a, T: BitStore, O: BitOrder> Iter<'a, T, O> {
    ghost use Rattle.bitvec_slice.specs.Walks.{YieldsRefs, YieldsVals, index_range, refs_left, remaining_bits, vals_left, walked};
    ghost use Rattle.bitvec_slice.specs.Seen.{IsRangeOf};

    /// The bits that are still to come, as a view.
    #[tactic(auto, unfolding(crate::specs::Walks::remaining_bits))]
    pub fn as_bitslice(&self) -> BitSlice<'a, T, O>
        ensures bits { (seen result).bits ≡ remaining_bits self.now }
        ensures part { IsRangeOf T.BITS (walked self.now) (index_range self.now).start (index_range self.now).end (seen result) }
    {
        self.view.into_part(self.indices.start..self.indices.end)
    }

    /// Alias of [`Iter::as_bitslice`].
    pub fn as_ref(&self) -> BitSlice<'a, T, O>
        ensures bits { (seen result).bits ≡ remaining_bits self.now }
        ensures part { IsRangeOf T.BITS (walked self.now) (index_range self.now).start (index_range self.now).end (seen result) }
    {
        self.as_bitslice()
    }

    /// The old name of [`Iter::as_bitslice`].
    #[deprecated]
    pub fn as_slice(&self) -> BitSlice<'a, T, O>
        ensures bits { (seen result).bits ≡ remaining_bits self.now }
        ensures part { IsRangeOf T.BITS (walked self.now) (index_range self.now).start (index_range self.now).end (seen result) }
    {
        self.as_bitslice()
    }

    /// The bits that are still to come, as `&bool`.
    pub fn by_refs(self) -> BitRefIter<'a, T, O>
        ensures bits { refs_left result ≡ remaining_bits self.entry }
        ensures runs { YieldsRefs result }
    {
        BitRefIter { bits: self }
    }

    /// The bits that are still to come, as `bool`.
    ///
    /// ```
    /// bits.iter().by_vals().filter(|bit| *bit).count() % 2 == 1
    /// ```
    pub fn by_vals(self) -> BitValIter<'a, T, O>
        ensures bits { vals_left result ≡ remaining_bits self.entry }
        ensures runs { YieldsVals result }
    {
        BitValIter { bits: self }
    }

    /// The old name of [`Iter::by_vals`].
    #[deprecated]
    pub fn copied(self) -> BitValIter<'a, T, O>
        ensures bits { vals_left result ≡ remaining_bits self.entry }
        ensures runs { YieldsVals result }
    {
        self.by_vals()
    }
}

impl<'a, T: BitStore, O: BitOrder> Clone for Iter<'a, T, O> {
    ghost use Rattle.bitvec_slice.specs.Walks.{IsSameWalk};

    ghost is_clone = { λ x y. IsSameWalk x y };

    ghost is_infallible = { λ _. ⊤ };

    #[tactic(auto, unfolding(crate::specs::Walks::remaining_bits))]
    fn clone(&self) -> Result<Self, AllocError> {
        Ok(Iter {
            view: self.view,
            indices: self.indices.start..self.indices.end,
        })
    }
}

impl<'a, T: BitStore, O: BitOrder> Iterator for Iter<'a, T, O> {
    ghost use Rattle.bitvec_slice.specs.Walks.{TakesFirst, remaining_bits};

    type Item = BitRef<'a, T, O>;

    ghost next_gives = { λ before bit after. TakesFirst before bit after };

    ghost remaining = { item_count (λ it. remaining_bits it) };

    /// The first of the bits that are still to come.
    #[tactic(auto, using(crate::specs::WalkLaws::stepping))]
    fn next(&mut self) -> Option<BitRef<'a, T, O>> {
        match self.indices.next() {
            Some(index) => Some(self.view.into_bit(index)),
            None => None,
        }
    }

    #[tactic(auto, using(crate::specs::WalkLaws::stepping))]
    fn size_hint(&self) -> (usize, Option<usize>)
        ensures lower { IsWithinCount result.0 (at_most (length (remaining_bits self.now))) }
        ensures upper { IfSome result.1 (UpTo (at_most (length (remaining_bits self.now)))) }
        ensures exact { result ≡ (length (remaining_bits self.now), Some (length (remaining_bits self.now))) }
    {
        let len = self.len();
        (len, Some(len))
    }
}

impl<'a, T: BitStore, O: BitOrder> DoubleEndedIterator for Iter<'a, T, O> {
    ghost use Rattle.bitvec_slice.specs.Walks.{TakesLast};

    ghost next_back_gives = { λ before bit after. TakesLast before bit after };

    /// The last of the bits that are still to come.
    #[tactic(auto, using(crate::specs::WalkLaws::stepping))]
    fn next_back(&mut self) -> Option<BitRef<'a, T, O>> {
        match self.indices.next_back() {
            Some(index) => Some(self.view.into_bit(index)),
            None => None,
        }
    }
}

impl<'a, T: BitStore, O: BitOrder> ExactSizeIterator for Iter<'a, T, O> {
    /// How many bits are still to come.
    #[tactic(auto, using(crate::specs::WalkLaws::stepping))]
    fn len(&self) -> usize {
        self.indices.len()
    }
}

impl<'a, T: BitStore, O: BitOrder> FusedIterator for Iter<'a, T, O> {}
