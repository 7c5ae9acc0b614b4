//! The bits of a view, one by one, as truth values.
ghost use Rattle.std.specs.Prelude.{◌≡◌, Some, IfSome, length};
ghost use Rattle.std.specs.Iterator.{UpTo, YieldsFirst, YieldsFirstRef, YieldsLast, YieldsLastRef, at_most, item_count};
ghost use Rattle.std.specs.Iterator.SizeHint.{IsWithinCount};

use crate::Iter;
use bitvec_base::BitOrder;
use bitvec_store::BitStore;
use std::iter::FusedIterator;

/// The bits of a view as `&bool`, from both ends: `by_refs` of [`Iter`] makes it.
#[derive(Drop)]
pub struct BitRefIter<'a, T: BitStore, O: BitOrder> {
    pub(crate) bits: Iter<'a, T, O>,
}

impl<'a, T: BitStore, O: BitOrder> Iterator for BitRefIter<'a, T, O> {
    ghost use Rattle.bitvec_slice.specs.Walks.{refs_left};

    type Item = &'a bool;

    ghost next_gives = { YieldsFirstRef (λ it. refs_left it) };

    ghost remaining = { item_count (λ it. refs_left it) };

    /// The first of the bits that are still to come.
    fn next(&mut self) -> Option<&'a bool> {
        match self.bits.next() {
            Some(bit) => Some(if *bit { &true } else { &false }),
            None => None,
        }
    }

    fn size_hint(&self) -> (usize, Option<usize>)
        ensures lower { IsWithinCount result.0 (at_most (length (refs_left self.now))) }
        ensures upper { IfSome result.1 (UpTo (at_most (length (refs_left self.now)))) }
        ensures exact { result ≡ (length (refs_left self.now), Some (length (refs_left self.now))) }
    {
        self.bits.size_hint()
    }
}

impl<'a, T: BitStore, O: BitOrder> DoubleEndedIterator for BitRefIter<'a, T, O> {
    ghost use Rattle.bitvec_slice.specs.Walks.{refs_left};

    ghost next_back_gives = { YieldsLastRef (λ it. refs_left it) };

    /// The last of the bits that are still to come.
    fn next_back(&mut self) -> Option<&'a bool> {
        match self.bits.next_back() {
            Some(bit) => Some(if *bit { &true } else { &false }),
            None => None,
        }
    }
}

impl<'a, T: BitStore, O: BitOrder> ExactSizeIterator for BitRefIter<'a, T, O> {
    /// How many bits are still to come.
    fn len(&self) -> usize {
        self.bits.len()
    }
}

impl<'a, T: BitStore, O: BitOrder> FusedIterator for BitRefIter<'a, T, O> {}

/// The bits of a view as `bool`, from both ends: `by_vals` of [`Iter`] makes it.
#[derive(Drop)]
pub struct BitValIter<'a, T: BitStore, O: BitOrder> {
    pub(crate) bits: Iter<'a, T, O>,
}

impl<'a, T: BitStore, O: BitOrder> Iterator for BitValIter<'a, T, O> {
    ghost use Rattle.bitvec_slice.specs.Walks.{vals_left};

    type Item = bool;

    ghost next_gives = { YieldsFirst (λ it. vals_left it) };

    ghost remaining = { item_count (λ it. vals_left it) };

    /// The first of the bits that are still to come.
    fn next(&mut self) -> Option<bool> {
        match self.bits.next() {
            Some(bit) => Some(*bit),
            None => None,
        }
    }

    fn size_hint(&self) -> (usize, Option<usize>)
        ensures lower { IsWithinCount result.0 (at_most (length (vals_left self.now))) }
        ensures upper { IfSome result.1 (UpTo (at_most (length (vals_left self.now)))) }
        ensures exact { result ≡ (length (vals_left self.now), Some (length (vals_left self.now))) }
    {
        self.bits.size_hint()
    }
}

impl<'a, T: BitStore, O: BitOrder> DoubleEndedIterator for BitValIter<'a, T, O> {
    ghost use Rattle.bitvec_slice.specs.Walks.{vals_left};

    ghost next_back_gives = { YieldsLast (λ it. vals_left it) };

    /// The last of the bits that are still to come.
    fn next_back(&mut self) -> Option<bool> {
        match self.bits.next_back() {
            Some(bit) => Some(*bit),
            None => None,
        }
    }
}

impl<'a, T: BitStore, O: BitOrder> ExactSizeIterator for BitValIter<'a, T, O> {
    /// How many bits are still to come.
    fn len(&self) -> usize {
        self.bits.len()
    }
}

impl<'a, T: BitStore, O: BitOrder> FusedIterator for BitValIter<'a, T, O> {}
