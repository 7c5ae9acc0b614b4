//! The bits of a writable view, lent one at a time.
ghost use Rattle.std.specs.Prelude.{◌≡◌, ◌+◌, ◌-◌, ◌*◌, ◌<◌, ◌≤◌, length, nat_le, slice_range};
ghost use Rattle.bitvec_base.specs.Window.{max_bits};

use bitvec_base::{BitOrder, Window};
use bitvec_domain::{BitRefMut, for_each_in};
use bitvec_slice::{BitSlice, BitSliceMut, Sealed, ViewMut, touched_part};
use bitvec_store::BitStore;
use std::marker::PhantomData;

/// The bits of a writable view, which are lent one at a time, from both ends: `iter_mut` makes it.
///
/// The calls are those of [`crate::PiecesMut`]: those in `_mut` give a reference to one bit, those in `_lent` a
/// view of it. By [`IterMut::for_each_bit_mut`], and of a view by `for_each` and `fill_with` of `bitvec_edit`,
/// which ask a closure for each bit, each bit is known afterwards.
#[derive(Drop)]
pub struct IterMut<'a, T: BitStore, O: BitOrder> {
    elements: &'a mut [T],
    head: usize,
    len: usize,
    pub(crate) front: usize,
    pub(crate) back: usize,
    mark: PhantomData<(O, &'a mut T)>,
    ghost inside: { head + len ≤ T.BITS * length elements.now },
    ghost bounded: { T.BITS * length elements.now ≤ max_bits },
    ghost numbered: { back ≤ len },
}

impl<'a, T: BitStore, O: BitOrder> IterMut<'a, T, O> {
    ghost use Rattle.std.specs.Borrow.{sem};
    ghost use Rattle.bitvec_domain.specs.References.{name_of_ref_mut};
    ghost use Rattle.bitvec_slice.specs.Indices.{WritesBitOf};
    ghost use Rattle.bitvec_slice.specs.Lending.{lends};
    ghost use Rattle.bitvec_slice.specs.Seen.{IsGiven, IsRangeOf};
    ghost use Rattle.bitvec_slice.specs.Views.{name_of, seen, seen_mut};
    ghost use Rattle.bitvec_iter.specs.BitsLending.{lends_bits, lends_first, lends_last, lends_part, passed, passed_back};
    ghost use Rattle.bitvec_iter.specs.LentBits.{IsAllOf, WritesLeft, bit_walk_of, bits_in_place, bits_to_come, name_of_bits, past_back_bits, past_bits, start_of};
    ghost use Rattle.bitvec_domain.specs.Asked.{CallableOnBits, RefillsWith};

    /// The bits of a view. `bitvec` has no such call: `iter_mut` is made of it.
    #[doc(hidden)]
    pub fn new<'s>(bits: &'s mut BitSliceMut<'a, T, O>) -> IterMut<'s, T, O>
        ensures* writes_back { sem 𝓛 (lends T.row O.row bits.entry (name_of_bits result)) }
        ensures walk { IsAllOf (seen_mut bits.old) (bit_walk_of result) }
    {
        let window = bits.window();
        IterMut {
            elements: bits.elements_mut(Sealed),
            head: window.start,
            len: window.len,
            front: 0,
            back: window.len,
            mark: PhantomData,
        }
    }

    /// How many bits are left.
    pub fn len(&self) -> usize
        ensures { result ≡ (bit_walk_of self.now).back - (bit_walk_of self.now).front }
    {
        self.back.saturating_sub(self.front)
    }

    /// Whether no bit is left.
    pub fn is_empty(&self) -> bool
        ensures { result ≡ nat_le (bit_walk_of self.now).back (bit_walk_of self.now).front }
    {
        self.back <= self.front
    }

    /// The bits that are left.
    pub fn as_bitslice(&self) -> BitSlice<'_, T, O>
        ensures { IsRangeOf T.BITS (bit_walk_of self.now).view (start_of (bit_walk_of self.now)) (bit_walk_of self.now).back (seen result) }
    {
        let first = self.front.min(self.back);
        BitSlice::from_parts(&*self.elements, self.head, self.len).into_part(first..self.back)
    }

    /// Alias of [`IterMut::as_bitslice`].
    pub fn as_ref(&self) -> BitSlice<'_, T, O>
        ensures { IsRangeOf T.BITS (bit_walk_of self.now).view (start_of (bit_walk_of self.now)) (bit_walk_of self.now).back (seen result) }
    {
        self.as_bitslice()
    }

    /// The old name of [`IterMut::as_bitslice`].
    #[deprecated]
    pub fn as_slice(&self) -> BitSlice<'_, T, O>
        ensures { IsRangeOf T.BITS (bit_walk_of self.now).view (start_of (bit_walk_of self.now)) (bit_walk_of self.now).back (seen result) }
    {
        self.as_bitslice()
    }

    /// Ends the walk, and gives the bits that are left.
    pub fn into_bitslice(self) -> BitSliceMut<'a, T, O>
        ensures { IsRangeOf T.BITS (bit_walk_of self.entry).view (start_of (bit_walk_of self.entry)) (bit_walk_of self.entry).back (seen_mut result) }
    {
        let IterMut {
            elements,
            head,
            len,
            front,
            back,
            mark: _,
        } = self;
        BitSliceMut::from_parts(elements, head, len).into_part(front.min(back)..back)
    }

    /// The old name of [`IterMut::into_bitslice`].
    #[deprecated]
    pub fn into_slice(self) -> BitSliceMut<'a, T, O>
        ensures { IsRangeOf T.BITS (bit_walk_of self.entry).view (start_of (bit_walk_of self.entry)) (bit_walk_of self.entry).back (seen_mut result) }
    {
        self.into_bitslice()
    }

    /// The first bit that is left, which is then left no more. Condition: one is left. `bitvec` has no
    /// such call: with it a caller knows what is left of the walk, and each element but the bit's.
    pub fn take_mut(&mut self) -> BitRefMut<'_, T, O>
        requires { (bit_walk_of self.old).front < (bit_walk_of self.old).back }
        ensures* writes_back { sem 𝓛 (lends_first T.row O.row self.entry (name_of_ref_mut result)) }
        ensures bit { WritesBitOf (bit_walk_of self.old).view (bit_walk_of self.old).front result }
    {
        let index = self.front;
        self.front += 1;
        self.bit_mut(index)
    }

    /// The last bit that is left, as [`IterMut::take_mut`] gives the first.
    pub fn take_back_mut(&mut self) -> BitRefMut<'_, T, O>
        requires { (bit_walk_of self.old).front < (bit_walk_of self.old).back }
        ensures* writes_back { sem 𝓛 (lends_last T.row O.row self.entry (name_of_ref_mut result)) }
        ensures bit { WritesBitOf (bit_walk_of self.old).view ((bit_walk_of self.old).back - 1) result }
    {
        self.back -= 1;
        let index = self.back;
        self.bit_mut(index)
    }

    /// Makes each bit that is left what `f` answers for its number among these and the bit that stands
    /// there. `f` is called once for each, in ascending order, with numbers from 0 on, and its state goes from
    /// each call to the next. No bit is left then, and all others stay as they are. Condition: `f` may be
    /// called for each number and the bit there, once the calls for those before it are done, whatever they
    /// answered. It stands for `for` over `bitvec`'s iterator.
    ///
    /// ```
    /// bits.pass(2);
    /// bits.pass_back(3);
    /// bits.for_each_bit_mut(|number, bit| bit != (number % 2 == 0));
    /// ```
    pub fn for_each_bit_mut<F: FnMut(usize, bool) -> bool>(&mut self, f: F)
        requires { CallableOnBits F.FnMut f (bits_to_come (bit_walk_of self.old)) }
        ensures answers { RefillsWith F.FnMut f (bits_to_come (bit_walk_of self.old)) (bits_in_place (bit_walk_of self.old) (bit_walk_of self.new)) }
        ensures walk { WritesLeft (bit_walk_of self.old) (bit_walk_of self.new) (bits_in_place (bit_walk_of self.old) (bit_walk_of self.new)) }
        ensures name { name_of_bits self.new ≡ name_of_bits self.old }
    {
        let window = Window {
            start: self.head + self.front.min(self.back),
            len: self.len(),
        };
        for_each_in::<T, O, F>(&mut *self.elements, window, f);
        self.front = self.back;
    }

    /// Passes the first `count` bits that are left, or all. `bitvec` has no such call.
    pub fn pass(&mut self, count: usize)
        ensures walk { bit_walk_of self.new ≡ past_bits (bit_walk_of self.old) count }
        ensures name { name_of_bits self.new ≡ name_of_bits self.old }
        ensures whole { self.new ≡ passed self.old count }
    {
        self.front += count.min(self.len());
    }

    /// Passes the last `count` bits that are left, or all. `bitvec` has no such call.
    pub fn pass_back(&mut self, count: usize)
        ensures walk { bit_walk_of self.new ≡ past_back_bits (bit_walk_of self.old) count }
        ensures name { name_of_bits self.new ≡ name_of_bits self.old }
        ensures whole { self.new ≡ passed_back self.old count }
    {
        self.back -= count.min(self.len());
    }

    /// The first bit that is left: `None` exactly where none is.
    pub fn next_mut(&mut self) -> Option<BitRefMut<'_, T, O>>
        ensures { IsGiven ((bit_walk_of self.old).front < (bit_walk_of self.old).back)
            (WritesBitOf (bit_walk_of self.old).view (bit_walk_of self.old).front) result }
    {
        self.next_lent().bit()
    }

    /// The last bit that is left: `None` exactly where none is.
    pub fn next_back_mut(&mut self) -> Option<BitRefMut<'_, T, O>>
        ensures { IsGiven ((bit_walk_of self.old).front < (bit_walk_of self.old).back)
            (WritesBitOf (bit_walk_of self.old).view ((bit_walk_of self.old).back - 1)) result }
    {
        self.next_back_lent().bit()
    }

    /// The bit behind the first `skipped` that are left: `None` exactly where there are no more than
    /// `skipped`.
    pub fn nth_mut(&mut self, skipped: usize) -> Option<BitRefMut<'_, T, O>>
        ensures { IsGiven (skipped < (bit_walk_of self.old).back - (bit_walk_of self.old).front)
            (WritesBitOf (bit_walk_of self.old).view ((bit_walk_of self.old).front + skipped)) result }
    {
        self.nth_lent(skipped).bit()
    }

    /// The bit before the last `skipped` that are left: `None` exactly where there are no more than
    /// `skipped`.
    pub fn nth_back_mut(&mut self, skipped: usize) -> Option<BitRefMut<'_, T, O>>
        ensures { IsGiven (skipped < (bit_walk_of self.old).back - (bit_walk_of self.old).front)
            (WritesBitOf (bit_walk_of self.old).view ((bit_walk_of self.old).back - 1 - skipped)) result }
    {
        self.nth_back_lent(skipped).bit()
    }

    fn bit_mut(&mut self, index: usize) -> BitRefMut<'_, T, O>
        requires { index < (bit_walk_of self.old).view.window.len }
        ensures* writes_back { sem 𝓛 (lends_bits T.row O.row self.entry index (index + 1) (name_of_ref_mut result)) }
        ensures bit { WritesBitOf (bit_walk_of self.old).view index result }
    {
        self.part_mut(index, index + 1).into_reference()
    }

    pub(crate) fn part_mut(&mut self, from: usize, to: usize) -> BitSliceMut<'_, T, O>
        requires order { from ≤ to }
        requires bound { to ≤ (bit_walk_of self.old).view.window.len }
        ensures* writes_back { sem 𝓛 (lends_bits T.row O.row self.entry from to (name_of result)) }
        ensures part { IsRangeOf T.BITS (bit_walk_of self.old).view from to (seen_mut result) }
    {
        let window = Window {
            start: self.head,
            len: self.len,
        };
        let part = touched_part::<T>(self.elements.len(), window, from, to);
        let elements = self.elements_part_mut(part.first, part.end);
        BitSliceMut::from_parts(elements, part.head, part.len)
    }

    pub(crate) fn elements_part_mut(&mut self, start: usize, end: usize) -> &mut [T]
        requires order { start ≤ end }
        requires bound { end ≤ length (bit_walk_of self.old).view.elements }
        ensures* writes_back { sem 𝓛 (lends_part T.row O.row self.entry start end result.ghost_name) }
        ensures elements { result.now ≡ slice_range (bit_walk_of self.old).view.elements start end }
    {
        &mut self.elements[start..end]
    }
}
