//! A writable view of bits.
ghost use Rattle.std.specs.Prelude.{◌≡◌, ◌+◌, ◌*◌, ◌≤◌, ◌==◌, length, map, slice_range};
ghost use Rattle.bitvec_base.specs.Window.{max_bits};

use crate::bit_domain::bit_domain_mut_of;
use crate::touching::touched_part;
use crate::{BitDomain, BitDomainMut, BitSlice, Sealed};
use bitvec_base::{BitOrder, Window};
use bitvec_domain::{Domain, DomainMut, domain_mut_of};
use bitvec_store::BitStore;
use std::marker::PhantomData;
use std::ops::Range;

/// Bits of a slice of elements that is borrowed for writing, in an order: it stands for
/// `bitvec`'s `&mut BitSlice<T, O>`.
///
/// Contracts see it as they see a [`BitSlice`], and also know its memory by its name among borrows.
/// Lengths, indices and ranges are in bits. A call has the name and the meaning of `bitvec`'s, unless
/// its text says what it stands for.
///
/// These calls alone give something to write through:
///
/// - views: `as_mut`, `part_mut`, `into_part`, `split_apart_mut`, `!`, and by a range `get_mut`,
///   `get_unchecked_mut` and the calls of [`crate::BitSliceIndex`];
/// - a view in a [`crate::Lent`], if there is one: `get_lent`, `first_lent`, `last_lent`;
/// - references to one bit: `bit_mut`, `into_bit`, `first_mut`, `last_mut`, and by an index `get_mut`
///   and its kin;
/// - elements and parts of them: `domain_mut`, and as views `bit_domain_mut`;
/// - in crates above: halves, walks and splits, which lend views and references one at a time
///   (`PieceCallsMut`, `SplitCallsMut`), and `EditParts`, which lends a part of the view to a closure.
///
/// A part holds just the elements that its bits touch, and no call on it writes a bit outside the part.
/// `WritesBits` says so of a view's edit, `WritesBit` of a reference's, and `WritesPart` of an edit of a
/// part of an element. Whole elements come from `domain_mut`, where the view covers them, and from
/// `into_slice`, which asks for a view of all their bits. Calls that reach other bits ask for a
/// [`crate::Sealed`], which only the library's crates can make.
#[derive(Drop)]
pub struct BitSliceMut<'a, T: BitStore, O: BitOrder> {
    pub(crate) elements: &'a mut [T],
    pub(crate) head: usize,
    pub(crate) len: usize,
    mark: PhantomData<(O, &'a mut T)>,
    ghost inside: { head + len ≤ T.BITS * length elements.now },
    ghost bounded: { T.BITS * length elements.now ≤ max_bits },
}

impl<'a, T: BitStore, O: BitOrder> BitSliceMut<'a, T, O> {
    ghost use Rattle.std.specs.Borrow.{sem};
    ghost use Rattle.bitvec_base.specs.Memory.{HasWindow, memory_bits};
    ghost use Rattle.bitvec_base.specs.Window.{IsWithin};
    ghost use Rattle.bitvec_domain.specs.Domains.{pieces_of, pieces_of_mut};
    ghost use Rattle.bitvec_slice.specs.Domains.{IsBitDomain, IsDomain, views_of, views_of_mut};
    ghost use Rattle.bitvec_slice.specs.Indices.{HasRange};
    ghost use Rattle.bitvec_slice.specs.Lending.{lends, lends_part};
    ghost use Rattle.bitvec_slice.specs.Seen.{CoversElements, IsRangeOf, shown};
    ghost use Rattle.bitvec_slice.specs.Views.{IsWholeOf, name_of, seen, seen_mut};

    /// A view of all bits of the elements. Condition: they are at most `MAX_BITS` bits.
    ///
    /// ```
    /// let mut elements = [0u8];
    /// let mut slots = BitSliceMut::<u8, Lsb0>::from_slice_mut(&mut elements);
    /// slots.fill(true);
    /// ```
    #[tactic(auto, using(crate::specs::SeenLaws::whole_view))]
    pub fn from_slice_mut(elements: &'a mut [T]) -> Self
        requires { T.BITS * length elements.old ≤ max_bits }
        ensures { IsWholeOf elements.old elements.entry.ghost_name result }
    {
        let len = elements.len() * (T::BITS as usize);
        BitSliceMut::from_parts(elements, 0, len)
    }

    /// A view of some of the elements' bits, for a call of a crate above. Conditions: they have them, and
    /// are at most `MAX_BITS` bits. `bitvec` has no such call.
    #[doc(hidden)]
    pub fn from_parts(elements: &'a mut [T], head: usize, len: usize) -> Self
        requires inside { head + len ≤ T.BITS * length elements.old }
        requires fits { T.BITS * length elements.old ≤ max_bits }
        ensures view { seen_mut result ≡ shown T.BITS O.at T.value elements.old head len }
        ensures name { name_of result ≡ elements.entry.ghost_name }
    {
        BitSliceMut {
            elements,
            head,
            len,
            mark: PhantomData,
        }
    }

    /// Ends a view of all bits of its elements, and gives these back. Condition: it has all of them,
    /// as a view that was made of a slice has, also after edits. `bitvec` has no such call.
    ///
    /// ```
    /// let mut view = BitSliceMut::<u16, Lsb0>::from_slice_unchecked_mut(&mut elements);
    /// view.set(17, true);
    /// assert!(rt; view.into_slice()[1] == 2);
    /// ```
    #[tactic(auto, using(crate::specs::SeenLaws::covered_bits))]
    pub fn into_slice(self) -> &'a mut [T]
        requires { CoversElements T.BITS (seen_mut self) }
        ensures elements { result.now ≡ (seen_mut self.entry).elements }
        ensures memory { memory_bits T.BITS O.at (map T.value result.now) ≡ (seen_mut self.entry).memory }
        ensures bits { memory_bits T.BITS O.at (map T.value result.now) ≡ (seen_mut self.entry).bits }
        ensures name { result.ghost_name ≡ name_of self.entry }
    {
        self.into_elements()
    }

    pub(crate) fn into_elements(self) -> &'a mut [T]
        ensures elements { result.now ≡ (seen_mut self.entry).elements }
        ensures name { result.ghost_name ≡ name_of self.entry }
    {
        let BitSliceMut {
            elements,
            head: _,
            len: _,
            mark: _,
        } = self;
        elements
    }

    /// A shared view of the same bits: `&*bits` of `bitvec`.
    ///
    /// ```
    /// let other = BitSlice::<u16, Msb0>::from_slice(&words);
    /// assert!(rt; same(view.as_ref(), other));
    /// ```
    pub fn as_ref(&self) -> BitSlice<'_, T, O>
        ensures { seen result ≡ seen_mut self.now }
    {
        BitSlice::from_parts(&*self.elements, self.head, self.len)
    }

    /// A view of the same bits for a shorter time: `&mut *bits` of `bitvec`.
    ///
    /// ```
    /// inner.invert();
    /// inner.as_mut().set(0, true);
    /// ```
    pub fn as_mut(&mut self) -> BitSliceMut<'_, T, O>
        ensures* writes_back { sem 𝓛 (lends T.row O.row self.entry (name_of result)) }
        ensures view { seen_mut result ≡ seen_mut self.old }
    {
        let head = self.head;
        let len = self.len;
        BitSliceMut::from_parts(self.elements_mut(), head, len)
    }

    /// How many bits there are.
    #[tactic(auto, using(crate::specs::SeenLaws::length_bits))]
    pub fn len(&self) -> usize
        ensures value { result ≡ length (seen_mut self.now).bits }
        ensures window { result ≡ (seen_mut self.now).window.len }
        ensures bound { result ≤ max_bits }
    {
        self.len
    }

    /// Whether there is no bit.
    pub fn is_empty(&self) -> bool
        ensures { result ≡ ((seen_mut self.now).window.len == 0) }
    {
        self.len == 0
    }

    /// The elements that the view touches, in their order.
    pub fn domain(&self) -> Domain<'_, T, O>
        ensures { IsDomain T.BITS O.at T.value (seen_mut self.now) (pieces_of result) }
    {
        self.as_ref().domain()
    }

    /// The elements that the view touches for writing, in their order.
    pub fn domain_mut(&mut self) -> DomainMut<'_, T, O>
        ensures { IsDomain T.BITS O.at T.value (seen_mut self.old) (pieces_of_mut result) }
    {
        let window = self.window();
        domain_mut_of(self.elements_mut(), window)
    }

    /// The view, cut at the edges of elements.
    pub fn bit_domain(&self) -> BitDomain<BitSlice<'_, T, O>>
        ensures { IsBitDomain T.BITS O.at T.value (seen_mut self.now) (views_of result) }
    {
        self.as_ref().bit_domain()
    }

    /// The view for writing, cut at the edges of elements.
    pub fn bit_domain_mut(&mut self) -> BitDomainMut<'_, T, O>
        ensures { IsBitDomain T.BITS O.at T.value (seen_mut self.old) (views_of_mut result) }
    {
        let window = self.window();
        bit_domain_mut_of(self.elements_mut(), window)
    }

    /// The bits of a range for writing, as `get_mut(range)` gives them, for as long as the view was
    /// borrowed. Condition: `start <= end <= len`. `bitvec` has no such call.
    pub fn into_part(self, range: Range<usize>) -> Self
        requires { HasRange range (seen_mut self).window.len }
        ensures { IsRangeOf T.BITS (seen_mut self.entry) range.start range.end (seen_mut result) }
    {
        let BitSliceMut {
            elements,
            head,
            len,
            mark: _,
        } = self;
        let window = Window { start: head, len };
        let part = touched_part::<T>(elements.len(), window, range.start, range.end);
        let elements = &mut elements[part.first..part.end];
        BitSliceMut::from_parts(elements, part.head, part.len)
    }

    /// Where the view stands among the elements that it touches. `bitvec` has no such call.
    ///
    /// ```
    /// let mut elements = [0u8; 3];
    /// let view = BitSliceMut::<u8, Lsb0>::from_slice_mut(&mut elements);
    /// assert!(rt; view.window() == Window { start: 0, len: 24 });
    /// ```
    #[tactic(auto, using(crate::specs::SeenLaws::has_window))]
    pub fn window(&self) -> Window
        ensures value { result ≡ (seen_mut self.now).window }
        ensures inside { HasWindow T.BITS (map T.value (seen_mut self.now).elements) result }
    {
        Window {
            start: self.head,
            len: self.len,
        }
    }

    /// The elements, lent as [`crate::ViewMut`] lends them to crates above.
    pub(crate) fn elements_mut(&mut self) -> &mut [T]
        ensures* writes_back { sem 𝓛 (lends T.row O.row self.entry result.ghost_name) }
        ensures elements { result.now ≡ (seen_mut self.old).elements }
    {
        &mut *self.elements
    }

    /// Some of the elements, lent as [`BitSliceMut::elements_mut`] lends all: those outside stay.
    /// Condition: `start <= end`, and there are at least `end` elements.
    pub(crate) fn elements_part_mut(&mut self, start: usize, end: usize) -> &mut [T]
        requires order { start ≤ end }
        requires bound { end ≤ length (seen_mut self.old).elements }
        ensures* writes_back { sem 𝓛 (lends_part T.row O.row self.entry start end result.ghost_name) }
        ensures elements { result.now ≡ slice_range (seen_mut self.old).elements start end }
    {
        &mut self.elements[start..end]
    }

    /// Moves the view to a window of the elements that it keeps, for an edit of a part of it, which owes
    /// that the view comes back. Condition: the elements have the window.
    #[doc(hidden)]
    pub fn stand_at(&mut self, window: Window, _by: Sealed)
        requires { IsWithin window (T.BITS * length (seen_mut self.old).elements) }
        ensures window { (seen_mut self.new).window ≡ window }
        ensures elements { (seen_mut self.new).elements ≡ (seen_mut self.old).elements }
        ensures name { name_of self.new ≡ name_of self.old }
    {
        self.head = window.start;
        self.len = window.len;
    }
}
