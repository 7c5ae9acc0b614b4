//! A shared view of bits.
ghost use Rattle.std.specs.Prelude.{◌≡◌, ◌+◌, ◌*◌, ◌≤◌, ◌==◌, ⊤, length, map};
ghost use Rattle.bitvec_base.specs.Window.{max_bits};

use crate::BitDomain;
use crate::bit_domain::bit_domain_of;
use crate::touching::touched_part;
use bitvec_base::{BitOrder, MAX_BITS, Window};
use bitvec_domain::{Domain, domain_of};
use bitvec_store::BitStore;
use std::alloc::AllocError;
use std::marker::PhantomData;
use std::ops::Range;

/// Bits of a borrowed slice of elements, in an order: it stands for `bitvec`'s `&BitSlice<T, O>`.
///
/// A view keeps the elements that its bits touch, and the index in the first of them at which it
/// begins; so does each of its parts. Contracts see it as its memory, which is the bits of those
/// elements, and as its window there. Its own bits are the memory's in the window. Lengths, indices
/// and ranges are in bits. A call has the name and the meaning of `bitvec`'s, unless its text says
/// what it stands for.
pub struct BitSlice<'a, T: BitStore, O: BitOrder> {
    elements: &'a [T],
    head: usize,
    len: usize,
    order: PhantomData<O>,
    ghost inside: { head + len ≤ T.BITS * length elements.now },
    ghost bounded: { T.BITS * length elements.now ≤ max_bits },
}

impl<'a, T: BitStore, O: BitOrder> Copy for BitSlice<'a, T, O> {}

impl<'a, T: BitStore, O: BitOrder> Clone for BitSlice<'a, T, O> {
    ghost is_clone = { λ x y. y ≡ x };

    ghost is_infallible = { λ _. ⊤ };

    fn clone(&self) -> Result<Self, AllocError> {
        Ok(*self)
    }
}

impl<'a, T: BitStore, O: BitOrder> BitSlice<'a, T, O> {
    ghost use Rattle.bitvec_base.specs.Memory.{HasWindow};
    ghost use Rattle.bitvec_domain.specs.Domains.{pieces_of};
    ghost use Rattle.bitvec_slice.specs.Domains.{IsBitDomain, IsDomain, views_of};
    ghost use Rattle.bitvec_slice.specs.Indices.{HasRange};
    ghost use Rattle.bitvec_slice.specs.Seen.{CoversElements, IsRangeOf, IsWhole, shown};
    ghost use Rattle.bitvec_slice.specs.Views.{seen};

    /// The most bits that a view's memory may have.
    pub const MAX_BITS: usize = MAX_BITS;

    /// `bitvec`'s constant: one more than the elements that `MAX_BITS` bits take. No view here touches
    /// as many, since `MAX_BITS` bounds its memory.
    pub const MAX_ELTS: usize = (MAX_BITS + T::BITS as usize - 1) / (T::BITS as usize) + 1;

    /// A view of all bits of the elements. Condition: they are at most `MAX_BITS` bits.
    ///
    /// ```
    /// let header = [0x1Au8, 0xBC];
    /// assert!(rt; train_number(BitSlice::from_slice(&header)) == 0xABC);
    /// ```
    #[tactic(auto, using(crate::specs::SeenLaws::whole_view))]
    pub fn from_slice(elements: &'a [T]) -> Self
        requires { T.BITS * length elements.now ≤ max_bits }
        ensures { IsWhole T.BITS O.at T.value elements.now (seen result) }
    {
        let len = elements.len() * (T::BITS as usize);
        BitSlice::from_parts(elements, 0, len)
    }

    /// A view of some of the elements' bits, for a call of a crate above. Conditions: they have them, and
    /// are at most `MAX_BITS` bits. `bitvec` has no such call.
    #[doc(hidden)]
    pub fn from_parts(elements: &'a [T], head: usize, len: usize) -> Self
        requires inside { head + len ≤ T.BITS * length elements.now }
        requires fits { T.BITS * length elements.now ≤ max_bits }
        ensures { seen result ≡ shown T.BITS O.at T.value elements.now head len }
    {
        BitSlice {
            elements,
            head,
            len,
            order: PhantomData,
        }
    }

    /// The elements of a view of all their bits. Condition: it has all bits of its elements, as
    /// those that are made of a slice have. `bitvec` has no such call.
    pub fn into_slice(self) -> &'a [T]
        requires { CoversElements T.BITS (seen self) }
        ensures { result.now ≡ (seen self.entry).elements }
    {
        self.elements
    }

    /// The elements that the view touches, for a question of a crate above, whose answer is of the
    /// view's own bits.
    #[doc(hidden)]
    pub fn elements(self) -> &'a [T]
        ensures { result.now ≡ (seen self.entry).elements }
    {
        self.elements
    }

    /// This view: `&*bits` of `bitvec`, as [`crate::BitSliceMut::as_ref`] gives it.
    pub fn as_ref(&self) -> BitSlice<'_, T, O>
        ensures { seen result ≡ seen self.now }
    {
        *self
    }

    /// How many bits there are.
    ///
    /// ```
    /// let view = from_ref::<u32, Lsb0>(&0x8000_0000);
    /// assert!(rt; (view.len(), view.first_one()) == (32, Some(31)));
    /// ```
    #[tactic(auto, using(crate::specs::SeenLaws::length_bits))]
    pub fn len(&self) -> usize
        ensures value { result ≡ length (seen self.now).bits }
        ensures window { result ≡ (seen self.now).window.len }
        ensures bound { result ≤ max_bits }
    {
        self.len
    }

    /// Whether there is no bit.
    ///
    /// ```
    /// assert!(rt; BitSlice::<u8, Lsb0>::empty().is_empty());
    /// ```
    pub fn is_empty(&self) -> bool
        ensures { result ≡ ((seen self.now).window.len == 0) }
    {
        self.len == 0
    }

    /// The elements that the view touches, in their order.
    ///
    /// ```
    /// let mut elements = [0u8, 0xFF, 0];
    /// let view = BitSliceMut::<u8, Msb0>::from_slice_mut(&mut elements);
    /// assert!(rt; whole_elements(view.domain()) == Some([0, 0xFF, 0].as_slice()));
    /// ```
    pub fn domain(self) -> Domain<'a, T, O>
        ensures { IsDomain T.BITS O.at T.value (seen self.entry) (pieces_of result) }
    {
        domain_of(self.elements, self.window())
    }

    /// The view, cut at the edges of elements.
    pub fn bit_domain(self) -> BitDomain<BitSlice<'a, T, O>>
        ensures { IsBitDomain T.BITS O.at T.value (seen self.entry) (views_of result) }
    {
        bit_domain_of(self.elements, self.window())
    }

    /// The bits of a range, as `get(range)` gives them. Condition: `start <= end <= len`. `bitvec` has
    /// no such call.
    ///
    /// ```
    /// let view = BitSlice::<u8, Lsb0>::from_slice(&elements).into_part(4..12);
    /// let copy = view.clone()?;
    /// assert!(rt; view == copy);
    /// ```
    pub fn into_part(self, range: Range<usize>) -> Self
        requires { HasRange range (seen self).window.len }
        ensures { IsRangeOf T.BITS (seen self.entry) range.start range.end (seen result) }
    {
        let window = Window {
            start: self.head,
            len: self.len,
        };
        let part = touched_part::<T>(self.elements.len(), window, range.start, range.end);
        let elements = &self.elements[part.first..part.end];
        BitSlice::from_parts(elements, part.head, part.len)
    }

    /// Where the view stands among the elements that it touches. `bitvec` has no such call.
    #[tactic(auto, using(crate::specs::SeenLaws::has_window))]
    pub fn window(&self) -> Window
        ensures value { result ≡ (seen self.now).window }
        ensures inside { HasWindow T.BITS (map T.value (seen self.now).elements) result }
    {
        Window {
            start: self.head,
            len: self.len,
        }
    }
}
