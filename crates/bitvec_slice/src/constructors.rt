//! Views of no element, of one, and of a slice that may be too long.
ghost use Rattle.std.specs.Prelude.{◌≡◌, ◌-◌, ◌*◌, ◌^◌, ◌≤◌, ◌↔◌, [], ◌∷◌, IfErr, IfOk, IsOk, length, min, slice_index_or};
ghost use Rattle.bitvec_base.specs.Window.{max_bits};
ghost use Rattle.bitvec_base.specs.declared.span_error.BitSpanError.TheVariants.{TooLong};

use crate::{BitSlice, BitSliceMut};
use bitvec_base::{BitOrder, BitSpanError, MAX_BITS};
use bitvec_store::BitStore;

/// How many bits so many elements have, or `usize::MAX` where a `usize` can't hold the number.
pub(crate) fn bits_in<T: BitStore>(count: usize) -> usize
    ensures { result ≡ min (T.BITS * count) (2 ^ 64 - 1) }
{
    (T::BITS as usize).saturating_mul(count)
}

impl<'a, T: BitStore, O: BitOrder> BitSlice<'a, T, O> {
    ghost use Rattle.bitvec_slice.specs.Seen.{IsEmpty, IsWhole};
    ghost use Rattle.bitvec_slice.specs.Views.{seen};

    /// A view of no bit.
    pub fn empty() -> Self
        ensures { IsEmpty (seen result) }
    {
        BitSlice::from_slice(&[])
    }

    /// A view of all bits of one element.
    ///
    /// ```
    /// let view = BitSlice::<u8, Lsb0>::from_element(&0xF1);
    /// ```
    pub fn from_element(element: &'a T) -> Self
        ensures { IsWhole T.BITS O.at T.value (element.now ∷ []) (seen result) }
    {
        T::fits_in_memory();
        BitSlice::from_slice(std::slice::from_ref(element))
    }

    /// Alias of [`BitSlice::from_slice`], under its condition.
    pub fn from_slice_unchecked(elements: &'a [T]) -> Self
        requires { T.BITS * length elements.now ≤ max_bits }
        ensures { IsWhole T.BITS O.at T.value elements.now (seen result) }
    {
        BitSlice::from_slice(elements)
    }

    /// A view of all bits of the elements; `Err(TooLong(bits))` exactly where they are more than
    /// `MAX_BITS` bits: so many, or `usize::MAX` where they are more than that.
    ///
    /// ```
    /// let elements = [0x0Fu8, 0x01];
    /// let view = BitSlice::<u8, Lsb0>::try_from_slice(&elements);
    /// assert!(rt; found(view) == Some((16, Some(8))));
    /// ```
    pub fn try_from_slice(elements: &'a [T]) -> Result<Self, BitSpanError>
        ensures made { IsOk result ↔ (T.BITS * length elements.now ≤ max_bits) }
        ensures error { IfErr result
            (λ error. error ≡ TooLong (min (T.BITS * length elements.now) (2 ^ 64 - 1))) }
        ensures whole { IfOk result (λ view. IsWhole T.BITS O.at T.value elements.now (seen view)) }
    {
        let bits = bits_in::<T>(elements.len());
        if bits <= MAX_BITS {
            Ok(BitSlice::from_slice(elements))
        } else {
            Err(BitSpanError::TooLong(bits))
        }
    }
}

impl<'a, T: BitStore, O: BitOrder> BitSliceMut<'a, T, O> {
    ghost use Rattle.std.specs.Borrow.{Array, RestsIfErr, follows, sem};
    ghost use Rattle.bitvec_slice.specs.Seen.{IsEmpty, IsWhole};
    ghost use Rattle.bitvec_slice.specs.Views.{IsWholeOf, name_of, seen_mut};

    /// A view of no bit.
    pub fn empty_mut() -> Self
        ensures { IsEmpty (seen_mut result) }
    {
        BitSliceMut::from_slice_mut(&mut [])
    }

    /// A view of all bits of one element.
    pub fn from_element_mut(element: &'a mut T) -> Self
        ensures* writes_back { sem 𝓛 (follows T.row (Array T.row 0) element.entry.ghost_name (name_of result)
            (λ left. slice_index_or left 0 element.old)) }
        ensures whole { IsWhole T.BITS O.at T.value (element.old ∷ []) (seen_mut result) }
    {
        T::fits_in_memory();
        BitSliceMut::from_slice_mut(std::slice::from_mut(element))
    }

    /// Alias of [`BitSliceMut::from_slice_mut`], under its condition.
    pub fn from_slice_unchecked_mut(elements: &'a mut [T]) -> Self
        requires { T.BITS * length elements.old ≤ max_bits }
        ensures { IsWholeOf elements.old elements.entry.ghost_name result }
    {
        BitSliceMut::from_slice_mut(elements)
    }

    /// A view of all bits of the elements; `Err(TooLong(bits))` exactly where they are more than
    /// `MAX_BITS` bits: so many, or `usize::MAX` where they are more than that. Then the elements stay.
    pub fn try_from_slice_mut(elements: &'a mut [T]) -> Result<Self, BitSpanError>
        ensures* stays { sem 𝓛 (RestsIfErr (Array T.row 0) elements.entry name_of result
            (λ left. left ≡ elements.old)) }
        ensures made { IsOk result ↔ (T.BITS * length elements.old ≤ max_bits) }
        ensures error { IfErr result
            (λ error. error ≡ TooLong (min (T.BITS * length elements.old) (2 ^ 64 - 1))) }
        ensures whole { IfOk result (IsWholeOf elements.old elements.entry.ghost_name) }
    {
        let bits = bits_in::<T>(elements.len());
        if bits > MAX_BITS {
            return BitSliceMut::too_long(bits);
        }
        BitSliceMut::all_of(elements)
    }

    // The two answers of `try_from_slice_mut`, whose proof by hand goes by their contracts.
    fn too_long(bits: usize) -> Result<Self, BitSpanError>
        ensures { result ≡ Err (TooLong bits) }
    {
        Err(BitSpanError::TooLong(bits))
    }

    fn all_of(elements: &'a mut [T]) -> Result<Self, BitSpanError>
        requires { T.BITS * length elements.old ≤ max_bits }
        ensures made { IsOk result }
        ensures whole { IfOk result (IsWholeOf elements.old elements.entry.ghost_name) }
    {
        Ok(BitSliceMut::from_slice_mut(elements))
    }
}
