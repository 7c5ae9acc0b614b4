//! Views by the traits of the standard library, and by functions that stand alone.
ghost use Rattle.std.specs.Prelude.{◌≡◌, ◌*◌, ◌≤◌, ◌↔◌, [], ◌∷◌, IfErr, IfOk, IsOk, length, slice_index_or};
ghost use Rattle.std.specs.Borrow.{Array, follows, sem};
ghost use Rattle.bitvec_base.specs.Window.{max_bits};
ghost use Rattle.bitvec_slice.specs.Seen.{IsEmpty, IsWhole};
ghost use Rattle.bitvec_slice.specs.Views.{IsWholeOf, name_of, seen, seen_mut};

use crate::constructors::bits_in;
use crate::{BitSlice, BitSliceMut};
use bitvec_base::{BitOrder, MAX_BITS};
use bitvec_store::BitStore;

/// The empty view.
impl<'a, T: BitStore, O: BitOrder> Default for BitSlice<'a, T, O> {
    ghost is_default = { λ view. IsEmpty (seen view) };

    fn default() -> Self {
        BitSlice::empty()
    }
}

/// The empty view.
impl<'a, T: BitStore, O: BitOrder> Default for BitSliceMut<'a, T, O> {
    ghost is_default = { λ view. IsEmpty (seen_mut view) };

    fn default() -> Self {
        BitSliceMut::empty_mut()
    }
}

/// A view of all bits of the elements; the slice itself, as the error, exactly where they are
/// more than `MAX_BITS` bits.
impl<'a, T: BitStore, O: BitOrder> TryFrom<&'a [T]> for BitSlice<'a, T, O> {
    type Error = &'a [T];

    ghost try_from_gives = { λ elements result.
        (IsOk result ↔ (T.BITS * length elements.now ≤ max_bits))
        × IfOk result (λ view. IsWhole T.BITS O.at T.value elements.now (seen view))
        × IfErr result (λ back. back ≡ elements) };

    fn try_from(elements: &'a [T]) -> Result<Self, &'a [T]> {
        if bits_in::<T>(elements.len()) <= MAX_BITS {
            Ok(BitSlice::from_slice(elements))
        } else {
            Err(elements)
        }
    }
}

/// A view of all bits of the elements; the slice itself, as the error, exactly where they are
/// more than `MAX_BITS` bits.
impl<'a, T: BitStore, O: BitOrder> TryFrom<&'a mut [T]> for BitSliceMut<'a, T, O> {
    type Error = &'a mut [T];

    ghost try_from_gives = { λ elements result.
        (IsOk result ↔ (T.BITS * length elements.now ≤ max_bits))
        × IfOk result (IsWholeOf elements.now elements.ghost_name)
        × IfErr result (λ back. back ≡ elements) };

    fn try_from(elements: &'a mut [T]) -> Result<Self, &'a mut [T]> {
        if bits_in::<T>(elements.len()) <= MAX_BITS {
            Ok(BitSliceMut::from_slice_mut(elements))
        } else {
            Err(elements)
        }
    }
}

/// A view of all bits of one element: the old name of [`BitSlice::from_element`].
#[deprecated]
pub fn from_ref<T: BitStore, O: BitOrder>(element: &T) -> BitSlice<'_, T, O>
    ensures { IsWhole T.BITS O.at T.value (element.now ∷ []) (seen result) }
{
    BitSlice::from_element(element)
}

/// A writable view of all bits of one element: the old name of [`BitSliceMut::from_element_mut`].
#[deprecated]
pub fn from_mut<T: BitStore, O: BitOrder>(element: &mut T) -> BitSliceMut<'_, T, O>
    ensures* writes_back { sem 𝓛 (follows T.row (Array T.row 0) element.entry.ghost_name (name_of result)
        (λ left. slice_index_or left 0 element.old)) }
    ensures whole { IsWhole T.BITS O.at T.value (element.old ∷ []) (seen_mut result) }
{
    BitSliceMut::from_element_mut(element)
}
