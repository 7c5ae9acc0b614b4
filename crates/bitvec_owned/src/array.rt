//! An array of elements as bits.
ghost use Rattle.std.specs.Prelude.{◌≡◌, ◌*◌, ◌≤◌, ◌==◌, length, map, replicate, ⊤};
ghost use Rattle.std.specs.Borrow.{sem};
ghost use Rattle.bitvec_base.specs.Memory.{memory_bits};
ghost use Rattle.bitvec_base.specs.Window.{max_bits};

mod equality;
mod iterating;
mod texts;
mod views;

use crate::counts::bits_of;
use bitvec_base::{BitOrder, Window};
use bitvec_slice::{BitSlice, BitSliceMut};
use bitvec_store::BitStore;
use std::alloc::AllocError;
use std::marker::PhantomData;

/// An array of elements as bits: `bitvec`'s `BitArray`, which `bitarr!` makes there. All its bits are asked,
/// edited, walked, compared and printed. docs/DIFFERENCES.md says what differs.
///
/// Contracts see it as a view of all its bits. After an edit each bit is known, also where it is a field of a
/// struct or a local variable.
pub struct BitArray<T: BitStore, O: BitOrder, const N: usize> {
    pub(crate) elements: [T; N],
    order: PhantomData<O>,
    ghost bounded: { T.BITS * N ≤ max_bits },
}

impl<T: BitStore, O: BitOrder, const N: usize> Copy for BitArray<T, O, N> {}

impl<T: BitStore, O: BitOrder, const N: usize> Clone for BitArray<T, O, N> {
    ghost is_clone = { λ x y. y ≡ x };

    ghost is_infallible = { λ _. ⊤ };

    fn clone(&self) -> Result<Self, AllocError> {
        Ok(BitArray {
            elements: self.elements,
            order: PhantomData,
        })
    }
}

impl<T: BitStore, O: BitOrder, const N: usize> BitArray<T, O, N> {
    ghost use Rattle.bitvec_base.specs.Memory.{HasWindow};
    ghost use Rattle.bitvec_slice.specs.Views.{name_of, seen, seen_mut};
    ghost use Rattle.bitvec_owned.specs.ArrayLending.{lends};
    ghost use Rattle.bitvec_owned.specs.Arrays.{in_array};

    /// The bits of these elements. Condition: they are at most `MAX_BITS`.
    pub fn new(elements: [T; N]) -> Self
        requires { T.BITS * N ≤ max_bits }
        ensures elements { (in_array result).elements ≡ elements }
        ensures bits { (in_array result).bits ≡ memory_bits T.BITS O.at (map T.value elements) }
        ensures len { (in_array result).window.len ≡ T.BITS * N }
    {
        BitArray {
            elements,
            order: PhantomData,
        }
    }

    /// So many zeros: `ZERO` of `bitvec`. Condition: they are at most `MAX_BITS`.
    pub fn zeroed() -> Self
        requires { T.BITS * N ≤ max_bits }
        ensures elements { (in_array result).elements ≡ replicate N T.ZERO }
        ensures len { (in_array result).window.len ≡ T.BITS * N }
    {
        BitArray::new([T::ZERO; N])
    }

    /// A view of the bits.
    pub fn as_bitslice(&self) -> BitSlice<'_, T, O>
        ensures view { seen result ≡ in_array self.now }
        ensures bits { (seen result).bits ≡ (in_array self.now).bits }
    {
        BitSlice::from_parts(self.elements.as_slice(), 0, bits_of::<T>(N))
    }

    /// A view that writes the bits.
    pub fn as_mut_bitslice(&mut self) -> BitSliceMut<'_, T, O>
        ensures* writes_back { sem 𝓛 (lends T.row O.row N.row self.entry (name_of result)) }
        ensures view { seen_mut result ≡ in_array self.old }
    {
        BitSliceMut::from_parts(self.as_raw_mut_slice(), 0, bits_of::<T>(N))
    }

    /// How many bits there are.
    pub fn len(&self) -> usize
        ensures value { result ≡ length (in_array self.now).bits }
        ensures window { result ≡ (in_array self.now).window.len }
        ensures bound { result ≤ max_bits }
    {
        self.as_bitslice().len()
    }

    /// Whether there is no bit.
    pub fn is_empty(&self) -> bool
        ensures { result ≡ ((in_array self.now).window.len == 0) }
    {
        self.len() == 0
    }

    /// The elements.
    pub fn as_raw_slice(&self) -> &[T]
        ensures { result.now ≡ (in_array self.now).elements }
    {
        self.elements.as_slice()
    }

    /// The elements. Once the slice has ended, the array has what was left in it; so whoever passes the
    /// slice on to a function whose contract says what it leaves there knows every bit.
    pub fn as_raw_mut_slice(&mut self) -> &mut [T]
        ensures* writes_back { sem 𝓛 (lends T.row O.row N.row self.entry result.ghost_name) }
        ensures elements { result.now ≡ (in_array self.old).elements }
        ensures fits { T.BITS * length result.now ≤ max_bits }
    {
        self.elements.as_mut_slice()
    }

    /// Ends the array of bits, and gives its elements.
    pub fn into_inner(self) -> [T; N]
        ensures { result ≡ (in_array self).elements }
    {
        let BitArray { elements, order: _ } = self;
        elements
    }

    /// Where the bits stand among the elements: all of them. `bitvec` has no such call.
    pub fn window(&self) -> Window
        ensures value { result ≡ (in_array self.now).window }
        ensures inside { HasWindow T.BITS (map T.value (in_array self.now).elements) result }
    {
        self.as_bitslice().window()
    }
}
