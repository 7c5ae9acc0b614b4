//! Copies and exchanges with a view of the same type, which go by the order's block functions. A
//! trait can't have them: its check doesn't take an argument whose type has the trait's own bounds.
ghost use Rattle.std.specs.Prelude.{◌≡◌};

use crate::{BitSlice, BitSliceMut};
use bitvec_elements::{copy_from_block_in, swap_with_block_in};
use bitvec_engine::SliceOrder;
use bitvec_store::BitStore;

impl<'a, T: BitStore, O: SliceOrder> BitSliceMut<'a, T, O> {
    ghost use Rattle.bitvec_slice.specs.Views.{seen, seen_mut};
    ghost use Rattle.bitvec_slice.specs.Writes.{WritesBits};

    /// Copies the bits of a view of the same type. Condition: the views are as long.
    ///
    /// ```
    /// if let Some(from) = BitSlice::<u8, Msb0>::from_slice(source).get(..5) {
    ///     part.copy_from_bitslice(from);
    /// }
    /// ```
    #[inline(always)]
    pub fn copy_from_bitslice(&mut self, src: BitSlice<'_, T, O>)
        requires { (seen_mut self.old).window.len ≡ (seen src).window.len }
        ensures { WritesBits self.old self.new (seen src.entry).bits }
    {
        let window = self.window();
        let from = src.window();
        copy_from_block_in::<T, O>(self.elements_mut(), window, src.elements(), from);
    }

    /// Exchanges the bits with those of a view of the same type. Condition: the views are as long.
    ///
    /// ```
    /// view.swap_with_bitslice(other);
    /// ```
    pub fn swap_with_bitslice(&mut self, other: &mut BitSliceMut<'_, T, O>)
        requires { (seen_mut self.old).window.len ≡ (seen_mut other.old).window.len }
        ensures bits { WritesBits self.old self.new (seen_mut other.old).bits }
        ensures other_bits { WritesBits other.old other.new (seen_mut self.old).bits }
    {
        let window = self.window();
        let other_window = other.window();
        swap_with_block_in::<T, O>(
            self.elements_mut(),
            window,
            other.elements_mut(),
            other_window,
        );
    }

    /// The old name of [`BitSliceMut::copy_from_bitslice`].
    #[deprecated]
    pub fn copy_from_slice(&mut self, src: BitSlice<'_, T, O>)
        requires { (seen_mut self.old).window.len ≡ (seen src).window.len }
        ensures { WritesBits self.old self.new (seen src.entry).bits }
    {
        self.copy_from_bitslice(src);
    }

    /// The old name of [`BitSliceMut::swap_with_bitslice`].
    #[deprecated]
    pub fn swap_with_slice(&mut self, other: &mut BitSliceMut<'_, T, O>)
        requires { (seen_mut self.old).window.len ≡ (seen_mut other.old).window.len }
        ensures bits { WritesBits self.old self.new (seen_mut other.old).bits }
        ensures other_bits { WritesBits other.old other.new (seen_mut self.old).bits }
    {
        self.swap_with_bitslice(other);
    }
}
