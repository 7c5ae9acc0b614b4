//! Edits of writable views.
ghost use Rattle.std.specs.Prelude.{◌≡◌, ◌<◌, ◌≤◌, false, length, map, not, replicate, reverse, slice_index_or, slice_set};
ghost use Rattle.std.specs.List.{swap};
ghost use Rattle.bitvec_base.specs.Lists.{FitsWithin, combined, copied_within, rotated_left, rotated_right, shifted_end, shifted_start};
ghost use Rattle.bitvec_domain.specs.Asked.{CallableBelow, CallableOnBits, FillsWith, RefillsWith};
ghost use Rattle.bitvec_words.specs.Operator.{operator};
ghost use Rattle.bitvec_words.specs.declared.operator.BitOp.TheVariants.{And, AndNot, Or, Xor};
ghost use Rattle.bitvec_slice.specs.Views.{seen, seen_mut};
ghost use Rattle.bitvec_slice.specs.Writes.{WritesBits};
ghost use Rattle.bitvec_within.specs.Combined.{combined_within};
ghost use Rattle.bitvec_within.specs.Swaps.{LieApart, swapped_within};

use bitvec_base::BitOrder;
use bitvec_domain::{fill_with_in, for_each_in, replace_in, set_in, swap_in};
use bitvec_elements::{combine_in, copy_from_in, fill_in, invert_in, swap_with_in};
use bitvec_engine::SliceOrder;
use bitvec_slice::{BitSlice, BitSliceMut, Sealed, View, ViewMut};
use bitvec_store::BitStore;
use bitvec_within::{
    combine_within_in, copy_within_in, reverse_in, rotate_left_in, rotate_right_in, shift_end_in,
    shift_start_in, swap_within_in,
};
use bitvec_words::BitOp;
use std::ops::Range;

/// `bitvec`'s edits of a `&mut BitSlice`: those of single bits and of all, those that move its bits,
/// take those of another view, which may have any element type and order, or ask a closure for them.
/// With a view of the same type, [`BitSliceMut`] has `copy_from_bitslice`, `swap_with_bitslice` and the
/// operators. Indices and amounts are in bits.
pub trait BitEdits<T: BitStore, O: SliceOrder>: ViewMut<T, O> {
    /// Makes the bit at an index `bit`. Condition: the index is below `len`.
    ///
    /// ```
    /// let mut view = BitSliceMut::<u16, Lsb0>::from_slice_unchecked_mut(&mut elements);
    /// view.set(17, true);
    /// assert!(rt; view.into_slice()[1] == 2);
    /// ```
    final fn set(&mut self, index: usize, bit: bool)
        requires { index < (Self.shows self.old).window.len }
        ensures { Self.writes self.old self.new (slice_set (Self.shows self.old).bits index bit) }
    {
        let window = self.window();
        set_in::<T, O>(self.elements_mut(Sealed), window, index, bit);
    }

    /// Makes the bit at an index `bit`, and gives the old one. Condition: the index is below `len`.
    final fn replace(&mut self, index: usize, bit: bool) -> bool
        requires { index < (Self.shows self.old).window.len }
        ensures value { result ≡ slice_index_or (Self.shows self.old).bits index false }
        ensures bits { Self.writes self.old self.new (slice_set (Self.shows self.old).bits index bit) }
    {
        let window = self.window();
        replace_in::<T, O>(self.elements_mut(Sealed), window, index, bit)
    }

    /// Exchanges the bits at two indices, which may be one. Condition: both are below `len`.
    ///
    /// ```
    /// let last = view.len() - 1;
    /// view.swap(0, last);
    /// ```
    final fn swap(&mut self, first: usize, second: usize)
        requires first { first < (Self.shows self.old).window.len }
        requires second { second < (Self.shows self.old).window.len }
        ensures { Self.writes self.old self.new (swap (Self.shows self.old).bits first second) }
    {
        let window = self.window();
        swap_in::<T, O>(self.elements_mut(Sealed), window, first, second);
    }

    /// Makes each bit `bit`.
    ///
    /// ```
    /// let mut elements = [0u8];
    /// let mut slots = BitSliceMut::<u8, Lsb0>::from_slice_mut(&mut elements);
    /// slots.fill(true);
    /// ```
    final fn fill(&mut self, bit: bool)
        ensures { Self.writes self.old self.new (replicate (Self.shows self.old).window.len bit) }
    {
        let window = self.window();
        fill_in::<T, O>(self.elements_mut(Sealed), window, bit);
    }

    /// Flips each bit: `!` of `bitvec`.
    ///
    /// ```
    /// let mut view = BitSliceMut::<T, O>::from_slice_mut(elements);
    /// view.invert();
    /// let view = !view;
    /// ```
    final fn invert(&mut self)
        ensures { Self.writes self.old self.new (map not (Self.shows self.old).bits) }
    {
        let window = self.window();
        invert_in::<T, O>(self.elements_mut(Sealed), window);
    }

    /// Puts the bits in the opposite order.
    final fn reverse(&mut self)
        ensures { Self.writes self.old self.new (reverse (Self.shows self.old).bits) }
    {
        let window = self.window();
        reverse_in::<T, O>(self.elements_mut(Sealed), window);
    }

    /// Rotates the bits so that the one at `by` comes first. Condition: `by` is at most `len`.
    ///
    /// ```
    /// let mut view = BitSliceMut::<T, O>::from_slice_mut(elements);
    /// view.rotate_left(by);
    /// view.rotate_right(by);
    /// ```
    final fn rotate_left(&mut self, by: usize)
        requires { by ≤ (Self.shows self.old).window.len }
        ensures { Self.writes self.old self.new (rotated_left by (Self.shows self.old).bits) }
    {
        let window = self.window();
        rotate_left_in::<T, O>(self.elements_mut(Sealed), window, by);
    }

    /// Rotates the bits so that the last `by` come first. Condition: `by` is at most `len`.
    ///
    /// ```
    /// let mut view = BitSliceMut::<T, O>::from_slice_mut(elements);
    /// view.rotate_left(by);
    /// view.rotate_right(by);
    /// ```
    final fn rotate_right(&mut self, by: usize)
        requires { by ≤ (Self.shows self.old).window.len }
        ensures { Self.writes self.old self.new (rotated_right by (Self.shows self.old).bits) }
    {
        let window = self.window();
        rotate_right_in::<T, O>(self.elements_mut(Sealed), window, by);
    }

    /// Shifts the bits by `by` places towards the start: the first `by` are lost, and as many zeros
    /// follow the others. Condition: `by` is at most `len`.
    ///
    /// ```
    /// view.shift_start(1);
    /// view.set(view.len() - 1, bit);
    /// ```
    final fn shift_start(&mut self, by: usize)
        requires { by ≤ (Self.shows self.old).window.len }
        ensures { Self.writes self.old self.new (shifted_start by (Self.shows self.old).bits) }
    {
        let window = self.window();
        shift_start_in::<T, O>(self.elements_mut(Sealed), window, by);
    }

    /// Shifts the bits by `by` places towards the end: the last `by` are lost, and as many zeros
    /// stand before the others. Condition: `by` is at most `len`.
    ///
    /// ```
    /// view.shift_end(1);
    /// view.set(0, bit);
    /// ```
    final fn shift_end(&mut self, by: usize)
        requires { by ≤ (Self.shows self.old).window.len }
        ensures { Self.writes self.old self.new (shifted_end by (Self.shows self.old).bits) }
    {
        let window = self.window();
        shift_end_in::<T, O>(self.elements_mut(Sealed), window, by);
    }

    /// Copies the bits of a range to `dest` on, also where they overlap. Condition:
    /// `start <= end <= len`, and `dest + (end - start) <= len`.
    ///
    /// ```
    /// view.copy_within(0..width, width);
    /// ```
    final fn copy_within(&mut self, src: Range<usize>, dest: usize)
        requires { FitsWithin src.start src.end dest (Self.shows self.old).window.len }
        ensures { Self.writes self.old self.new (copied_within src.start src.end dest (Self.shows self.old).bits) }
    {
        let window = self.window();
        copy_within_in::<T, O>(self.elements_mut(Sealed), window, src, dest);
    }

    /// Exchanges the bits of a range with as many from `dest` on. Condition: `start <= end <= len`,
    /// `dest + (end - start) <= len`, and the two ranges lie apart. `bitvec` has no such call: there it
    /// is `swap_with_bitslice` of two parts that `split_at_mut` gives.
    ///
    /// ```
    /// view.swap_within(0..width, view.len() - width);
    /// ```
    final fn swap_within(&mut self, src: Range<usize>, dest: usize)
        requires fits { FitsWithin src.start src.end dest (Self.shows self.old).window.len }
        requires apart { LieApart src.start src.end dest }
        ensures { Self.writes self.old self.new (swapped_within src.start src.end dest (Self.shows self.old).bits) }
    {
        let window = self.window();
        swap_within_in::<T, O>(self.elements_mut(Sealed), window, src, dest);
    }

    /// Makes each of the bits from `dest` on, as many as a range has, 1 if it and the one at its index in the
    /// range both are, as they stood before the call, also where the two overlap. Condition:
    /// `start <= end <= len`, and `dest + (end - start) <= len`. `bitvec` has no such call.
    #[inline(always)]
    final fn and_within(&mut self, src: Range<usize>, dest: usize)
        requires { FitsWithin src.start src.end dest (Self.shows self.old).window.len }
        ensures { Self.writes self.old self.new (combined_within (operator And) src.start src.end dest (Self.shows self.old).bits) }
    {
        self.combine_within(src, dest, BitOp::And);
    }

    /// Makes each of the bits from `dest` on, as many as a range has, 1 if it or the one at its index in the
    /// range is, as they stood before the call, also where the two overlap. Condition: as for
    /// [`BitEdits::and_within`]. `bitvec` has no such call.
    ///
    /// ```
    /// bits.or_within(source * width..source * width + width, target * width);
    /// ```
    #[inline(always)]
    final fn or_within(&mut self, src: Range<usize>, dest: usize)
        requires { FitsWithin src.start src.end dest (Self.shows self.old).window.len }
        ensures { Self.writes self.old self.new (combined_within (operator Or) src.start src.end dest (Self.shows self.old).bits) }
    {
        self.combine_within(src, dest, BitOp::Or);
    }

    /// Makes each of the bits from `dest` on, as many as a range has, 1 if it and the one at its index in the
    /// range differ, as they stood before the call, also where the two overlap. Condition: as for
    /// [`BitEdits::and_within`]. `bitvec` has no such call.
    #[inline(always)]
    final fn xor_within(&mut self, src: Range<usize>, dest: usize)
        requires { FitsWithin src.start src.end dest (Self.shows self.old).window.len }
        ensures { Self.writes self.old self.new (combined_within (operator Xor) src.start src.end dest (Self.shows self.old).bits) }
    {
        self.combine_within(src, dest, BitOp::Xor);
    }

    /// Clears each of the bits from `dest` on, as many as a range has, where the one at its index in the range
    /// is 1, as they stood before the call, also where the two overlap. Condition: as for
    /// [`BitEdits::and_within`]. `bitvec` has no such call.
    #[inline(always)]
    final fn and_not_within(&mut self, src: Range<usize>, dest: usize)
        requires { FitsWithin src.start src.end dest (Self.shows self.old).window.len }
        ensures { Self.writes self.old self.new (combined_within (operator AndNot) src.start src.end dest (Self.shows self.old).bits) }
    {
        self.combine_within(src, dest, BitOp::AndNot);
    }

    /// Alias of [`BitEdits::set`], under its condition.
    final fn set_unchecked(&mut self, index: usize, bit: bool)
        requires { index < (Self.shows self.old).window.len }
        ensures { Self.writes self.old self.new (slice_set (Self.shows self.old).bits index bit) }
    {
        self.set(index, bit);
    }

    /// Alias of [`BitEdits::replace`], under its condition.
    final fn replace_unchecked(&mut self, index: usize, bit: bool) -> bool
        requires { index < (Self.shows self.old).window.len }
        ensures value { result ≡ slice_index_or (Self.shows self.old).bits index false }
        ensures bits { Self.writes self.old self.new (slice_set (Self.shows self.old).bits index bit) }
    {
        self.replace(index, bit)
    }

    /// Alias of [`BitEdits::swap`], under its condition.
    final fn swap_unchecked(&mut self, first: usize, second: usize)
        requires first { first < (Self.shows self.old).window.len }
        requires second { second < (Self.shows self.old).window.len }
        ensures { Self.writes self.old self.new (swap (Self.shows self.old).bits first second) }
    {
        self.swap(first, second);
    }

    /// Alias of [`BitEdits::copy_within`], under its condition.
    final fn copy_within_unchecked(&mut self, src: Range<usize>, dest: usize)
        requires { FitsWithin src.start src.end dest (Self.shows self.old).window.len }
        ensures { Self.writes self.old self.new (copied_within src.start src.end dest (Self.shows self.old).bits) }
    {
        self.copy_within(src, dest);
    }

    /// The old name of [`BitEdits::shift_start`].
    #[deprecated]
    final fn shift_left(&mut self, by: usize)
        requires { by ≤ (Self.shows self.old).window.len }
        ensures { Self.writes self.old self.new (shifted_start by (Self.shows self.old).bits) }
    {
        self.shift_start(by);
    }

    /// The old name of [`BitEdits::shift_end`].
    #[deprecated]
    final fn shift_right(&mut self, by: usize)
        requires { by ≤ (Self.shows self.old).window.len }
        ensures { Self.writes self.old self.new (shifted_end by (Self.shows self.old).bits) }
    {
        self.shift_end(by);
    }

    /// The old name of [`BitEdits::clone_from_bitslice`].
    #[deprecated]
    final fn clone_from_slice<U: BitStore, P: BitOrder>(&mut self, src: BitSlice<'_, U, P>)
        requires { (Self.shows self.old).window.len ≡ (seen src).window.len }
        ensures { Self.writes self.old self.new (seen src.entry).bits }
    {
        self.clone_from_bitslice(src);
    }

    /// Copies the bits of a view of any element type and order. Condition: the views are as long.
    ///
    /// ```
    /// let mut view = BitSliceMut::<u32, Lsb0>::from_slice_mut(words);
    /// view.clone_from_bitslice(BitSlice::<u8, Msb0>::from_slice(bytes));
    /// ```
    final fn clone_from_bitslice<U: BitStore, P: BitOrder>(&mut self, src: BitSlice<'_, U, P>)
        requires { (Self.shows self.old).window.len ≡ (seen src).window.len }
        ensures { Self.writes self.old self.new (seen src.entry).bits }
    {
        let window = self.window();
        let from = src.window();
        copy_from_in::<T, O, U, P>(self.elements_mut(Sealed), window, src.elements(), from);
    }

    /// Makes each bit 1 if it and the one at its index in `src`, which counts as 0 past its end,
    /// both are: `&=` for any element type and order.
    final fn and_bits<U: BitStore, P: BitOrder>(&mut self, src: BitSlice<'_, U, P>)
        ensures { Self.writes self.old self.new (combined (operator And) (Self.shows self.old).bits (seen src.entry).bits) }
    {
        self.combine_bits(src, BitOp::And);
    }

    /// Makes each bit 1 if it or the one at its index in `src`, which counts as 0 past its end, is:
    /// `|=` for any element type and order.
    final fn or_bits<U: BitStore, P: BitOrder>(&mut self, src: BitSlice<'_, U, P>)
        ensures { Self.writes self.old self.new (combined (operator Or) (Self.shows self.old).bits (seen src.entry).bits) }
    {
        self.combine_bits(src, BitOp::Or);
    }

    /// Makes each bit 1 if it and the one at its index in `src`, which counts as 0 past its end,
    /// differ: `^=` for any element type and order.
    ///
    /// ```
    /// view.xor_bits(mask);
    /// ```
    final fn xor_bits<U: BitStore, P: BitOrder>(&mut self, src: BitSlice<'_, U, P>)
        ensures { Self.writes self.old self.new (combined (operator Xor) (Self.shows self.old).bits (seen src.entry).bits) }
    {
        self.combine_bits(src, BitOp::Xor);
    }

    /// Clears each bit where the one at its index in `src`, which counts as 0 past its end, is 1: the bits of a
    /// set that are not in another one, `difference_with` of `fixedbitset`. `bitvec` has no such call.
    ///
    /// ```
    /// seats.and_not_bits(taken);
    /// ```
    final fn and_not_bits<U: BitStore, P: BitOrder>(&mut self, src: BitSlice<'_, U, P>)
        ensures { Self.writes self.old self.new (combined (operator AndNot) (Self.shows self.old).bits (seen src.entry).bits) }
    {
        self.combine_bits(src, BitOp::AndNot);
    }

    /// Exchanges the bits with those of a view of any element type and order. Condition: the views
    /// are as long.
    ///
    /// ```
    /// view.swap_with_bits(other);
    /// ```
    final fn swap_with_bits<U: BitStore, P: BitOrder>(&mut self, other: &mut BitSliceMut<'_, U, P>)
        requires { (Self.shows self.old).window.len ≡ (seen_mut other.old).window.len }
        ensures bits { Self.writes self.old self.new (seen_mut other.old).bits }
        ensures other_bits { WritesBits other.old other.new (Self.shows self.old).bits }
    {
        let window = self.window();
        let other_window = other.window();
        swap_with_in::<T, O, U, P>(
            self.elements_mut(Sealed),
            window,
            other.elements_mut(Sealed),
            other_window,
        );
    }

    /// Makes each bit what `f` answers for its index: `f` is called once for each index, in
    /// ascending order from 0 on, and what it keeps goes from each call to the next. Condition:
    /// `f` may be called for each index below `len`, once the calls for those before it are done,
    /// whatever they answered.
    ///
    /// ```
    /// let mut view = BitSliceMut::<T, O>::from_slice_mut(elements);
    /// view.fill_with(|index| index % 2 == 0);
    /// ```
    final fn fill_with<F: FnMut(usize) -> bool>(&mut self, f: F)
        requires { CallableBelow F.FnMut f (Self.shows self.old).window.len }
        ensures answers { FillsWith F.FnMut f (Self.shows self.new).bits }
        ensures bits { Self.writes self.old self.new (Self.shows self.new).bits }
        ensures len { length (Self.shows self.new).bits ≡ (Self.shows self.old).window.len }
    {
        let window = self.window();
        fill_with_in::<T, O, F>(self.elements_mut(Sealed), window, f);
    }

    /// Makes each bit what `f` answers for its index and the bit that stands there: `f` is called
    /// once for each index, in ascending order from 0 on, and what it keeps goes from each call to
    /// the next. Condition: `f` may be called for each index and the bit there, once the calls for
    /// those before it are done, whatever they answered.
    ///
    /// ```
    /// five.for_each(|index, bit| bit != (index == 0));
    /// ```
    final fn for_each<F: FnMut(usize, bool) -> bool>(&mut self, f: F)
        requires { CallableOnBits F.FnMut f (Self.shows self.old).bits }
        ensures answers { RefillsWith F.FnMut f (Self.shows self.old).bits (Self.shows self.new).bits }
        ensures bits { Self.writes self.old self.new (Self.shows self.new).bits }
        ensures len { length (Self.shows self.new).bits ≡ (Self.shows self.old).window.len }
    {
        let window = self.window();
        for_each_in::<T, O, F>(self.elements_mut(Sealed), window, f);
    }

    /// Makes each bit what `op` makes of it and the one at its index in `src`, which counts as 0 past its end.
    #[doc(hidden)]
    final fn combine_bits<U: BitStore, P: BitOrder>(&mut self, src: BitSlice<'_, U, P>, op: BitOp)
        ensures { Self.writes self.old self.new (combined (operator op) (Self.shows self.old).bits (seen src.entry).bits) }
    {
        let window = self.window();
        let from = src.window();
        combine_in::<T, O, U, P>(self.elements_mut(Sealed), window, src.elements(), from, op);
    }

    /// Makes each of the bits from `dest` on, as many as a range has, what `op` makes of it and the one at its
    /// index in the range.
    #[doc(hidden)]
    #[inline(always)]
    final fn combine_within(&mut self, src: Range<usize>, dest: usize, op: BitOp)
        requires { FitsWithin src.start src.end dest (Self.shows self.old).window.len }
        ensures { Self.writes self.old self.new (combined_within (operator op) src.start src.end dest (Self.shows self.old).bits) }
    {
        let window = self.window();
        combine_within_in::<T, O>(self.elements_mut(Sealed), window, src, dest, op);
    }
}
