//! Questions about the bits of a view.
ghost use Rattle.std.specs.Prelude.{◌≡◌, ◌≤◌, ◌&&◌, count_by, false, not, slice_get, take, true};
ghost use Rattle.std.specs.Cmp.Lexicographic.{slice_cmp};
ghost use Rattle.std.specs.List.{list_all, list_any, prefix_len, suffix_len};
ghost use Rattle.std.specs.Ordering.{bool_cmp};
ghost use Rattle.bitvec_base.specs.Lists.{first_place, is_prefix, is_suffix, last_place, places_of, same_bits, stands_in};
ghost use Rattle.bitvec_slice.specs.Views.{seen};

use crate::places::{IterOnes, IterZeros};
use crate::runs::{before_first, behind_last};
use bitvec_base::BitOrder;
use bitvec_elements::{
    all_in, any_in, compare_in, count_in, ends_with_in, eq_in, find_first_in, find_last_in,
    starts_with_in,
};
use bitvec_engine::SliceOrder;
use bitvec_slice::{BitSlice, View};
use bitvec_store::BitStore;
use bitvec_within::contains_in;
use std::cmp::Ordering;

/// The questions that `bitvec`'s `BitSlice` answers about its bits, for both view types. A needle,
/// or a view to compare with, may have any element type and order. Indices and counts are in bits.
pub trait BitQueries<T: BitStore, O: SliceOrder>: View<T, O> {
    /// How many bits are 1.
    ///
    /// ```
    /// assert!(rt; elements == [0xFFFF_0000, 0xFF00_00FF, 0x0000_FFFF]);
    /// let view = BitSlice::<u32, Lsb0>::from_slice(&elements);
    /// assert!(rt; (view.count_ones(), view.count_zeros()) == (48, 48));
    /// ```
    #[inline(always)]
    final fn count_ones(&self) -> usize
        ensures { result ≡ count_by (λ bit. bit) (Self.shows self.now).bits }
    {
        let view = self.as_bitslice();
        count_in::<T, O>(view.elements(), view.window())
    }

    /// How many bits are 0.
    ///
    /// ```
    /// let view = BitSlice::<u32, Lsb0>::from_slice(&elements);
    /// assert!(rt; (view.count_ones(), view.count_zeros()) == (48, 48));
    /// ```
    #[tactic(auto, using(bitvec_base::specs::CountLaws::ones_and_zeros))]
    final fn count_zeros(&self) -> usize
        ensures { result ≡ count_by not (Self.shows self.now).bits }
    {
        self.as_bitslice().len() - self.count_ones()
    }

    /// How many of the bits before an index are 1: the rank of the index. Condition: the index is at most the length.
    /// `bitvec` has no such call; it is that of `view[..index].count_ones()`.
    #[inline(always)]
    final fn count_ones_before(&self, index: usize) -> usize
        requires { index ≤ (Self.shows self.now).window.len }
        ensures { result ≡ count_by (λ bit. bit) (take index (Self.shows self.now).bits) }
    {
        self.as_bitslice().into_part(0..index).count_ones()
    }

    /// How many of the bits before an index are 0. Condition: the index is at most the length. `bitvec` has no such call; it is
    /// that of `view[..index].count_zeros()`.
    #[inline(always)]
    final fn count_zeros_before(&self, index: usize) -> usize
        requires { index ≤ (Self.shows self.now).window.len }
        ensures { result ≡ count_by not (take index (Self.shows self.now).bits) }
    {
        self.as_bitslice().into_part(0..index).count_zeros()
    }

    /// The index of the bit that is 1 and has `n` such bits before it, if there is one. `bitvec` has no such call; it is
    /// that of `view.iter_ones().nth(n)`, and takes as long.
    final fn nth_one(&self, n: usize) -> Option<usize>
        ensures { result ≡ slice_get (places_of true (Self.shows self.now).bits) n }
    {
        IterOnes::<T, O>::new(self.as_bitslice()).nth(n)
    }

    /// The index of the bit that is 0 and has `n` such bits before it, if there is one. `bitvec` has no such call; it is
    /// that of `view.iter_zeros().nth(n)`, and takes as long.
    final fn nth_zero(&self, n: usize) -> Option<usize>
        ensures { result ≡ slice_get (places_of false (Self.shows self.now).bits) n }
    {
        IterZeros::<T, O>::new(self.as_bitslice()).nth(n)
    }

    /// The index of the first bit that is 1, if there is one.
    ///
    /// ```
    /// let view = from_ref::<u32, Lsb0>(&0x8000_0000);
    /// assert!(rt; (view.len(), view.first_one()) == (32, Some(31)));
    /// ```
    final fn first_one(&self) -> Option<usize>
        ensures { result ≡ first_place true (Self.shows self.now).bits }
    {
        let view = self.as_bitslice();
        find_first_in::<T, O>(view.elements(), view.window(), true)
    }

    /// The index of the first bit that is 0, if there is one.
    ///
    /// ```
    /// let seat = seats.first_zero()?;
    /// seats.set(seat, true);
    /// Some(seat)
    /// ```
    final fn first_zero(&self) -> Option<usize>
        ensures { result ≡ first_place false (Self.shows self.now).bits }
    {
        let view = self.as_bitslice();
        find_first_in::<T, O>(view.elements(), view.window(), false)
    }

    /// The index of the last bit that is 1, if there is one.
    ///
    /// ```
    /// let index = view.last_one()?;
    /// view.set(index, false);
    /// ```
    final fn last_one(&self) -> Option<usize>
        ensures { result ≡ last_place true (Self.shows self.now).bits }
    {
        let view = self.as_bitslice();
        find_last_in::<T, O>(view.elements(), view.window(), true)
    }

    /// The index of the last bit that is 0, if there is one.
    final fn last_zero(&self) -> Option<usize>
        ensures { result ≡ last_place false (Self.shows self.now).bits }
    {
        let view = self.as_bitslice();
        find_last_in::<T, O>(view.elements(), view.window(), false)
    }

    /// How many bits at the start are 1.
    final fn leading_ones(&self) -> usize
        ensures { result ≡ prefix_len (λ bit. bit) (Self.shows self.now).bits }
    {
        before_first(self.as_bitslice(), false)
    }

    /// How many bits at the start are 0.
    final fn leading_zeros(&self) -> usize
        ensures { result ≡ prefix_len not (Self.shows self.now).bits }
    {
        before_first(self.as_bitslice(), true)
    }

    /// How many bits at the end are 1.
    final fn trailing_ones(&self) -> usize
        ensures { result ≡ suffix_len (λ bit. bit) (Self.shows self.now).bits }
    {
        behind_last(self.as_bitslice(), false)
    }

    /// How many bits at the end are 0.
    final fn trailing_zeros(&self) -> usize
        ensures { result ≡ suffix_len not (Self.shows self.now).bits }
    {
        behind_last(self.as_bitslice(), true)
    }

    /// Whether some bit is 1. An empty view has none.
    final fn any(&self) -> bool
        ensures { result ≡ list_any (λ bit. bit) (Self.shows self.now).bits }
    {
        let view = self.as_bitslice();
        any_in::<T, O>(view.elements(), view.window())
    }

    /// Whether every bit is 1, as in an empty view.
    ///
    /// ```
    /// let view = BitSliceMut::<u8, Lsb0>::from_slice_mut(&mut elements);
    /// let (left, right) = view.split_at(4);
    /// assert!(rt; left.not_any() && right.all());
    /// ```
    final fn all(&self) -> bool
        ensures { result ≡ list_all (λ bit. bit) (Self.shows self.now).bits }
    {
        let view = self.as_bitslice();
        all_in::<T, O>(view.elements(), view.window())
    }

    /// Whether no bit is 1, as in an empty view.
    ///
    /// ```
    /// let view = BitSliceMut::<u8, Lsb0>::from_slice_mut(&mut elements);
    /// let (left, right) = view.split_at(4);
    /// assert!(rt; left.not_any() && right.all());
    /// ```
    final fn not_any(&self) -> bool
        ensures { result ≡ not (list_any (λ bit. bit) (Self.shows self.now).bits) }
    {
        !self.any()
    }

    /// Whether some bit is 0. An empty view has none.
    final fn not_all(&self) -> bool
        ensures { result ≡ not (list_all (λ bit. bit) (Self.shows self.now).bits) }
    {
        !self.all()
    }

    /// Whether some bit is 1 and some bit is 0.
    ///
    /// ```
    /// bits.windows(2).filter(|pair| pair.some()).count()
    /// ```
    final fn some(&self) -> bool
        ensures { result ≡ (list_any (λ bit. bit) (Self.shows self.now).bits && not (list_all (λ bit. bit) (Self.shows self.now).bits)) }
    {
        self.any() && self.not_all()
    }

    /// Whether the other view has the same bits: `bitvec`'s `==`, which compares views of any types.
    ///
    /// ```
    /// let view = BitSlice::<u8, Lsb0>::from_slice(&[0x21]);
    /// assert!(rt; view.eq_bits(BitSlice::<u8, Msb0>::from_slice(&[0x84])));
    /// ```
    final fn eq_bits<'b, U: BitStore, P: BitOrder>(&self, other: BitSlice<'b, U, P>) -> bool
        ensures { result ≡ same_bits (Self.shows self.now).bits (seen other.entry).bits }
    {
        let view = self.as_bitslice();
        eq_in::<T, O, U, P>(
            view.elements(),
            view.window(),
            other.elements(),
            other.window(),
        )
    }

    /// How the bits compare with the other view's, in the order of lists of truth values:
    /// `bitvec`'s `partial_cmp`, which always has an answer.
    final fn cmp_bits<'b, U: BitStore, P: BitOrder>(&self, other: BitSlice<'b, U, P>) -> Ordering
        ensures { result ≡ slice_cmp bool_cmp (Self.shows self.now).bits (seen other.entry).bits }
    {
        let view = self.as_bitslice();
        compare_in::<T, O, U, P>(
            view.elements(),
            view.window(),
            other.elements(),
            other.window(),
        )
    }

    /// Whether the bits begin with the needle's. They always begin with an empty one.
    final fn starts_with<'b, U: BitStore, P: BitOrder>(&self, needle: BitSlice<'b, U, P>) -> bool
        ensures { result ≡ is_prefix (seen needle.entry).bits (Self.shows self.now).bits }
    {
        let view = self.as_bitslice();
        starts_with_in::<T, O, U, P>(
            view.elements(),
            view.window(),
            needle.elements(),
            needle.window(),
        )
    }

    /// Whether the bits end with the needle's. They always end with an empty one.
    final fn ends_with<'b, U: BitStore, P: BitOrder>(&self, needle: BitSlice<'b, U, P>) -> bool
        ensures { result ≡ is_suffix (seen needle.entry).bits (Self.shows self.now).bits }
    {
        let view = self.as_bitslice();
        ends_with_in::<T, O, U, P>(
            view.elements(),
            view.window(),
            needle.elements(),
            needle.window(),
        )
    }

    /// Whether the needle's bits occur in these, from some index on; those of an empty needle
    /// always do.
    final fn contains<'b, U: BitStore, P: BitOrder>(&self, needle: BitSlice<'b, U, P>) -> bool
        ensures { result ≡ stands_in (seen needle.entry).bits (Self.shows self.now).bits }
    {
        let view = self.as_bitslice();
        contains_in::<T, O, U, P>(
            view.elements(),
            view.window(),
            needle.elements(),
            needle.window(),
        )
    }
}
