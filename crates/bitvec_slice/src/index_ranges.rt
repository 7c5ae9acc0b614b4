//! Ranges of indices of a view.
ghost use Rattle.std.specs.Prelude.{◌+◌, ◌<◌, ◌≤◌, ⊤};
ghost use Rattle.std.specs.Range.{range_inclusive_start, range_inclusive_end};

use crate::{BitSlice, BitSliceIndex, BitSliceMut};
use bitvec_base::BitOrder;
use bitvec_store::BitStore;
use std::ops::{Range, RangeFrom, RangeFull, RangeInclusive, RangeTo, RangeToInclusive};

impl<'a, T: BitStore + 'a, O: BitOrder> BitSliceIndex<BitSlice<'a, T, O>> for Range<usize> {
    ghost use Rattle.bitvec_slice.specs.Indices.{HasRange};
    ghost use Rattle.bitvec_slice.specs.Views.{seen, seen_mut};
    ghost use Rattle.bitvec_slice.specs.Seen.{IsRangeOf};

    type Immut = BitSlice<'a, T, O>;

    type Mut = BitSliceMut<'a, T, O>;

    ghost fits = { HasRange };

    ghost gives = { λ range view part. IsRangeOf T.BITS view range.start range.end (seen part) };

    ghost gives_mut = { λ range view part. IsRangeOf T.BITS view range.start range.end (seen_mut part) };

    fn fits(&self, len: usize) -> bool {
        self.start <= self.end && self.end <= len
    }

    fn index(self, bits: BitSlice<'a, T, O>) -> BitSlice<'a, T, O> {
        bits.into_part(self)
    }

    fn index_mut(self, bits: BitSliceMut<'a, T, O>) -> BitSliceMut<'a, T, O> {
        bits.into_part(self)
    }
}

impl<'a, T: BitStore + 'a, O: BitOrder> BitSliceIndex<BitSlice<'a, T, O>> for RangeFrom<usize> {
    ghost use Rattle.bitvec_slice.specs.Views.{seen, seen_mut};
    ghost use Rattle.bitvec_slice.specs.Seen.{IsRangeOf};

    type Immut = BitSlice<'a, T, O>;

    type Mut = BitSliceMut<'a, T, O>;

    ghost fits = { λ range len. range.start ≤ len };

    ghost gives = { λ range view part. IsRangeOf T.BITS view range.start view.window.len (seen part) };

    ghost gives_mut = { λ range view part. IsRangeOf T.BITS view range.start view.window.len (seen_mut part) };

    fn fits(&self, len: usize) -> bool {
        self.start <= len
    }

    fn index(self, bits: BitSlice<'a, T, O>) -> BitSlice<'a, T, O> {
        let end = bits.len();
        bits.into_part(self.start..end)
    }

    fn index_mut(self, bits: BitSliceMut<'a, T, O>) -> BitSliceMut<'a, T, O> {
        let end = bits.len();
        bits.into_part(self.start..end)
    }
}

impl<'a, T: BitStore + 'a, O: BitOrder> BitSliceIndex<BitSlice<'a, T, O>> for RangeTo<usize> {
    ghost use Rattle.bitvec_slice.specs.Views.{seen, seen_mut};
    ghost use Rattle.bitvec_slice.specs.Seen.{IsRangeOf};

    type Immut = BitSlice<'a, T, O>;

    type Mut = BitSliceMut<'a, T, O>;

    ghost fits = { λ range len. range.end ≤ len };

    ghost gives = { λ range view part. IsRangeOf T.BITS view 0 range.end (seen part) };

    ghost gives_mut = { λ range view part. IsRangeOf T.BITS view 0 range.end (seen_mut part) };

    fn fits(&self, len: usize) -> bool {
        self.end <= len
    }

    fn index(self, bits: BitSlice<'a, T, O>) -> BitSlice<'a, T, O> {
        bits.into_part(0..self.end)
    }

    fn index_mut(self, bits: BitSliceMut<'a, T, O>) -> BitSliceMut<'a, T, O> {
        bits.into_part(0..self.end)
    }
}

impl<'a, T: BitStore + 'a, O: BitOrder> BitSliceIndex<BitSlice<'a, T, O>> for RangeFull {
    ghost use Rattle.bitvec_slice.specs.Views.{seen, seen_mut};
    ghost use Rattle.bitvec_slice.specs.Seen.{IsRangeOf};

    type Immut = BitSlice<'a, T, O>;

    type Mut = BitSliceMut<'a, T, O>;

    ghost fits = { λ _ _. ⊤ };

    ghost gives = { λ _ view part. IsRangeOf T.BITS view 0 view.window.len (seen part) };

    ghost gives_mut = { λ _ view part. IsRangeOf T.BITS view 0 view.window.len (seen_mut part) };

    fn fits(&self, _len: usize) -> bool {
        true
    }

    fn index(self, bits: BitSlice<'a, T, O>) -> BitSlice<'a, T, O> {
        let end = bits.len();
        bits.into_part(0..end)
    }

    fn index_mut(self, bits: BitSliceMut<'a, T, O>) -> BitSliceMut<'a, T, O> {
        let end = bits.len();
        bits.into_part(0..end)
    }
}

impl<'a, T: BitStore + 'a, O: BitOrder> BitSliceIndex<BitSlice<'a, T, O>>
    for RangeInclusive<usize> {
    ghost use Rattle.bitvec_slice.specs.Indices.{HasInclusive};
    ghost use Rattle.bitvec_slice.specs.Views.{seen, seen_mut};
    ghost use Rattle.bitvec_slice.specs.Seen.{IsRangeOf};

    type Immut = BitSlice<'a, T, O>;

    type Mut = BitSliceMut<'a, T, O>;

    ghost fits = { HasInclusive };

    ghost gives = { λ range view part. IsRangeOf T.BITS view (range_inclusive_start range) (range_inclusive_end range + 1) (seen part) };

    ghost gives_mut = { λ range view part. IsRangeOf T.BITS view (range_inclusive_start range) (range_inclusive_end range + 1) (seen_mut part) };

    fn fits(&self, len: usize) -> bool {
        *self.start() <= *self.end() && *self.end() < len
    }

    fn index(self, bits: BitSlice<'a, T, O>) -> BitSlice<'a, T, O> {
        let (first, last) = self.into_inner();
        bits.into_part(first..last + 1)
    }

    fn index_mut(self, bits: BitSliceMut<'a, T, O>) -> BitSliceMut<'a, T, O> {
        let (first, last) = self.into_inner();
        bits.into_part(first..last + 1)
    }
}

impl<'a, T: BitStore + 'a, O: BitOrder> BitSliceIndex<BitSlice<'a, T, O>>
    for RangeToInclusive<usize> {
    ghost use Rattle.bitvec_slice.specs.Views.{seen, seen_mut};
    ghost use Rattle.bitvec_slice.specs.Seen.{IsRangeOf};

    type Immut = BitSlice<'a, T, O>;

    type Mut = BitSliceMut<'a, T, O>;

    ghost fits = { λ range len. range.end < len };

    ghost gives = { λ range view part. IsRangeOf T.BITS view 0 (range.end + 1) (seen part) };

    ghost gives_mut = { λ range view part. IsRangeOf T.BITS view 0 (range.end + 1) (seen_mut part) };

    fn fits(&self, len: usize) -> bool {
        self.end < len
    }

    fn index(self, bits: BitSlice<'a, T, O>) -> BitSlice<'a, T, O> {
        bits.into_part(0..self.end + 1)
    }

    fn index_mut(self, bits: BitSliceMut<'a, T, O>) -> BitSliceMut<'a, T, O> {
        bits.into_part(0..self.end + 1)
    }
}
