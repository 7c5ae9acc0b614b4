//! Indices of a view, and ranges of them, by which it lends its bits.
ghost use Rattle.std.specs.Prelude.{◌≡◌, ℕ, ◌+◌, Bool, ◌&&◌, IsTrue, nat_le, nat_lt, true};
ghost use Rattle.std.specs.Range.{range_inclusive_start, range_inclusive_end};
ghost use Rattle.std.specs.declared.ops.Range.{Range as Places};

use std::ops::{Range, RangeFrom, RangeFull, RangeInclusive, RangeTo, RangeToInclusive};

/// An index of a view, or a range of its indices, in bits, for [`crate::BitSliceMut::get_lent`]: the types are
/// those of [`crate::BitSliceIndex`]. `bitvec` has no such trait.
pub trait LentIndex: Sized + Drop {
    ghost use Rattle.bitvec_slice.specs.Indices.{HasRange};

    // Whether a view of so many bits has it.
    ghost lies: { Self → ℕ → Bool };

    // The range of its bits in such a view.
    ghost range: { Self → ℕ → Places ℕ };

    /// Whether a view of so many bits has it.
    fn lies_in(&self, len: usize) -> bool
        ensures { result ≡ lies self.now len };

    /// The range of its bits in a view of so many. Condition: the view has it.
    fn bits_in(self, len: usize) -> Range<usize>
        requires { IsTrue (lies self len) }
        ensures value { result ≡ range self len }
        ensures inside { HasRange result len };
}

impl LentIndex for usize {
    ghost lies = { nat_lt };

    ghost range = { λ index len. record { start = index; end = index + 1 } };

    fn lies_in(&self, len: usize) -> bool {
        *self < len
    }

    fn bits_in(self, _len: usize) -> Range<usize> {
        self..self + 1
    }
}

impl LentIndex for Range<usize> {
    ghost lies = { λ range len. nat_le range.start range.end && nat_le range.end len };

    ghost range = { λ range len. range };

    fn lies_in(&self, len: usize) -> bool {
        self.start <= self.end && self.end <= len
    }

    fn bits_in(self, _len: usize) -> Range<usize> {
        self
    }
}

impl LentIndex for RangeFrom<usize> {
    ghost lies = { λ range len. nat_le range.start len };

    ghost range = { λ range len. record { start = range.start; end = len } };

    fn lies_in(&self, len: usize) -> bool {
        self.start <= len
    }

    fn bits_in(self, len: usize) -> Range<usize> {
        self.start..len
    }
}

impl LentIndex for RangeTo<usize> {
    ghost lies = { λ range len. nat_le range.end len };

    ghost range = { λ range len. record { start = 0; end = range.end } };

    fn lies_in(&self, len: usize) -> bool {
        self.end <= len
    }

    fn bits_in(self, _len: usize) -> Range<usize> {
        0..self.end
    }
}

impl LentIndex for RangeFull {
    ghost lies = { λ range len. true };

    ghost range = { λ range len. record { start = 0; end = len } };

    fn lies_in(&self, _len: usize) -> bool {
        true
    }

    fn bits_in(self, len: usize) -> Range<usize> {
        0..len
    }
}

impl LentIndex for RangeInclusive<usize> {
    ghost lies = { λ range len. nat_le (range_inclusive_start range) (range_inclusive_end range) && nat_lt (range_inclusive_end range) len };

    ghost range = { λ range len. record { start = range_inclusive_start range; end = range_inclusive_end range + 1 } };

    fn lies_in(&self, len: usize) -> bool {
        *self.start() <= *self.end() && *self.end() < len
    }

    fn bits_in(self, _len: usize) -> Range<usize> {
        let (first, last) = self.into_inner();
        first..last + 1
    }
}

impl LentIndex for RangeToInclusive<usize> {
    ghost lies = { λ range len. nat_lt range.end len };

    ghost range = { λ range len. record { start = 0; end = range.end + 1 } };

    fn lies_in(&self, len: usize) -> bool {
        self.end < len
    }

    fn bits_in(self, _len: usize) -> Range<usize> {
        0..self.end + 1
    }
}
