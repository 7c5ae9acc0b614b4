//! Whole elements of one memory beside as many bits of another.
ghost use Rattle.std.specs.Prelude.{◌≡◌, ◌+◌, ◌^◌, ◌<◌};
ghost use Rattle.bitvec_words.specs.Moves.{stretch_of, stretch_part};

use bitvec_base::{Window, elements_of};
use bitvec_store::BitStore;

/// As many bits of two memories as `count` elements have: whole elements from `first` on in the one, and bits from the
/// index `skip` of the element `source` on in the other, which may be the same one.
#[derive(Clone, Copy)]
pub struct Stretch {
    /// The first of the whole elements.
    pub first: usize,
    /// The element that has the first bit in the other memory.
    pub source: usize,
    /// That bit's index in its element, below the width.
    pub skip: usize,
    /// How many elements.
    pub count: usize,
}

impl Stretch {
    /// The whole elements of a window, and as many bits from another one's first bit on.
    #[inline(always)]
    pub fn of<T: BitStore>(to: Window, from: Window) -> Stretch
        ensures { result ≡ stretch_of T.BITS to from }
    {
        Stretch {
            first: to.element::<T>(),
            source: from.element::<T>(),
            skip: from.phase::<T>(),
            count: elements_of::<T>(to.len),
        }
    }

    /// `count` of the elements, behind `passed` others.
    #[inline(always)]
    pub fn part(self, passed: usize, count: usize) -> Stretch
        requires first { self.first + passed < 2 ^ 64 }
        requires source { self.source + passed < 2 ^ 64 }
        ensures { result ≡ stretch_part passed count self }
    {
        Stretch {
            first: self.first + passed,
            source: self.source + passed,
            count,
            ..self
        }
    }
}
