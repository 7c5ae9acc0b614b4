//! Chunks from the first bit on.
ghost use Rattle.std.specs.Prelude.{◌≡◌, ◌<◌, ⊤};
ghost use Rattle.bitvec_cutting.specs.Cutting.{chunk, chunk_count, left_behind, whole_chunk, whole_count};
ghost use Rattle.bitvec_cutting.specs.CuttingLaws.{behind_inside, chunk_inside, few_chunks, few_whole, whole_inside};

use crate::{Cutting, ExactCutting};
use std::alloc::AllocError;
use std::ops::Range;

/// Chunks of a size from the first bit on, of which the last may be shorter.
pub struct InChunks {
    /// How many bits each chunk has but the last.
    pub size: usize,
    ghost some: { 0 < size },
}

impl Copy for InChunks {}

impl Clone for InChunks {
    ghost is_clone = { λ x y. y ≡ x };

    ghost is_infallible = { λ _. ⊤ };

    fn clone(&self) -> Result<Self, AllocError> {
        Ok(*self)
    }
}

impl Cutting for InChunks {
    ghost pieces = { λ cutting. chunk_count cutting.size };

    ghost place = { λ cutting. chunk cutting.size };

    fn count(&self, len: usize) -> usize {
        len.div_ceil(self.size)
    }

    #[tactic(auto, using(crate::specs::CuttingLaws::begins))]
    fn piece(&self, len: usize, number: usize) -> Range<usize> {
        let start = number * self.size;
        // Apart, so that the compiler takes the last chunk out of a walk's loop, and knows the length of the others there;
        // by `min`, so that it has a bound of the last one's too.
        if number == self.count(len) - 1 {
            start..start + self.size.min(len - start)
        } else {
            start..start + self.size
        }
    }

    ghost inside = { λ cutting len number below. chunk_inside cutting.size len cutting.some number below };

    ghost few = { λ cutting len. few_chunks cutting.size len cutting.some };
}

/// The whole chunks of a size from the first bit on; those behind them are left over.
pub struct InExactChunks {
    /// How many bits each chunk has.
    pub size: usize,
    ghost some: { 0 < size },
}

impl Copy for InExactChunks {}

impl Clone for InExactChunks {
    ghost is_clone = { λ x y. y ≡ x };

    ghost is_infallible = { λ _. ⊤ };

    fn clone(&self) -> Result<Self, AllocError> {
        Ok(*self)
    }
}

impl Cutting for InExactChunks {
    ghost pieces = { λ cutting. whole_count cutting.size };

    ghost place = { λ cutting. whole_chunk cutting.size };

    fn count(&self, len: usize) -> usize {
        len / self.size
    }

    fn piece(&self, _len: usize, number: usize) -> Range<usize> {
        let start = number * self.size;
        start..start + self.size
    }

    ghost inside = { λ cutting len number below. whole_inside cutting.size len cutting.some number below };

    ghost few = { λ cutting len. few_whole cutting.size len cutting.some };
}

impl ExactCutting for InExactChunks {
    ghost left_over = { λ cutting. left_behind cutting.size };

    fn remainder(&self, len: usize) -> Range<usize> {
        len - len % self.size..len
    }

    ghost rest_inside = { λ cutting len. behind_inside cutting.size len cutting.some };
}
