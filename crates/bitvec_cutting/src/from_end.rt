//! Chunks from the last bit on.
ghost use Rattle.std.specs.Prelude.{◌≡◌, ◌<◌, ⊤};
ghost use Rattle.bitvec_cutting.specs.Cutting.{back_chunk, chunk_count, left_before, whole_count};
ghost use Rattle.bitvec_cutting.specs.CuttingLaws.{back_inside, before_inside, few_chunks, few_whole};

use crate::{Cutting, ExactCutting};
use std::alloc::AllocError;
use std::ops::Range;

/// Chunks of a size from the last bit on, of which the last, at the start, may be shorter.
pub struct InChunksFromEnd {
    /// How many bits each chunk has but the last.
    pub size: usize,
    ghost some: { 0 < size },
}

impl Copy for InChunksFromEnd {}

impl Clone for InChunksFromEnd {
    ghost is_clone = { λ x y. y ≡ x };

    ghost is_infallible = { λ _. ⊤ };

    fn clone(&self) -> Result<Self, AllocError> {
        Ok(*self)
    }
}

impl Cutting for InChunksFromEnd {
    ghost pieces = { λ cutting. chunk_count cutting.size };

    ghost place = { λ cutting. back_chunk cutting.size };

    fn count(&self, len: usize) -> usize {
        len.div_ceil(self.size)
    }

    fn piece(&self, len: usize, number: usize) -> Range<usize> {
        let end = len - number * self.size;
        end.saturating_sub(self.size)..end
    }

    ghost inside = { λ cutting len number _. back_inside cutting.size len cutting.some number };

    ghost few = { λ cutting len. few_chunks cutting.size len cutting.some };
}

/// The whole chunks of a size from the last bit on; those before them are left over.
pub struct InExactChunksFromEnd {
    /// How many bits each chunk has.
    pub size: usize,
    ghost some: { 0 < size },
}

impl Copy for InExactChunksFromEnd {}

impl Clone for InExactChunksFromEnd {
    ghost is_clone = { λ x y. y ≡ x };

    ghost is_infallible = { λ _. ⊤ };

    fn clone(&self) -> Result<Self, AllocError> {
        Ok(*self)
    }
}

impl Cutting for InExactChunksFromEnd {
    ghost pieces = { λ cutting. whole_count cutting.size };

    ghost place = { λ cutting. back_chunk cutting.size };

    fn count(&self, len: usize) -> usize {
        len / self.size
    }

    fn piece(&self, len: usize, number: usize) -> Range<usize> {
        let end = len - number * self.size;
        end - self.size..end
    }

    ghost inside = { λ cutting len number _. back_inside cutting.size len cutting.some number };

    ghost few = { λ cutting len. few_whole cutting.size len cutting.some };
}

impl ExactCutting for InExactChunksFromEnd {
    ghost left_over = { λ cutting. left_before cutting.size };

    fn remainder(&self, len: usize) -> Range<usize> {
        0..len % self.size
    }

    ghost rest_inside = { λ cutting len. before_inside cutting.size len cutting.some };
}
