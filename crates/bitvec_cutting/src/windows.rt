//! Overlapping windows.
ghost use Rattle.std.specs.Prelude.{◌≡◌, ◌<◌, ⊤};
ghost use Rattle.bitvec_cutting.specs.Cutting.{window, window_count};
ghost use Rattle.bitvec_cutting.specs.CuttingLaws.{few_windows, window_inside};

use crate::Cutting;
use std::alloc::AllocError;
use std::ops::Range;

/// The windows of a size, each one bit behind the one before it.
pub struct InWindows {
    /// How many bits each window has.
    pub size: usize,
    ghost some: { 0 < size },
}

impl Copy for InWindows {}

impl Clone for InWindows {
    ghost is_clone = { λ x y. y ≡ x };

    ghost is_infallible = { λ _. ⊤ };

    fn clone(&self) -> Result<Self, AllocError> {
        Ok(*self)
    }
}

impl Cutting for InWindows {
    ghost pieces = { λ cutting. window_count cutting.size };

    ghost place = { λ cutting. window cutting.size };

    fn count(&self, len: usize) -> usize {
        if self.size <= len {
            len - self.size + 1
        } else {
            0
        }
    }

    fn piece(&self, _len: usize, number: usize) -> Range<usize> {
        number..number + self.size
    }

    ghost inside = { λ cutting len number below. window_inside cutting.size len cutting.some number below };

    ghost few = { λ cutting len. few_windows cutting.size len cutting.some };
}
