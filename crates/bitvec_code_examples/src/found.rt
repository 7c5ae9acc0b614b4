//! What a caller knows of a bit that was looked for in a range of an array.
ghost use Rattle.std.specs.Prelude.{◌≡◌, ◌≢◌, ℕ, ◌<◌, ◌≤◌, IfNone, IfSome, false, slice_index_or, true};
ghost use Rattle.bitvec.specs.Arrays.{lsb0_bits};

use bitvec::in_place;
use bitvec::prelude::*;

/// A map of 256 places, a bit each; 1 is taken.
#[derive(Drop)]
pub struct Places {
    words: [u64; 4],
}

impl Places {
    /// The first place from one on that is free.
    #[tactic(auto, using(bitvec::specs::Laws::found, bitvec::specs::Laws::sized))]
    pub fn first_free(&self, from: usize) -> Option<usize>
        requires { from ≤ 256 }
        ensures below { IfSome result (λ place. place < 256) }
        ensures free { IfSome result (λ place. slice_index_or (lsb0_bits 64 self.now.words) place false ≡ false) }
        ensures before { IfSome result (λ place. (k : ℕ) → from ≤ k → k < place → slice_index_or (lsb0_bits 64 self.now.words) k false ≢ false) }
        ensures none { IfNone result ((k : ℕ) → from ≤ k → k < 256 → slice_index_or (lsb0_bits 64 self.now.words) k false ≢ false) }
    {
        let index = in_place::first_zero::<u64, Lsb0>(&self.words, from..256)?;
        Some(from + index)
    }

    /// The last place before one that is taken.
    #[tactic(auto, using(bitvec::specs::Laws::found, bitvec::specs::Laws::sized))]
    pub fn last_taken(&self, end: usize) -> Option<usize>
        requires { end ≤ 256 }
        ensures below { IfSome result (λ place. place < end) }
        ensures taken { IfSome result (λ place. slice_index_or (lsb0_bits 64 self.now.words) place false ≡ true) }
        ensures after { IfSome result (λ place. (k : ℕ) → place < k → k < end → slice_index_or (lsb0_bits 64 self.now.words) k false ≢ true) }
        ensures none { IfNone result ((k : ℕ) → k < end → slice_index_or (lsb0_bits 64 self.now.words) k false ≢ true) }
    {
        in_place::last_one::<u64, Lsb0>(&self.words, 0..end)
    }
}

#[test]
fn places_are_found(rt: HostRuntime) {
    let places = Places {
        words: [u64::MAX, 0b1011, 0, 0],
    };
    assert!(rt; places.first_free(0) == Some(66) && places.first_free(67) == Some(68));
    assert!(rt; places.last_taken(256) == Some(67) && places.last_taken(0).is_none());
}
