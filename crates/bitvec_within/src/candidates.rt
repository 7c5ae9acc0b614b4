//! Where a needle's bits may occur among others, 64 indices at a time.
ghost use Rattle.std.specs.Prelude.{◌≡◌, ℕ, ◌<◌, ◌≤◌, false, slice_index_or, true};
ghost use Rattle.bitvec_base.specs.Memory.{element_bits};
ghost use Rattle.bitvec_within.specs.Candidates.{HasStarts};

use crate::tuning::PASSES_PER_TEST;
use bitvec_base::BitOrder;
use bitvec_words::{WordOrder, joined, toward_start};

/// A word with a 1 at each of 64 indices from which two words side by side have the first `count`
/// bits of the needle. Condition: `count` is at most 64.
#[inline(always)]
pub(crate) fn candidates<W: WordOrder>(low: u64, high: u64, needle: u64, count: usize) -> u64
    requires { count ≤ 64 }
    ensures { HasStarts W.at low high needle count result }
{
    if count < PASSES_PER_TEST {
        return few_candidates::<W>(low, high, needle, count);
    }
    let starts = few_candidates::<W>(low, high, needle, PASSES_PER_TEST);
    if starts == 0 {
        return starts;
    }
    candidates_by_groups::<W>(low, high, needle, count)
}

/// As [`candidates`], for the few words at which a place is left after [`PASSES_PER_TEST`] bits. It is not
/// inlined, so that the search has few values to keep.
#[inline(never)]
fn candidates_by_groups<W: WordOrder>(low: u64, high: u64, needle: u64, count: usize) -> u64
    requires { count ≤ 64 }
    ensures { HasStarts W.at low high needle count result }
{
    let mut starts = u64::MAX;
    let (mut front, mut behind, mut wanted) = (low, high, needle);
    let mut step = 0;
    while step + PASSES_PER_TEST <= count {
        starts &= few_candidates::<W>(front, behind, wanted, PASSES_PER_TEST);
        if starts == 0 {
            return starts;
        }
        front = joined::<W, u64>(front, behind, PASSES_PER_TEST);
        behind = toward_start::<W, u64>(behind, PASSES_PER_TEST);
        wanted = toward_start::<W, u64>(wanted, PASSES_PER_TEST);
        step += PASSES_PER_TEST;
    }
    starts & few_candidates::<W>(front, behind, wanted, count - step)
}

/// As [`candidates`], with no test in between. Condition: `count` is below 64.
#[inline(always)]
fn few_candidates<W: WordOrder>(low: u64, high: u64, needle: u64, count: usize) -> u64
    requires { count < 64 }
    ensures { HasStarts W.at low high needle count result }
{
    let mut starts = u64::MAX;
    let (mut front, mut wanted) = (low, needle);
    for step in 0..count {
        starts &= alike::<W>(front, wanted);
        front = joined::<W, u64>(low, high, step + 1);
        wanted = toward_start::<W, u64>(needle, step + 1);
    }
    starts
}

/// A word with a 1 for each bit that equals the first bit of another.
#[inline(always)]
fn alike<W: BitOrder>(bits: u64, wanted: u64) -> u64
    ensures { (i : ℕ) → i < 64 → slice_index_or (element_bits 64 W.at bits) i false ≡ slice_index_or (element_bits 64 W.at wanted) 0 false
        → slice_index_or (element_bits 64 W.at result) i false ≡ true }
{
    if wanted & W::select::<u64>(0) == 0 {
        return !bits;
    }
    bits
}
