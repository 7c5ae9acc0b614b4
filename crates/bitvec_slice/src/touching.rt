//! Which elements of a memory bits touch.
ghost use Rattle.std.specs.Prelude.{◌≡◌, ◌+◌, ◌-◌, ◌*◌, ◌%◌, ◌≤◌};
ghost use Rattle.bitvec_base.specs.Window.{max_bits};
ghost use Rattle.bitvec_slice.specs.Touched.{IsTouchedPart, end_touched, first_touched};

use bitvec_base::Window;
use bitvec_store::BitStore;
use std::ops::Range;

/// At which bit of its element a place is, for crates above. `bitvec` has no such call.
pub fn phase_of<T: BitStore>(place: usize) -> usize
    ensures { result ≡ place % T.BITS }
{
    place % T::BITS as usize
}

/// The elements that the places from `start` up to `end` touch, for crates above. Condition:
/// `start <= end`. `bitvec` has no such call.
pub fn touched_range<T: BitStore>(start: usize, end: usize) -> Range<usize>
    requires { start ≤ end }
    ensures first { result.start ≡ first_touched T.BITS start }
    ensures end { result.end ≡ end_touched T.BITS end }
    ensures order { result.start ≤ result.end }
    ensures holds { start % T.BITS + (end - start) ≤ T.BITS * (result.end - result.start) }
{
    let bits = T::BITS as usize;
    start / bits..end.div_ceil(bits)
}

/// Where a range of a view's bits lies among the view's elements, for crates above. `bitvec` has no such type.
#[doc(hidden)]
#[derive(Clone, Copy)]
pub struct TouchedPart {
    /// The first element that the range touches.
    pub first: usize,
    /// The end of the elements that it touches.
    pub end: usize,
    /// The index of its first bit in the first of them.
    pub head: usize,
    /// How many bits it has.
    pub len: usize,
}

/// Where the bits from `from` up to `to` of a window of `count` elements lie, for crates above. Conditions: the elements have the
/// window, and are at most `MAX_BITS` bits; `from <= to <= len`. `bitvec` has no such call.
pub fn touched_part<T: BitStore>(
    count: usize,
    window: Window,
    from: usize,
    to: usize,
) -> TouchedPart
    requires inside { window.start + window.len ≤ T.BITS * count }
    requires fits { T.BITS * count ≤ max_bits }
    requires order { from ≤ to }
    requires bound { to ≤ window.len }
    ensures order { result.first ≤ result.end }
    ensures bound { result.end ≤ count }
    ensures part { IsTouchedPart T.BITS count window from to result }
{
    let start = window.start + from;
    let touched = touched_range::<T>(start, window.start + to);
    TouchedPart {
        first: touched.start,
        end: touched.end,
        head: phase_of::<T>(start),
        len: to - from,
    }
}
