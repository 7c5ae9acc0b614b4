//! The first part of a window whose place is known, so that the machine code has no division, and where the bits of a
//! part stand in the window's number.
ghost use Rattle.std.specs.Prelude.{◌≡◌, ◌+◌, ◌*◌, ◌/◌, ◌%◌, ◌^◌, ◌<◌, ◌≤◌, if◌then◌else◌, IsTrue, ◌↔◌};
ghost use Rattle.bitvec_base.specs.Parts.{first_part_of};
ghost use Rattle.bitvec_cells.specs.Cost.{touched_count};

use bitvec_base::{Part, Window};
use bitvec_store::BitStore;

/// The first part of a window that begins at the index `from` of the element `element`. Condition: the window's end is
/// a `usize`.
#[inline(always)]
pub(crate) fn part_at<T: BitStore>(window: Window, element: usize, from: usize) -> Part
    requires element { element ≡ window.start / T.BITS }
    requires from { from ≡ window.start % T.BITS }
    requires end { window.start + window.len < 2 ^ 64 }
    ensures { result ≡ first_part_of T.BITS window }
{
    let to = (T::BITS as usize).min(from + window.len);
    Part { element, from, to }
}

/// [`part_at`] without a minimum. Condition: the window ends in its first element.
#[inline(always)]
pub(crate) fn only_part_at<T: BitStore>(window: Window, element: usize, from: usize) -> Part
    requires element { element ≡ window.start / T.BITS }
    requires from { from ≡ window.start % T.BITS }
    requires inside { from + window.len ≤ T.BITS }
    ensures { result ≡ first_part_of T.BITS window }
{
    let to = from + window.len;
    Part { element, from, to }
}

/// [`part_at`] without a minimum. Condition: the window reaches the end of its first element.
#[inline(always)]
pub(crate) fn full_part_at<T: BitStore>(window: Window, element: usize, from: usize) -> Part
    requires element { element ≡ window.start / T.BITS }
    requires from { from ≡ window.start % T.BITS }
    requires reaches { T.BITS ≤ from + window.len }
    ensures { result ≡ first_part_of T.BITS window }
{
    let to = T::BITS as usize;
    Part { element, from, to }
}

/// Whether a window is `count` whole elements of type `T`. Condition: `count` is at most 8.
#[inline(always)]
pub(crate) fn is_whole<T: BitStore>(window: Window, count: usize) -> bool
    requires { count ≤ 8 }
    ensures is { IsTrue result ↔ (window.start % T.BITS ≡ 0) × (window.len ≡ count * T.BITS) }
    ensures touched { IsTrue result → touched_count T.BITS window.start window.len ≡ count }
{
    window.phase::<T>() == 0 && window.len == count * T::BITS as usize
}

/// How many bits of a number are lower than those of a part of it that has so many bits before it and
/// behind it.
#[inline(always)]
pub(crate) fn lower_bits<const BIG: bool>(before: usize, behind: usize) -> usize
    ensures bits { result ≡ (if BIG then behind else before) }
    ensures most { result ≤ before + behind }
{
    if BIG { behind } else { before }
}
