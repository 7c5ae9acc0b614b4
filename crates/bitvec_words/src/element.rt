//! The bits of one element, moved and joined many at a time.
ghost use Rattle.std.specs.Prelude.{◌≡◌, ◌<◌, ◌≤◌, ◌++◌, take, drop, reverse, slice_range};
ghost use Rattle.bitvec_base.specs.Lists.{shifted_end, shifted_start};
ghost use Rattle.bitvec_base.specs.Memory.{element_bits};
ghost use Rattle.bitvec_base.specs.Window.{write_at};
ghost use Rattle.bitvec_words.specs.Exchanged.{exchanged_bits};

use crate::WordOrder;
use bitvec_base::BitOrder;
use bitvec_store::BitStore;

/// The element whose bits stand `by` places nearer to its start, with zeros at the end. Condition: `by` is below
/// the width. Cost: one shift.
pub fn toward_start<O: WordOrder, T: BitStore>(element: T, by: usize) -> T
    requires { by < T.BITS }
    ensures { element_bits T.BITS O.at (T.value result)
        ≡ shifted_start by (element_bits T.BITS O.at (T.value element)) }
{
    if O::HIGH {
        return element.shl(by as u32);
    }
    element.in_range();
    element.shr(by as u32)
}

/// The element whose bits stand `by` places nearer to its end, with zeros at the start. Condition: `by` is below
/// the width. Cost: one shift.
pub fn toward_end<O: WordOrder, T: BitStore>(element: T, by: usize) -> T
    requires { by < T.BITS }
    ensures { element_bits T.BITS O.at (T.value result)
        ≡ shifted_end by (element_bits T.BITS O.at (T.value element)) }
{
    if O::HIGH {
        element.in_range();
        return element.shr(by as u32);
    }
    element.shl(by as u32)
}

/// The element that stands `skip` bits into two elements side by side: the bits of `first` from index `skip` on,
/// and then the first `skip` bits of `second`. Condition: `skip` is above 0 and below the width. Cost: two shifts.
pub fn joined<O: WordOrder, T: BitStore>(first: T, second: T, skip: usize) -> T
    requires some { 0 < skip }
    requires bound { skip < T.BITS }
    ensures { element_bits T.BITS O.at (T.value result)
        ≡ drop skip (element_bits T.BITS O.at (T.value first))
        ++ take skip (element_bits T.BITS O.at (T.value second)) }
{
    // by `xor`: an `or` of such shifts is compiled to a slow double shift
    let carried = toward_end::<O, T>(second, T::BITS as usize - skip);
    toward_start::<O, T>(first, skip).xor(carried)
}

/// The old element with the bits at the indices from `from` up to, without, `to` taken from the new one. Condition:
/// `from <= to`, and `to` is at most the width. Cost: one mask.
pub fn merged<O: BitOrder, T: BitStore>(old: T, new: T, from: usize, to: usize) -> T
    requires order { from ≤ to }
    requires bound { to ≤ T.BITS }
    ensures { element_bits T.BITS O.at (T.value result)
        ≡ write_at (element_bits T.BITS O.at (T.value old)) from
        (slice_range (element_bits T.BITS O.at (T.value new)) from to) }
{
    let mask = O::mask::<T>(from, to);
    old.and(mask.not()).or(new.and(mask))
}

/// The element with its bits in the reverse order. Cost: for each time that the width can be halved, one exchange
/// of blocks of its bits.
#[inline(always)]
pub fn reversed<O: WordOrder, T: BitStore>(element: T) -> T
    ensures { element_bits T.BITS O.at (T.value result)
        ≡ reverse (element_bits T.BITS O.at (T.value element)) }
{
    let mut mirrored = element;
    // every other block of `size` bits, from the least significant one
    let mut lower = T::ALL;
    let mut size = T::BITS;
    while size > 1 {
        size /= 2;
        lower = lower.xor(lower.shl(size));
        mirrored = exchanged(mirrored, lower, size);
    }
    mirrored
}

/// The element with each bit of `lower` exchanged with the bit `by` places above it. Condition: `by` is below the
/// width.
#[inline(always)]
fn exchanged<T: BitStore>(element: T, lower: T, by: u32) -> T
    requires { by < T.BITS }
    ensures { T.value result ≡ exchanged_bits T.BITS by (T.value lower) (T.value element) }
{
    let moved_down = element.shr(by).and(lower);
    let moved_up = element.and(lower).shl(by);
    moved_down.or(moved_up)
}
