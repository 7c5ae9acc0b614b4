//! Each bit of a range of a window with the one at its index in another range of it. What is met in loops is
//! inlined into the caller, so that each operator has loops of its own.
ghost use Rattle.std.specs.Prelude.{◌≡◌, ◌+◌, ◌-◌, ◌*◌, ◌%◌, ◌^◌, ◌<◌, ◌≤◌, length, map, max};
ghost use Rattle.std.specs.Borrow.{Array, LendsBoth, sem};
ghost use Rattle.bitvec_base.specs.Lists.{FitsWithin};
ghost use Rattle.bitvec_base.specs.Memory.{Edits, HasWindow};
ghost use Rattle.bitvec_words.specs.Operator.{operator};
ghost use Rattle.bitvec_within.specs.Combined.{combined_within};
ghost use Rattle.bitvec_within.specs.Ranges.{AreSides, CombinesRanges, HasRanges, LieInOrder, first_of, joined_sides, rest_of};

use crate::tuning::ASIDE;
use bitvec_base::Window;
use bitvec_elements::combine_block_in;
use bitvec_engine::SliceOrder;
use bitvec_store::BitStore;
use bitvec_words::BitOp;
use std::ops::Range;

/// Two ranges of a memory: `len` bits from `from` on, which are read, and as many from `to` on, which are written.
#[derive(Clone, Copy)]
struct Ranges {
    from: usize,
    to: usize,
    len: usize,
}

impl Ranges {
    /// The first bits of each, and those behind them. Conditions: each has so many, and ends at a `usize`.
    fn split_at(self, count: usize) -> (Ranges, Ranges)
        requires bound { count ≤ self.len }
        requires source { self.from + self.len < 2 ^ 64 }
        requires target { self.to + self.len < 2 ^ 64 }
        ensures { result ≡ (first_of self count, rest_of self count) }
    {
        let (from, to, len) = (self.from + count, self.to + count, self.len - count);
        (Ranges { len: count, ..self }, Ranges { from, to, len })
    }
}

/// Replaces as many bits from `dest` on as a range of a window has: each becomes what the operator makes of
/// it and of the one at its index in the range, as that stood before the call, also where the two overlap.
/// Conditions: the memory has at most `MAX_BITS` bits, the window lies in it, and both the range and what
/// is written lie in the window.
#[inline(always)]
pub fn combine_within_in<T: BitStore, O: SliceOrder>(
    elements: &mut [T],
    window: Window,
    src: Range<usize>,
    dest: usize,
    op: BitOp,
)
    requires window { HasWindow T.BITS (map T.value elements.old) window }
    requires fits { FitsWithin src.start src.end dest window.len }
    ensures writes { Edits T.BITS O.at (map T.value elements.old) (map T.value elements.new) window
        (combined_within (operator op) src.start src.end dest) }
{
    let (from, to) = (window.start + src.start, window.start + dest);
    let len = src.end - src.start;
    let ranges = Ranges { from, to, len };
    let bits = T::BITS as usize;
    if elements.len() >= ASIDE && len % bits != 0 && from % bits + len <= ASIDE * bits {
        combine_aside::<T, O, ASIDE>(elements, ranges, op);
    } else if from + len <= to {
        combine_apart::<T, O, true>(elements, ranges, op);
    } else if to + len <= from {
        combine_apart::<T, O, false>(elements, ranges, op);
    } else {
        combine_overlapping::<T, O>(elements, ranges, op);
    }
}

/// Combines ranges that lie apart. Whole elements of both go by a way of their own.
#[inline(always)]
fn combine_apart<T: BitStore, O: SliceOrder, const LATER: bool>(
    elements: &mut [T],
    ranges: Ranges,
    op: BitOp,
)
    requires ranges { HasRanges T.BITS (map T.value elements.old) ranges }
    requires apart { LieInOrder LATER ranges }
    ensures combines { CombinesRanges T.BITS O.at (map T.value elements.old) (map T.value elements.new) ranges op }
{
    let bits = T::BITS as usize;
    let Ranges { from, to, len } = ranges;
    if len > bits && len % bits == 0 && from % bits == 0 && to % bits == 0 {
        let (from, to, len) = (whole::<T>(from), whole::<T>(to), whole::<T>(len));
        combine_cut::<T, O, LATER>(elements, Ranges { from, to, len }, op);
    } else {
        combine_any::<T, O, LATER>(elements, ranges, op);
    }
}

/// A number of bits of whole elements, computed so that the compiler knows that it is one.
#[inline(always)]
fn whole<T: BitStore>(bits: usize) -> usize
    requires { bits % T.BITS ≡ 0 }
    ensures { result ≡ bits }
{
    let each = T::BITS as usize;
    bits / each * each
}

/// [`combine_apart`] of any bits. It is not inlined, so that loops of whole elements have few values to keep.
#[inline(never)]
fn combine_any<T: BitStore, O: SliceOrder, const LATER: bool>(
    elements: &mut [T],
    ranges: Ranges,
    op: BitOp,
)
    requires ranges { HasRanges T.BITS (map T.value elements.old) ranges }
    requires apart { LieInOrder LATER ranges }
    ensures combines { CombinesRanges T.BITS O.at (map T.value elements.old) (map T.value elements.new) ranges op }
{
    match op {
        BitOp::And => combine_parts::<T, O, LATER>(elements, ranges, BitOp::And),
        BitOp::Or => combine_parts::<T, O, LATER>(elements, ranges, BitOp::Or),
        BitOp::Xor => combine_parts::<T, O, LATER>(elements, ranges, BitOp::Xor),
        BitOp::AndNot => combine_parts::<T, O, LATER>(elements, ranges, BitOp::AndNot),
    }
}

/// [`combine_any`] by an operator that is known at the call. The ranges share one element at most: the bits up to the
/// first edge of the second range are combined first, and then all others as for two memories.
#[inline(always)]
fn combine_parts<T: BitStore, O: SliceOrder, const LATER: bool>(
    elements: &mut [T],
    ranges: Ranges,
    op: BitOp,
)
    requires ranges { HasRanges T.BITS (map T.value elements.old) ranges }
    requires apart { LieInOrder LATER ranges }
    ensures combines { CombinesRanges T.BITS O.at (map T.value elements.old) (map T.value elements.new) ranges op }
{
    let later = ranges.from.max(ranges.to);
    let head = later.next_multiple_of(T::BITS as usize) - later;
    let (first, rest) = ranges.split_at(head.min(ranges.len));
    combine_few::<T, O>(elements, first, op);
    if rest.len > 0 {
        combine_cut::<T, O, LATER>(elements, rest, op);
    }
}

/// The two parts of a memory that is cut at an element: the one that is written, the second where `LATER`, and the other.
#[inline(always)]
fn sides<T: BitStore, const LATER: bool>(elements: &mut [T], cut: usize) -> (&mut [T], &mut [T])
    requires { cut ≤ length elements.old }
    ensures* lends { sem 𝓛 (LendsBoth (Array T.row 0) (Array T.row 0) (Array T.row 0) elements.entry result (joined_sides LATER)) }
    ensures parts { AreSides LATER cut elements.old result.0.now result.1.now }
{
    let (front, rest) = elements.split_at_mut(cut);
    if LATER { (rest, front) } else { (front, rest) }
}

/// [`combine_apart`] where the second range begins an element: the memory is cut there.
#[inline(always)]
fn combine_cut<T: BitStore, O: SliceOrder, const LATER: bool>(
    elements: &mut [T],
    ranges: Ranges,
    op: BitOp,
)
    requires ranges { HasRanges T.BITS (map T.value elements.old) ranges }
    requires apart { LieInOrder LATER ranges }
    requires edge { max ranges.from ranges.to % T.BITS ≡ 0 }
    ensures combines { CombinesRanges T.BITS O.at (map T.value elements.old) (map T.value elements.new) ranges op }
{
    let Ranges { from, to, len } = ranges;
    let far = Window { start: 0, len };
    let (left, right) = sides::<T, LATER>(elements, from.max(to) / T::BITS as usize);
    let windows = if LATER {
        (far, Window { start: from, len })
    } else {
        (Window { start: to, len }, far)
    };
    combine_block_in::<T, O>(left, windows.0, &*right, windows.1, op);
}

/// Combines ranges that overlap. The source is held aside, in an array where the memory has as many elements.
#[inline(always)]
fn combine_overlapping<T: BitStore, O: SliceOrder>(elements: &mut [T], ranges: Ranges, op: BitOp)
    requires ranges { HasRanges T.BITS (map T.value elements.old) ranges }
    ensures combines { CombinesRanges T.BITS O.at (map T.value elements.old) (map T.value elements.new) ranges op }
{
    let bits = T::BITS as usize;
    let (most, touched) = (elements.len(), ranges.from % bits + ranges.len);
    if most >= 18 && touched <= 18 * bits {
        combine_aside::<T, O, 18>(elements, ranges, op);
    } else if most >= 64 && touched <= 64 * bits {
        combine_aside::<T, O, 64>(elements, ranges, op);
    } else if most >= 128 && touched <= 128 * bits {
        combine_aside::<T, O, 128>(elements, ranges, op);
    } else if most >= 258 && touched <= 258 * bits {
        combine_aside::<T, O, 258>(elements, ranges, op);
    } else {
        combine_long::<T, O>(elements, ranges, op);
    }
}

/// [`combine_overlapping`] where the source touches many elements, or the memory has few.
#[inline(never)]
fn combine_long<T: BitStore, O: SliceOrder>(elements: &mut [T], ranges: Ranges, op: BitOp)
    requires ranges { HasRanges T.BITS (map T.value elements.old) ranges }
    ensures combines { CombinesRanges T.BITS O.at (map T.value elements.old) (map T.value elements.new) ranges op }
{
    let (bits, most) = (T::BITS as usize, elements.len());
    if ranges.len <= bits {
        combine_few::<T, O>(elements, ranges, op);
    } else if most >= 4098 && bits <= 16 && ranges.len >= 4097 * bits {
        combine_blocks::<T, O, 4098>(elements, ranges, op);
    } else if most >= 514 {
        combine_blocks::<T, O, 514>(elements, ranges, op);
    } else {
        T::fits_in_memory();
        let mut held = [T::ZERO; 514];
        combine_held::<T, O>(elements, &mut held[..most], ranges, op);
    }
}

/// [`combine_overlapping`] by blocks of one element fewer than are held aside, from the end at which no bit is written
/// over before it is read. Conditions: `HELD` is from 2 to 8192, and the memory has as many.
fn combine_blocks<T: BitStore, O: SliceOrder, const HELD: usize>(
    elements: &mut [T],
    ranges: Ranges,
    op: BitOp,
)
    requires ranges { HasRanges T.BITS (map T.value elements.old) ranges }
    requires held { 1 < HELD }
    requires few { HELD ≤ 8192 }
    requires many { HELD ≤ length elements.old }
    ensures combines { CombinesRanges T.BITS O.at (map T.value elements.old) (map T.value elements.new) ranges op }
{
    let size = T::BITS as usize * (HELD - 1);
    let mut left = ranges;
    while left.len > 0 {
        let count = size.min(left.len);
        let parts = if left.from < left.to {
            let (first, last) = left.split_at(left.len - count);
            (last, first)
        } else {
            left.split_at(count)
        };
        combine_aside::<T, O, HELD>(elements, parts.0, op);
        left = parts.1;
    }
}

/// CombinesRanges at most as many bits as an element has.
#[inline(always)]
fn combine_few<T: BitStore, O: SliceOrder>(elements: &mut [T], ranges: Ranges, op: BitOp)
    requires ranges { HasRanges T.BITS (map T.value elements.old) ranges }
    requires few { ranges.len ≤ T.BITS }
    ensures combines { CombinesRanges T.BITS O.at (map T.value elements.old) (map T.value elements.new) ranges op }
{
    if ranges.len == 0 {
        return;
    }
    if elements.len() > 1 {
        T::fits_in_memory();
        let mut held = [T::ZERO; 2];
        combine_held::<T, O>(elements, &mut held, ranges, op);
    } else {
        combine_aside::<T, O, 1>(elements, ranges, op);
    }
}

/// [`combine_held`] with an array. It is not inlined: its loops are not made once more for each call.
#[inline(never)]
fn combine_aside<T: BitStore, O: SliceOrder, const HELD: usize>(
    elements: &mut [T],
    ranges: Ranges,
    op: BitOp,
)
    requires ranges { HasRanges T.BITS (map T.value elements.old) ranges }
    requires many { HELD ≤ length elements.old }
    requires held { ranges.from % T.BITS + ranges.len ≤ T.BITS * HELD }
    ensures combines { CombinesRanges T.BITS O.at (map T.value elements.old) (map T.value elements.new) ranges op }
{
    // an array as large as a part of the memory takes no more bytes than there are
    T::fits_in_memory();
    let mut held = [T::ZERO; HELD];
    match op {
        BitOp::And => combine_held::<T, O>(elements, &mut held, ranges, BitOp::And),
        BitOp::Or => combine_held::<T, O>(elements, &mut held, ranges, BitOp::Or),
        BitOp::Xor => combine_held::<T, O>(elements, &mut held, ranges, BitOp::Xor),
        BitOp::AndNot => combine_held::<T, O>(elements, &mut held, ranges, BitOp::AndNot),
    }
}

/// Combines ranges, of which the elements that are read are held aside in another memory. Conditions: they are no more
/// than it has, and it has no more than the memory.
#[inline(always)]
fn combine_held<T: BitStore, O: SliceOrder>(
    elements: &mut [T],
    held: &mut [T],
    ranges: Ranges,
    op: BitOp,
)
    requires ranges { HasRanges T.BITS (map T.value elements.old) ranges }
    requires many { length held.old ≤ length elements.old }
    requires held { ranges.from % T.BITS + ranges.len ≤ T.BITS * length held.old }
    ensures combines { CombinesRanges T.BITS O.at (map T.value elements.old) (map T.value elements.new) ranges op }
{
    let bits = T::BITS as usize;
    let Ranges { from, to, len } = ranges;
    let first = (from / bits).min(elements.len() - held.len());
    held.copy_from_slice(&elements[first..first + held.len()]);
    let start = from - first * bits;
    let target = Window { start: to, len };
    combine_block_in::<T, O>(elements, target, &*held, Window { start, len }, op);
}
