//! The bits of two windows index by index: how many are 1 in both, or differ, and whether there are any.
ghost use Rattle.std.specs.Prelude.{◌≡◌, ◌&&◌, ◌+◌, ◌≤◌, map, slice_range};
ghost use Rattle.bitvec_base.specs.Lists.{combined, differs};
ghost use Rattle.bitvec_base.specs.Memory.{HasWindow, element_bits, list_in};
ghost use Rattle.bitvec_words.specs.ShortWindow.{padded};
ghost use Rattle.bitvec_checked.specs.Calls.{Tells};
ghost use Rattle.bitvec_checked.specs.Pairs.{looks_for, no_pair_where, only_first, pairs_where};
ghost use Rattle.bitvec_checked.specs.Statuses.{bits_from};

use crate::status::windows_status;
use bitvec_base::Window;
use bitvec_cells::Shared;
use bitvec_few::load_parts;
use bitvec_store::BitStore;
use bitvec_words::{BitOp, WORD_BITS, WordOrder};

/// How many bits of a window are 1, and so are those at their indices in the right window.
pub fn count_and<T: BitStore>(
    order: u32,
    elements: &[T],
    start: usize,
    len: usize,
    right: &[T],
    right_start: usize,
    right_len: usize,
    pairs: &mut usize,
) -> u32
    ensures { Tells order T.BITS T.value (pairs_where ◌&&◌) (bits_from start len) (bits_from right_start right_len) elements.now right.now pairs.old pairs.new result }
{
    tested_beside!(
        windows_status,
        *pairs,
        order,
        elements[start, len],
        right[right_start, right_len],
        count_pairs_in::<T>,
        Pair::Both
    )
}

/// How many bits of a window differ from those at their indices in the right window, 0 past its end.
pub fn count_xor<T: BitStore>(
    order: u32,
    elements: &[T],
    start: usize,
    len: usize,
    right: &[T],
    right_start: usize,
    right_len: usize,
    pairs: &mut usize,
) -> u32
    ensures { Tells order T.BITS T.value (pairs_where differs) (bits_from start len) (bits_from right_start right_len) elements.now right.now pairs.old pairs.new result }
{
    tested_beside!(
        windows_status,
        *pairs,
        order,
        elements[start, len],
        right[right_start, right_len],
        count_pairs_in::<T>,
        Pair::Differing
    )
}

/// Whether no bit is 1 in a window and at its index in the right window.
pub fn disjoint<T: BitStore>(
    order: u32,
    elements: &[T],
    start: usize,
    len: usize,
    right: &[T],
    right_start: usize,
    right_len: usize,
    answer: &mut bool,
) -> u32
    ensures { Tells order T.BITS T.value (no_pair_where ◌&&◌) (bits_from start len) (bits_from right_start right_len) elements.now right.now answer.old answer.new result }
{
    tested_beside!(
        windows_status,
        *answer,
        order,
        elements[start, len],
        right[right_start, right_len],
        no_pair_in::<T>,
        Pair::Both
    )
}

/// Whether each bit that is 1 in a window is 1 at its index in the right window.
pub fn subset<T: BitStore>(
    order: u32,
    elements: &[T],
    start: usize,
    len: usize,
    right: &[T],
    right_start: usize,
    right_len: usize,
    answer: &mut bool,
) -> u32
    ensures { Tells order T.BITS T.value (no_pair_where only_first) (bits_from start len) (bits_from right_start right_len) elements.now right.now answer.old answer.new result }
{
    tested_beside!(
        windows_status,
        *answer,
        order,
        elements[start, len],
        right[right_start, right_len],
        no_pair_in::<T>,
        Pair::First
    )
}

/// What two bits at the same index are looked for.
#[derive(Clone, Copy)]
enum Pair {
    /// Both are 1.
    Both,
    /// They differ.
    Differing,
    /// The first is 1, and the other is 0.
    First,
}

impl Pair {
    /// The word whose ones are the indices where the pair is found in two words.
    #[inline(always)]
    fn of_words<O: WordOrder>(self, word: u64, other: u64) -> u64
        ensures { element_bits 64 O.at result ≡ combined (looks_for self) (element_bits 64 O.at word) (element_bits 64 O.at other) }
    {
        let both = BitOp::And.of_elements::<O, u64>(word, other);
        match self {
            Pair::Both => both,
            Pair::Differing => BitOp::Xor.of_elements::<O, u64>(word, other),
            Pair::First => BitOp::Xor.of_elements::<O, u64>(word, both),
        }
    }
}

/// The word that has a 1 for each pair among the bits `from` up to, without, `to` of a window. Conditions: each
/// memory has at most `MAX_BITS` bits, each window lies in its memory, and the left one has these bits, at most 64.
#[inline(always)]
fn pairs_word<T: BitStore, O: WordOrder>(
    elements: &[T],
    window: Window,
    right: &[T],
    right_window: Window,
    pair: Pair,
    from: usize,
    to: usize,
) -> u64
    requires window { HasWindow T.BITS (map T.value elements.now) window }
    requires right_window { HasWindow T.BITS (map T.value right.now) right_window }
    requires order { from ≤ to }
    requires inside { to ≤ window.len }
    requires few { to ≤ from + 64 }
    ensures { element_bits 64 O.at result ≡ padded 64 (slice_range (combined (looks_for pair)
        (list_in T.BITS O.at (map T.value elements.now) window) (list_in T.BITS O.at (map T.value right.now) right_window)) from to) }
{
    let word = load_parts::<O, Shared<T>>(&mut Shared::new(elements), window.range(from, to));
    let end = right_window.len;
    let part = right_window.range(from.min(end), to.min(end));
    let other = load_parts::<O, Shared<T>>(&mut Shared::new(right), part);
    pair.of_words::<O>(word, other)
}

/// How many pairs two windows have. Condition: each memory has at most `MAX_BITS` bits, and each window lies in its
/// memory.
fn count_pairs_in<T: BitStore, O: WordOrder>(
    elements: &[T],
    window: Window,
    right: &[T],
    right_window: Window,
    pair: Pair,
) -> usize
    requires window { HasWindow T.BITS (map T.value elements.now) window }
    requires right_window { HasWindow T.BITS (map T.value right.now) right_window }
    ensures { result ≡ pairs_where (looks_for pair) (list_in T.BITS O.at (map T.value elements.now) window)
        (list_in T.BITS O.at (map T.value right.now) right_window) }
{
    let mut pairs = 0;
    let mut from = 0;
    while from < window.len {
        let to = from + WORD_BITS.min(window.len - from);
        let word = pairs_word::<T, O>(elements, window, right, right_window, pair, from, to);
        pairs += word.count_ones() as usize;
        from = to;
    }
    pairs
}

/// Whether two windows have no such pair; it ends at the first word with one. Condition: as for [`count_pairs_in`].
fn no_pair_in<T: BitStore, O: WordOrder>(
    elements: &[T],
    window: Window,
    right: &[T],
    right_window: Window,
    pair: Pair,
) -> bool
    requires window { HasWindow T.BITS (map T.value elements.now) window }
    requires right_window { HasWindow T.BITS (map T.value right.now) right_window }
    ensures { result ≡ no_pair_where (looks_for pair) (list_in T.BITS O.at (map T.value elements.now) window)
        (list_in T.BITS O.at (map T.value right.now) right_window) }
{
    let mut from = 0;
    while from < window.len {
        let to = from + WORD_BITS.min(window.len - from);
        let word = pairs_word::<T, O>(elements, window, right, right_window, pair, from, to);
        if word != 0 {
            return false;
        }
        from = to;
    }
    true
}
