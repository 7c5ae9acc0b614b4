//! The places of a bit, written down a word of them at a time.
ghost use Rattle.std.specs.Prelude.{◌≡◌, ◌+◌, ◌-◌, ◌++◌, ◌^◌, ◌<◌, ◌≤◌, count_ones, drop, length, map, min, reverse, take};
ghost use Rattle.bitvec_base.specs.Memory.{HasWindow, list_in};
ghost use Rattle.bitvec_places.specs.WordOnes.{order_ones, word_ones};
ghost use Rattle.bitvec_places.specs.Places.{places_in};

use crate::rest::Rest;
use bitvec_base::{Part, Window};
use bitvec_cells::{Shared, sought};
use bitvec_engine::SliceOrder;
use bitvec_store::BitStore;
use bitvec_words::{WORD_BITS, WordOrder};

/// Writes to `indices` the indices, from `from` on, of a window's bits that are `want`: in ascending
/// order, as many as there is room for. It returns how many these are. Conditions: the memory has at
/// most `MAX_BITS` bits, the window lies in it, and has at least `from` bits.
///
/// It loads each element once, narrow ones together, as many as make a word of 64 bits.
#[inline(always)]
pub fn write_places<T: BitStore, O: SliceOrder + WordOrder>(
    elements: &[T],
    window: Window,
    want: bool,
    from: usize,
    indices: &mut [usize],
) -> usize
    requires window { HasWindow T.BITS (map T.value elements.now) window }
    requires bound { from ≤ window.len }
    ensures count { result ≡ min (length (places_in want (list_in T.BITS O.at (map T.value elements.now) window) from window.len)) (length indices.old) }
    ensures indices { indices.new ≡ take result (places_in want (list_in T.BITS O.at (map T.value elements.now) window) from window.len) ++ drop result indices.old }
{
    let mut count = 0;
    let mut edge = from;
    while edge < window.len && count < indices.len() {
        let left = Rest {
            front: edge,
            back: window.len,
        };
        let (word, seen) = sought_front::<T, O>(elements, window, want, left);
        if word != 0 {
            count += write_ones::<O>(word, edge, &mut indices[count..]);
        }
        edge += seen;
    }
    count
}

/// The first bits of a rest as a word, and how many they are. The word's ones, under the order, are those
/// that are `want`. Conditions: the memory has at most `MAX_BITS` bits, the window lies in it, and the
/// rest is a range of its indices and not empty.
#[inline(always)]
fn sought_front<T: BitStore, O: SliceOrder>(
    elements: &[T],
    window: Window,
    want: bool,
    rest: Rest,
) -> (u64, usize)
    requires window { HasWindow T.BITS (map T.value elements.now) window }
    requires some { rest.front < rest.back }
    requires bound { rest.back ≤ window.len }
    ensures places { places_in want (list_in T.BITS O.at (map T.value elements.now) window) rest.front (rest.front + result.1) ≡ map (λ place. rest.front + place) (order_ones O.at result.0) }
    ensures some { 0 < result.1 }
    ensures within { rest.front + result.1 ≤ rest.back }
{
    let mut cells = Shared::new(elements);
    let left = window.range(rest.front, rest.back);
    let (word, count) = O::load_front::<Shared<T>>(&mut cells, left);
    if want {
        return (word, count);
    }
    let part = Part {
        element: 0,
        from: 0,
        to: count,
    };
    (sought::<O, u64>(word, part, false), count)
}

/// Writes where the ones of a word stand under the order, counted from `base`, as many as there is room
/// for, and returns how many these are.
#[inline(always)]
fn write_ones<O: SliceOrder + WordOrder>(word: u64, base: usize, indices: &mut [usize]) -> usize
    requires { base + 64 < 2 ^ 64 }
    ensures count { result ≡ min (length (order_ones O.at word)) (length indices.old) }
    ensures indices { indices.new ≡ take result (map (λ place. base + place) (order_ones O.at word)) ++ drop result indices.old }
{
    if indices.len() < WORD_BITS {
        write_few(O::lowest_first(word), base, indices)
    } else if O::HIGH {
        write_back(word, base, indices)
    } else {
        write_all(O::lowest_first(word), base, indices)
    }
}

/// Writes where the ones of a word stand from the least significant bit on, counted from `base`, as many
/// as there is room for, and returns how many these are. It is kept out of the loop over words.
#[tactic(auto, using(crate::proofs::WrittenLemmas::writing))]
#[inline(never)]
fn write_few(mut ones: u64, base: usize, indices: &mut [usize]) -> usize
    requires { base + 64 < 2 ^ 64 }
    ensures count { result ≡ min (count_ones ones) (length indices.old) }
    ensures indices { indices.new ≡ take result (map (λ place. base + place) (word_ones ones)) ++ drop result indices.old }
{
    let mut count = 0;
    while ones != 0 && count < indices.len() {
        indices[count] = base + ones.trailing_zeros() as usize;
        ones &= ones - 1;
        count += 1;
    }
    count
}

/// Writes the places of a word's ones. There is room for all of them, so none is tested. Condition: there are
/// 64 places.
#[tactic(auto, using(crate::proofs::WrittenLemmas::writing))]
#[inline(always)]
fn write_all(mut ones: u64, base: usize, indices: &mut [usize]) -> usize
    requires bound { base + 64 < 2 ^ 64 }
    requires room { 64 ≤ length indices.old }
    ensures count { result ≡ min (count_ones ones) (length indices.old) }
    ensures indices { indices.new ≡ take result (map (λ place. base + place) (word_ones ones)) ++ drop result indices.old }
{
    let mut count = 0;
    while ones != 0 {
        indices[count] = base + ones.trailing_zeros() as usize;
        ones &= ones - 1;
        count += 1;
    }
    count
}

/// Writes them from the most significant bit down: the last place is written first, so that no word
/// has to be reversed. Condition: as for [`write_all`].
#[tactic(auto, using(crate::proofs::BackLemmas::writing_back))]
#[inline(always)]
fn write_back(mut ones: u64, base: usize, indices: &mut [usize]) -> usize
    requires bound { base + 64 < 2 ^ 64 }
    requires room { 64 ≤ length indices.old }
    ensures count { result ≡ count_ones ones }
    ensures indices { indices.new ≡ reverse (map (λ place. base + (63 - place)) (word_ones ones)) ++ drop result indices.old }
{
    let count = ones.count_ones() as usize;
    let mut left = count;
    while ones != 0 {
        left -= 1;
        indices[left] = base + (WORD_BITS - 1 - ones.trailing_zeros() as usize);
        ones &= ones - 1;
    }
    count
}
