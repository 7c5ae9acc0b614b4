//! What a walk from the front keeps of the elements that it loaded last. Everything down to the
//! load is inlined into `next` of a walk, so that a loop over a walk keeps it in registers.
ghost use Rattle.std.specs.Prelude.{◌<◌, ◌≤◌, map};
ghost use Rattle.std.specs.Iterator.{YieldsFirst};
ghost use Rattle.bitvec_base.specs.Memory.{HasWindow, list_in};
ghost use Rattle.bitvec_cells.specs.Sought.{Shows};
ghost use Rattle.bitvec_places.specs.Kept.{Keeps};
ghost use Rattle.bitvec_places.specs.Places.{IsRestOf, places_left};

use crate::rest::Rest;
use bitvec_base::{Lsb0, Part, Window};
use bitvec_cells::{Shared, sought};
use bitvec_engine::SliceOrder;
use bitvec_store::BitStore;

/// The indices that a walk has yet to give of the elements that it loaded last.
#[derive(Clone, Copy)]
pub struct Kept {
    /// The word whose bit `i`, counted from the least significant one, is 1 where `base + i` is
    /// such an index.
    pub ones: u64,
    /// The index of the word's bit 0.
    pub base: usize,
    /// The index up to which elements were loaded.
    pub edge: usize,
}

/// The first index of the rest whose bit is `want`, if there is one; the rest then begins behind
/// it. Elements are loaded by words, and a word's bits are kept until all are given. Conditions:
/// the memory has at most `MAX_BITS` bits, the window lies in it, the rest is a range of its
/// indices, and what is kept is what the rest has before `edge`.
#[inline(always)]
pub fn take_kept<T: BitStore, O: SliceOrder>(
    elements: &[T],
    window: Window,
    want: bool,
    rest: &mut Rest,
    kept: &mut Kept,
) -> Option<usize>
    requires window { HasWindow T.BITS (map T.value elements.now) window }
    requires inside { IsRestOf rest.old window.len }
    requires keeps { Keeps want (list_in T.BITS O.at (map T.value elements.now) window) rest.old kept.old }
    ensures inside { IsRestOf rest.new window.len }
    ensures keeps { Keeps want (list_in T.BITS O.at (map T.value elements.now) window) rest.new kept.new }
    ensures gives { YieldsFirst (places_left want (list_in T.BITS O.at (map T.value elements.now) window)) rest.old result rest.new }
{
    while kept.ones == 0 {
        if kept.edge >= rest.back {
            return None;
        }
        let left = Rest {
            front: kept.edge,
            back: rest.back,
        };
        *kept = load::<T, O>(elements, window, want, left);
    }
    let index = kept.base + kept.ones.trailing_zeros() as usize;
    kept.ones &= kept.ones - 1;
    rest.front = index + 1;
    Some(index)
}

/// What is kept of the first elements of a rest. Conditions: the memory has at most `MAX_BITS`
/// bits, the window lies in it, and the rest is a range of its indices and not empty.
#[inline(always)]
fn load<T: BitStore, O: SliceOrder>(elements: &[T], window: Window, want: bool, rest: Rest) -> Kept
    requires window { HasWindow T.BITS (map T.value elements.now) window }
    requires some { rest.front < rest.back }
    requires bound { rest.back ≤ window.len }
    ensures keeps { Keeps want (list_in T.BITS O.at (map T.value elements.now) window) rest result }
    ensures further { rest.front < result.edge }
    ensures within { result.edge ≤ rest.back }
{
    let mut cells = Shared::new(elements);
    let left = window.range(rest.front, rest.back);
    let (word, count) = O::load_front::<Shared<T>>(&mut cells, left);
    let mut ones = O::lowest_first(word);
    if !want {
        ones = sought_first(ones, count, false);
    }
    Kept {
        ones,
        base: rest.front,
        edge: rest.front + count,
    }
}

/// The word that has a 1 for each of the first `count` bits of another that is `want`. Condition:
/// `count` is at most 64.
#[inline(always)]
pub fn sought_first(word: u64, count: usize, want: bool) -> u64
    requires { count ≤ 64 }
    ensures { Shows 64 (λ b i. i) word result 0 count want }
{
    let part = Part {
        element: 0,
        from: 0,
        to: count,
    };
    sought::<Lsb0, u64>(word, part, want)
}
