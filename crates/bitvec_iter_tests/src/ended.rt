//! Walks and splits that were gone through, and are asked ten times more from each end that they have: nothing comes, and
//! nothing is left.

use bitvec_base::{Lsb0, Msb0};
use bitvec_iter::{IterCalls, PieceCallsMut};
use bitvec_lent_split::SplitCallsMut;
use bitvec_query::OnesCalls;
use bitvec_slice::{BitSlice, BitSliceMut};
use bitvec_split::SplitCalls;

/// How many items come behind the end of a walk, by twenty calls from both ends.
macro_rules! behind_the_end {
    ($walk:expr, $next:ident, $next_back:ident) => {{
        let mut walk = $walk;
        for _ in 0..24 {
            let _item = walk.$next();
        }
        let mut came = 0usize;
        for _ in 0..10 {
            came = came.saturating_add(usize::from(walk.$next().is_some()));
            came = came.saturating_add(usize::from(walk.$next_back().is_some()));
        }
        came
    }};
}

/// How many come of walks over bits and pieces of a view.
fn of_walks(view: BitSlice<'_, u8, Msb0>) -> [usize; 10] {
    [
        behind_the_end!(view.iter(), next, next_back),
        behind_the_end!(view.iter().by_refs(), next, next_back),
        behind_the_end!(view.iter().by_vals(), next, next_back),
        behind_the_end!(view.iter_ones(), next, next_back),
        behind_the_end!(view.iter_zeros(), next, next_back),
        behind_the_end!(view.chunks(3), next, next_back),
        behind_the_end!(view.chunks_exact(3), next, next_back),
        behind_the_end!(view.rchunks(3), next, next_back),
        behind_the_end!(view.rchunks_exact(3), next, next_back),
        behind_the_end!(view.windows(3), next, next_back),
    ]
}

/// Whether nothing comes of a walk that passes the greatest number of items, nor behind these.
macro_rules! is_passed {
    ($walk:expr) => {{
        let mut walk = $walk;
        walk.nth(usize::MAX).is_none() && walk.next().is_none() && walk.next_back().is_none()
    }};
}

/// Whether nothing comes of walks that pass the greatest number of items.
fn are_passed(view: BitSlice<'_, u8, Msb0>) -> [bool; 10] {
    [
        is_passed!(view.iter()),
        is_passed!(view.iter().by_refs()),
        is_passed!(view.iter().by_vals()),
        is_passed!(view.iter_ones()),
        is_passed!(view.iter_zeros()),
        is_passed!(view.chunks(3)),
        is_passed!(view.chunks_exact(3)),
        is_passed!(view.rchunks(3)),
        is_passed!(view.rchunks_exact(3)),
        is_passed!(view.windows(3)),
    ]
}

/// Says yes at ones.
fn is_one(_index: usize, bit: &bool) -> bool {
    *bit
}

/// How many come of splits of a view at ones. Those that are counted have a front only.
fn of_splits(view: BitSlice<'_, u8, Msb0>) -> [usize; 5] {
    [
        behind_the_end!(view.split(is_one), next, next_back),
        behind_the_end!(view.split_inclusive(is_one), next, next_back),
        behind_the_end!(view.rsplit(is_one), next, next_back),
        behind_the_end!(view.splitn(3, is_one), next, next),
        behind_the_end!(view.rsplitn(3, is_one), next, next),
    ]
}

/// How many are lent of walks over bits and pieces of a view that is written.
fn of_lent_walks(view: &mut BitSliceMut<'_, u8, Lsb0>) -> [usize; 5] {
    [
        behind_the_end!(view.iter_mut(), next_mut, next_back_mut),
        behind_the_end!(view.chunks_mut(3), next_mut, next_back_mut),
        behind_the_end!(view.chunks_exact_mut(3), next_mut, next_back_mut),
        behind_the_end!(view.rchunks_mut(3), next_mut, next_back_mut),
        behind_the_end!(view.rchunks_exact_mut(3), next_mut, next_back_mut),
    ]
}

/// How many are lent of splits of it at ones.
fn of_lent_splits(view: &mut BitSliceMut<'_, u8, Lsb0>) -> [usize; 5] {
    [
        behind_the_end!(view.split_mut(is_one), next_mut, next_back_mut),
        behind_the_end!(view.split_inclusive_mut(is_one), next_mut, next_back_mut),
        behind_the_end!(view.rsplit_mut(is_one), next_mut, next_back_mut),
        behind_the_end!(view.splitn_mut(3, is_one), next_mut, next_mut),
        behind_the_end!(view.rsplitn_mut(3, is_one), next_mut, next_mut),
    ]
}

#[test]
fn nothing_comes_behind_an_end(rt: HostRuntime) {
    let bytes = [0xA6u8, 0x3C, 0x59];
    let view = BitSlice::<u8, Msb0>::from_slice(&bytes).into_part(3..21);
    assert!(rt; (of_walks(view), of_splits(view)) == ([0; 10], [0; 5]));
    assert!(rt; are_passed(view) == [true; 10]);
    let mut bytes = bytes;
    let mut view = BitSliceMut::<u8, Lsb0>::from_slice_mut(&mut bytes).into_part(3..21);
    assert!(rt; of_lent_walks(&mut view) == [0; 5]);
    assert!(rt; of_lent_splits(&mut view) == [0; 5]);
}

/// Where the pieces of six zeros are, of a predicate that says yes at each second asking, by calls from the front, or else
/// from the back.
fn at_each_second_asking(from_front: [bool; 6]) -> [Option<(usize, usize)>; 6] {
    let zeros = [0u8];
    let mut asked = 0u32;
    let mut pieces = BitSlice::<u8, Lsb0>::from_slice(&zeros)
        .into_part(0..6)
        .split(|_index, _bit| {
            asked = asked.wrapping_add(1);
            asked % 2 == 0
        });
    let mut places = [None; 6];
    for call in 0..6 {
        let piece = if from_front[call] {
            pieces.next()
        } else {
            pieces.next_back()
        };
        places[call] = match piece {
            Some(piece) => Some((piece.window().start, piece.len())),
            None => None,
        };
    }
    places
}

#[test]
fn a_predicate_that_counts(rt: HostRuntime) {
    let front = at_each_second_asking([true; 6]);
    assert!(rt;
        front
            == [
                Some((0, 1)),
                Some((2, 1)),
                Some((4, 1)),
                Some((6, 0)),
                None,
                None
            ]
    );
    let by_turns = at_each_second_asking([true, false, true, false, true, false]);
    assert!(rt;
        by_turns
            == [
                Some((0, 1)),
                Some((5, 1)),
                Some((2, 1)),
                Some((4, 0)),
                None,
                None
            ]
    );
}
