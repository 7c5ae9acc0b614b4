//! The indices of the bits of a view that are 1, or 0, from both ends.
ghost use Rattle.std.specs.Prelude.{◌≡◌, ⊤};
ghost use Rattle.bitvec_slice.specs.Views.{seen};
ghost use Rattle.bitvec_places.specs.Kept.{Keeps};
ghost use Rattle.bitvec_places.specs.Places.{IsRestOf};

use crate::IndexWalk;
use crate::wanted::{Ones, Wanted, Zeros};
use bitvec_base::BitOrder;
use bitvec_cells::Shared;
use bitvec_engine::SliceOrder;
use bitvec_places::{Kept, Rest, count_left, sought_first, take_kept, take_last};
use bitvec_slice::BitSlice;
use bitvec_store::BitStore;
use std::alloc::AllocError;
use std::iter::FusedIterator;
use std::marker::PhantomData;

/// The indices of the bits of a view that `W` names, ascending from the front and descending from
/// the back.
///
/// A walk from the front loads each element once: narrow ones together, as many as make a word of 64
/// bits, and a wider one once for each 64 of its bits. It keeps a word's bits until their indices are
/// given. Making the walk loads nothing. Each call of `next_back` searches the remaining bits from the
/// back, so it loads an element once more for each index given. Each call of `len` or `size_hint`
/// counts the remaining indices.
pub struct Places<'a, T: BitStore, O: BitOrder, W: Wanted> {
    view: BitSlice<'a, T, O>,
    rest: Rest,
    kept: Kept,
    wanted: PhantomData<W>,
    ghost inside: { IsRestOf rest (seen view).window.len },
    ghost keeps: { Keeps W.BIT (seen view).bits rest kept },
}

/// The indices of the bits of a view that are 1.
pub type IterOnes<'a, T, O> = Places<'a, T, O, Ones>;

/// The indices of the bits of a view that are 0.
pub type IterZeros<'a, T, O> = Places<'a, T, O, Zeros>;

impl<'a, T: BitStore, O: BitOrder, W: Wanted> Copy for Places<'a, T, O, W> {}

impl<'a, T: BitStore, O: BitOrder, W: Wanted> Clone for Places<'a, T, O, W> {
    ghost is_clone = { λ x y. y ≡ x };

    ghost is_infallible = { λ _. ⊤ };

    fn clone(&self) -> Result<Self, AllocError> {
        Ok(Places {
            view: self.view,
            rest: self.rest,
            kept: self.kept,
            wanted: PhantomData,
        })
    }
}

impl<'a, T: BitStore, O: BitOrder, W: Wanted> Places<'a, T, O, W> {
    ghost use Rattle.std.specs.Prelude.{◌<◌, ◌≤◌, length};
    ghost use Rattle.std.specs.List.{All};
    ghost use Rattle.bitvec_base.specs.Lists.{places_of};
    ghost use Rattle.bitvec_base.specs.Window.{max_bits};
    ghost use Rattle.bitvec_query.specs.Indices.{RunsInOrder, RunsInReverse, remaining_indices};

    /// The indices of all bits of the view that `W` names. `bitvec` has no such call.
    #[tactic(auto, using(bitvec_places::proofs::PlacesLaws::all_places, bitvec_places::proofs::PlacesLaws::few_places, bitvec_places::proofs::PlacesLaws::places_inside), unfolding(crate::specs::Indices::remaining_indices))]
    pub fn new(view: BitSlice<'a, T, O>) -> Self
        ensures indices { remaining_indices result ≡ places_of W.BIT (seen view.entry).bits }
        ensures inside { All (λ index. index < (seen view.entry).window.len) (remaining_indices result) }
        ensures few { length (remaining_indices result) ≤ max_bits }
        ensures runs { RunsInOrder result }
        ensures runs_back { RunsInReverse result }
    {
        Places {
            view,
            rest: Rest {
                front: 0,
                back: view.len(),
            },
            kept: Kept {
                ones: 0,
                base: 0,
                edge: 0,
            },
            wanted: PhantomData,
        }
    }
}

impl<'a, T: BitStore, O: SliceOrder, W: Wanted> IndexWalk for Places<'a, T, O, W> {
    ghost use Rattle.bitvec_query.specs.Indices.{RunsInOrder, RunsInReverse, remaining_indices};

    ghost left = { λ it. remaining_indices it };

    ghost Ascends = { λ it. RunsInOrder it };

    ghost Descends = { λ it. RunsInReverse it };
}

/// A walk over no bits.
impl<'a, T: BitStore, O: BitOrder, W: Wanted> Default for Places<'a, T, O, W> {
    ghost use Rattle.std.specs.Prelude.{[]};
    ghost use Rattle.bitvec_query.specs.Indices.{remaining_indices};

    ghost is_default = { λ walk. remaining_indices walk ≡ [] };

    #[tactic(auto, using(bitvec_places::proofs::PlacesLaws::no_places))]
    fn default() -> Self {
        Places::new(BitSlice::empty())
    }
}

impl<'a, T: BitStore, O: SliceOrder, W: Wanted> Iterator for Places<'a, T, O, W> {
    type Item = usize;

    ghost use Rattle.std.specs.Prelude.{IfSome, Some, length};
    ghost use Rattle.std.specs.Iterator.{UpTo, YieldsFirst, item_count};
    ghost use Rattle.std.specs.Iterator.SizeHint.{IsWithinCount};
    ghost use Rattle.bitvec_query.specs.Indices.{remaining_indices};

    ghost next_gives = { YieldsFirst remaining_indices };

    ghost remaining = { item_count remaining_indices };

    #[tactic(auto, unfolding(crate::specs::Indices::remaining_indices))]
    fn next(&mut self) -> Option<usize> {
        let mut rest = self.rest;
        let mut kept = self.kept;
        let index = take_kept::<T, O>(
            self.view.elements(),
            self.view.window(),
            W::BIT,
            &mut rest,
            &mut kept,
        );
        self.rest = rest;
        self.kept = kept;
        index
    }

    fn size_hint(&self) -> (usize, Option<usize>)
        ensures lower { IsWithinCount result.0 (item_count remaining_indices self.now) }
        ensures upper { IfSome result.1 (UpTo (item_count remaining_indices self.now)) }
        ensures exact { result ≡ (length (remaining_indices self.now), Some (length (remaining_indices self.now))) }
    {
        let count = self.len();
        (count, Some(count))
    }
}

impl<'a, T: BitStore, O: SliceOrder, W: Wanted> DoubleEndedIterator for Places<'a, T, O, W> {
    ghost use Rattle.std.specs.Iterator.{YieldsLast};
    ghost use Rattle.bitvec_query.specs.Indices.{remaining_indices};

    ghost next_back_gives = { YieldsLast remaining_indices };

    #[tactic(auto, unfolding(crate::specs::Indices::remaining_indices))]
    fn next_back(&mut self) -> Option<usize> {
        let mut cells = Shared::new(self.view.elements());
        let mut rest = self.rest;
        let index = take_last::<O, Shared<T>>(&mut cells, self.view.window(), W::BIT, &mut rest);
        self.rest = rest;
        // only indices before the end are kept
        let count = rest.back.saturating_sub(self.kept.base).min(64);
        self.kept.ones = sought_first(self.kept.ones, count, true);
        index
    }
}

impl<'a, T: BitStore, O: SliceOrder, W: Wanted> ExactSizeIterator for Places<'a, T, O, W> {
    #[tactic(auto, unfolding(crate::specs::Indices::remaining_indices))]
    fn len(&self) -> usize {
        let mut cells = Shared::new(self.view.elements());
        count_left::<O, Shared<T>>(&mut cells, self.view.window(), W::BIT, self.rest)
    }
}

impl<'a, T: BitStore, O: SliceOrder, W: Wanted> FusedIterator for Places<'a, T, O, W> {}
