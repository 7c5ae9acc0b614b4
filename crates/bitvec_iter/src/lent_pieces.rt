//! The numbered pieces of a writable view, lent one at a time.
ghost use Rattle.std.specs.Prelude.{◌≡◌, ◌+◌, ◌-◌, ◌*◌, ◌<◌, ◌≤◌, false, length, nat_le, slice_range};
ghost use Rattle.bitvec_base.specs.Window.{max_bits};

use bitvec_base::{BitOrder, Window};
use bitvec_cutting::{Cutting, InChunks, InChunksFromEnd, InExactChunks, InExactChunksFromEnd};
use bitvec_slice::{BitSliceMut, Sealed, ViewMut, touched_part};
use bitvec_store::BitStore;
use std::marker::PhantomData;

/// The pieces of a writable view, cut as `C` says, which are lent one at a time, from both ends.
///
/// A piece is a view of the elements that it touches, and no call on it writes another bit. It ends before
/// the next is asked for. After `next_mut` and its kin nothing is known of the walk but that it is one.
/// `take_mut` and `take_back_mut` give no `Option`; their caller, who has tested `len`, knows what is left
/// of the walk, and each element that the piece doesn't touch.
///
/// `for_each_chunk_mut` and its kin of `bitvec_closures`, which give each piece to a closure, tell each bit.
#[derive(Drop)]
pub struct PiecesMut<'a, T: BitStore, O: BitOrder, C: Cutting> {
    pub(crate) elements: &'a mut [T],
    pub(crate) head: usize,
    pub(crate) len: usize,
    pub(crate) front: usize,
    pub(crate) back: usize,
    pub(crate) taken: bool,
    pub(crate) cutting: C,
    mark: PhantomData<(O, &'a mut T)>,
    ghost inside: { head + len ≤ T.BITS * length elements.now },
    ghost bounded: { T.BITS * length elements.now ≤ max_bits },
    ghost numbered: { back ≤ C.pieces cutting len },
}

/// Chunks from the first bit on, of which the last may be shorter: `chunks_mut` makes them.
pub type ChunksMut<'a, T, O> = PiecesMut<'a, T, O, InChunks>;

/// Whole chunks from the first bit on: `chunks_exact_mut` makes them.
pub type ChunksExactMut<'a, T, O> = PiecesMut<'a, T, O, InExactChunks>;

/// Chunks from the last bit on, of which the last may be shorter: `rchunks_mut` makes them.
pub type RChunksMut<'a, T, O> = PiecesMut<'a, T, O, InChunksFromEnd>;

/// Whole chunks from the last bit on: `rchunks_exact_mut` makes them.
pub type RChunksExactMut<'a, T, O> = PiecesMut<'a, T, O, InExactChunksFromEnd>;

impl<'a, T: BitStore, O: BitOrder, C: Cutting> PiecesMut<'a, T, O, C> {
    ghost use Rattle.std.specs.Borrow.{sem};
    ghost use Rattle.bitvec_slice.specs.Lending.{lends};
    ghost use Rattle.bitvec_slice.specs.Seen.{IsGiven, IsRangeOf};
    ghost use Rattle.bitvec_slice.specs.Views.{name_of, seen_mut};
    ghost use Rattle.bitvec_iter.specs.LentWalk.{IsPieceOfWalk, IsWalkOf, past, past_back};
    ghost use Rattle.bitvec_iter.specs.PiecesLending.{lends_bits, lends_first, lends_last, lends_part, passed, passed_back};
    ghost use Rattle.bitvec_iter.specs.LentPieces.{name_of_pieces, walk_of};

    /// The pieces of a view. `bitvec` has no such call: `chunks_mut` and its kin are made of it.
    #[doc(hidden)]
    pub fn new<'s>(bits: &'s mut BitSliceMut<'a, T, O>, cutting: C) -> PiecesMut<'s, T, O, C>
        ensures* writes_back { sem 𝓛 (lends T.row O.row bits.entry (name_of_pieces result)) }
        ensures walk { IsWalkOf (seen_mut bits.old) (C.pieces cutting (seen_mut bits.old).window.len) (walk_of result) }
        ensures cutting { (walk_of result).cutting ≡ cutting }
    {
        let window = bits.window();
        PiecesMut {
            elements: bits.elements_mut(Sealed),
            head: window.start,
            len: window.len,
            front: 0,
            back: cutting.count(window.len),
            taken: false,
            cutting,
            mark: PhantomData,
        }
    }

    /// How many pieces are left.
    pub fn len(&self) -> usize
        ensures { result ≡ (walk_of self.now).back - (walk_of self.now).front }
    {
        self.back.saturating_sub(self.front)
    }

    /// Whether no piece is left.
    pub fn is_empty(&self) -> bool
        ensures { result ≡ nat_le (walk_of self.now).back (walk_of self.now).front }
    {
        self.back <= self.front
    }

    /// The first piece that is left, which is then left no more. Condition: one is left. `bitvec` has
    /// no such call: with it a caller knows what is left of the walk, and each element but the piece's.
    pub fn take_mut(&mut self) -> BitSliceMut<'_, T, O>
        requires { (walk_of self.old).front < (walk_of self.old).back }
        ensures* writes_back { sem 𝓛 (lends_first T.row O.row C.row C.place self.entry (name_of result)) }
        ensures piece { IsPieceOfWalk T.BITS C.place (walk_of self.old) (walk_of self.old).front (seen_mut result) }
    {
        let range = self.cutting.piece(self.len, self.front);
        self.front += 1;
        self.part_mut(range.start, range.end)
    }

    /// The last piece that is left, as [`PiecesMut::take_mut`] gives the first.
    pub fn take_back_mut(&mut self) -> BitSliceMut<'_, T, O>
        requires { (walk_of self.old).front < (walk_of self.old).back }
        ensures* writes_back { sem 𝓛 (lends_last T.row O.row C.row C.place self.entry (name_of result)) }
        ensures piece { IsPieceOfWalk T.BITS C.place (walk_of self.old) ((walk_of self.old).back - 1) (seen_mut result) }
    {
        self.back -= 1;
        let range = self.cutting.piece(self.len, self.back);
        self.part_mut(range.start, range.end)
    }

    /// Passes the first `count` pieces that are left, or all. `bitvec` has no such call.
    pub fn pass(&mut self, count: usize)
        ensures walk { walk_of self.new ≡ past (walk_of self.old) count }
        ensures name { name_of_pieces self.new ≡ name_of_pieces self.old }
        ensures whole { self.new ≡ passed self.old count }
    {
        self.front += count.min(self.len());
    }

    /// Passes the last `count` pieces that are left, or all. `bitvec` has no such call.
    pub fn pass_back(&mut self, count: usize)
        ensures walk { walk_of self.new ≡ past_back (walk_of self.old) count }
        ensures name { name_of_pieces self.new ≡ name_of_pieces self.old }
        ensures whole { self.new ≡ passed_back self.old count }
    {
        self.back -= count.min(self.len());
    }

    /// The first piece that is left: `None` exactly where none is.
    pub fn next_mut(&mut self) -> Option<BitSliceMut<'_, T, O>>
        ensures { IsGiven ((walk_of self.old).front < (walk_of self.old).back)
            (λ part. IsPieceOfWalk T.BITS C.place (walk_of self.old) (walk_of self.old).front (seen_mut part)) result }
    {
        self.next_lent().some()
    }

    /// The last piece that is left: `None` exactly where none is.
    pub fn next_back_mut(&mut self) -> Option<BitSliceMut<'_, T, O>>
        ensures { IsGiven ((walk_of self.old).front < (walk_of self.old).back)
            (λ part. IsPieceOfWalk T.BITS C.place (walk_of self.old) ((walk_of self.old).back - 1) (seen_mut part)) result }
    {
        self.next_back_lent().some()
    }

    /// The piece behind the first `skipped` that are left, as the last of so many calls of `next_mut`
    /// and one more: `None` exactly where there are no more than `skipped`.
    pub fn nth_mut(&mut self, skipped: usize) -> Option<BitSliceMut<'_, T, O>>
        ensures { IsGiven (skipped < (walk_of self.old).back - (walk_of self.old).front)
            (λ part. IsPieceOfWalk T.BITS C.place (walk_of self.old) ((walk_of self.old).front + skipped) (seen_mut part)) result }
    {
        self.nth_lent(skipped).some()
    }

    /// The piece before the last `skipped` that are left, as the last of so many calls of
    /// `next_back_mut` and one more: `None` exactly where there are no more than `skipped`.
    pub fn nth_back_mut(&mut self, skipped: usize) -> Option<BitSliceMut<'_, T, O>>
        ensures { IsGiven (skipped < (walk_of self.old).back - (walk_of self.old).front)
            (λ part. IsPieceOfWalk T.BITS C.place (walk_of self.old) ((walk_of self.old).back - 1 - skipped) (seen_mut part)) result }
    {
        self.nth_back_lent(skipped).some()
    }

    pub(crate) fn into_view(self) -> BitSliceMut<'a, T, O>
        ensures { seen_mut result ≡ (walk_of self.entry).view }
    {
        let PiecesMut {
            elements,
            head,
            len,
            front: _,
            back: _,
            taken: _,
            cutting: _,
            mark: _,
        } = self;
        BitSliceMut::from_parts(elements, head, len)
    }

    pub(crate) fn part_mut(&mut self, from: usize, to: usize) -> BitSliceMut<'_, T, O>
        requires order { from ≤ to }
        requires bound { to ≤ (walk_of self.old).view.window.len }
        ensures* writes_back { sem 𝓛 (lends_bits T.row O.row C.row self.entry from to (name_of result)) }
        ensures part { IsRangeOf T.BITS (walk_of self.old).view from to (seen_mut result) }
    {
        let window = Window {
            start: self.head,
            len: self.len,
        };
        let part = touched_part::<T>(self.elements.len(), window, from, to);
        let elements = self.elements_part_mut(part.first, part.end);
        BitSliceMut::from_parts(elements, part.head, part.len)
    }

    pub(crate) fn elements_part_mut(&mut self, start: usize, end: usize) -> &mut [T]
        requires order { start ≤ end }
        requires bound { end ≤ length (walk_of self.old).view.elements }
        ensures* writes_back { sem 𝓛 (lends_part T.row O.row C.row self.entry start end result.ghost_name) }
        ensures elements { result.now ≡ slice_range (walk_of self.old).view.elements start end }
    {
        &mut self.elements[start..end]
    }
}
