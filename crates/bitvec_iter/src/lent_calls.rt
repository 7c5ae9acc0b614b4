//! The calls on writable views that lend pieces.
ghost use Rattle.std.specs.Prelude.{◌≡◌, ◌-◌, ◌<◌, ◌≤◌, min, nat_lt};
ghost use Rattle.std.specs.Borrow.{Array, follows, sem};
ghost use Rattle.bitvec_cutting.specs.Cutting.{chunk_count, whole_count};

use crate::{
    ChunksExactMut, ChunksMut, HalvesMut, IterMut, PiecesMut, RChunksExactMut, RChunksMut,
};
use bitvec_base::BitOrder;
use bitvec_cutting::{InChunks, InChunksFromEnd, InExactChunks, InExactChunksFromEnd};
use bitvec_slice::{BitSliceMut, Lent, ViewMut};
use bitvec_store::BitStore;

/// `bitvec`'s calls on a `&mut BitSlice` that give pieces of it for writing, lent one at a time.
/// Indices and sizes are in bits.
pub trait PieceCallsMut<T: BitStore, O: BitOrder>: ViewMut<T, O> {
    ghost use Rattle.bitvec_slice.specs.MayLend.{is_lent, piece_of};
    ghost use Rattle.bitvec_slice.specs.Seen.{IsGiven};
    ghost use Rattle.bitvec_iter.specs.LentBits.{IsAllOf, bit_walk_of, name_of_bits};
    ghost use Rattle.bitvec_iter.specs.Halves.{IsCutOf, name_of_halves};
    ghost use Rattle.bitvec_iter.specs.LentPieces.{name_of_pieces, walk_of};
    ghost use Rattle.bitvec_iter.specs.LentWalk.{IsWalkOf};

    /// The bits.
    ///
    /// ```
    /// let mut view = BitSliceMut::<u8, Lsb0>::from_slice_mut(bytes);
    /// let mut bits = view.iter_mut();
    /// ```
    fn iter_mut(&mut self) -> IterMut<'_, T, O>
        ensures* writes_back { sem 𝓛 (follows Self.row (Array T.row 0) self.entry.ghost_name (name_of_bits result) (Self.with_elements self.old)) }
        ensures walk { IsAllOf (Self.shows self.old) (bit_walk_of result) };

    /// The bits before the index `mid`, and those from it on. Condition: `mid` is at most `len`.
    ///
    /// ```
    /// let mut view = BitSliceMut::<u8, O>::from_slice_mut(bytes);
    /// let mut halves = view.split_at_mut(mid);
    /// ```
    fn split_at_mut(&mut self, mid: usize) -> HalvesMut<'_, T, O>
        requires { mid ≤ (Self.shows self.old).window.len }
        ensures* writes_back { sem 𝓛 (follows Self.row (Array T.row 0) self.entry.ghost_name (name_of_halves result) (Self.with_elements self.old)) }
        ensures halves { IsCutOf (Self.shows self.old) mid result };

    /// Alias of [`PieceCallsMut::split_at_mut`], under its condition.
    fn split_at_unchecked_mut(&mut self, mid: usize) -> HalvesMut<'_, T, O>
        requires { mid ≤ (Self.shows self.old).window.len }
        ensures* writes_back { sem 𝓛 (follows Self.row (Array T.row 0) self.entry.ghost_name (name_of_halves result) (Self.with_elements self.old)) }
        ensures halves { IsCutOf (Self.shows self.old) mid result };

    /// The first bit as the left half, and the others: `None` exactly where there is no bit.
    fn split_first_mut(&mut self) -> Option<HalvesMut<'_, T, O>>
        ensures { IsGiven (0 < (Self.shows self.old).window.len) (IsCutOf (Self.shows self.old) 1) result };

    /// The last bit as the right half, and the others: `None` exactly where there is no bit.
    fn split_last_mut(&mut self) -> Option<HalvesMut<'_, T, O>>
        ensures { IsGiven (0 < (Self.shows self.old).window.len)
            (IsCutOf (Self.shows self.old) ((Self.shows self.old).window.len - 1)) result };

    /// The first bit as the left half, and the others, if there is a bit: `split_first_mut`, after which a caller
    /// knows the view.
    fn split_first_lent(&mut self) -> Lent<HalvesMut<'_, T, O>>
        ensures* writes_back { sem 𝓛 (follows Self.row (Array T.row 0) self.entry.ghost_name (name_of_halves (piece_of result)) (Self.with_elements self.old)) }
        ensures lent { is_lent result ≡ nat_lt 0 (Self.shows self.old).window.len }
        ensures halves { IsCutOf (Self.shows self.old) (min 1 (Self.shows self.old).window.len) (piece_of result) };

    /// The last bit as the right half, and the others, if there is a bit: `split_last_mut`, after which a caller
    /// knows the view.
    fn split_last_lent(&mut self) -> Lent<HalvesMut<'_, T, O>>
        ensures* writes_back { sem 𝓛 (follows Self.row (Array T.row 0) self.entry.ghost_name (name_of_halves (piece_of result)) (Self.with_elements self.old)) }
        ensures lent { is_lent result ≡ nat_lt 0 (Self.shows self.old).window.len }
        ensures halves { IsCutOf (Self.shows self.old) ((Self.shows self.old).window.len - 1) (piece_of result) };

    /// The chunks of `size` bits from the first bit on: the last may be shorter. Condition: `size` is
    /// not 0.
    ///
    /// ```
    /// let mut view = BitSliceMut::<u8, Lsb0>::from_slice_mut(bytes);
    /// let mut chunks = view.chunks_mut(3);
    /// ```
    fn chunks_mut(&mut self, size: usize) -> ChunksMut<'_, T, O>
        requires { 0 < size }
        ensures* writes_back { sem 𝓛 (follows Self.row (Array T.row 0) self.entry.ghost_name (name_of_pieces result) (Self.with_elements self.old)) }
        ensures walk { IsWalkOf (Self.shows self.old) (chunk_count size (Self.shows self.old).window.len) (walk_of result) }
        ensures size { (walk_of result).cutting.size ≡ size };

    /// The whole chunks of `size` bits from the first bit on: the others are the remainder. Condition:
    /// `size` is not 0.
    ///
    /// ```
    /// let mut view = BitSliceMut::<u8, Msb0>::from_slice_mut(bytes);
    /// let mut chunks = view.chunks_exact_mut(4);
    /// ```
    fn chunks_exact_mut(&mut self, size: usize) -> ChunksExactMut<'_, T, O>
        requires { 0 < size }
        ensures* writes_back { sem 𝓛 (follows Self.row (Array T.row 0) self.entry.ghost_name (name_of_pieces result) (Self.with_elements self.old)) }
        ensures walk { IsWalkOf (Self.shows self.old) (whole_count size (Self.shows self.old).window.len) (walk_of result) }
        ensures size { (walk_of result).cutting.size ≡ size };

    /// The chunks of `size` bits from the last bit on: the last, which begins the view, may be shorter.
    /// Condition: `size` is not 0.
    ///
    /// ```
    /// let mut view = BitSliceMut::<u8, Lsb0>::from_slice_mut(bytes);
    /// let mut chunks = view.rchunks_mut(3);
    /// ```
    fn rchunks_mut(&mut self, size: usize) -> RChunksMut<'_, T, O>
        requires { 0 < size }
        ensures* writes_back { sem 𝓛 (follows Self.row (Array T.row 0) self.entry.ghost_name (name_of_pieces result) (Self.with_elements self.old)) }
        ensures walk { IsWalkOf (Self.shows self.old) (chunk_count size (Self.shows self.old).window.len) (walk_of result) }
        ensures size { (walk_of result).cutting.size ≡ size };

    /// The whole chunks of `size` bits from the last bit on: the others are the remainder. Condition:
    /// `size` is not 0.
    ///
    /// ```
    /// let chunks = view.rchunks_exact_mut(3);
    /// let mut rest = chunks.into_remainder();
    /// rest.fill(true);
    /// ```
    fn rchunks_exact_mut(&mut self, size: usize) -> RChunksExactMut<'_, T, O>
        requires { 0 < size }
        ensures* writes_back { sem 𝓛 (follows Self.row (Array T.row 0) self.entry.ghost_name (name_of_pieces result) (Self.with_elements self.old)) }
        ensures walk { IsWalkOf (Self.shows self.old) (whole_count size (Self.shows self.old).window.len) (walk_of result) }
        ensures size { (walk_of result).cutting.size ≡ size };
}

impl<'a, T: BitStore, O: BitOrder> PieceCallsMut<T, O> for BitSliceMut<'a, T, O> {
    fn iter_mut(&mut self) -> IterMut<'_, T, O> {
        IterMut::new(self)
    }

    fn split_at_mut(&mut self, mid: usize) -> HalvesMut<'_, T, O> {
        HalvesMut::new(self, mid)
    }

    fn split_at_unchecked_mut(&mut self, mid: usize) -> HalvesMut<'_, T, O> {
        HalvesMut::new(self, mid)
    }

    fn split_first_mut(&mut self) -> Option<HalvesMut<'_, T, O>> {
        self.split_first_lent().some()
    }

    fn split_last_mut(&mut self) -> Option<HalvesMut<'_, T, O>> {
        self.split_last_lent().some()
    }

    fn split_first_lent(&mut self) -> Lent<HalvesMut<'_, T, O>> {
        let mid = self.len().min(1);
        Lent::new(HalvesMut::new(self, mid), mid == 1)
    }

    fn split_last_lent(&mut self) -> Lent<HalvesMut<'_, T, O>> {
        let len = self.len();
        Lent::new(HalvesMut::new(self, len.saturating_sub(1)), len > 0)
    }

    fn chunks_mut(&mut self, size: usize) -> ChunksMut<'_, T, O> {
        PiecesMut::new(self, InChunks { size })
    }

    fn chunks_exact_mut(&mut self, size: usize) -> ChunksExactMut<'_, T, O> {
        PiecesMut::new(self, InExactChunks { size })
    }

    fn rchunks_mut(&mut self, size: usize) -> RChunksMut<'_, T, O> {
        PiecesMut::new(self, InChunksFromEnd { size })
    }

    fn rchunks_exact_mut(&mut self, size: usize) -> RChunksExactMut<'_, T, O> {
        PiecesMut::new(self, InExactChunksFromEnd { size })
    }
}
