//! The calls that walk over the parts of a view.
ghost use Rattle.std.specs.Prelude.{◌≡◌, ◌<◌, ◌≤◌, length};
ghost use Rattle.bitvec_base.specs.Window.{max_bits};
ghost use Rattle.bitvec_cutting.specs.Cutting.{back_chunk, chunk, chunk_count, whole_chunk, whole_count, window, window_count};
ghost use Rattle.bitvec_iter.specs.Parts.{parts_of};

use crate::PieceWalk;
use bitvec_cutting::{InChunks, InChunksFromEnd, InExactChunks, InExactChunksFromEnd, InWindows};
use bitvec_slice::Shows;
use bitvec_store::BitStore;

/// The walks of `bitvec`'s `BitSlice` over its parts, for both view types: of a `BitSlice` they live as
/// long as its elements, of a `&BitSliceMut` as long as that borrow. Sizes are in bits.
pub trait IterCalls<T: BitStore>: Shows<T> {
    /// What `windows` makes.
    type Windows: PieceWalk<T, InWindows>;

    /// What `chunks` makes.
    type Chunks: PieceWalk<T, InChunks>;

    /// What `chunks_exact` makes.
    type ChunksExact: PieceWalk<T, InExactChunks>;

    /// What `rchunks` makes.
    type RChunks: PieceWalk<T, InChunksFromEnd>;

    /// What `rchunks_exact` makes.
    type RChunksExact: PieceWalk<T, InExactChunksFromEnd>;

    /// Windows of that many bits, each one bit behind the one before it. Condition: the size is above
    /// 0.
    ///
    /// ```
    /// bits.windows(2).filter(|pair| pair.some()).count()
    /// ```
    fn windows(self, size: usize) -> Self::Windows
        requires { 0 < size }
        ensures pieces { Self.Windows.left result ≡ parts_of T.BITS (Self.shows self) (window_count size) (window size) }
        ensures view { Self.Windows.walked result ≡ Self.shows self }
        ensures size { (Self.Windows.cut_by result).size ≡ size }
        ensures bound { length (Self.Windows.left result) ≤ max_bits }
        ensures runs { Self.Windows.Yields result };

    /// Chunks of that many bits from the first bit on, of which the last may be shorter. Condition: the
    /// size is above 0.
    ///
    /// ```
    /// let view = BitSlice::<u8, Msb0>::from_slice(&elements);
    /// let mut chunks = view.chunks(3);
    /// assert!(rt; read(chunks.next()) == Some((3, 0)));
    /// ```
    fn chunks(self, size: usize) -> Self::Chunks
        requires { 0 < size }
        ensures pieces { Self.Chunks.left result ≡ parts_of T.BITS (Self.shows self) (chunk_count size) (chunk size) }
        ensures view { Self.Chunks.walked result ≡ Self.shows self }
        ensures size { (Self.Chunks.cut_by result).size ≡ size }
        ensures bound { length (Self.Chunks.left result) ≤ max_bits }
        ensures runs { Self.Chunks.Yields result };

    /// Chunks of that many bits from the first bit on; `remainder` has the bits behind them. Condition:
    /// the size is above 0.
    ///
    /// ```
    /// let view = BitSliceMut::<u8, Msb0>::from_slice_mut(&mut elements);
    /// let mut front = view.chunks_exact(3);
    /// assert!(rt; (read(front.next_back()), front.len()) == (Some((3, 5)), 1));
    /// ```
    fn chunks_exact(self, size: usize) -> Self::ChunksExact
        requires { 0 < size }
        ensures pieces { Self.ChunksExact.left result ≡ parts_of T.BITS (Self.shows self) (whole_count size) (whole_chunk size) }
        ensures view { Self.ChunksExact.walked result ≡ Self.shows self }
        ensures size { (Self.ChunksExact.cut_by result).size ≡ size }
        ensures bound { length (Self.ChunksExact.left result) ≤ max_bits }
        ensures runs { Self.ChunksExact.Yields result };

    /// Chunks of that many bits from the last bit on, of which the last, at the start, may be shorter.
    /// Condition: the size is above 0.
    ///
    /// ```
    /// let mut chunks = view.rchunks(3);
    /// assert!(rt; read(chunks.next()) == Some((3, 7)));
    /// ```
    fn rchunks(self, size: usize) -> Self::RChunks
        requires { 0 < size }
        ensures pieces { Self.RChunks.left result ≡ parts_of T.BITS (Self.shows self) (chunk_count size) (back_chunk size) }
        ensures view { Self.RChunks.walked result ≡ Self.shows self }
        ensures size { (Self.RChunks.cut_by result).size ≡ size }
        ensures bound { length (Self.RChunks.left result) ≤ max_bits }
        ensures runs { Self.RChunks.Yields result };

    /// Chunks of that many bits from the last bit on; `remainder` has the bits before them. Condition:
    /// the size is above 0.
    ///
    /// ```
    /// assert!(rt; read(Some(view.rchunks_exact(3).remainder())) == Some((2, 0)));
    /// ```
    fn rchunks_exact(self, size: usize) -> Self::RChunksExact
        requires { 0 < size }
        ensures pieces { Self.RChunksExact.left result ≡ parts_of T.BITS (Self.shows self) (whole_count size) (back_chunk size) }
        ensures view { Self.RChunksExact.walked result ≡ Self.shows self }
        ensures size { (Self.RChunksExact.cut_by result).size ≡ size }
        ensures bound { length (Self.RChunksExact.left result) ≤ max_bits }
        ensures runs { Self.RChunksExact.Yields result };
}
