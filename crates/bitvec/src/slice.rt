//! Views of bits, their indices, their walks and pieces, and the traits of their questions and edits.
pub use bitvec_closures::{EditElements, EditParts, EditSplits};
pub use bitvec_cutting::{
    Cutting, ExactCutting, InChunks, InChunksFromEnd, InExactChunks, InExactChunksFromEnd,
    InWindows,
};
pub use bitvec_edit::BitEdits;
pub use bitvec_field::{Binary, LowerHex, Octal, UpperHex};
pub use bitvec_iter::{
    Chunks, ChunksExact, ChunksExactMut, ChunksMut, HalvesMut, IterCalls, IterMut, PieceCallsMut,
    PieceWalk, Pieces, PiecesMut, RChunks, RChunksExact, RChunksExactMut, RChunksMut, Windows,
};
pub use bitvec_lent_split::{
    AtMost, Every, RSplitMut, RSplitNMut, SplitCallsMut, SplitInclusiveMut, SplitLimit, SplitMut,
    SplitNMut, SplitsMut, SplitsNMut,
};
pub use bitvec_owned::ToBitVec;
pub use bitvec_query::{
    BitQueries, IndexWalk, IterOnes, IterZeros, Ones, OnesCalls, Places, Wanted, Zeros,
};
pub use bitvec_slice::{
    BitRefIter, BitSlice, BitSliceIndex, BitSliceMut, BitValIter, Iter, Lent, LentIndex, Shows,
    View, ViewMut, Viewed, ViewedMut, from_mut, from_ref,
};
pub use bitvec_split::{
    Forward, Inclusive, LimitedSplitWalk, RSplit, RSplitN, Reversed, Split, SplitCalls,
    SplitCalls as PieceCalls, SplitInclusive, SplitKind, SplitN, SplitWalk, Splits, SplitsN,
};
