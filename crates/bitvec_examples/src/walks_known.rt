//! Walks that leave the function in which the view was made or given.
ghost use Rattle.std.specs.Prelude.{◌≡◌, ◌<◌};
ghost use Rattle.bitvec.specs.Cutting.{chunk, chunk_count};
ghost use Rattle.bitvec.specs.PieceParts.{parts_of};

use bitvec::prelude::*;
use bitvec::slice::Chunks;

/// The chunks of a size of either type of views.
pub fn rows_either<T: BitStore, V: IterCalls<T>>(view: V, size: usize) -> V::Chunks
    requires { 0 < size }
    ensures { V.Chunks.left result ≡ parts_of T.BITS (V.shows view) (chunk_count size) (chunk size) }
{
    view.chunks(size)
}
