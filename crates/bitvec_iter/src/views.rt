//! Both view types can be walked.
use crate::{Chunks, ChunksExact, IterCalls, Pieces, RChunks, RChunksExact, Windows};
use bitvec_base::BitOrder;
use bitvec_cutting::{InChunks, InChunksFromEnd, InExactChunks, InExactChunksFromEnd, InWindows};
use bitvec_slice::{BitSlice, BitSliceMut};
use bitvec_store::BitStore;

impl<'a, T: BitStore, O: BitOrder> IterCalls<T> for BitSlice<'a, T, O> {
    type Windows = Windows<'a, T, O>;

    type Chunks = Chunks<'a, T, O>;

    type ChunksExact = ChunksExact<'a, T, O>;

    type RChunks = RChunks<'a, T, O>;

    type RChunksExact = RChunksExact<'a, T, O>;

    fn windows(self, size: usize) -> Windows<'a, T, O> {
        Pieces::new(self, InWindows { size })
    }

    fn chunks(self, size: usize) -> Chunks<'a, T, O> {
        Pieces::new(self, InChunks { size })
    }

    fn chunks_exact(self, size: usize) -> ChunksExact<'a, T, O> {
        Pieces::new(self, InExactChunks { size })
    }

    fn rchunks(self, size: usize) -> RChunks<'a, T, O> {
        Pieces::new(self, InChunksFromEnd { size })
    }

    fn rchunks_exact(self, size: usize) -> RChunksExact<'a, T, O> {
        Pieces::new(self, InExactChunksFromEnd { size })
    }
}

impl<'a, 'v, T: BitStore, O: BitOrder> IterCalls<T> for &'v BitSliceMut<'a, T, O> {
    type Windows = Windows<'v, T, O>;

    type Chunks = Chunks<'v, T, O>;

    type ChunksExact = ChunksExact<'v, T, O>;

    type RChunks = RChunks<'v, T, O>;

    type RChunksExact = RChunksExact<'v, T, O>;

    fn windows(self, size: usize) -> Windows<'v, T, O> {
        self.as_ref().windows(size)
    }

    fn chunks(self, size: usize) -> Chunks<'v, T, O> {
        self.as_ref().chunks(size)
    }

    fn chunks_exact(self, size: usize) -> ChunksExact<'v, T, O> {
        self.as_ref().chunks_exact(size)
    }

    fn rchunks(self, size: usize) -> RChunks<'v, T, O> {
        self.as_ref().rchunks(size)
    }

    fn rchunks_exact(self, size: usize) -> RChunksExact<'v, T, O> {
        self.as_ref().rchunks_exact(size)
    }
}
