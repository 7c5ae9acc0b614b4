//! What a caller of this crate names of `bitvec`.
pub use bitvec::index::Window;
pub use bitvec::prelude::{
    BitEdits, BitQueries, BitSlice, BitSliceMut, BitStore, BitVec, FieldOrder, Lsb0, Msb0,
    OnesCalls, RepeatError, SliceOrder, ToBitVec,
};
