//! What most programs use.
pub use bitvec_base::{BitOrder, BitSpanError, HiLo, Lsb0, Msb0};
pub use bitvec_closures::{EditElements, EditParts, EditSplits};
pub use bitvec_domain::{BitRef, BitRefMut, Domain, DomainMut};
pub use bitvec_edit::BitEdits;
pub use bitvec_engine::SliceOrder;
pub use bitvec_field::{Binary, BitField, BitFieldMut, Integral, LowerHex, Octal, UpperHex};
pub use bitvec_in_place::own_edit::Edit;
pub use bitvec_iter::{IterCalls, PieceCallsMut};
pub use bitvec_lent_split::SplitCallsMut;
pub use bitvec_numbers::FieldOrder;
pub use bitvec_owned::{BitArray, BitVec, RepeatError, ToBitVec};
pub use bitvec_query::{BitQueries, OnesCalls};
pub use bitvec_slice::{BitDomain, BitDomainMut, BitSlice, BitSliceIndex, BitSliceMut, Lent, View};
pub use bitvec_split::{SplitCalls, SplitCalls as PieceCalls};
pub use bitvec_store::BitStore;
