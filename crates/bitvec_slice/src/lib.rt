//! Bit slices: views of the bits of a slice of elements.
#![tactic(auto)]

mod bit_domain;
mod bit_iters;
mod bit_parts;
mod comparison;
mod constructors;
mod conversions;
mod ends;
mod equality;
mod hashing;
mod index;
mod index_ranges;
mod indices;
mod iter;
mod iterating;
mod lenders;
mod lent;
mod lent_indices;
mod operators;
mod sealed;
mod showing;
mod split_apart;
mod splits;
mod strips;
mod texts;
mod touching;
mod transfers;
mod view;
mod view_mut;
mod walk_texts;
mod writing;

pub use bit_domain::{BitDomain, BitDomainMut};
pub use bit_iters::{BitRefIter, BitValIter};
pub use bit_parts::BitDomainParts;
pub use conversions::{from_mut, from_ref};
pub use index::{BitSliceIndex, Viewed, ViewedMut};
pub use iter::Iter;
pub use lent::Lent;
pub use lent_indices::LentIndex;
#[doc(hidden)]
pub use sealed::Sealed;
pub use showing::{Shows, View};
#[doc(hidden)]
pub use touching::{TouchedPart, phase_of, touched_part};
pub use view::BitSlice;
pub use view_mut::BitSliceMut;
#[doc(hidden)]
pub use walk_texts::write_named;
pub use writing::ViewMut;
