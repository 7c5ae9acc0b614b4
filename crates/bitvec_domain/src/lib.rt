//! The pieces of a borrowed slice of elements: those that a range of bits touches, cut at the edges of
//! elements, and parts of one element. Single bits of a window, and references to them.
//! What the hashes and texts of views stand on.
//!
//! A struct with a first field `elements: &'a mut [T]` and ghost fields lends these elements, or a range of them, by a
//! method of one expression. No proof of that is generated, so it stands here once for all such structs: a lender above
//! cites `specs/Lender.antt` or `specs/PartLender.antt` in a file of some 25 lines.
#![tactic(auto)]

mod answering;
mod bits;
mod cut;
mod domain;
mod domain_mut;
mod feeding;
mod listing;
mod part;
mod part_mut;
mod reference;
mod reference_equality;
mod reference_mut;
mod reference_texts;
mod values;

pub use answering::{fill_with_in, for_each_in};
pub use bits::{bit_in, replace_in, set_in, swap_in};
pub use cut::Cut;
pub use domain::{Domain, Region, domain_of};
pub use domain_mut::{DomainMut, RegionMut, domain_mut_of};
pub use feeding::hash_in;
pub use listing::{separator_before, write_bits_in};
pub use part::PartialElement;
pub use part_mut::PartialElementMut;
pub use reference::BitRef;
pub use reference_mut::BitRefMut;
pub use values::DomainValues;
