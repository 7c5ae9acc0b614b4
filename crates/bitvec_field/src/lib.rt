//! Views' bits as numbers: integers loaded from the bits of a view and stored in them, and the bits
//! written with a digit for one, three or four of them.
#![tactic(auto)]

mod bit_field;
mod digits;
mod integral;
mod radix;
mod segments;
mod signed;
mod slices;
mod unsigned;
mod views;

pub use bit_field::{BitField, BitFieldMut};
pub use integral::Integral;
pub use radix::{Binary, LowerHex, Octal, UpperHex};
pub use slices::{load_be_in, load_le_in, store_be_in, store_le_in};
