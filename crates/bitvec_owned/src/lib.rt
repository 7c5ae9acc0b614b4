//! Owned bits, which are asked, edited, walked, compared and printed as views are: sequences, which get more bits and
//! fewer, copies and repeats of views, and arrays.
#![tactic(auto)]

mod array;
mod bit_vec;
mod cloning;
mod copying;
mod counts;
mod equality;
mod growing;
mod iterating;
mod repeating;
mod texts;
mod to_bitvec;
mod views;

pub use array::BitArray;
pub use bit_vec::BitVec;
pub use repeating::RepeatError;
pub use to_bitvec::ToBitVec;
