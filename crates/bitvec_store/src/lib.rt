//! The elements that a memory is made of: unsigned integers as `BitStore`.
#![tactic(auto)]

mod store;
mod widths;

pub use store::BitStore;
