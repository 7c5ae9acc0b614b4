//! The whole library from one crate: views of bits, orders and elements, and what these stand on.
//!
//! A path is that of the Rust crate where that has the item. `prelude` has what most programs use.
#![tactic(auto)]

pub mod array;
pub mod cells;
pub mod domain;
pub mod elements;
pub mod engine;
pub mod field;
pub mod in_place;
pub mod index;
pub mod order;
pub mod prelude;
pub mod ptr;
pub mod run;
pub mod slice;
pub mod store;
pub mod vec;
pub mod walk;
pub mod words;
