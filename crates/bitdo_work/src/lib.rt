//! The work of the program `bitdo`: arguments and lines in, one run, replies and memory out.
#![tactic(auto)]

mod arguments;
mod elements;
mod fault;
mod input;
mod lines;
mod ops;
mod print;
mod program;
mod words;

pub use program::work;
