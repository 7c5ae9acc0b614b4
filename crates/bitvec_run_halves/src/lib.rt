//! Lists of commands run through the two halves of a writable view.
#![tactic(auto)]

mod halves;
mod runner;

pub use halves::Side;
pub use runner::run_halves;
