//! Lists of commands, and of loads and stores of numbers, run through a window of a memory.
#![tactic(auto)]

mod field_runner;
mod field_step;
mod field_stepping;
mod run_error;
mod run_step;
mod runner;
mod running;
mod step;

pub use field_runner::run_fields;
pub use field_step::{FieldOp, FieldStep};
pub use run_error::RunError;
pub use run_step::RunStep;
pub use runner::run;
pub use running::whole;
pub use step::Step;
