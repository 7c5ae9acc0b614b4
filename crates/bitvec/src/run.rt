//! Lists of commands, run through a window of a memory, or through two halves of a view.
pub use bitvec_commands::{Op, Refusal, Reply};
pub use bitvec_run::{FieldOp, FieldStep, RunError, Step, run, run_fields};
pub use bitvec_run_halves::{Side, run_halves};
