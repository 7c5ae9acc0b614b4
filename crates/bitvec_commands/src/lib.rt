//! Commands on the list that a window holds, beside a right list.
#![tactic(auto)]

mod carrying;
mod command;
mod edit;
mod query;
mod refusal;
mod right;

pub use carrying::carry_out;
pub use command::{Op, Refusal, Reply};
pub use refusal::command_refusal;
