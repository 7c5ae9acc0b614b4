//! Runs of steps on a window that test what they are handed, as the operations of `bitvec_checked` do:
//! steps and replies are structs of numbers.
#![tactic(auto)]

mod operations;
mod replies;
mod running;
mod steps;

pub use operations::OPERATIONS;
pub use replies::RawReply;
pub use running::{OP, ROOM, run};
pub use steps::RawStep;
