//! Why a run isn't made.
use thiserror::Error;

/// Why a run wasn't made, in the order in which it is tested. Nothing was changed then.
#[derive(PartialEq, Eq, Debug, Drop, Error)]
pub enum RunError {
    /// The memory passes `MAX_BITS` bits, or the window doesn't lie in it.
    #[error("run error: window")]
    Window = 1,
    /// The right memory passes `MAX_BITS` bits.
    #[error("run error: right")]
    Right = 2,
    /// There was no room for the replies.
    #[error("run error: memory")]
    Memory = 3,
}
