//! Why a reader or a writer of bits refused.
use thiserror::Error;

/// Why bits were not read or written.
#[derive(Clone, Copy, Debug, Drop, Error, Eq, PartialEq)]
pub enum CursorError {
    /// Fewer bits are left than were to be written.
    #[error("too few bits are left to write")]
    Full,
    /// Fewer bits are left than were asked for.
    #[error("too few bits are left to read")]
    Ended,
}
