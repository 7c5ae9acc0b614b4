//! The tuned number of this crate: it doesn't change what a function does.

/// How many whole elements are moved in a turn: so many that the compiler makes vectors of them before it unrolls the turn. By
/// its own choice a turn has two vectors, and takes up to twice as long where its jump falls badly. Rows `copy_within`.
pub(crate) const MOVE_TURN: usize = 128;
