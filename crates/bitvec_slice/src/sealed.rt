//! The value that calls within the library ask for.

/// The argument of calls that reach bits outside a view. Only the library's crates can make it: `bitvec` does
/// not pass it on.
#[derive(Clone, Copy)]
pub struct Sealed;
