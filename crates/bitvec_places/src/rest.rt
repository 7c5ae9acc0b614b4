//! What a walk has yet to reach.

/// The indices of a window that a walk has yet to reach: from `front` up to, but not including,
/// `back`.
#[derive(Clone, Copy, PartialEq, Eq, Debug)]
pub struct Rest {
    /// The first index.
    pub front: usize,
    /// The first index past them.
    pub back: usize,
}
