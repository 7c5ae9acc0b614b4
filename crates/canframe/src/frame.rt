//! Frames.
use std::alloc::Global;

/// What a frame brings.
#[derive(Drop)]
pub struct Frame {
    /// What the data are about.
    pub id: u16,
    /// The data.
    pub bytes: Vec<u8>,
}
