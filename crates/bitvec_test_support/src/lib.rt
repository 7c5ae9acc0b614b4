//! What tests share: an accessor that tallies its calls as it runs, an allocator that refuses, readers and writers
//! that give little or fail, three bytes as a plain list of bits, and what values print.
#![tactic(auto)]

mod counted;
mod memory;
pub mod refusing;
pub mod streams;
mod texts;

/// Items of `bitvec_base` that crates above use.
pub mod base {
    pub use bitvec_base::{BitOrder, HiLo, Lsb0, Msb0};
}

/// Items of `bitvec_cells` that crates above use.
pub mod cells {
    pub use bitvec_cells::{Cells, CellsRead, Exclusive, Shared, has_window};
}

/// Items of `bitvec_store` that crates above use.
pub mod store {
    pub use bitvec_store::BitStore;
}

pub use counted::Counted;
pub use memory::{MEMORIES, bits_of, flipped};
pub use refusing::Refusing;
pub use streams::{FailingReader, FailingWriter, OneByteReader};
pub use texts::{prints, shows};
