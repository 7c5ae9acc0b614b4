//! Counted access to the elements of a memory.
pub use bitvec_cells::{Cells, CellsRead, Exclusive, Shared, fits_max_bits, has_window};
