//! Questions about the bits of a view: how many, where, whether, and how they compare. Walks over the indices
//! of its ones and zeros go from both ends.
#![tactic(auto)]

mod index_walk;
mod ones_calls;
mod places;
mod queries;
mod runs;
mod texts;
mod views;
mod wanted;

pub use index_walk::IndexWalk;
pub use ones_calls::OnesCalls;
pub use places::{IterOnes, IterZeros, Places};
pub use queries::BitQueries;
pub use wanted::{Ones, Wanted, Zeros};
