//! Views, split by a predicate.
#![tactic(auto)]

mod asking;
mod calls;
mod kinds;
mod limiting;
mod rows;
mod splitting;
mod texts;
mod walks;

pub use calls::SplitCalls;
pub use kinds::{Forward, Inclusive, Reversed, SplitKind};
pub use limiting::{RSplitN, SplitN, SplitsN};
#[doc(hidden)]
pub use rows::{ask_row, cut_row};
pub use splitting::{RSplit, Split, SplitInclusive, Splits};
#[doc(hidden)]
pub use texts::write_limited;
pub use walks::{LimitedSplitWalk, SplitWalk};
