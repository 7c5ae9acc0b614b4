//! Two windows' bits, index by index, many at a time: copied, combined by a Boolean operator, or compared.
#![tactic(auto)]

mod acting;
mod acting_equal;
mod acting_on_windows;
mod acting_shifted;
mod acting_short;
mod combining;
mod comparing;
mod copying;
mod phases;
mod tuning;

pub use acting::Act;
pub use acting_equal::Equal;
pub use acting_on_windows::{act, act_phased};
pub use acting_shifted::Shifted;
pub use acting_short::{ShiftedShort, act_short};
pub use combining::{combine, combine_equal, combine_zeros};
pub use comparing::{equal, equal_shifted, equal_unshifted};
pub use copying::{copy, copy_equal, copy_shifted};
pub use phases::Phases;
