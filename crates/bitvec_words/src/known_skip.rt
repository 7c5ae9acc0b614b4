//! Loops that know by how much they shift.
ghost use Rattle.std.specs.Prelude.{◌/◌, ◌≤◌, ◌↔◌, IsTrue};

use crate::tuning::KNOWN_SKIP_BITS;
use bitvec_base::elements_of;
use bitvec_store::BitStore;

/// Whether [`crate::at_known_skip`] pays: that many elements are of at most 16 bits and make 512 bits or more.
#[inline(always)]
pub fn known_skip_pays<T: BitStore>(count: usize) -> bool
    ensures { IsTrue result ↔ (T.BITS ≤ 16) × (512 / T.BITS ≤ count) }
{
    T::BITS <= u16::BITS && count >= elements_of::<T>(KNOWN_SKIP_BITS)
}

/// A call in a branch of its own for each `skip` of elements of at most 16 bits (1 to 15), so that the
/// compiler, which knows the number there, makes a loop for each: where it doesn't know by how much is
/// shifted, a loop makes the masks for bytes, and the vector of shifts, anew in each pass.
#[macro_export]
macro_rules! at_known_skip {
    ($skip:ident, $call:expr) => {
        $crate::at_known_skip!($skip, $call, 1 2 3 4 5 6 7 8 9 10 11 12 13 14 15)
    };
    ($skip:ident, $call:expr, $($known:literal)*) => {
        match $skip {
            $($known => $call,)*
            _ => $call,
        }
    };
}
