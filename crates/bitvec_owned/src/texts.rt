//! The texts of owned sequences.
ghost use Rattle.std.specs.Prelude.{Some};
ghost use Rattle.bitvec_domain.specs.Listing.{bits_text};
ghost use Rattle.bitvec_owned.specs.Owned.{owned};

use crate::BitVec;
use bitvec_base::BitOrder;
use bitvec_store::BitStore;
use std::alloc::Allocator;
use std::fmt;

/// The bits as a list, as `[0, 1, 0]`.
impl<T: BitStore, O: BitOrder, A: Allocator> fmt::Display for BitVec<T, O, A> {
    ghost output = { λ bits. Some (bits_text (owned bits).bits) };

    fn fmt<W: fmt::Write>(&self, f: &mut fmt::Formatter<W>) -> fmt::Result {
        fmt::Display::fmt(&self.as_bitslice(), f)
    }
}

/// The text of `Display`.
impl<T: BitStore, O: BitOrder, A: Allocator> fmt::Debug for BitVec<T, O, A> {
    ghost debug_output = { λ bits. Some (bits_text (owned bits).bits) };

    fn fmt<W: fmt::Write>(&self, f: &mut fmt::Formatter<W>) -> fmt::Result {
        fmt::Debug::fmt(&self.as_bitslice(), f)
    }
}
