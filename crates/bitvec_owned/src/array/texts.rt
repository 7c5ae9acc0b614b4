//! The texts of arrays of bits.
ghost use Rattle.std.specs.Prelude.{Some};
ghost use Rattle.bitvec_domain.specs.Listing.{bits_text};
ghost use Rattle.bitvec_owned.specs.Arrays.{in_array};

use crate::BitArray;
use bitvec_base::BitOrder;
use bitvec_store::BitStore;
use std::fmt;

/// The bits as a list, as `[0, 1, 0]`.
impl<T: BitStore, O: BitOrder, const N: usize> fmt::Display for BitArray<T, O, N> {
    ghost output = { λ bits. Some (bits_text (in_array bits).bits) };

    fn fmt<W: fmt::Write>(&self, f: &mut fmt::Formatter<W>) -> fmt::Result {
        fmt::Display::fmt(&self.as_bitslice(), f)
    }
}

/// The text of `Display`.
impl<T: BitStore, O: BitOrder, const N: usize> fmt::Debug for BitArray<T, O, N> {
    ghost debug_output = { λ bits. Some (bits_text (in_array bits).bits) };

    fn fmt<W: fmt::Write>(&self, f: &mut fmt::Formatter<W>) -> fmt::Result {
        fmt::Debug::fmt(&self.as_bitslice(), f)
    }
}
