//! The texts of walks over bits.
ghost use Rattle.std.specs.Prelude.{Some, codes};
ghost use Rattle.std.specs.Fmt.{DisplaysOnOk, debug_variant};
ghost use Rattle.bitvec_domain.specs.Listing.{bits_text};
ghost use Rattle.bitvec_slice.specs.Views.{seen};

use crate::{BitRefIter, BitSlice, BitValIter, Iter};
use bitvec_base::BitOrder;
use bitvec_store::BitStore;
use std::fmt;

/// Writes a name, and behind it the view in parentheses.
#[doc(hidden)]
pub fn write_named<T: BitStore, O: BitOrder, W: fmt::Write>(
    name: &str,
    view: BitSlice<'_, T, O>,
    f: &mut fmt::Formatter<W>,
) -> fmt::Result
    ensures { DisplaysOnOk W.write_str_gives f.old result (debug_variant name.now (Some (bits_text (seen view.entry).bits))) f.new }
{
    write!(f, "{name}({view})")
}

/// The bits that are still to come, as `Iter([0, 1, 0])`.
impl<'a, T: BitStore, O: BitOrder> fmt::Debug for Iter<'a, T, O> {
    ghost use Rattle.bitvec_slice.specs.Walks.{remaining_bits};

    ghost debug_output = { λ it. debug_variant (codes "Iter") (Some (bits_text (remaining_bits it))) };

    fn fmt<W: fmt::Write>(&self, f: &mut fmt::Formatter<W>) -> fmt::Result {
        write_named("Iter", self.as_bitslice(), f)
    }
}

/// The bits that are still to come, as `BitRefIter([0, 1, 0])`.
impl<'a, T: BitStore, O: BitOrder> fmt::Debug for BitRefIter<'a, T, O> {
    ghost use Rattle.bitvec_slice.specs.Walks.{refs_left};

    ghost debug_output = { λ it. debug_variant (codes "BitRefIter") (Some (bits_text (refs_left it))) };

    fn fmt<W: fmt::Write>(&self, f: &mut fmt::Formatter<W>) -> fmt::Result {
        write_named("BitRefIter", self.bits.as_bitslice(), f)
    }
}

/// The bits that are still to come, as `BitValIter([0, 1, 0])`.
impl<'a, T: BitStore, O: BitOrder> fmt::Debug for BitValIter<'a, T, O> {
    ghost use Rattle.bitvec_slice.specs.Walks.{vals_left};

    ghost debug_output = { λ it. debug_variant (codes "BitValIter") (Some (bits_text (vals_left it))) };

    fn fmt<W: fmt::Write>(&self, f: &mut fmt::Formatter<W>) -> fmt::Result {
        write_named("BitValIter", self.bits.as_bitslice(), f)
    }
}
