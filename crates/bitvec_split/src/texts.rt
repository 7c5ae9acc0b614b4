//! The texts of shared splits.
ghost use Rattle.std.specs.Prelude.{◌≡◌, ◌++◌, Some, codes};
ghost use Rattle.std.specs.Fmt.{DisplaysOnOk, debug_variant, decimal};
ghost use Rattle.bitvec_slice.specs.Views.{seen};
ghost use Rattle.bitvec_domain.specs.Listing.{bits_text, comma};
ghost use Rattle.bitvec_split.specs.Splits.{uncut};

use crate::{Splits, SplitsN};
use bitvec_base::BitOrder;
use bitvec_slice::{BitSlice, write_named};
use bitvec_store::BitStore;
use std::fmt;

/// Writes a name, and behind it in parentheses a view and how many pieces may come. `bitvec` has no such call.
#[doc(hidden)]
pub fn write_limited<T: BitStore, O: BitOrder, V: fmt::Write>(
    name: &str,
    left: BitSlice<'_, T, O>,
    count: usize,
    f: &mut fmt::Formatter<V>,
) -> fmt::Result
    ensures { DisplaysOnOk V.write_str_gives f.old result (debug_variant name.now (Some (bits_text (seen left.entry).bits ++ (comma ++ decimal count)))) f.new }
{
    write!(f, "{name}({left}, {count})")
}

impl<'a, T: BitStore, O: BitOrder, P, W> Splits<'a, T, O, P, W> {
    ghost use Rattle.bitvec_split.specs.Views.{left_of};

    // The bits of which pieces are still to come.
    fn uncut(&self) -> BitSlice<'a, T, O>
        ensures { (seen result).bits ≡ uncut (left_of self.now) }
    {
        if self.finished {
            return BitSlice::empty();
        }
        self.rest
    }
}

/// The bits that no piece has yet, as `Splits([0, 1, 0])`: none once the last piece was given.
impl<'a, T: BitStore, O: BitOrder, P, W> fmt::Debug for Splits<'a, T, O, P, W> {
    ghost use Rattle.bitvec_split.specs.Views.{left_of};

    ghost debug_output = { λ s. debug_variant (codes "Splits") (Some (bits_text (uncut (left_of s)))) };

    fn fmt<V: fmt::Write>(&self, f: &mut fmt::Formatter<V>) -> fmt::Result {
        write_named("Splits", self.uncut(), f)
    }
}

/// The bits that no piece has yet, and how many pieces may come, as `SplitsN([0, 1, 0], 2)`.
impl<'a, T: BitStore, O: BitOrder, P, W> fmt::Debug for SplitsN<'a, T, O, P, W> {
    ghost use Rattle.bitvec_split.specs.Views.{limited_of};

    ghost debug_output = { λ s. debug_variant (codes "SplitsN") (Some (bits_text (uncut (limited_of s).left) ++ (comma ++ decimal (limited_of s).count))) };

    fn fmt<V: fmt::Write>(&self, f: &mut fmt::Formatter<V>) -> fmt::Result {
        write_limited("SplitsN", self.parts.uncut(), self.count, f)
    }
}
