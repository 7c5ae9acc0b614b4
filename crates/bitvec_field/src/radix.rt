//! Views that print digits of their bits.
ghost use Rattle.std.specs.Prelude.{Some, false, true};

use crate::segments::write_radix;
use bitvec_base::BitOrder;
use bitvec_slice::BitSlice;
use bitvec_store::BitStore;
use std::fmt;

/// A view that prints a digit for each bit, as `[0100, 0010]`: `{:b}` of `bitvec`. There is a text for
/// each part of the view in one element. This type and the three below stand for `bitvec`'s impls of the
/// traits of these names.
#[derive(Clone, Copy)]
pub struct Binary<'a, T: BitStore, O: BitOrder>(pub BitSlice<'a, T, O>);

/// A view that prints a digit for three bits of a part, counted from the part's end: `{:o}` of
/// `bitvec`.
#[derive(Clone, Copy)]
pub struct Octal<'a, T: BitStore, O: BitOrder>(pub BitSlice<'a, T, O>);

/// A view that prints a digit, as `a`, for four bits of a part, counted from the part's end: `{:x}` of
/// `bitvec`.
#[derive(Clone, Copy)]
pub struct LowerHex<'a, T: BitStore, O: BitOrder>(pub BitSlice<'a, T, O>);

/// A view that prints a digit, as `A`, for four bits of a part, counted from the part's end: `{:X}` of
/// `bitvec`.
#[derive(Clone, Copy)]
pub struct UpperHex<'a, T: BitStore, O: BitOrder>(pub BitSlice<'a, T, O>);

impl<'a, T: BitStore, O: BitOrder> fmt::Display for Binary<'a, T, O> {
    ghost use Rattle.bitvec_slice.specs.Views.{seen};
    ghost use Rattle.bitvec_field.specs.Radix.{radix_text};

    ghost output = { λ text. Some (radix_text T.BITS (seen text.0).window.start 1 false (seen text.0).bits) };

    fn fmt<W: fmt::Write>(&self, f: &mut fmt::Formatter<W>) -> fmt::Result {
        write_radix(self.0, 1, false, f)
    }
}

impl<'a, T: BitStore, O: BitOrder> fmt::Display for Octal<'a, T, O> {
    ghost use Rattle.bitvec_slice.specs.Views.{seen};
    ghost use Rattle.bitvec_field.specs.Radix.{radix_text};

    ghost output = { λ text. Some (radix_text T.BITS (seen text.0).window.start 3 false (seen text.0).bits) };

    fn fmt<W: fmt::Write>(&self, f: &mut fmt::Formatter<W>) -> fmt::Result {
        write_radix(self.0, 3, false, f)
    }
}

impl<'a, T: BitStore, O: BitOrder> fmt::Display for LowerHex<'a, T, O> {
    ghost use Rattle.bitvec_slice.specs.Views.{seen};
    ghost use Rattle.bitvec_field.specs.Radix.{radix_text};

    ghost output = { λ text. Some (radix_text T.BITS (seen text.0).window.start 4 false (seen text.0).bits) };

    fn fmt<W: fmt::Write>(&self, f: &mut fmt::Formatter<W>) -> fmt::Result {
        write_radix(self.0, 4, false, f)
    }
}

impl<'a, T: BitStore, O: BitOrder> fmt::Display for UpperHex<'a, T, O> {
    ghost use Rattle.bitvec_slice.specs.Views.{seen};
    ghost use Rattle.bitvec_field.specs.Radix.{radix_text};

    ghost output = { λ text. Some (radix_text T.BITS (seen text.0).window.start 4 true (seen text.0).bits) };

    fn fmt<W: fmt::Write>(&self, f: &mut fmt::Formatter<W>) -> fmt::Result {
        write_radix(self.0, 4, true, f)
    }
}
