//! The texts of a view's segments.
ghost use Rattle.std.specs.Prelude.{◌<◌, ◌≤◌};
ghost use Rattle.std.specs.Fmt.{WritesOnOk};
ghost use Rattle.std.specs.List.{join_by};
ghost use Rattle.bitvec_segments.specs.Segments.{segments};
ghost use Rattle.bitvec_slice.specs.Views.{seen};
ghost use Rattle.bitvec_field.specs.Radix.{digits_text, radix_text};
ghost use Rattle.bitvec_domain.specs.Listing.{comma};

use crate::digits::{bits_in_element, write_digits};
use bitvec_base::BitOrder;
use bitvec_domain::separator_before;
use bitvec_slice::BitSlice;
use bitvec_store::BitStore;
use std::fmt;

/// Writes a list of the digits of each of a view's segments. Condition: a digit has one to four bits.
#[tactic(auto, unfolding(crate::specs::Radix::radix_text, bitvec_domain::specs::Listing::listed))]
pub(crate) fn write_radix<T: BitStore, O: BitOrder, W: fmt::Write>(
    bits: BitSlice<'_, T, O>,
    width: usize,
    upper: bool,
    f: &mut fmt::Formatter<W>,
) -> fmt::Result
    requires some { 0 < width }
    requires bound { width ≤ 4 }
    ensures { WritesOnOk W.write_str_gives f.old result
        (radix_text T.BITS (seen bits.entry).window.start width upper (seen bits.entry).bits) f.new }
{
    f.write_str("[")?;
    write_segments(bits, width, upper, f)?;
    f.write_str("]")
}

fn write_segments<T: BitStore, O: BitOrder, W: fmt::Write>(
    bits: BitSlice<'_, T, O>,
    width: usize,
    upper: bool,
    f: &mut fmt::Formatter<W>,
) -> fmt::Result
    requires some { 0 < width }
    requires bound { width ≤ 4 }
    ensures { WritesOnOk W.write_str_gives f.old result (join_by (digits_text width upper) comma
        (segments T.BITS (seen bits.entry).window.start (seen bits.entry).bits)) f.new }
{
    let start = bits.window().start;
    let len = bits.len();
    let mut from = 0;
    while from < len {
        let to = from + bits_in_element(T::BITS as usize, start + from, len - from);
        f.write_str(separator_before(from))?;
        write_digits(bits.into_part(from..to), width, upper, f)?;
        from = to;
    }
    Ok(())
}
