//! The digits of a segment.
ghost use Rattle.std.specs.Prelude.{◌≡◌, ◌<◌, ◌≤◌, true};
ghost use Rattle.std.specs.Fmt.{WritesOnOk, digits};
ghost use Rattle.bitvec_segments.specs.Segments.{segment_number};
ghost use Rattle.bitvec_segments.specs.SegmentsLaws.{first_len};
ghost use Rattle.bitvec_slice.specs.Views.{seen};
ghost use Rattle.bitvec_field.specs.Radix.{digits_text};

use bitvec_base::BitOrder;
use bitvec_slice::BitSlice;
use bitvec_store::BitStore;
use std::fmt;

/// Writes a segment's digits, each of `width` bits; the first may have fewer. Condition: a digit has
/// one to four bits.
pub(crate) fn write_digits<T: BitStore, O: BitOrder, W: fmt::Write>(
    segment: BitSlice<'_, T, O>,
    width: usize,
    upper: bool,
    f: &mut fmt::Formatter<W>,
) -> fmt::Result
    requires some { 0 < width }
    requires bound { width ≤ 4 }
    ensures { WritesOnOk W.write_str_gives f.old result (digits_text width upper (seen segment.entry).bits) f.new }
{
    let len = segment.len();
    let mut from = 0;
    while from < len {
        let to = from + bits_in_element(width, (width - 1) * len + from, len - from);
        write_digit(number_of(segment.into_part(from..to)), upper, f)?;
        from = to;
    }
    Ok(())
}

/// How many of `left` bits from a place on stand in its element of `width` bits. Condition: an element
/// has bits.
pub(crate) fn bits_in_element(width: usize, place: usize, left: usize) -> usize
    requires { 0 < width }
    ensures { result ≡ first_len width place left }
{
    left.min(width - place % width)
}

/// The number of a view of at most four bits, the first one highest.
#[tactic(auto, unfolding(bitvec_segments::specs::Segments::segment_number))]
fn number_of<T: BitStore, O: BitOrder>(group: BitSlice<'_, T, O>) -> u8
    requires { (seen group).window.len ≤ 4 }
    ensures { result ≡ segment_number true (seen group.entry).bits }
{
    let mut number = 0u8;
    for index in 0..group.len() {
        number = 2 * number + group[index] as u8;
    }
    number
}

fn write_digit<W: fmt::Write>(number: u8, upper: bool, f: &mut fmt::Formatter<W>) -> fmt::Result
    ensures { WritesOnOk W.write_str_gives f.old result (digits 16 upper number) f.new }
{
    if upper {
        write!(f, "{number:X}")
    } else {
        write!(f, "{number:x}")
    }
}
