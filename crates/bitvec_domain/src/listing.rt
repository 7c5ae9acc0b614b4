//! The bits of a window of a slice of elements, written as a list.
ghost use Rattle.std.specs.Prelude.{◌≡◌, ◌++◌, map};
ghost use Rattle.std.specs.Fmt.{WritesOnOk};
ghost use Rattle.std.specs.List.{join_by};
ghost use Rattle.bitvec_base.specs.Memory.{HasWindow, list_in};
ghost use Rattle.bitvec_domain.specs.Listing.{bit_text, bits_text, comma, separator};

use crate::bits::bit_in;
use bitvec_base::{BitOrder, Window};
use bitvec_store::BitStore;
use std::fmt;

/// Writes the bits of a window as `[0, 1, 0]`. Condition: the memory has at most `MAX_BITS` bits, and
/// the window lies in it.
#[tactic(auto, unfolding(crate::specs::Listing::listed))]
pub fn write_bits_in<T: BitStore, O: BitOrder, W: fmt::Write>(
    elements: &[T],
    window: Window,
    f: &mut fmt::Formatter<W>,
) -> fmt::Result
    requires { HasWindow T.BITS (map T.value elements.now) window }
    ensures { WritesOnOk W.write_str_gives f.old result
        (bits_text (list_in T.BITS O.at (map T.value elements.now) window)) f.new }
{
    f.write_str("[")?;
    write_joined_in::<T, O, W>(elements, window, f)?;
    f.write_str("]")
}

#[tactic(auto, using(crate::proofs::Steps::steps))]
fn write_joined_in<T: BitStore, O: BitOrder, W: fmt::Write>(
    elements: &[T],
    window: Window,
    f: &mut fmt::Formatter<W>,
) -> fmt::Result
    requires { HasWindow T.BITS (map T.value elements.now) window }
    ensures { WritesOnOk W.write_str_gives f.old result
        (join_by bit_text comma (list_in T.BITS O.at (map T.value elements.now) window)) f.new }
{
    for index in 0..window.len {
        write_bit(index, bit_in::<T, O>(elements, window, index), f)?;
    }
    Ok(())
}

fn write_bit<W: fmt::Write>(index: usize, bit: bool, f: &mut fmt::Formatter<W>) -> fmt::Result
    ensures { WritesOnOk W.write_str_gives f.old result (separator index ++ bit_text bit) f.new }
{
    f.write_str(separator_before(index))?;
    f.write_str(digit_of(bit))
}

fn digit_of(bit: bool) -> &'static str
    ensures { result.now ≡ bit_text bit }
{
    if bit { "1" } else { "0" }
}

/// What stands before the text at an index of a list: a comma and a space, but nothing before the first.
pub fn separator_before(index: usize) -> &'static str
    ensures { result.now ≡ separator index }
{
    if index == 0 { "" } else { ", " }
}
