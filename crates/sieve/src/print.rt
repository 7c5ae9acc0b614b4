//! What is printed of the bits of the primes.
ghost use Rattle.std.specs.Prelude.{◌≡◌, ◌<◌, OnOk, count_by, true};
ghost use Rattle.std.specs.Fmt.{decimal};
ghost use Rattle.std.specs.Io.KnownBytes.{Appends};
ghost use Rattle.std.specs.List.{flat_map};
ghost use Rattle.bitvec.specs.Lists.{places_of};
ghost use Rattle.bitvec.specs.PieceWalks.{chunks_of};
ghost use Rattle.bitvec.specs.Views.{seen};
ghost use Rattle.sieve.specs.Primes.{prime_bits};
ghost use Rattle.sieve.specs.Requests.{HasWidth};
ghost use Rattle.sieve.specs.Texts.{bit_text, form_text, line_of, row_text};

use crate::request::Form;
use bitvec::prelude::*;
use std::io::{self, Write};

/// Prints how many bits are 1.
fn print_count<T: BitStore, O: SliceOrder, W: Write>(
    output: &mut W,
    bits: BitSlice<'_, T, O>,
) -> io::Result<()>
    ensures { OnOk result (Appends (W.contents output.old) (W.contents output.new)
        (line_of (decimal (count_by (λ bit. bit) (seen bits.entry).bits)))) }
{
    writeln!(output, "{}", bits.count_ones())
}

/// Prints the index of each bit that is 1.
fn print_list<T: BitStore, O: SliceOrder, W: Write>(
    output: &mut W,
    bits: BitSlice<'_, T, O>,
) -> io::Result<()>
    ensures { OnOk result (Appends (W.contents output.old) (W.contents output.new)
        (flat_map (λ index. line_of (decimal index)) (places_of true (seen bits.entry).bits))) }
{
    for index in bits.iter_ones() {
        writeln!(output, "{index}")?;
    }
    Ok(())
}

/// The character of a bit.
fn bit_word(bit: bool) -> &'static str
    ensures { result.now ≡ bit_text bit }
{
    if bit { "#" } else { "." }
}

/// Prints a row of a picture.
fn print_row<T: BitStore, O: SliceOrder, W: Write>(
    output: &mut W,
    row: BitSlice<'_, T, O>,
) -> io::Result<()>
    ensures { OnOk result (Appends (W.contents output.old) (W.contents output.new) (row_text (seen row.entry).bits)) }
{
    for bit in row.iter().by_vals() {
        write!(output, "{}", bit_word(bit))?;
    }
    writeln!(output)
}

/// Prints the bits in rows of a width. Condition: the width is above 0.
fn print_picture<T: BitStore, O: SliceOrder, W: Write>(
    output: &mut W,
    bits: BitSlice<'_, T, O>,
    width: usize,
) -> io::Result<()>
    requires { 0 < width }
    ensures { OnOk result (Appends (W.contents output.old) (W.contents output.new)
        (flat_map row_text (chunks_of width (seen bits.entry).bits))) }
{
    for row in bits.chunks(width) {
        print_row(output, row)?;
    }
    Ok(())
}

/// Prints the primes below a number in a form, by their bits. Conditions: the view has as many, and
/// they are those of the primes; a picture's width is above 0.
pub(crate) fn print_form<T: BitStore, O: SliceOrder, W: Write>(
    output: &mut W,
    bits: BitSlice<'_, T, O>,
    form: Form,
) -> io::Result<()>
    requires primes { (seen bits).bits ≡ prime_bits (seen bits).window.len }
    requires width { HasWidth form }
    ensures { OnOk result (Appends (W.contents output.old) (W.contents output.new)
        (form_text form (seen bits.entry).window.len)) }
{
    match form {
        Form::Count => print_count(output, bits),
        Form::Lines => print_list(output, bits),
        Form::Picture(width) => print_picture(output, bits, width),
    }
}
