//! What is printed of a matrix.
ghost use Rattle.std.specs.Prelude.{◌≡◌, ◌*◌, OnOk, count_by};
ghost use Rattle.std.specs.Fmt.{decimal};
ghost use Rattle.std.specs.Io.KnownBytes.{Appends};
ghost use Rattle.bitvec.specs.Views.{seen};
ghost use Rattle.bitmatrix.specs.Texts.{bit_text, line_of, row_text, rows_text};

use crate::matrix::row;
use bitvec::prelude::*;
use std::io::{self, Write};

/// The character of a bit.
fn bit_word(bit: bool) -> &'static str
    ensures { result.now ≡ bit_text bit }
{
    if bit { "1" } else { "0" }
}

/// Prints a row.
fn print_row<T: BitStore, O: SliceOrder, W: Write>(
    output: &mut W,
    row: BitSlice<'_, T, O>,
) -> io::Result<()>
    ensures { OnOk result (Appends (W.contents output.old) (W.contents output.new) (row_text (seen row.entry).bits)) }
{
    for bit in row.iter().by_vals() {
        write!(output, "{}", bit_word(bit))?;
    }
    writeln!(output)
}

/// Prints the rows, each on a line. Condition: the matrix has n by n bits.
#[tactic(auto, using(crate::proofs::TextLaws::texts))]
pub fn print_rows<T: BitStore, O: SliceOrder, W: Write>(
    output: &mut W,
    matrix: BitSlice<'_, T, O>,
    n: usize,
) -> io::Result<()>
    requires { (seen matrix).window.len ≡ n * n }
    ensures { OnOk result (Appends (W.contents output.old) (W.contents output.new) (rows_text n (seen matrix.entry).bits)) }
{
    for i in 0..n {
        print_row(output, row(matrix, n, i))?;
    }
    Ok(())
}

/// Prints how many bits are 1, on a line.
pub fn print_count<T: BitStore, O: SliceOrder, W: Write>(
    output: &mut W,
    matrix: BitSlice<'_, T, O>,
) -> io::Result<()>
    ensures { OnOk result (Appends (W.contents output.old) (W.contents output.new)
        (line_of (decimal (count_by (λ bit. bit) (seen matrix.entry).bits)))) }
{
    writeln!(output, "{}", matrix.count_ones())
}
