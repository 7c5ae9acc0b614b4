//! The closures of relations that are read, or made.
ghost use Rattle.std.specs.Prelude.{◌≡◌, ◌⊎◌, ◌+◌, ◌*◌, ◌≤◌, IfErr, IfOk, OnOk, length};
ghost use Rattle.bitvec.specs.Arrays.{lsb0_bits};
ghost use Rattle.bitvec.specs.Window.{max_bits};
ghost use Rattle.bitmatrix.specs.declared.fault.Fault.TheVariants.{Input, Memory, Output};
ghost use Rattle.bitmatrix.specs.Program.{ClosesInput, ClosesText, CountsChain, PrintsClosed};

use crate::chain::link;
use crate::fault::Fault;
use crate::graph::Graph;
use crate::matrix::closure;
use crate::print::{print_count, print_rows};
use crate::read::{fill_from, read_text, rows_in};
use bitvec::index::MAX_BITS;
use bitvec::prelude::*;
use std::alloc::{AllocError, Allocator};
use std::io::{Read, Write};

/// Zeros of at least that many bits.
fn zeros<A: Allocator>(alloc: A, bits: usize) -> Result<Vec<u64, A>, AllocError>
    ensures room { IfOk result (λ zeros. bits ≤ 64 * length zeros.items) }
    ensures bound { IfOk result (λ zeros. 64 * length zeros.items ≤ max_bits) }
{
    let count = bits.div_ceil(64);
    if count > MAX_BITS / 64 {
        return Err(AllocError);
    }
    vec![in alloc; 0; count]
}

/// Closes the relation of a text of n rows, and prints the rows of its closure. If the text isn't n such
/// rows, nothing is printed. Conditions: the elements have n by n bits, and at most `MAX_BITS`.
fn close_text<A: Allocator, W: Write>(
    alloc: A,
    text: &[u8],
    n: usize,
    elements: &mut [u64],
    output: &mut W,
) -> Result<(), Fault>
    requires room { n * n ≤ 64 * length elements.old }
    requires bound { 64 * length elements.old ≤ max_bits }
    ensures printed { OnOk result (ClosesText text.now (W.contents output.old) (W.contents output.new)) }
    ensures fault { IfErr result (λ fault. (fault ≡ Input) ⊎ (fault ≡ Memory) ⊎ (fault ≡ Output)) }
{
    let mut matrix = BitSliceMut::<u64, Lsb0>::from_slice_mut(elements).into_part(0..n * n);
    fill_from(&mut matrix, text);
    let mut shown = Vec::new(alloc);
    print_rows(&mut shown, matrix.as_ref(), n).or(Err(Fault::Memory))?;
    if shown.as_slice() != text {
        return Err(Fault::Input);
    }
    closure(&mut matrix, n);
    print_rows(output, matrix.as_ref(), n).or(Err(Fault::Output))
}

/// Reads rows of 0 and 1, as many as each has characters, and prints the rows of their closure.
pub fn close_rows<A: Allocator + Copy, R: Read, W: Write>(
    alloc: A,
    input: &mut R,
    output: &mut W,
) -> Result<(), Fault>
    ensures printed { OnOk result (ClosesInput (R.remaining input.old) (W.contents output.old) (W.contents output.new)) }
    ensures fault { IfErr result (λ fault. (fault ≡ Input) ⊎ (fault ≡ Memory) ⊎ (fault ≡ Output)) }
{
    let text = read_text(alloc, input)?;
    let n = rows_in(text.as_slice()).ok_or(Fault::Input)?;
    let mut elements = zeros(alloc, n * n)?;
    close_text(alloc, text.as_slice(), n, elements.as_mut_slice(), output)
}

/// Closes the relation of a graph, and prints the rows of its closure.
pub fn close_pairs<W: Write>(mut graph: Graph, output: &mut W) -> Result<(), Fault>
    ensures printed { OnOk result (PrintsClosed 16 (lsb0_bits 64 graph.words) (W.contents output.old) (W.contents output.new)) }
    ensures fault { IfErr result (λ fault. fault ≡ Output) }
{
    graph.close();
    graph.print(output).or(Err(Fault::Output))
}

/// Closes the chain of n places, and prints how many ones its closure has. Conditions: as for [`close_text`].
fn count_in<W: Write>(n: usize, elements: &mut [u64], output: &mut W) -> Result<(), Fault>
    requires room { n * n ≤ 64 * length elements.old }
    requires bound { 64 * length elements.old ≤ max_bits }
    ensures printed { OnOk result (CountsChain n (W.contents output.old) (W.contents output.new)) }
    ensures fault { IfErr result (λ fault. fault ≡ Output) }
{
    let mut matrix = BitSliceMut::<u64, Lsb0>::from_slice_mut(elements).into_part(0..n * n);
    link(&mut matrix, n);
    closure(&mut matrix, n);
    print_count(output, matrix.as_ref()).or(Err(Fault::Output))
}

/// Prints how many ones the closure of the chain of n places has.
pub fn count_chain<A: Allocator, W: Write>(alloc: A, n: usize, output: &mut W) -> Result<(), Fault>
    ensures printed { OnOk result (CountsChain n (W.contents output.old) (W.contents output.new)) }
    ensures fault { IfErr result (λ fault. (fault ≡ Memory) ⊎ (fault ≡ Output)) }
{
    let bits = n.checked_mul(n).ok_or(Fault::Memory)?;
    let mut elements = zeros(alloc, bits)?;
    count_in(n, elements.as_mut_slice(), output)
}
