//! The whole program, but for what a process is.
ghost use Rattle.std.specs.Prelude.{◌≡◌, ◌*◌, ◌≤◌, ◌⊎◌, None, IfOk, OnOk, length, map, string_bytes};
ghost use Rattle.std.specs.Io.KnownBytes.{Appends};
ghost use Rattle.bitvec.specs.Window.{max_bits};
ghost use Rattle.sieve.specs.Program.{Works};
ghost use Rattle.sieve.specs.Requests.{HasWidth, request_of};
ghost use Rattle.sieve.specs.Texts.{line_of, text_of};

use crate::primes::sieve;
use crate::print::print_form;
use crate::request::Request;
use bitvec::index::MAX_BITS;
use bitvec::prelude::*;
use std::alloc::{AllocError, Allocator};
use std::io::{self, Write};

/// The status where the output can't be written.
const OUTPUT_FAILED: u8 = 1;

/// The status where the words are no request.
const BAD_ARGUMENTS: u8 = 2;

/// The status where there is no room for the bits.
const NO_MEMORY: u8 = 3;

/// Zeros that have at least so many bits.
fn zeros<A: Allocator>(alloc: A, bits: usize) -> Result<Vec<u64, A>, AllocError>
    ensures room { IfOk result (λ zeros. bits ≤ 64 * length zeros.items) }
    ensures bound { IfOk result (λ zeros. 64 * length zeros.items ≤ max_bits) }
{
    let count = bits.div_ceil(64);
    if count > MAX_BITS / 64 {
        return Err(AllocError);
    }
    vec![in alloc; 0; count]
}

/// Sieves the bits of the numbers below the request's, and prints their primes. Conditions: the
/// elements have so many bits, and at most `MAX_BITS`; a picture's width is above 0.
fn print_sieved<W: Write>(elements: &mut [u64], request: Request, output: &mut W) -> io::Result<()>
    requires room { request.below ≤ 64 * length elements.old }
    requires bound { 64 * length elements.old ≤ max_bits }
    requires width { HasWidth request.form }
    ensures { OnOk result (Appends (W.contents output.old) (W.contents output.new) (text_of request)) }
{
    let mut bits = BitSliceMut::<u64, Lsb0>::from_slice_mut(elements).into_part(0..request.below);
    sieve(&mut bits);
    print_form(output, bits.as_ref(), request.form)?;
    output.flush()
}

/// Prints a line.
fn print_line<W: Write>(output: &mut W, line: &str) -> io::Result<()>
    ensures { OnOk result (Appends (W.contents output.old) (W.contents output.new) (line_of line.now)) }
{
    writeln!(output, "{line}")?;
    output.flush()
}

/// Prints the line that says why no primes are printed. The result is the status.
fn report<W: Write>(output: &mut W, line: &str, status: u8) -> u8
    ensures { (result ≡ OUTPUT_FAILED) ⊎ ((result ≡ status)
        × Appends (W.contents output.old) (W.contents output.new) (line_of line.now)) }
{
    match print_line(output, line) {
        Ok(()) => status,
        Err(_) => OUTPUT_FAILED,
    }
}

/// Does the program's work: prints the primes that the words ask for. The result is the status that
/// the program ends with.
///
/// With status 0 the text of the request was printed, and nothing else. With 2 it was the line `bad
/// arguments`, since the words are no request, and with 3 `out of memory`, since there was no room
/// for a bit a number. With 1 the output couldn't be written.
pub fn work<A: Allocator, W: Write>(alloc: A, args: &[String], output: &mut W) -> u8
    ensures works { Works (request_of (map string_bytes args.now)) (W.contents output.old) (W.contents output.new) result }
    ensures refused { request_of (map string_bytes args.now) ≡ None → (result ≡ 2) ⊎ (result ≡ 1) }
{
    let Some(request) = Request::parse(args) else {
        return report(output, "bad arguments", BAD_ARGUMENTS);
    };
    let Ok(mut elements) = zeros(alloc, request.below) else {
        return report(output, "out of memory", NO_MEMORY);
    };
    match print_sieved(elements.as_mut_slice(), request, output) {
        Ok(()) => 0,
        Err(_) => OUTPUT_FAILED,
    }
}
