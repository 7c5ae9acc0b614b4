//! What the words ask for, printed.
ghost use Rattle.std.specs.Prelude.{IfErr, OnOk, map, string_bytes};
ghost use Rattle.bitmatrix.specs.Arguments.{request_of};
ghost use Rattle.bitmatrix.specs.Program.{Answers, Fails};

use crate::arguments::Request;
use crate::close::{close_pairs, close_rows, count_chain};
use crate::fault::Fault;
use std::alloc::Allocator;
use std::io::{Read, Write};

/// Prints the answer to the words. Rows are read from `input`.
pub fn work<A: Allocator + Copy, R: Read, W: Write>(
    alloc: A,
    words: &[String],
    input: &mut R,
    output: &mut W,
) -> Result<(), Fault>
    ensures printed { OnOk result (Answers (request_of (map string_bytes words.now)) (R.remaining input.old) (W.contents output.old) (W.contents output.new)) }
    ensures fault { IfErr result (Fails (request_of (map string_bytes words.now))) }
{
    match Request::parse(words).ok_or(Fault::Arguments)? {
        Request::Rows => close_rows(alloc, input, output),
        Request::Pairs(graph) => close_pairs(graph, output),
        Request::Chain(count) => count_chain(alloc, count, output),
    }
}
