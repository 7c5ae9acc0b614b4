//! The whole program, but for what a process is.
ghost use Rattle.std.specs.Prelude.{◌≡◌, ◌⊎◌, length, map, string_bytes, IfOk, IfErr, None, Some};
ghost use Rattle.std.specs.Io.KnownBytes.{Appends};
ghost use Rattle.bitvec_run.specs.Runs.{FailsRun};
ghost use Rattle.bitdo_work.specs.Arguments.{request, request_of, typed_request, ordered_request, own_request};
ghost use Rattle.bitdo_work.specs.Faults.{status_of, fault_text};
ghost use Rattle.bitdo_work.specs.Program.{IsRun, HasRun, HasFault, Works};
ghost use Rattle.bitdo_work.specs.Texts.{line_of};

use crate::arguments::Arguments;
use crate::elements::parse_elements;
use crate::fault::Fault;
use crate::input::read_steps;
use crate::print::{print_fault, print_run};
use bitvec_base::{HiLo, Lsb0, Msb0, Window};
use bitvec_cells::{Exclusive, Shared};
use bitvec_commands::Reply;
use bitvec_engine::SliceOrder;
use bitvec_run::{RunError, Step, run};
use bitvec_store::BitStore;
use std::alloc::Allocator;
use std::io::{Read, Write};

/// The status where the output can't be written.
const OUTPUT_FAILED: u8 = 1;

/// Runs the steps on the elements in place.
fn run_elements<T: BitStore, O: SliceOrder, A: Allocator>(
    alloc: A,
    memory: &mut [T],
    window: Window,
    right: &[T],
    steps: &[Step],
) -> Result<Vec<Reply, A>, RunError>
    ensures run { IfOk result (λ replies. IsRun (request T.BITS O.at (map T.value memory.old) (map T.value right.now) window)
        steps.now replies.items (map T.value memory.new)) }
    ensures error { IfErr result (FailsRun T.BITS (map T.value memory.old) window (map T.value right.now) (length steps.now)) }
{
    let mut cells = Exclusive::new(memory);
    let mut right = Shared::new(right);
    run::<O, _, _, _>(alloc, &mut cells, window, &mut right, steps)
}

/// What a run left to be printed.
#[derive(Drop)]
struct Outcome<T, A: Allocator> {
    replies: Vec<Reply, A>,
    memory: Vec<T, A>,
}

/// Makes the run of the input's steps on the elements.
fn run_input<'a, T: BitStore, O: SliceOrder, A: Allocator, R: Read>(
    alloc: &'a A,
    mut memory: Vec<T, &'a A>,
    window: Window,
    right: &[T],
    input: &mut R,
) -> Result<Outcome<T, &'a A>, Fault>
    ensures run { IfOk result (λ outcome. HasRun (Some (request T.BITS O.at (map T.value memory.entry.items) (map T.value right.now) window))
        (R.remaining input.old) (R.remaining input.new) outcome.replies.items (map T.value outcome.memory.items)) }
    ensures fault { IfErr result (HasFault (Some (request T.BITS O.at (map T.value memory.entry.items) (map T.value right.now) window))
        (R.remaining input.old) (R.remaining input.new)) }
{
    let steps = read_steps(alloc, input)?;
    let replies = run_elements::<T, O, _>(
        alloc,
        memory.as_mut_slice(),
        window,
        right,
        steps.as_slice(),
    )?;
    Ok(Outcome { replies, memory })
}

/// Makes the run of the arguments and the input. Memories that aren't in the notation are a fault before room is,
/// and before the input is read.
fn make_run<'a, T: BitStore, O: SliceOrder, A: Allocator, R: Read>(
    alloc: &'a A,
    arguments: &Arguments<'_>,
    input: &mut R,
) -> Result<Outcome<T, &'a A>, Fault>
    ensures run { IfOk result (λ outcome. HasRun (typed_request T.BITS O.at arguments.now)
        (R.remaining input.old) (R.remaining input.new) outcome.replies.items (map T.value outcome.memory.items)) }
    ensures fault { IfErr result (HasFault (typed_request T.BITS O.at arguments.now)
        (R.remaining input.old) (R.remaining input.new)) }
    ensures unread { typed_request T.BITS O.at arguments.now ≡ None → input.new ≡ input.old }
{
    let Some(memory) = parse_elements(alloc, arguments.memory) else {
        return Err(Fault::Arguments);
    };
    let Some(right) = parse_elements(alloc, arguments.right) else {
        return Err(Fault::Arguments);
    };
    let memory = memory?;
    let right = right?;
    run_input::<T, O, _, _>(alloc, memory, arguments.window, right.as_slice(), input)
}

/// Prints why no run was made. The result is the status.
fn report<W: Write>(output: &mut W, fault: &Fault) -> u8
    ensures { (result ≡ OUTPUT_FAILED) ⊎ ((result ≡ status_of fault.now)
        × Appends (W.contents output.old) (W.contents output.new) (line_of (fault_text fault.now))) }
{
    match print_fault(output, fault) {
        Ok(()) => fault.status(),
        Err(_) => OUTPUT_FAILED,
    }
}

/// Makes the run at an element type and an order, and prints it. The result is the status.
fn run_typed<T: BitStore, O: SliceOrder, A: Allocator, R: Read, W: Write>(
    alloc: &A,
    arguments: &Arguments<'_>,
    input: &mut R,
    output: &mut W,
) -> u8
    ensures { Works R.remaining (typed_request T.BITS O.at arguments.now) input.old input.new
        (W.contents output.old) (W.contents output.new) result }
{
    match make_run::<T, O, _, _>(alloc, arguments, input) {
        Ok(outcome) => match print_run(
            output,
            outcome.replies.as_slice(),
            outcome.memory.as_slice(),
        ) {
            Ok(()) => 0,
            Err(_) => OUTPUT_FAILED,
        },
        Err(fault) => report(output, &fault),
    }
}

/// Makes and prints the run at an element type, in the order of the arguments. Another word than an
/// order is a fault of theirs.
fn run_ordered<T: BitStore, A: Allocator, R: Read, W: Write>(
    alloc: &A,
    arguments: &Arguments<'_>,
    input: &mut R,
    output: &mut W,
) -> u8
    ensures { Works R.remaining (ordered_request T.BITS arguments.now) input.old input.new
        (W.contents output.old) (W.contents output.new) result }
{
    match arguments.order {
        "lsb0" => run_typed::<T, Lsb0, _, _, _>(alloc, arguments, input, output),
        "msb0" => run_typed::<T, Msb0, _, _, _>(alloc, arguments, input, output),
        "hilo" => run_typed::<T, HiLo, _, _, _>(alloc, arguments, input, output),
        _ => report(output, &Fault::Arguments),
    }
}

/// Makes and prints the run that the arguments ask for. Another word than a width is a fault of
/// theirs.
fn run_given<A: Allocator, R: Read, W: Write>(
    alloc: &A,
    arguments: &Arguments<'_>,
    input: &mut R,
    output: &mut W,
) -> u8
    ensures { Works R.remaining (own_request arguments.now) input.old input.new
        (W.contents output.old) (W.contents output.new) result }
{
    match arguments.width {
        "8" => run_ordered::<u8, _, _, _>(alloc, arguments, input, output),
        "16" => run_ordered::<u16, _, _, _>(alloc, arguments, input, output),
        "32" => run_ordered::<u32, _, _, _>(alloc, arguments, input, output),
        "64" => run_ordered::<u64, _, _, _>(alloc, arguments, input, output),
        "128" => run_ordered::<u128, _, _, _>(alloc, arguments, input, output),
        _ => report(output, &Fault::Arguments),
    }
}

/// Does the program's work: makes the run that the arguments ask for with the steps of the input,
/// and prints its replies and the memory that it left. The result is the status that the program
/// ends with.
///
/// With status 0 a run was made and all of it is printed, and nothing else. Otherwise one line
/// says why, and no reply is printed: `bad arguments`, `bad input` or `bad line N` with status 2,
/// `run error: window`, `run error: right` or `run error: memory` with status 3. With status 1 the
/// output couldn't be written. Arguments are tested before the input is read, and the whole input
/// is read before its first line is parsed.
pub fn work<A: Allocator + Clone + Drop, R: Read, W: Write>(
    alloc: A,
    args: &[String],
    input: &mut R,
    output: &mut W,
) -> u8
    ensures works { Works R.remaining (request_of (map string_bytes args.now)) input.old input.new
        (W.contents output.old) (W.contents output.new) result }
    ensures bad_arguments { request_of (map string_bytes args.now) ≡ None → (result ≡ 2) ⊎ (result ≡ 1) }
{
    match Arguments::parse(args) {
        Some(arguments) => run_given(&alloc, &arguments, input, output),
        None => report(output, &Fault::Arguments),
    }
}
