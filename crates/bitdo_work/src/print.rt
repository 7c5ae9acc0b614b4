//! What a run prints: a line a reply, and the memory.
ghost use Rattle.std.specs.Prelude.{◌≡◌, ◌^◌, ◌<◌, ◌≤◌, All, map, OnOk};
ghost use Rattle.std.specs.List.{flat_map};
ghost use Rattle.std.specs.Io.KnownBytes.{Appends};
ghost use Rattle.bitdo_work.specs.Faults.{fault_text};
ghost use Rattle.bitdo_work.specs.Texts.{line_of, refusal_text, bit_text, order_text, reply_text, run_text, digit_code, hexadecimal_text, element_text, memory_text, next_text};

use crate::fault::Fault;
use bitvec_commands::{Refusal, Reply};
use bitvec_store::BitStore;
use std::cmp::Ordering;
use std::io::{self, Write};

/// The word of a refusal.
fn refusal_word(refusal: Refusal) -> &'static str
    ensures { result.now ≡ refusal_text refusal }
{
    match refusal {
        Refusal::Range => "range",
        Refusal::Index => "index",
        Refusal::Amount => "amount",
        Refusal::Source => "source",
        Refusal::Dest => "dest",
        Refusal::Right => "right",
        Refusal::Length => "length",
        Refusal::Width => "width",
    }
}

/// The digit of a bit.
fn bit_word(bit: bool) -> &'static str
    ensures { result.now ≡ bit_text bit }
{
    if bit { "1" } else { "0" }
}

/// The word of an order.
fn order_word(order: Ordering) -> &'static str
    ensures { result.now ≡ order_text order }
{
    match order {
        Ordering::Less => "less",
        Ordering::Equal => "equal",
        Ordering::Greater => "greater",
    }
}

/// Prints a reply, on a line of its own.
fn print_reply<W: Write>(output: &mut W, reply: Reply) -> io::Result<()>
    ensures { OnOk result (Appends (W.contents output.old) (W.contents output.new) (reply_text reply)) }
{
    match reply {
        Reply::Done => output.write_all(b"done\n"),
        Reply::Bit(bit) => writeln!(output, "bit {}", bit_word(bit)),
        Reply::Count(count) => writeln!(output, "count {count}"),
        Reply::Index(Some(index)) => writeln!(output, "index {index}"),
        Reply::Index(None) => output.write_all(b"index none\n"),
        Reply::Order(order) => writeln!(output, "order {}", order_word(order)),
        Reply::Number(number) => writeln!(output, "number {number}"),
        Reply::Refused(refusal) => writeln!(output, "refused {}", refusal_word(refusal)),
    }
}

/// Prints the replies, in their order.
fn print_replies<W: Write>(output: &mut W, replies: &[Reply]) -> io::Result<()>
    ensures { OnOk result (Appends (W.contents output.old) (W.contents output.new) (flat_map reply_text replies.now)) }
{
    for reply in replies {
        print_reply(output, *reply)?;
    }
    Ok(())
}

/// The upper case digit of a number below 16.
fn digit_of(value: u8) -> u8
    requires { value < 16 }
    ensures { result ≡ digit_code value }
{
    if value < 10 {
        b'0' + value
    } else {
        b'A' + (value - 10)
    }
}

/// Prints the lowest `count` hexadecimal digits of a number, the highest of them first.
/// Condition: a number has so many.
fn print_digits<W: Write>(output: &mut W, number: u128, count: u32) -> io::Result<()>
    requires { count ≤ 32 }
    ensures { OnOk result (Appends (W.contents output.old) (W.contents output.new) (hexadecimal_text count number)) }
{
    for place in (0..count).rev() {
        let digit = (number >> (4 * place)) % 16;
        output.write_all(&[digit_of(digit as u8)])?;
    }
    Ok(())
}

/// Prints an element in upper case digits, as many as its width has.
fn print_element<T: BitStore, W: Write>(output: &mut W, element: T) -> io::Result<()>
    ensures text { OnOk result (Appends (W.contents output.old) (W.contents output.new) (element_text T.BITS (T.value element))) }
    ensures in_range { T.value element < 2 ^ T.BITS }
{
    print_digits(output, element.to_u128(), T::BITS / 4)
}

/// Prints an element that follows another one.
fn print_next<T: BitStore, W: Write>(output: &mut W, element: T) -> io::Result<()>
    ensures text { OnOk result (Appends (W.contents output.old) (W.contents output.new) (next_text T.BITS (T.value element))) }
    ensures in_range { OnOk result (T.value element < 2 ^ T.BITS) }
{
    output.write_all(b",")?;
    print_element(output, element)
}

/// Prints the elements after the first.
fn print_following<T: BitStore, W: Write>(output: &mut W, elements: &[T]) -> io::Result<()>
    ensures text { OnOk result (Appends (W.contents output.old) (W.contents output.new)
        (flat_map (next_text T.BITS) (map T.value elements.now))) }
    ensures in_range { OnOk result (All (λ number. number < 2 ^ T.BITS) (map T.value elements.now)) }
{
    for element in elements {
        print_next(output, *element)?;
    }
    Ok(())
}

/// Prints the memory in the arguments' notation, on a line of its own.
fn print_memory<T: BitStore, W: Write>(output: &mut W, elements: &[T]) -> io::Result<()>
    ensures text { OnOk result (Appends (W.contents output.old) (W.contents output.new)
        (memory_text T.BITS (map T.value elements.now))) }
    ensures in_range { OnOk result (All (λ number. number < 2 ^ T.BITS) (map T.value elements.now)) }
{
    output.write_all(b"= ")?;
    match elements {
        [] => output.write_all(b"-")?,
        [first, following @ ..] => {
            print_element(output, *first)?;
            print_following(output, following)?;
        }
    }
    output.write_all(b"\n")
}

/// Prints the replies of a run and the memory that it left.
pub(crate) fn print_run<T: BitStore, W: Write>(
    output: &mut W,
    replies: &[Reply],
    elements: &[T],
) -> io::Result<()>
    ensures text { OnOk result (Appends (W.contents output.old) (W.contents output.new)
        (run_text T.BITS replies.now (map T.value elements.now))) }
    ensures in_range { OnOk result (All (λ number. number < 2 ^ T.BITS) (map T.value elements.now)) }
{
    print_replies(output, replies)?;
    print_memory(output, elements)?;
    output.flush()
}

/// Prints the line of a fault.
pub(crate) fn print_fault<W: Write>(output: &mut W, fault: &Fault) -> io::Result<()>
    ensures { OnOk result (Appends (W.contents output.old) (W.contents output.new) (line_of (fault_text fault.now))) }
{
    writeln!(output, "{fault}")?;
    output.flush()
}
