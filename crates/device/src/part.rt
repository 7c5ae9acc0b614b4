//! What the words after the program's name ask for.
ghost use Rattle.std.specs.Prelude.{◌≡◌, ◌<◌, ◌≤◌, map, string_bytes};
ghost use Rattle.device.specs.Numbers.{numbers_of};
ghost use Rattle.device.specs.Parts.{HasChunks, IsUart, Makes, MakesFilter, asked_of, bloom_of, chunks_of, part_of, pattern_of, uart_of};

use crate::bloom::Bloom;
use crate::chunks::number_chunks;
use crate::pattern::pattern;
use crate::uart::Uart;
use bitvec::in_place;
use bitvec::prelude::*;
use numerals::{parse_u8, parse_u16, parse_u64};

/// A part of the device, whose bits were set as the words say.
#[derive(Drop)]
pub enum Part {
    /// The registers of a serial port.
    Uart(Uart),
    /// A filter, and the key that it is asked for.
    Bloom(Bloom, u64),
    /// Bytes with a pattern.
    Pattern([u8; 8]),
    /// Bytes whose chunks hold their numbers.
    Chunks([u8; 8]),
}

impl Part {
    /// Reads the words: `uart BAUD PARITY DATA`, `bloom KEY OTHER ..`, `pattern NUMBER` or `chunks COUNT`.
    /// `None` if they are anything else.
    pub fn parse(words: &[String]) -> Option<Part>
        ensures { Makes (asked_of (map string_bytes words.now)) result }
    {
        let [name, numbers @ ..] = words else {
            return None;
        };
        parse_part(name.as_str(), numbers)
    }
}

/// The part of a name and its numbers.
fn parse_part(name: &str, words: &[String]) -> Option<Part>
    ensures { Makes (part_of name.now (map string_bytes words.now)) result }
{
    match name {
        "uart" => parse_uart(words),
        "bloom" => parse_bloom(words),
        "pattern" => parse_pattern(words),
        "chunks" => parse_chunks(words),
        _ => None,
    }
}

/// A serial port with three fields; its reserved bits are ones. Condition: the parity is below 4.
#[tactic(auto, using(bitvec::specs::Laws::bitwise))]
fn make_uart(baud: u16, parity: u8, byte: u8) -> Uart
    requires { parity < 4 }
    ensures { IsUart baud parity byte result }
{
    let mut registers = [0u32; 4];
    in_place::fill::<u32, Lsb0>(&mut registers, 0..128, true);
    let mut uart = Uart::new(registers);
    uart.configure(baud, parity, byte);
    uart
}

/// A serial port of three numbers, of which the second is below 4.
fn parse_uart(words: &[String]) -> Option<Part>
    ensures { Makes (uart_of (map string_bytes words.now)) result }
{
    let [baud, parity, byte] = words else {
        return None;
    };
    let baud = parse_u16(baud.as_str())?;
    let parity = parse_u8(parity.as_str())?;
    let byte = parse_u8(byte.as_str())?;
    if parity < 4 {
        Some(Part::Uart(make_uart(baud, parity, byte)))
    } else {
        None
    }
}

/// A filter that has the keys of some words.
fn parse_filter(words: &[String]) -> Option<Bloom>
    ensures { MakesFilter (numbers_of (map string_bytes words.now)) result }
{
    let mut filter = Bloom::new();
    for word in words {
        filter.insert(parse_u64(word.as_str())?);
    }
    Some(filter)
}

/// A key to ask for, and a filter that has the others.
fn parse_bloom(words: &[String]) -> Option<Part>
    ensures { Makes (bloom_of (map string_bytes words.now)) result }
{
    let [key, others @ ..] = words else {
        return None;
    };
    let key = parse_u64(key.as_str())?;
    Some(Part::Bloom(parse_filter(others)?, key))
}

/// The pattern of a number.
fn parse_pattern(words: &[String]) -> Option<Part>
    ensures { Makes (pattern_of (map string_bytes words.now)) result }
{
    match words {
        [number] => Some(Part::Pattern(pattern(parse_u16(number.as_str())?))),
        _ => None,
    }
}

/// Eight bytes. The chunks of the first `count` hold their numbers; the bits of the others are ones.
/// Condition: `count` is at most 8.
fn make_chunks(count: usize) -> [u8; 8]
    requires { count ≤ 8 }
    ensures { HasChunks count result }
{
    let mut bytes = [u8::MAX; 8];
    number_chunks(&mut bytes[..count]);
    bytes
}

/// Eight bytes of which a number, at most 8, have numbered chunks.
fn parse_chunks(words: &[String]) -> Option<Part>
    ensures { Makes (chunks_of (map string_bytes words.now)) result }
{
    let [count] = words else {
        return None;
    };
    let count = parse_u64(count.as_str())?;
    if count < 9 {
        Some(Part::Chunks(make_chunks(count as usize)))
    } else {
        None
    }
}
