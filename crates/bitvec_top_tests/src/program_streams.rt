//! The program on readers and writers that give or take little, or fail. What it makes of its own streams shows
//! `golden/bitdo.txt`.
use crate::program::{status, words, works};
use bitvec_test_support::{FailingReader, FailingWriter, OneByteReader};
use std::alloc::Global;
use std::io::ErrorKind;

const ARGS: &str = "8 lsb0 01,02 FF 0 16";

const INPUT: &[u8] = b"0 8 get 0\r\n\n0 16 count_ones\n0 8 set 7 1";

const PRINTED: &[u8] = b"bit 1\ncount 2\ndone\n= 81,02\n";

/// Whether the program works so on a reader that gives a byte a call.
fn works_by_bytes(alloc: Global, input: &[u8], ended: u8, printed: &[u8]) -> bool {
    works(alloc, ARGS, &mut OneByteReader::new(input), ended, printed)
}

/// A character of the input may come in several reads.
#[test]
fn a_byte_a_read_is_enough(rt: HostRuntime) {
    let alloc = rt.alloc();
    let work = [
        works_by_bytes(alloc, INPUT, 0, PRINTED),
        works_by_bytes(alloc, b"0 8 get 0\n\xE2\x82\xAC\n", 2, b"bad line 2\n"),
        works_by_bytes(alloc, b"0 8 get 0\n\xE2\x82", 2, b"bad input\n"),
    ];
    assert!(rt; work == [true; 3]);
}

/// Whether a reader that fails is bad input, unless the arguments are bad.
fn is_bad_input(alloc: Global, input: &[u8], kind: ErrorKind) -> bool {
    let mut is_so = true;
    for (args, printed) in [
        (ARGS, "bad input\n"),
        ("8 lsb0 01 - 8 1", "bad input\n"),
        ("8 lsb0 0 - 0 8", "bad arguments\n"),
    ] {
        let mut input = FailingReader::new(input, kind);
        is_so &= works(alloc, args, &mut input, 2, printed.as_bytes());
    }
    is_so
}

#[test]
fn a_reader_that_fails_is_bad_input(rt: HostRuntime) {
    let alloc = rt.alloc();
    let are_bad = [
        is_bad_input(alloc, b"", ErrorKind::TimedOut),
        is_bad_input(alloc, INPUT, ErrorKind::TimedOut),
        is_bad_input(alloc, INPUT, ErrorKind::OutOfMemory),
        is_bad_input(alloc, b"no line\n", ErrorKind::UnexpectedEof),
    ];
    assert!(rt; are_bad == [true; 4]);
}

/// Whether a run whose output takes so many bytes and fails then ends with status 1.
fn ends_with_1(alloc: Global, args: &[String], input: &[u8], room: usize) -> bool {
    let mut input = input;
    let mut output = FailingWriter::new(room, ErrorKind::StorageFull);
    status(alloc, args, &mut input, &mut output) == 1
}

/// Whether a run ends so behind each of its first so many bytes.
fn each_ends_with_1(alloc: Global, args: &str, input: &[u8], printed: usize) -> bool {
    let args = words(alloc, args);
    let mut is_so = true;
    for room in 0..=printed {
        is_so &= ends_with_1(alloc, args.as_slice(), input, room);
    }
    is_so
}

#[test]
fn an_output_that_fails_is_status_1(rt: HostRuntime) {
    let alloc = rt.alloc();
    let end = [
        each_ends_with_1(alloc, ARGS, INPUT, PRINTED.len()),
        each_ends_with_1(alloc, ARGS, b"no line", "bad line 1\n".len()),
        each_ends_with_1(alloc, "8 lsb0 0 - 0 8", b"", "bad arguments\n".len()),
    ];
    assert!(rt; end == [true; 3]);
}
