//! How often a run of the program asks for memory.
use crate::program::{status, words};
use bitvec_test_support::Refusing;
use std::alloc::Global;

/// A memory of nine bytes and a right one of two.
const ARGS: &str = "8 lsb0 01,02,03,04,05,06,07,08,09 FF,0F 0 72";

/// Adds a line to a text so many times. The answer is whether there was memory.
fn add_lines(text: &mut Vec<u8>, line: &[u8], lines: usize) -> bool {
    let mut is_made = true;
    for _ in 0..lines {
        is_made &= text.extend_from_slice(line).is_ok();
    }
    is_made
}

/// Whether a run that is granted so many requests for memory makes no more; nothing where it doesn't print so then, and tell
/// else that memory ran out, by its status.
fn is_enough(
    alloc: Global,
    args: &[String],
    input: &[u8],
    requests: u64,
    printed: &[u8],
) -> Option<bool> {
    let refusing = Refusing::new(alloc, requests);
    let mut bytes = input;
    let mut output = Vec::new(alloc);
    let got = status(&refusing, args, &mut bytes, &mut output);
    let is_enough = refusing.granted_all();
    let (ended, printed) = if is_enough {
        (0, printed)
    } else {
        (3, b"run error: memory\n".as_slice())
    };
    (got == ended && output.as_slice() == printed).then_some(is_enough)
}

/// The least number of requests below 100 that a run needs, which prints so, if one is enough.
fn least_requests(alloc: Global, args: &str, input: &[u8], printed: &[u8]) -> Option<u64> {
    let args = words(alloc, args);
    for requests in 0..100 {
        match is_enough(alloc, args.as_slice(), input, requests, printed) {
            Some(true) => return Some(requests),
            Some(false) => {}
            None => return None,
        }
    }
    None
}

/// The least number of requests that a run of so many lines needs, which count the first byte's ones.
fn needed(alloc: Global, lines: usize) -> Option<u64> {
    let mut input = Vec::new(alloc);
    let mut printed = Vec::new(alloc);
    let is_made = [
        add_lines(&mut input, b"0 8 count_ones\n", lines),
        add_lines(&mut printed, b"count 1\n", lines),
        add_lines(&mut printed, b"= 01,02,03,04,05,06,07,08,09\n", 1),
    ];
    if is_made != [true; 3] {
        return None;
    }
    least_requests(alloc, ARGS, input.as_slice(), printed.as_slice())
}

// A list that is pushed to has room for eight bytes or four larger values at first, and then for twice as
// many. So the memory of nine bytes is asked for twice and the right one once; the input, of 15 bytes a line
// and 1024 a read, once up to 1024 bytes, and four times up to 8192; the steps once up to four, twice up to
// eight, and eight times up to 512; the replies once.
#[test]
fn each_list_is_asked_for_as_often_as_it_doubles(rt: HostRuntime) {
    for (lines, requests) in [
        (0, 2 + 1),
        (1, 2 + 1 + 1 + 1 + 1),
        (4, 2 + 1 + 1 + 1 + 1),
        (5, 2 + 1 + 1 + 2 + 1),
        (500, 2 + 1 + 4 + 8 + 1),
    ] {
        assert!(rt;
            needed(rt.alloc(), lines) == Some(requests),
            "of {lines} lines"
        );
    }
}
