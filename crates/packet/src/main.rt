//! `packet [--set FIELD=VALUE ..]` reads a packet as hexadecimal digits, and prints the fields of its
//! headers; or it changes fields, makes the checksum right, and prints the packet's digits again.
#![tactic(auto)]

mod arguments;
mod changes;
mod checksum;
mod digits;
mod fault;
mod field;
mod header;
mod input;
mod print;
mod program;
mod resolve;

use program::work;
use std::env;
use std::io::{self, BufWriter, ErrorKind, Input};
use std::process::ExitCode;
use std::rt::Env;

/// The status of the work on the words after the program's name and the standard streams.
fn status<R: Env + Input + Print + AllocGlobal>(rt: &R) -> io::Result<u8> {
    let words: Vec<String> = env::args(rt)?.skip(1).collect(rt.alloc())?;
    let mut input = rt.reader();
    let mut output = BufWriter::new(rt.alloc(), io::writer(rt))?;
    Ok(work(rt.alloc(), words.as_slice(), &mut input, &mut output))
}

fn main(rt: HostRuntime) -> ExitCode {
    let (line, status) = match status(&rt) {
        Ok(status) => return ExitCode::from(status),
        Err(error) if error.kind() == ErrorKind::OutOfMemory => ("out of memory", 3),
        Err(_) => ("bad arguments", 2),
    };
    match rt.println(line) {
        Ok(()) => ExitCode::from(status),
        Err(_) => ExitCode::FAILURE,
    }
}
