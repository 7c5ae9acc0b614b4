//! `device uart BAUD PARITY DATA`, `device bloom KEY OTHER ..`, `device pattern NUMBER` and
//! `device chunks COUNT` set bits of arrays in place, and print what they hold then.
#![tactic(auto)]

mod bloom;
mod chunks;
mod part;
mod pattern;
mod print;
mod uart;
mod work;

use std::env;
use std::io::{self, BufWriter, ErrorKind};
use std::process::ExitCode;
use std::rt::Env;
use work::work;

/// The status of the work on the words after the program's name.
fn status<R: Env + Print + AllocGlobal>(rt: &R) -> io::Result<u8> {
    let words: Vec<String> = env::args(rt)?.skip(1).collect(rt.alloc())?;
    let mut output = BufWriter::new(rt.alloc(), io::writer(rt))?;
    Ok(work(words.as_slice(), &mut output))
}

fn main(rt: HostRuntime) -> ExitCode {
    let (line, status) = match status(&rt) {
        Ok(status) => return ExitCode::from(status),
        Err(error) if error.kind() == ErrorKind::OutOfMemory => ("out of memory", 3),
        Err(_) => ("bad arguments", 2),
    };
    match rt.println(line) {
        Ok(()) => ExitCode::from(status),
        Err(_) => ExitCode::FAILURE,
    }
}
