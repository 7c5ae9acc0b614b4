//! `bitdo WIDTH ORDER MEMORY RIGHT START LEN` runs the commands of its input, one a line, on the
//! bits of a memory, and prints what each answers and the memory that they leave.
#![tactic(auto)]

use bitdo_work::work;
use std::env;
use std::io::{self, BufWriter, ErrorKind, Input};
use std::process::ExitCode;
use std::rt::Env;

/// The status of the work on the words after the program's name and the standard streams. A reply
/// is written in parts, so what is written is gathered.
fn status<R: Env + Input + Print + AllocGlobal>(rt: &R) -> io::Result<u8> {
    let words: Vec<String> = env::args(rt)?.skip(1).collect(rt.alloc())?;
    let mut input = rt.reader();
    let mut output = BufWriter::new(rt.alloc(), io::writer(rt))?;
    Ok(work(rt.alloc(), words.as_slice(), &mut input, &mut output))
}

fn main(rt: HostRuntime) -> ExitCode {
    let (line, status) = match status(&rt) {
        Ok(status) => return ExitCode::from(status),
        Err(error) if error.kind() == ErrorKind::OutOfMemory => ("run error: memory", 3),
        Err(_) => ("bad arguments", 2),
    };
    match rt.println(line) {
        Ok(()) => ExitCode::from(status),
        Err(_) => ExitCode::FAILURE,
    }
}
