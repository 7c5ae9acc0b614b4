//! `sieve count N`, `sieve list N` and `sieve picture N WIDTH` print the primes below N: how many
//! there are, each on a line, or as rows of WIDTH characters, one a number.
#![tactic(auto)]

mod primes;
mod print;
mod request;
mod work;

use std::env;
use std::io::{self, BufWriter, ErrorKind};
use std::process::ExitCode;
use std::rt::Env;
use work::work;

/// The status of the work on the words after the program's name. What is printed is written in
/// parts, so it is gathered.
fn status<R: Env + Print + AllocGlobal>(rt: &R) -> io::Result<u8> {
    let words: Vec<String> = env::args(rt)?.skip(1).collect(rt.alloc())?;
    let mut output = BufWriter::new(rt.alloc(), io::writer(rt))?;
    Ok(work(rt.alloc(), words.as_slice(), &mut output))
}

fn main(rt: HostRuntime) -> ExitCode {
    let (line, status) = match status(&rt) {
        Ok(status) => return ExitCode::from(status),
        Err(error) if error.kind() == ErrorKind::OutOfMemory => ("out of memory", 3),
        Err(_) => ("bad arguments", 2),
    };
    match rt.println(line) {
        Ok(()) => ExitCode::from(status),
        Err(_) => ExitCode::FAILURE,
    }
}
