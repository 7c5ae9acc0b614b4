//! The work of the program `bitdo` on plain texts.
use bitdo_work::work;
use std::alloc::{Allocator, Global};
use std::io::{Read, Write};

/// Adds a word to a list. The answer is whether there was memory.
fn add_word(alloc: Global, words: &mut Vec<String>, word: &str) -> bool {
    match String::from_str(alloc, word) {
        Ok(word) => words.push(word).is_ok(),
        Err(_) => false,
    }
}

/// The words of a text, cut at each space, as far as there is memory.
pub(crate) fn words(alloc: Global, text: &str) -> Vec<String> {
    let mut words = Vec::new(alloc);
    for word in text.split(' ') {
        if !add_word(alloc, &mut words, word) {
            return words;
        }
    }
    words
}

/// The program's work, and the status that it ends with.
pub(crate) fn status<A: Allocator + Clone + Drop, R: Read, W: Write>(
    alloc: A,
    args: &[String],
    input: &mut R,
    output: &mut W,
) -> u8 {
    work(alloc, args, input, output)
}

/// Whether `work` prints so on these arguments and this reader's input, and ends with that status.
pub(crate) fn works<I: Read>(
    alloc: Global,
    args: &str,
    input: &mut I,
    ended: u8,
    printed: &[u8],
) -> bool {
    let args = words(alloc, args);
    let mut output = Vec::new(alloc);
    status(alloc, args.as_slice(), input, &mut output) == ended && output.as_slice() == printed
}
