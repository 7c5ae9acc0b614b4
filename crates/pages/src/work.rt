//! The words in turn.
ghost use Rattle.std.specs.Prelude.{◌≡◌, ◌++◌, ◌∷◌, ◌⊎◌, [], IfErr, None, OnOk, Some, map, string_bytes};
ghost use Rattle.std.specs.Fmt.{decimal};
ghost use Rattle.std.specs.Io.KnownBytes.{Appends};
ghost use Rattle.pages.specs.Words.{Prints, page_of, word_done, words_done};
ghost use Rattle.pages.specs.declared.fault.Fault.TheVariants.{Output};

use crate::fault::Fault;
use crate::page_map::{PAGES, PageMap};
use std::io::Write;

/// Does what each word asks for, and prints the answers. If a word can't be done, those before it were.
pub fn work<W: Write>(words: &[String], output: &mut W) -> Result<(), Fault>
    ensures printed { OnOk result (Prints (words_done (map string_bytes words.now)) None (W.contents output.old) (W.contents output.new)) }
    ensures fault { IfErr result (λ fault. (fault ≡ Output) ⊎ Prints (words_done (map string_bytes words.now)) (Some fault) (W.contents output.old) (W.contents output.new)) }
{
    let mut pages = PageMap::new();
    for word in words {
        step(&mut pages, word.as_str(), output)?;
    }
    Ok(())
}

/// Does what one word asks for. If it can't be done, nothing is printed.
fn step<W: Write>(pages: &mut PageMap, word: &str, output: &mut W) -> Result<(), Fault>
    ensures done { OnOk result (Prints (word_done pages.old word.now) None (W.contents output.old) (W.contents output.new)) }
    ensures pages { OnOk result (pages.new ≡ (word_done pages.old word.now).pages) }
    ensures fault { IfErr result (λ fault. (fault ≡ Output) ⊎ Prints (word_done pages.old word.now) (Some fault) (W.contents output.old) (W.contents output.new)) }
{
    match word {
        "take" => print(output, pages.take().ok_or(Fault::Full)?),
        "taken" => print(output, pages.taken()),
        _ => {
            pages.free(page_of(word).ok_or(Fault::Arguments)?);
            Ok(())
        }
    }
}

/// The page of a word of decimal digits, if there is such a page.
fn page_of(word: &str) -> Option<usize>
    ensures { result ≡ page_of word.now }
{
    let page = word.parse::<usize>().ok()?;
    if page < PAGES { Some(page) } else { None }
}

/// Prints a number on a line.
fn print<W: Write>(output: &mut W, number: usize) -> Result<(), Fault>
    ensures printed { OnOk result (Appends (W.contents output.old) (W.contents output.new) (decimal number ++ 10 ∷ [])) }
    ensures fault { IfErr result (λ fault. fault ≡ Output) }
{
    writeln!(output, "{number}").or(Err(Fault::Output))
}
