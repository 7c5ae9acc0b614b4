//! The words after the program's name.
ghost use Rattle.std.specs.Prelude.{◌≡◌, ◌<◌, IfSome, IfNone, None, Some, map, string_bytes};
ghost use Rattle.std.specs.Option.{option_map};
ghost use Rattle.bitmatrix.specs.Arguments.{asked, bits_in, bits_of, digit_of, pair_of, paired, request_of, with_pair};

use crate::graph::Graph;
use numerals::parse_usize;

/// What is asked for.
#[derive(Drop)]
pub enum Request {
    /// The closure of the rows of 0 and 1 that are read.
    Rows,
    /// The closure of pairs of the sixteen digits.
    Pairs(Graph),
    /// How many ones the closure of a chain of that many places has.
    Chain(usize),
}

/// The value of a hexadecimal digit, in either case.
fn parse_digit(byte: u8) -> Option<usize>
    ensures value { result ≡ digit_of byte }
    ensures below { IfSome result (λ digit. digit < 16) }
{
    let digit = char::from(byte).to_digit(16)?;
    Some(digit as usize)
}

/// The places of a pair: `3a` is place 3, which leads to place 10.
fn parse_pair(word: &str) -> Option<(usize, usize)>
    ensures value { result ≡ pair_of word.now }
    ensures below { IfSome result (λ pair. (pair.0 < 16) × (pair.1 < 16)) }
{
    let [from, to] = word.as_bytes() else {
        return None;
    };
    Some((parse_digit(*from)?, parse_digit(*to)?))
}

/// The relation of pairs. `None` if a word isn't a pair.
fn parse_pairs(words: &[String]) -> Option<Graph>
    ensures { option_map (λ graph. bits_of graph) result ≡ bits_in (map string_bytes words.now) }
{
    let mut graph = Graph::new();
    for word in words {
        let (from, to) = parse_pair(word.as_str())?;
        graph.connect(from, to);
    }
    Some(graph)
}

impl Request {
    /// Reads the words: `rows`, `pairs` and any number of pairs, or `chain N`. `None` if they are
    /// anything else.
    pub fn parse(words: &[String]) -> Option<Request>
        ensures { option_map asked result ≡ request_of (map string_bytes words.now) }
    {
        let [verb, given @ ..] = words else {
            return None;
        };
        match (verb.as_str(), given) {
            ("rows", []) => Some(Request::Rows),
            ("pairs", pairs) => Some(Request::Pairs(parse_pairs(pairs)?)),
            ("chain", [count]) => Some(Request::Chain(parse_usize(count.as_str())?)),
            _ => None,
        }
    }
}
