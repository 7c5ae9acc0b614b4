//! The words after the program's name.
ghost use Rattle.std.specs.Prelude.{◌≡◌, IfSome, IfNone, map, string_bytes};
ghost use Rattle.std.specs.Option.{option_map};
ghost use Rattle.slots.specs.Arguments.{Given, given, given_of, one_number, places_from, places_of, request_of};

use crate::places::Change;
use numerals::parse_usize;
use std::ops::Range;

/// What is asked for.
#[derive(Drop)]
pub enum Request {
    /// To change the map.
    Change(Change),
    /// To print which places are taken.
    Show,
}

/// The path of a map, and what is asked of it.
#[derive(Drop)]
pub struct Arguments<'a> {
    /// FILE.
    pub path: &'a str,
    /// The words behind it.
    pub request: Request,
}

impl<'a> Arguments<'a> {
    /// Reads the words: FILE, then `take COUNT`, `give START`, `give START COUNT` or `show`. None, if
    /// they are others, or if the places end beyond the numbers of 64 bits.
    pub fn parse(words: &'a [String]) -> Option<Arguments<'a>>
        ensures { option_map given result ≡ given_of (map string_bytes words.now) }
    {
        let [path, verb, numbers @ ..] = words else {
            return None;
        };
        let request = parse_request(verb.as_str(), numbers)?;
        Some(Arguments {
            path: path.as_str(),
            request,
        })
    }
}

/// The request of a verb and the words behind it.
fn parse_request(verb: &str, words: &[String]) -> Option<Request>
    ensures { result ≡ request_of verb.now (map string_bytes words.now) }
{
    match verb {
        "take" => Some(Request::Change(Change::Take(parse_one(words)?))),
        "give" => Some(Request::Change(Change::Give(parse_places(words)?))),
        "show" if words.is_empty() => Some(Request::Show),
        _ => None,
    }
}

/// The number of the one word.
fn parse_one(words: &[String]) -> Option<usize>
    ensures { result ≡ one_number (map string_bytes words.now) }
{
    match words {
        [word] => parse_usize(word.as_str()),
        _ => None,
    }
}

/// So many places from one on, if they end within the numbers of 64 bits.
fn places_from(start: usize, count: usize) -> Option<Range<usize>>
    ensures { result ≡ places_from start count }
{
    let end = start.checked_add(count)?;
    Some(start..end)
}

/// The places of START and COUNT; without COUNT it is one place.
fn parse_places(words: &[String]) -> Option<Range<usize>>
    ensures { result ≡ places_of (map string_bytes words.now) }
{
    match words {
        [start] => places_from(parse_usize(start.as_str())?, 1),
        [start, count] => {
            let start = parse_usize(start.as_str())?;
            places_from(start, parse_usize(count.as_str())?)
        }
        _ => None,
    }
}
