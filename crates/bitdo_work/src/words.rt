//! The words of a line, and what one word says.
ghost use Rattle.std.specs.Prelude.{◌≡◌, ◌∷◌, [], IfSome, IfNone};
ghost use Rattle.bitdo_work.specs.Words.{number_of, bit_of, words_of, words_left, no_argument, one_word, one_number, one_bit, number_and_bit, two_numbers, three_numbers, one_window};

use bitvec_base::Window;

/// The number of a word of one or more decimal digits, leading zeros allowed but no plus. None, if the
/// word is another one or its number doesn't fit.
pub(crate) fn parse_number(word: &str) -> Option<usize>
    ensures { result ≡ number_of word.now }
{
    if word.starts_with('+') {
        return None;
    }
    word.parse().ok()
}

/// The bit that `0` or `1` stands for.
fn parse_bit(word: &str) -> Option<bool>
    ensures { result ≡ bit_of word.now }
{
    match word {
        "0" => Some(false),
        "1" => Some(true),
        _ => None,
    }
}

/// The words of a line from one on, separated by one space each.
#[derive(Drop)]
pub(crate) struct Words<'a> {
    /// What is still to be cut; none after the last word.
    rest: Option<&'a str>,
}

impl<'a> Words<'a> {
    /// All words of a line. An empty line has one, the empty word.
    pub(crate) fn new(line: &'a str) -> Self
        ensures { words_left result ≡ words_of line.now }
    {
        Words { rest: Some(line) }
    }

    /// The next word.
    pub(crate) fn next(&mut self) -> Option<&'a str>
        ensures word { IfSome result (λ word. words_left self.old ≡ word.now ∷ words_left self.new) }
        ensures end { IfNone result (words_left self.old ≡ []) }
    {
        let text = self.rest?;
        match text.split_once(' ') {
            Some((word, rest)) => {
                self.rest = Some(rest);
                Some(word)
            }
            None => {
                self.rest = None;
                Some(text)
            }
        }
    }

    /// The one word that is left. None, if there is none or more.
    fn last(mut self) -> Option<&'a str>
        ensures word { IfSome result (λ word. words_left self.entry ≡ word.now ∷ []) }
        ensures other { IfNone result (one_word (words_left self.entry) ≡ None) }
    {
        let word = self.next()?;
        match self.rest {
            Some(_) => None,
            None => Some(word),
        }
    }

    /// Whether no word is left.
    pub(crate) fn is_empty(&self) -> bool
        ensures { result ≡ no_argument (words_left self.now) }
    {
        self.rest.is_none()
    }

    /// One number, and no word after it.
    pub(crate) fn number(self) -> Option<usize>
        ensures { result ≡ one_number (words_left self.entry) }
    {
        parse_number(self.last()?)
    }

    /// One bit, and no word after it.
    pub(crate) fn bit(self) -> Option<bool>
        ensures { result ≡ one_bit (words_left self.entry) }
    {
        parse_bit(self.last()?)
    }

    /// A number and a bit, and no word after them.
    pub(crate) fn number_and_bit(mut self) -> Option<(usize, bool)>
        ensures { result ≡ number_and_bit (words_left self.entry) }
    {
        let number = parse_number(self.next()?)?;
        Some((number, self.bit()?))
    }

    /// Two numbers, and no word after them.
    pub(crate) fn two_numbers(mut self) -> Option<(usize, usize)>
        ensures { result ≡ two_numbers (words_left self.entry) }
    {
        let first = parse_number(self.next()?)?;
        Some((first, self.number()?))
    }

    /// Three numbers, and no word after them.
    pub(crate) fn three_numbers(mut self) -> Option<(usize, usize, usize)>
        ensures { result ≡ three_numbers (words_left self.entry) }
    {
        let first = parse_number(self.next()?)?;
        let (second, third) = self.two_numbers()?;
        Some((first, second, third))
    }

    /// The start and the length of a window, and no word after them.
    pub(crate) fn window(self) -> Option<Window>
        ensures { result ≡ one_window (words_left self.entry) }
    {
        let (start, len) = self.two_numbers()?;
        Some(Window { start, len })
    }
}
