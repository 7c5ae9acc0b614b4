//! What the words after the program's name ask for.
ghost use Rattle.std.specs.Prelude.{◌≡◌, ◌<◌, IfSome, map, string_bytes};
ghost use Rattle.sieve.specs.Requests.{HasWidth, number_of, width_of, form_of, wide_form_of, request, request_of};

/// How the primes are printed.
#[derive(Clone, Copy)]
pub enum Form {
    /// How many there are, on a line.
    Count,
    /// Each on a line.
    Lines,
    /// As rows of so many characters, one a number.
    Picture(usize),
}

/// The primes below a number, to be printed in a form.
#[derive(Clone, Copy)]
pub struct Request {
    pub form: Form,
    pub below: usize,
}

/// The number of a word of one or more decimal digits, leading zeros allowed but no plus. None, if the
/// word is another one or its number doesn't fit.
fn parse_number(word: &str) -> Option<usize>
    ensures { result ≡ number_of word.now }
{
    if word.starts_with('+') {
        return None;
    }
    word.parse().ok()
}

/// The width of a picture, which is above 0.
fn parse_width(word: &str) -> Option<usize>
    ensures value { result ≡ width_of word.now }
    ensures some { IfSome result (λ width. 0 < width) }
{
    let width = parse_number(word)?;
    if width > 0 { Some(width) } else { None }
}

/// The form of a word.
fn parse_form(mode: &str) -> Option<Form>
    ensures value { result ≡ form_of mode.now }
    ensures width { IfSome result HasWidth }
{
    match mode {
        "count" => Some(Form::Count),
        "list" => Some(Form::Lines),
        _ => None,
    }
}

/// The form of a word and a width.
fn parse_wide_form(mode: &str, width: &str) -> Option<Form>
    ensures value { result ≡ wide_form_of mode.now width.now }
    ensures width { IfSome result HasWidth }
{
    match mode {
        "picture" => Some(Form::Picture(parse_width(width)?)),
        _ => None,
    }
}

impl Request {
    /// The primes below the number of a word, in a form.
    fn below(form: Option<Form>, below: &str) -> Option<Request>
        requires { IfSome form HasWidth }
        ensures value { result ≡ request form below.now }
        ensures width { IfSome result (λ request. HasWidth request.form) }
    {
        let form = form?;
        let below = parse_number(below)?;
        Some(Request { form, below })
    }

    /// Reads the words: MODE N, or MODE N WIDTH. None, if they are others.
    pub fn parse(words: &[String]) -> Option<Request>
        ensures value { result ≡ request_of (map string_bytes words.now) }
        ensures width { IfSome result (λ request. HasWidth request.form) }
    {
        match words {
            [mode, below] => Request::below(parse_form(mode.as_str()), below.as_str()),
            [mode, below, width] => Request::below(
                parse_wide_form(mode.as_str(), width.as_str()),
                below.as_str(),
            ),
            _ => None,
        }
    }
}
