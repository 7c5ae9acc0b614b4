//! The words after the program's name.
ghost use Rattle.std.specs.Prelude.{◌≡◌, ◌∷◌, [], map, string_bytes, option_and_then};
ghost use Rattle.bitdo_work.specs.Arguments.{own_request, request_of};

use crate::words::parse_number;
use bitvec_base::Window;

/// The six arguments. All but the window are still words: the width and the order choose what runs,
/// and the memories are read by the width.
#[derive(Clone, Copy)]
pub(crate) struct Arguments<'a> {
    /// WIDTH, of the elements of both memories.
    pub(crate) width: &'a str,
    /// ORDER, of the bits in an element.
    pub(crate) order: &'a str,
    /// MEMORY, which the run works on.
    pub(crate) memory: &'a str,
    /// RIGHT, the memory of the right windows.
    pub(crate) right: &'a str,
    /// START and LEN, in bits of MEMORY.
    pub(crate) window: Window,
}

impl<'a> Arguments<'a> {
    /// The arguments of WIDTH, ORDER, MEMORY, RIGHT, START and LEN.
    #[tactic(auto, unfolding(crate::specs::Arguments::request_of))]
    fn from_words(
        width: &'a str,
        order: &'a str,
        memory: &'a str,
        right: &'a str,
        start: &str,
        len: &str,
    ) -> Option<Arguments<'a>>
        ensures { option_and_then own_request result
            ≡ request_of (width.now ∷ order.now ∷ memory.now ∷ right.now ∷ start.now ∷ len.now ∷ []) }
    {
        Some(Arguments {
            width,
            order,
            memory,
            right,
            window: Window {
                start: parse_number(start)?,
                len: parse_number(len)?,
            },
        })
    }

    /// Reads the words. None, if they aren't six, or START or LEN isn't a number.
    pub(crate) fn parse(args: &'a [String]) -> Option<Arguments<'a>>
        ensures { option_and_then own_request result ≡ request_of (map string_bytes args.now) }
    {
        let [width, order, memory, right, start, len] = args else {
            return None;
        };
        Arguments::from_words(
            width.as_str(),
            order.as_str(),
            memory.as_str(),
            right.as_str(),
            start.as_str(),
            len.as_str(),
        )
    }
}
