//! Numbers that stand in words: decimal digits, which a plus may precede, as the programs of this repository take them.
#![tactic(auto)]

ghost use Rattle.std.specs.Prelude.{◌≡◌};
ghost use Rattle.numerals.specs.Numerals.{number_of};

/// The number of a word, or `None` where it isn't one or has more than 8 bits.
pub fn parse_u8(word: &str) -> Option<u8>
    ensures { result ≡ number_of 8 word.now }
{
    word.parse().ok()
}

/// The number of a word, or `None` where it isn't one or has more than 16 bits.
pub fn parse_u16(word: &str) -> Option<u16>
    ensures { result ≡ number_of 16 word.now }
{
    word.parse().ok()
}

/// The number of a word, or `None` where it isn't one or has more than 64 bits.
pub fn parse_u64(word: &str) -> Option<u64>
    ensures { result ≡ number_of 64 word.now }
{
    word.parse().ok()
}

/// The number of a word, or `None` where it isn't one or has more than 64 bits.
pub fn parse_usize(word: &str) -> Option<usize>
    ensures { result ≡ number_of 64 word.now }
{
    word.parse().ok()
}
