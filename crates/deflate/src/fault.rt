//! Why nothing was written.
ghost use Rattle.std.specs.Prelude.{◌≡◌, Some};
ghost use Rattle.deflate.specs.Faults.{fault_text, status_of};
ghost use Rattle.deflate.specs.declared.fault.Fault.TheVariants.{Memory};

use std::alloc::{AllocError, AllocFailed};
use std::fmt::{self, Display, Formatter};

/// What ends the program without an answer. Its text is the line that is printed then.
#[derive(Clone, Copy)]
pub enum Fault {
    /// The words are no request.
    Arguments,
    /// The bits end within a block.
    Ended,
    /// A block is neither stored nor in the fixed codes.
    BlockKind,
    /// A stored block's length and its complement don't agree.
    StoredLength,
    /// A symbol is no byte, end or length.
    Symbol,
    /// A distance is none, or goes back before the first byte.
    Distance,
    /// The input can't be read.
    Input,
    /// There was no room for the words or the bytes.
    Memory,
    /// The answer can't be written.
    Output,
}

impl Fault {
    /// The status that the program ends with.
    pub fn status(&self) -> u8
        ensures { result ≡ status_of self.now }
    {
        match self {
            Fault::Output => 1,
            Fault::Input | Fault::Memory => 3,
            _ => 2,
        }
    }
}

impl Display for Fault {
    ghost output = { λ fault. Some (fault_text fault) };

    fn fmt<W: fmt::Write>(&self, formatter: &mut Formatter<W>) -> fmt::Result {
        formatter.write_str(match self {
            Fault::Arguments => "usage: deflate decode | encode",
            Fault::Ended => "the stream ends within a block",
            Fault::BlockKind => "a block of another kind",
            Fault::StoredLength => "two lengths of a block differ",
            Fault::Symbol => "a symbol that stands for nothing",
            Fault::Distance => "a distance back to no byte",
            Fault::Input => "the input can't be read",
            Fault::Memory => "out of memory",
            Fault::Output => "the answer can't be written",
        })
    }
}

impl From<AllocError> for Fault {
    ghost from_gives = { λ _ fault. fault ≡ Memory };

    fn from(_: AllocError) -> Self {
        Fault::Memory
    }
}

impl<T: Drop> From<AllocFailed<T>> for Fault {
    ghost from_gives = { λ _ fault. fault ≡ Memory };

    fn from(_: AllocFailed<T>) -> Self {
        Fault::Memory
    }
}
