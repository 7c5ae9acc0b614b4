//! Why the words were not done.
ghost use Rattle.std.specs.Prelude.{◌≡◌, Some};
ghost use Rattle.canframe.specs.Faults.{fault_text, status_of};
ghost use Rattle.canframe.specs.declared.fault.Fault.TheVariants.{Memory};

use std::alloc::AllocError;
use std::fmt::{self, Display, Formatter};

/// What ends the program without an answer. Its text is the line that is printed then.
#[derive(Clone, Copy)]
pub enum Fault {
    /// The words are no request.
    Arguments,
    /// The bytes are no frame.
    NoFrame,
    /// There was no room for the words or the bytes.
    Memory,
    /// The answer can't be printed.
    Output,
}

impl Fault {
    /// The status that the program ends with.
    pub fn status(&self) -> u8
        ensures { result ≡ status_of self.now }
    {
        match self {
            Fault::Output => 1,
            Fault::Arguments | Fault::NoFrame => 2,
            Fault::Memory => 3,
        }
    }
}

impl Display for Fault {
    ghost output = { λ fault. Some (fault_text fault) };

    fn fmt<W: fmt::Write>(&self, formatter: &mut Formatter<W>) -> fmt::Result {
        formatter.write_str(match self {
            Fault::Arguments => "usage: canframe encode ID BYTE.. | decode BYTE..",
            Fault::NoFrame => "no frame",
            Fault::Memory => "out of memory",
            Fault::Output => "the answer can't be printed",
        })
    }
}

impl From<AllocError> for Fault {
    ghost from_gives = { λ _ fault. fault ≡ Memory };

    fn from(_: AllocError) -> Self {
        Fault::Memory
    }
}
