//! Why the words were not done.
ghost use Rattle.std.specs.Prelude.{◌≡◌, Some};
ghost use Rattle.nesting.specs.Faults.{fault_text, status_of};
ghost use Rattle.nesting.specs.declared.fault.Fault.TheVariants.{Memory};

use std::alloc::AllocError;
use std::fmt::{self, Display, Formatter};

/// What ends the program before its words do. Its text is the line that is printed then.
#[derive(Clone, Copy)]
pub enum Fault {
    /// A word is no text.
    Arguments,
    /// A bracket closes nothing.
    Stray,
    /// There was no room for the words, the marks or the answer.
    Memory,
    /// The answer can't be printed.
    Output,
}

impl Fault {
    /// The status that the program ends with.
    pub fn status(&self) -> u8
        ensures { result ≡ status_of self.now }
    {
        match self {
            Fault::Output => 1,
            Fault::Arguments | Fault::Stray => 2,
            Fault::Memory => 3,
        }
    }
}

impl Display for Fault {
    ghost output = { λ fault. Some (fault_text fault) };

    fn fmt<W: fmt::Write>(&self, formatter: &mut Formatter<W>) -> fmt::Result {
        formatter.write_str(match self {
            Fault::Arguments => "usage: nesting TEXT ..",
            Fault::Stray => "a bracket closes nothing",
            Fault::Memory => "out of memory",
            Fault::Output => "the answer can't be printed",
        })
    }
}

impl From<AllocError> for Fault {
    ghost from_gives = { λ _ fault. fault ≡ Memory };

    fn from(_: AllocError) -> Self {
        Fault::Memory
    }
}
