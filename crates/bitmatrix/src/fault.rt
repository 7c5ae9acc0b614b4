//! Why the program ends without a closure.
ghost use Rattle.std.specs.Prelude.{◌≡◌, Some};
ghost use Rattle.bitmatrix.specs.Faults.{fault_text, status_of};
ghost use Rattle.bitmatrix.specs.declared.fault.Fault.TheVariants.{Memory};

use std::alloc::AllocError;
use std::fmt::{self, Display, Formatter};

/// What ends the program early. Its text is the line that is printed then.
#[derive(Clone, Copy)]
pub enum Fault {
    /// The program doesn't know the words.
    Arguments,
    /// The input isn't a square of 0 and 1, or can't be read.
    Input,
    /// There was no room for the words, the input or the bits.
    Memory,
    /// The output can't be written.
    Output,
}

impl Fault {
    /// The status that the program ends with.
    pub fn status(&self) -> u8
        ensures { result ≡ status_of self.now }
    {
        match self {
            Fault::Output => 1,
            Fault::Arguments | Fault::Input => 2,
            Fault::Memory => 3,
        }
    }
}

impl Display for Fault {
    ghost output = { λ fault. Some (fault_text fault) };

    fn fmt<W: fmt::Write>(&self, formatter: &mut Formatter<W>) -> fmt::Result {
        formatter.write_str(match self {
            Fault::Arguments => "usage: bitmatrix rows | pairs [PAIR..] | chain N",
            Fault::Input => "refused: no square of 0 and 1",
            Fault::Memory => "out of memory",
            Fault::Output => "the output can't be written",
        })
    }
}

impl From<AllocError> for Fault {
    ghost from_gives = { λ _ fault. fault ≡ Memory };

    fn from(_: AllocError) -> Fault {
        Fault::Memory
    }
}
