//! Why a request was not done.
ghost use Rattle.std.specs.Prelude.{◌≡◌, Some};
ghost use Rattle.slots.specs.Faults.{status_of, fault_text};
ghost use Rattle.slots.specs.declared.fault.Fault.TheVariants.{Memory};

use std::alloc::AllocError;
use std::fmt::{self, Display, Formatter};

/// What ends the program without an answer. Its text is the line that is printed then.
#[derive(Clone, Copy)]
pub enum Fault {
    /// The words aren't a request.
    Arguments,
    /// So many neighbouring places aren't free.
    Full,
    /// The places that were to be given back aren't all taken, or aren't all there.
    NotTaken,
    /// The map can't be read.
    Read,
    /// The new map can't be written, or put in the old one's place.
    Write,
    /// There was no room for the words or for the map.
    Memory,
    /// The answer can't be printed.
    Output,
}

impl Fault {
    /// The status that the program ends with.
    pub fn status(&self) -> u8
        ensures { result ≡ status_of self.now }
    {
        match self {
            Fault::Output => 1,
            Fault::Arguments | Fault::Full | Fault::NotTaken => 2,
            Fault::Read | Fault::Write | Fault::Memory => 3,
        }
    }
}

impl Display for Fault {
    ghost output = { λ fault. Some (fault_text fault) };

    fn fmt<W: fmt::Write>(&self, formatter: &mut Formatter<W>) -> fmt::Result {
        formatter.write_str(match self {
            Fault::Arguments => "usage: slots FILE take COUNT | give START [COUNT] | show",
            Fault::Full => "refused: no such run of free places",
            Fault::NotTaken => "refused: not all taken",
            Fault::Read => "the map can't be read",
            Fault::Write => "the new map can't be written",
            Fault::Memory => "out of memory",
            Fault::Output => "the answer can't be printed",
        })
    }
}

impl From<AllocError> for Fault {
    ghost from_gives = { λ _ fault. fault ≡ Memory };

    fn from(_: AllocError) -> Fault {
        Fault::Memory
    }
}
