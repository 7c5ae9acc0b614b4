//! Why the program made no run.
ghost use Rattle.std.specs.Prelude.{◌≡◌, Some};
ghost use Rattle.bitdo_work.specs.declared.fault.Fault.TheVariants.{Run, Memory};
ghost use Rattle.bitdo_work.specs.Faults.{status_of, fault_text};

use bitvec_run::RunError;
use std::alloc::{AllocError, AllocFailed};
use std::fmt::{self, Display, Formatter};

/// What ends the program without a run. Its text is the line that is printed then.
#[derive(Drop)]
pub(crate) enum Fault {
    /// The arguments aren't six words in their grammar.
    Arguments,
    /// The input can't be read, or isn't UTF-8.
    Input,
    /// The first line that isn't in the grammar, counted from 1.
    Line(usize),
    /// The run wasn't made.
    Run(RunError),
    /// There was no room for the memory, the input or the steps.
    Memory,
}

impl Fault {
    /// The status that the program ends with.
    pub(crate) fn status(&self) -> u8
        ensures { result ≡ status_of self.now }
    {
        match self {
            Fault::Arguments | Fault::Input | Fault::Line(_) => 2,
            Fault::Run(_) | Fault::Memory => 3,
        }
    }
}

impl Display for Fault {
    ghost output = { λ fault. Some (fault_text fault) };

    fn fmt<W: fmt::Write>(&self, formatter: &mut Formatter<W>) -> fmt::Result {
        match self {
            Fault::Arguments => formatter.write_str("bad arguments"),
            Fault::Input => formatter.write_str("bad input"),
            Fault::Line(number) => write!(formatter, "bad line {number}"),
            Fault::Run(RunError::Window) => formatter.write_str("run error: window"),
            Fault::Run(RunError::Right) => formatter.write_str("run error: right"),
            Fault::Run(RunError::Memory) | Fault::Memory => {
                formatter.write_str("run error: memory")
            }
        }
    }
}

impl From<AllocError> for Fault {
    ghost from_gives = { λ _ fault. fault ≡ Memory };

    fn from(_: AllocError) -> Fault {
        Fault::Memory
    }
}

impl<T: Drop> From<AllocFailed<T>> for Fault {
    ghost from_gives = { λ _ fault. fault ≡ Memory };

    fn from(_: AllocFailed<T>) -> Fault {
        Fault::Memory
    }
}

impl From<RunError> for Fault {
    ghost from_gives = { λ error fault. fault ≡ Run error };

    fn from(error: RunError) -> Fault {
        Fault::Run(error)
    }
}
