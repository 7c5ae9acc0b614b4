//! Why the program prints a line in place of a packet.
ghost use Rattle.std.specs.Prelude.{◌≡◌, Some};
ghost use Rattle.packet.specs.declared.fault.Fault.TheVariants.{Memory};
ghost use Rattle.packet.specs.Faults.{fault_text, reason_of, status_of};

use std::alloc::{AllocError, AllocFailed};
use std::fmt::{self, Display, Formatter};

/// What ends the program without a packet. Its text is the line that is printed then. Changes go by
/// their numbers, from 1 on.
#[derive(Clone, Copy)]
pub enum Fault {
    /// The arguments aren't changes.
    Arguments,
    /// The input can't be read.
    Input,
    /// The input has a byte that is neither a hexadecimal digit nor white space.
    Digit,
    /// The input has an odd number of digits.
    Odd,
    /// The packet has more bytes than its length can say.
    Long,
    /// The packet ends within a header.
    Truncated,
    /// The version isn't 4.
    Version,
    /// The header's length is below 5.
    HeaderLength,
    /// This change names no field of the packet.
    Unknown(usize),
    /// This change names a field that says where others lie, or the checksum, which is computed.
    Fixed(usize),
    /// The value of this change has more bits than its field.
    Range(usize),
    /// There was no room.
    Memory,
}

impl Fault {
    /// The status that the program ends with.
    pub(crate) fn status(self) -> u8
        ensures { result ≡ status_of self }
    {
        match self {
            Fault::Memory => 3,
            _ => 2,
        }
    }

    /// What is wrong, without the number of the change.
    fn reason(&self) -> &'static str
        ensures { result.now ≡ reason_of self.now }
    {
        match self {
            Fault::Arguments => "bad arguments",
            Fault::Input => "bad input",
            Fault::Digit => "bad digit",
            Fault::Odd => "odd number of digits",
            Fault::Long => "packet too long",
            Fault::Truncated => "packet truncated",
            Fault::Version => "version is not 4",
            Fault::HeaderLength => "header length below 5",
            Fault::Unknown(_) => "no such field",
            Fault::Fixed(_) => "field can't be set",
            Fault::Range(_) => "value too large",
            Fault::Memory => "out of memory",
        }
    }
}

impl Display for Fault {
    ghost output = { λ fault. Some (fault_text fault) };

    fn fmt<W: fmt::Write>(&self, formatter: &mut Formatter<W>) -> fmt::Result {
        match self {
            Fault::Unknown(number) | Fault::Fixed(number) | Fault::Range(number) => {
                write!(formatter, "change {number}: {}", self.reason())
            }
            _ => formatter.write_str(self.reason()),
        }
    }
}

impl From<AllocError> for Fault {
    ghost from_gives = { λ _ fault. fault ≡ Memory };

    fn from(_: AllocError) -> Fault {
        Fault::Memory
    }
}

impl<T: Drop> From<AllocFailed<T>> for Fault {
    ghost from_gives = { λ _ fault. fault ≡ Memory };

    fn from(_: AllocFailed<T>) -> Fault {
        Fault::Memory
    }
}
