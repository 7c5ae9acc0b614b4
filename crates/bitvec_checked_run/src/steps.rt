//! Steps of a run as structs of numbers.
ghost use Rattle.std.specs.Prelude.{◌≡◌, ◌<◌};

use crate::operations::operation;
use bitvec_run::FieldStep;

/// One step of a run, on the bits `from` up to, without, `to` of its window. What its other fields mean
/// says the operation.
#[repr(C)]
#[derive(Clone, Copy)]
pub struct RawStep {
    /// The first bit.
    pub from: usize,
    /// The end.
    pub to: usize,
    /// An index, an amount, the start of a right window, or the lower 64 bits of a number.
    pub first: usize,
    /// Another index, the length of a right window, or the upper 64 bits of a number.
    pub second: usize,
    /// A third index.
    pub third: usize,
    /// The number of the operation.
    pub op: u32,
    /// A bit, 1 unless it is 0.
    pub bit: u32,
}

impl RawStep {
    ghost use Rattle.bitvec_checked_run.specs.Steps.{step_of};

    /// The step that is meant. Condition: there is an operation of its number.
    pub(crate) fn step(self) -> FieldStep
        requires { self.op < 33 }
        ensures { result ≡ step_of self }
    {
        FieldStep {
            from: self.from,
            to: self.to,
            op: operation(self),
        }
    }
}
