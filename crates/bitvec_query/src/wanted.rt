//! Which bits a walk is about.
ghost use Rattle.std.specs.Prelude.{Bool, false, true};

/// The bit whose indices a walk gives.
pub trait Wanted {
    ghost BIT: { Bool };

    /// Whether it is 1.
    const BIT: bool;
}

/// The bits that are 1.
#[derive(Clone, Copy)]
pub enum Ones {}

/// The bits that are 0.
#[derive(Clone, Copy)]
pub enum Zeros {}

impl Wanted for Ones {
    ghost BIT = { true };

    const BIT: bool = true;
}

impl Wanted for Zeros {
    ghost BIT = { false };

    const BIT: bool = false;
}
