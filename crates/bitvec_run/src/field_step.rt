//! Commands with numbers.
use bitvec_commands::Op;

/// A command on the bits of a step's sub-range, `m` of them. The loads and stores are those of
/// `BitField`; they are refused by `Refusal::Width` unless `m` is from 1 to 128.
#[derive(Clone, Copy, PartialEq, Eq, Debug)]
pub enum FieldOp {
    /// Does that command.
    Plain(Op),
    /// Replies the number of the bits, the first segment lowest.
    LoadLe,
    /// Replies the number of the bits, the first segment highest.
    LoadBe,
    /// Gives the bits the number modulo `2^m`, the first segment lowest.
    StoreLe(u128),
    /// Gives the bits the number modulo `2^m`, the first segment highest.
    StoreBe(u128),
}

/// One command of a run, on the bits `from` up to, without, `to` of the run's window.
#[derive(Clone, Copy, PartialEq, Eq, Debug)]
pub struct FieldStep {
    /// The first bit of the sub-range, in the window.
    pub from: usize,
    /// The end of the sub-range, in the window.
    pub to: usize,
    /// What is done there.
    pub op: FieldOp,
}
