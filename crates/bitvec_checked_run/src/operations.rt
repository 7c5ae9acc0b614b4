//! The operations of a run's steps, by their numbers.
ghost use Rattle.std.specs.Prelude.{◌≡◌, ◌+◌, ◌*◌, ◌^◌, ◌<◌};
ghost use Rattle.bitvec_checked_run.specs.Steps.{operation_of};

use crate::steps::RawStep;
use bitvec_base::Window;
use bitvec_commands::Op;
use bitvec_run::FieldOp;

pub const GET: u32 = 0;

pub const SET: u32 = 1;

pub const REPLACE: u32 = 2;

pub const SWAP_BITS: u32 = 3;

pub const FILL: u32 = 4;

pub const INVERT: u32 = 5;

pub const REVERSE: u32 = 6;

pub const SHIFT_START: u32 = 7;

pub const SHIFT_END: u32 = 8;

pub const ROTATE_LEFT: u32 = 9;

pub const ROTATE_RIGHT: u32 = 10;

pub const COPY_WITHIN: u32 = 11;

pub const COPY: u32 = 12;

pub const AND: u32 = 13;

pub const OR: u32 = 14;

pub const XOR: u32 = 15;

pub const EQUAL: u32 = 16;

pub const COMPARE: u32 = 17;

pub const STARTS_WITH: u32 = 18;

pub const ENDS_WITH: u32 = 19;

pub const CONTAINS: u32 = 20;

pub const COUNT_ONES: u32 = 21;

pub const COUNT_ZEROS: u32 = 22;

pub const FIRST_ONE: u32 = 23;

pub const FIRST_ZERO: u32 = 24;

pub const LAST_ONE: u32 = 25;

pub const LAST_ZERO: u32 = 26;

pub const ANY: u32 = 27;

pub const ALL: u32 = 28;

pub const LOAD_LE: u32 = 29;

pub const LOAD_BE: u32 = 30;

pub const STORE_LE: u32 = 31;

pub const STORE_BE: u32 = 32;

/// How many there are.
pub const OPERATIONS: u32 = 33;

/// The operation of a step. Condition: there is one of its number.
#[tactic(auto, unfolding(crate::specs::Steps::operation_of, crate::specs::Steps::operations_of))]
pub(crate) fn operation(step: RawStep) -> FieldOp
    requires { step.op < 33 }
    ensures { result ≡ operation_of step }
{
    let RawStep {
        first,
        second,
        third,
        ..
    } = step;
    let bit = step.bit != 0;
    let window = Window {
        start: first,
        len: second,
    };
    FieldOp::Plain(match step.op {
        GET => Op::Get(first),
        SET => Op::Set(first, bit),
        REPLACE => Op::Replace(first, bit),
        SWAP_BITS => Op::Swap(first, second),
        FILL => Op::Fill(bit),
        INVERT => Op::Invert,
        REVERSE => Op::Reverse,
        SHIFT_START => Op::ShiftStart(first),
        SHIFT_END => Op::ShiftEnd(first),
        ROTATE_LEFT => Op::RotateLeft(first),
        ROTATE_RIGHT => Op::RotateRight(first),
        COPY_WITHIN => Op::CopyWithin(first, second, third),
        COPY => Op::CopyFrom(window),
        AND => Op::And(window),
        OR => Op::Or(window),
        XOR => Op::Xor(window),
        EQUAL => Op::Eq(window),
        COMPARE => Op::Cmp(window),
        STARTS_WITH => Op::StartsWith(window),
        ENDS_WITH => Op::EndsWith(window),
        CONTAINS => Op::Contains(window),
        COUNT_ONES => Op::CountOnes,
        COUNT_ZEROS => Op::CountZeros,
        FIRST_ONE => Op::FirstOne,
        FIRST_ZERO => Op::FirstZero,
        LAST_ONE => Op::LastOne,
        LAST_ZERO => Op::LastZero,
        ANY => Op::Any,
        ALL => Op::All,
        LOAD_LE => return FieldOp::LoadLe,
        LOAD_BE => return FieldOp::LoadBe,
        STORE_LE => return FieldOp::StoreLe(joined(first, second)),
        STORE_BE => return FieldOp::StoreBe(joined(first, second)),
        _ => unreachable!(),
    })
}

/// The number of two halves.
fn joined(low: usize, high: usize) -> u128
    ensures { result ≡ low + 2 ^ 64 * high }
{
    low as u128 + ((high as u128) << 64)
}
