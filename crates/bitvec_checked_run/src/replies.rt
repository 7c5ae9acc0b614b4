//! Replies of a run as structs of numbers.
ghost use Rattle.std.specs.Prelude.{◌≡◌};
ghost use Rattle.bitvec_checked_run.specs.Steps.{ordering_number};

use bitvec_checked::{DONE, NONE};
use bitvec_commands::Reply;
use std::cmp::Ordering;

/// The reply to a step.
#[repr(C)]
#[derive(Clone, Copy)]
pub struct RawReply {
    /// The bit, the count, the index, or the lower 64 bits of the number; of an order 0 for less, 1 for
    /// equal and 2 for greater.
    pub low: u64,
    /// The upper 64 bits of the number.
    pub high: u64,
    /// Which of these it is.
    pub kind: u32,
    /// Whether the step was carried out, or why it was refused.
    pub status: u32,
}

impl RawReply {
    ghost use Rattle.bitvec_checked_run.specs.Steps.{raw_reply};

    /// A reply as numbers.
    pub(crate) fn new(reply: Reply) -> Self
        ensures { result ≡ raw_reply reply }
    {
        match reply {
            Reply::Done => RawReply::of(0, 0),
            Reply::Bit(bit) => RawReply::of(1, bit as u64),
            Reply::Count(count) => RawReply::of(2, count as u64),
            Reply::Index(Some(index)) => RawReply::of(3, index as u64),
            Reply::Index(None) => RawReply {
                status: NONE,
                ..RawReply::of(3, 0)
            },
            Reply::Order(order) => RawReply::of(4, order_number(order)),
            Reply::Number(number) => RawReply {
                high: (number >> 64) as u64,
                ..RawReply::of(5, (number & u64::MAX as u128) as u64)
            },
            Reply::Refused(refusal) => RawReply {
                status: refusal as u32,
                ..RawReply::of(6, 0)
            },
        }
    }

    /// One of that kind of a step that was carried out.
    fn of(kind: u32, low: u64) -> Self
        ensures { result ≡ record { low = low; high = 0; kind = kind; status = 0 } }
    {
        RawReply {
            low,
            high: 0,
            kind,
            status: DONE,
        }
    }
}

/// An order as a number.
fn order_number(order: Ordering) -> u64
    ensures { result ≡ ordering_number order }
{
    match order {
        Ordering::Less => 0,
        Ordering::Equal => 1,
        Ordering::Greater => 2,
    }
}
