//! Words of up to 64 bits that are split into the numbers of fields, or joined from them.
ghost use Rattle.std.specs.Prelude.{◌≡◌, ◌+◌, ◌-◌, ◌*◌, ◌/◌, ◌%◌, ◌^◌, ◌<◌, ◌≤◌, if◌then◌else◌};
ghost use Rattle.bitrecord.specs.Runs.{SplitsOff, aligned};

use crate::powers::power;
use bitvec::order::WordOrder;

/// The number of `len` bits as `split_off` takes it: where the first number is the highest, its highest
/// bit is that of the word. Condition: they are from 1 to 64.
#[inline(always)]
pub(crate) fn to_split<O: WordOrder>(number: u64, len: usize) -> u64
    requires some { 0 < len }
    requires bound { len ≤ 64 }
    requires fits { number < 2 ^ len }
    ensures { result ≡ aligned O.HIGH number len }
{
    if O::HIGH {
        number << (64 - len) as u32
    } else {
        number
    }
}

/// The first `len` bits of a word as a number, and what is left of it: the highest ones where the first
/// number is the highest, and else the lowest. Condition: they are below 64.
#[inline(always)]
pub(crate) fn split_off<O: WordOrder>(word: u64, len: usize) -> (u64, u64)
    requires { len < 64 }
    ensures { SplitsOff O.HIGH word len result.0 result.1 }
{
    let power = power(len);
    if O::HIGH {
        // what leaves the word at its top is the number
        let product = u128::from(word) * u128::from(power);
        (
            (product >> 64) as u64,
            (product & u128::from(u64::MAX)) as u64,
        )
    } else {
        (word & (power - 1), word >> len as u32)
    }
}

/// The number of the last `len` bits of a word. Condition: they are from 1 to 63.
#[inline(always)]
pub(crate) fn last_of<O: WordOrder>(word: u64, len: usize) -> u64
    requires some { 0 < len }
    requires bound { len < 64 }
    ensures { result ≡ (if O.HIGH then word % 2 ^ len else word / 2 ^ (64 - len)) }
{
    if O::HIGH {
        word & (power(len) - 1)
    } else {
        word >> (64 - len) as u32
    }
}
