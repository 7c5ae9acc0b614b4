//! Integers as numbers of some bits, and back.
ghost use Rattle.std.specs.Prelude.{◌≡◌, ◌-◌, ◌^◌, ◌<◌, ◌≤◌, true};
ghost use Rattle.bitvec_numbers.specs.Integers.{integer_of, remainder_of};

/// The greatest number of so many bits. Condition: `bits` is from 1 to 128.
fn greatest(bits: u32) -> u128
    requires some { 0 < bits }
    requires bound { bits ≤ 128 }
    ensures { result ≡ 2 ^ bits - 1 }
{
    u128::MAX >> (128 - bits)
}

/// The integer that so many bits with that number stand for, as a signed type. Condition: `bits` is
/// from 1 to 128, and the number is below `2^bits`.
pub fn extended(number: u128, bits: u32) -> i128
    requires some { 0 < bits }
    requires bound { bits ≤ 128 }
    requires fits { number < 2 ^ bits }
    ensures { result ≡ integer_of true bits number }
{
    let greatest = greatest(bits);
    if number <= greatest / 2 {
        return number as i128;
    }
    -1 - (greatest - number) as i128
}

/// The remainder of an integer by `2^bits`. Condition: `bits` is from 1 to 128.
pub fn reduced(value: i128, bits: u32) -> u128
    requires some { 0 < bits }
    requires bound { bits ≤ 128 }
    ensures { result ≡ remainder_of bits value }
{
    let greatest = greatest(bits);
    if value >= 0 {
        return value as u128 & greatest;
    }
    greatest - ((-1 - value) as u128 & greatest)
}
