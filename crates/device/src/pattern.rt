//! Bytes that are edited in place.
ghost use Rattle.device.specs.Pattern.{HasPattern};

use bitvec::in_place;
use bitvec::prelude::*;

/// Eight bytes: bit 3 and the bits from 20 to 39 are ones, the bits from 5 to 16 are the lowest of the number, and
/// the others zeros.
#[tactic(auto, using(bitvec::specs::Laws::bitwise, bitvec::specs::Laws::fields))]
pub fn pattern(number: u16) -> [u8; 8]
    ensures { HasPattern number result }
{
    let mut bytes = [0u8; 8];
    in_place::set::<u8, Lsb0>(&mut bytes, 3, true);
    in_place::fill::<u8, Lsb0>(&mut bytes, 20..40, true);
    in_place::store_le::<u8, Lsb0, u16>(&mut bytes, 5..17, number);
    bytes
}
