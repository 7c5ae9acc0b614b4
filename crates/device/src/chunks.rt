//! Chunks of five bits that have their numbers.
ghost use Rattle.std.specs.Prelude.{◌*◌, ◌≤◌, length};
ghost use Rattle.bitvec.specs.Window.{max_bits};
ghost use Rattle.device.specs.Chunks.{HaveNumbers};

use bitvec::in_place;
use bitvec::prelude::*;

/// Stores in each chunk of five bits its number, in the last one as much of it as fits. Condition: the bytes
/// have at most `MAX_BITS` bits.
#[tactic(auto, using(bitvec::specs::Laws::fields))]
pub fn number_chunks(bytes: &mut [u8])
    requires { 8 * length bytes.old ≤ max_bits }
    ensures { HaveNumbers (8 * length bytes.old) bytes.new }
{
    let len = 8 * bytes.len();
    for number in 0..len.div_ceil(5) {
        let start = 5 * number;
        in_place::store_be::<u8, Msb0, usize>(bytes, start..len.min(start + 5), number);
    }
}
