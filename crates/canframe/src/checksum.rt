//! The checksum of a frame.
ghost use Rattle.std.specs.Prelude.{◌≡◌, ◌^◌, ◌<◌};
ghost use Rattle.bitvec.specs.Views.{seen};
ghost use Rattle.canframe.specs.Checksums.{crc_of, crc_step};

use bitvec::prelude::*;

/// The weight of the register's highest bit.
const HIGHEST: u16 = 1 << 14;

/// The polynomial, without its highest power.
const POLYNOMIAL: u16 = 0x4599;

/// The register with one bit more.
fn with_bit(crc: u16, bit: bool) -> u16
    ensures { result ≡ crc_step crc bit }
{
    let shifted = 2 * (crc % HIGHEST);
    let differs = if crc < HIGHEST { bit } else { !bit };
    if differs {
        shifted ^ POLYNOMIAL
    } else {
        shifted
    }
}

/// The register after all bits, where it begins as 0.
fn register(bits: BitSlice<'_, u8, Msb0>) -> u16
    ensures { result ≡ crc_of (seen bits.entry).bits }
{
    bits.iter().by_vals().fold(0, |crc, bit| with_bit(crc, bit))
}

/// The checksum of bits: the register of 15 bits after all of them.
#[tactic(auto, using(crate::proofs::ChecksumLaws::small))]
pub fn checksum(bits: BitSlice<'_, u8, Msb0>) -> u16
    ensures value { result ≡ crc_of (seen bits.entry).bits }
    ensures small { result < 2 ^ 15 }
{
    register(bits)
}
