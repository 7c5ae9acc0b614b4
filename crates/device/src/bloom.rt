//! A Bloom filter: it may say yes to a key that was not inserted, and never no to one that was.
ghost use Rattle.std.specs.Prelude.{◌≡◌, ℕ, ◌↔◌, ◌<◌, IsTrue};
ghost use Rattle.device.specs.Filter.{Has, Inserts, IsEmpty, mixed, place_of};

use bitvec::in_place;
use bitvec::prelude::*;

/// How many places a key has.
const ROUNDS: u64 = 3;

/// A number made of a key and a round.
fn mix(key: u64, round: u64) -> u64
    ensures { result ≡ mixed key round }
{
    let seed = key ^ round.wrapping_mul(0x9E37_79B9_7F4A_7C15);
    (seed ^ (seed >> 33)).wrapping_mul(0xFF51_AFD7_ED55_8CCD)
}

/// The place of a key in a round.
#[tactic(auto, unfolding(crate::specs::Filter::place_of))]
fn place(key: u64, round: u64) -> usize
    ensures place { result ≡ place_of key round }
    ensures below { result < 256 }
{
    (mix(key, round) >> 56) as usize
}

/// A filter of 256 bits.
#[derive(Drop)]
pub struct Bloom {
    words: [u64; 4],
}

impl Bloom {
    /// A filter that has no key: its bits are zeros.
    #[tactic(auto, using(bitvec::specs::Laws::bitwise))]
    pub fn new() -> Self
        ensures { IsEmpty result }
    {
        Bloom { words: [0; 4] }
    }

    /// Inserts a key; each key that was there stays.
    #[tactic(auto, using(bitvec::specs::Laws::bitwise))]
    pub fn insert(&mut self, key: u64)
        ensures inserted { Inserts ROUNDS key self.old self.new }
        ensures kept { (other : ℕ) → Has ROUNDS self.old other → Has ROUNDS self.new other }
    {
        for round in 0..ROUNDS {
            in_place::set::<u64, Lsb0>(&mut self.words, place(key, round), true);
        }
    }

    /// Whether a key may have been inserted; it is true of each that was.
    pub fn maybe_has(&self, key: u64) -> bool
        ensures { IsTrue result ↔ Has ROUNDS self.now key }
    {
        for round in 0..ROUNDS {
            if !in_place::get::<u64, Lsb0>(&self.words, place(key, round)) {
                return false;
            }
        }
        true
    }
}
