//! Which way an order runs through the bits of an element.
ghost use Rattle.std.specs.Prelude.{◌≡◌, ◌↔◌, true};
ghost use Rattle.bitvec_engine.specs.Direction.{Agrees, HasDirection};

use bitvec_base::{BitOrder, Lsb0, Msb0};
use bitvec_store::BitStore;

/// Which way the indices of an order run through an element.
#[derive(Clone, Copy)]
pub enum Direction {
    /// From the least significant bit up, as under `Lsb0`.
    Up,
    /// From the most significant bit down, as under `Msb0`.
    Down,
    /// In another way.
    Other,
}

/// Which way an order runs through elements of a type: each index is asked for its bit, up to the first
/// that stands elsewhere. Of an order that is known at compile time nothing is asked.
#[inline(always)]
pub fn direction_of<O: BitOrder, T: BitStore>() -> Direction
    ensures { HasDirection result T.BITS O.at }
{
    if agrees::<O, Lsb0, T>() {
        Direction::Up
    } else if agrees::<O, Msb0, T>() {
        Direction::Down
    } else {
        Direction::Other
    }
}

/// Whether two orders have the bits of an element at the same indices.
#[inline(always)]
fn agrees<O: BitOrder, P: BitOrder, T: BitStore>() -> bool
    ensures { (result ≡ true) ↔ Agrees T.BITS O.at P.at }
{
    for index in 0..T::BITS as usize {
        if O::at::<T>(index) != P::at::<T>(index) {
            return false;
        }
    }
    true
}
