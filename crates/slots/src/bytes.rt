//! A map as bytes: eight places a byte, the lowest bit of the first byte is place 0.
ghost use Rattle.std.specs.Prelude.{◌≡◌, ◌*◌, ◌≤◌, IfOk, IfErr, OnErr, length};
ghost use Rattle.bitvec.specs.Arrays.{lsb0_bits};
ghost use Rattle.bitvec.specs.Window.{max_bits};
ghost use Rattle.slots.specs.Changes.{Changes, Refuses};

use crate::fault::Fault;
use crate::places::{Change, make_change};
use bitvec::prelude::*;
use std::ops::Range;

/// Changes the map, and gives the bytes back.
fn changed<'a>(bytes: &'a mut [u8], asked: &Change) -> (Result<Range<usize>, Fault>, &'a mut [u8])
    requires { 8 * length bytes.old ≤ max_bits }
    ensures done { IfOk result.0 (λ range. Changes asked.now (lsb0_bits 8 bytes.old) range (lsb0_bits 8 result.1.now)) }
    ensures refused { IfErr result.0 (Refuses asked.now (lsb0_bits 8 bytes.old)) }
    ensures kept { OnErr result.0 (result.1.now ≡ bytes.old) }
    ensures length { length result.1.now ≡ length bytes.old }
    ensures name { result.1.ghost_name ≡ bytes.entry.ghost_name }
{
    let mut places = BitSliceMut::<u8, Lsb0>::from_slice_mut(bytes);
    let range = make_change(&mut places, asked);
    (range, places.into_slice())
}

/// Changes a map of bytes, and gives the places that were taken or given back. An error, if the change is
/// refused; the bytes are as before then. Condition: they are at most `max_bits` bits.
pub fn change_bytes(bytes: &mut [u8], asked: &Change) -> Result<Range<usize>, Fault>
    requires { 8 * length bytes.old ≤ max_bits }
    ensures done { IfOk result (λ range. Changes asked.now (lsb0_bits 8 bytes.old) range (lsb0_bits 8 bytes.new)) }
    ensures refused { IfErr result (Refuses asked.now (lsb0_bits 8 bytes.old)) }
    ensures kept { OnErr result (bytes.new ≡ bytes.old) }
{
    let (range, _bytes) = changed(bytes, asked);
    range
}
