//! The functions that docs/GUIDE.md builds, others over the same seats, and what they answer.
ghost use Rattle.std.specs.Prelude.{◌≡◌, ◌+◌, ◌-◌, ◌%◌, ◌<◌, ◌≤◌, IfNone, IfOk, IfSome, count_by, false, map, pos, replicate, slice_range, slice_set, true};
ghost use Rattle.bitvec.specs.Copies.{Holds, copy_start};
ghost use Rattle.bitvec.specs.Cutting.{chunk, chunk_count};
ghost use Rattle.bitvec.specs.Indices.{HasRange};
ghost use Rattle.bitvec.specs.Lists.{first_place, places_of};
ghost use Rattle.bitvec.specs.Owned.{owned};
ghost use Rattle.bitvec.specs.PieceParts.{parts_of};
ghost use Rattle.bitvec.specs.Segments.{loaded_be};
ghost use Rattle.bitvec.specs.Views.{seen, seen_mut};
ghost use Rattle.bitvec.specs.Window.{write_at};
ghost use Rattle.bitvec.specs.Writes.{WritesBits};

use bitvec::prelude::*;
use std::alloc::{AllocError, Allocator, Global};
use std::ops::Range;

/// How many seats are taken.
pub fn taken<T: BitStore, O: SliceOrder>(seats: BitSlice<'_, T, O>) -> usize
    ensures { result ≡ count_by (λ bit. bit) (seen seats.entry).bits }
{
    seats.count_ones()
}

/// Takes the first seat that is free, and gives its number.
#[tactic(auto, using(bitvec::specs::Laws::found))]
pub fn take_one<T: BitStore, O: SliceOrder>(seats: &mut BitSliceMut<'_, T, O>) -> Option<usize>
    ensures first { result ≡ first_place false (seen_mut seats.old).bits }
    ensures taken { IfSome result (λ seat. (seen_mut seats.new).bits ≡ slice_set (seen_mut seats.old).bits seat true) }
    ensures full { IfNone result ((seen_mut seats.new).bits ≡ (seen_mut seats.old).bits) }
{
    let seat = seats.first_zero()?;
    seats.set(seat, true);
    Some(seat)
}

/// Takes all seats of a range; every other stays as it is.
pub fn take_row<T: BitStore, O: SliceOrder>(seats: &mut BitSliceMut<'_, T, O>, row: Range<usize>)
    requires { HasRange row (seen_mut seats.old).window.len }
    ensures { WritesBits seats.old seats.new
        (write_at (seen_mut seats.old).bits row.start (replicate (row.end - row.start) true)) }
{
    seats.edit_with(row, |piece| piece.fill(true));
}

/// The numbers of the seats that are taken, ascending.
pub fn taken_seats<T: BitStore, O: SliceOrder, A: Allocator>(
    alloc: A,
    seats: BitSlice<'_, T, O>,
) -> Result<Vec<usize, A>, AllocError>
    ensures { IfOk result (λ list. list.items ≡ places_of true (seen seats.entry).bits) }
{
    seats.iter_ones().collect(alloc)
}

/// How many seats of each row are taken. Condition: a row has a seat.
#[tactic(auto, using(bitvec::specs::Laws::walked))]
pub fn taken_by_row<T: BitStore, O: SliceOrder>(
    alloc: Global,
    seats: BitSlice<'_, T, O>,
    size: usize,
) -> Result<Vec<usize>, AllocError>
    requires { 0 < size }
    ensures { IfOk result (λ counts. counts.items ≡ map (λ row. count_by (λ bit. bit) row.bits) (parts_of T.BITS (seen seats.entry) (chunk_count size) (chunk size))) }
{
    seats
        .chunks(size)
        .map(|row| row.count_ones())
        .collect(alloc)
}

/// The train's number: the twelve bits behind the first four, the first of them highest. Condition: there
/// are as many.
pub fn train_number(header: BitSlice<'_, u8, Msb0>) -> u16
    requires { 16 ≤ (seen header).window.len }
    ensures { pos result ≡ pos (loaded_be true 8 (((seen header.entry).window.start + 4) % 8) (slice_range (seen header.entry).bits 4 16)) }
{
    header.into_part(4..16).load_be::<u16>()
}

/// A copy of the seats, in memory of its own.
pub fn snapshot<T: BitStore, O: SliceOrder>(
    alloc: Global,
    seats: BitSlice<'_, T, O>,
) -> Result<BitVec<T, O, Global>, AllocError>
    ensures { IfOk result (λ copy. Holds T.BITS (seen seats.entry).bits (copy_start T.BITS (seen seats.entry).window) (owned copy)) }
{
    seats.to_bitvec(alloc)
}

#[test]
fn seats_are_taken(rt: HostRuntime) {
    let mut bytes = [0b0000_0101u8, 0];
    {
        let mut seats = BitSliceMut::<u8, Lsb0>::from_slice_mut(&mut bytes);
        assert!(rt; take_one(&mut seats) == Some(1));
        if seats.len() == 16 {
            take_row(&mut seats, 8..12);
        }
    }
    assert!(rt; bytes == [0b0000_0111, 0b0000_1111]);
}

#[test]
fn a_number_is_read(rt: HostRuntime) {
    let header = [0x1Au8, 0xBC];
    assert!(rt; train_number(BitSlice::from_slice(&header)) == 0xABC);
}
