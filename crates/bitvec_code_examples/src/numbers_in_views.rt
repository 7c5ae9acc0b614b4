//! What a caller knows of several numbers in one view, and of numbers from the order's own end, in words that are those of arrays.
ghost use Rattle.std.specs.Prelude.{◌≡◌, ◌+◌, ◌-◌, ◌%◌, ◌^◌, ◌<◌, ◌≤◌, false, slice_range, true};
ghost use Rattle.bitvec.specs.Ranges.{number_in, numbered};
ghost use Rattle.bitvec.specs.Segments.{loaded_be};
ghost use Rattle.bitvec.specs.Views.{seen, seen_mut};
ghost use Rattle.bitvec.specs.Window.{write_at};
ghost use Rattle.bitvec.specs.Writes.{WritesBits};

use bitvec::prelude::*;

/// A number and then another behind it: the first one stays.
#[tactic(auto, using(bitvec::specs::Laws::spliced, bitvec::specs::Laws::fields))]
pub fn put_two<T: BitStore, O: FieldOrder>(
    view: &mut BitSliceMut<'_, T, O>,
    from: usize,
    mid: usize,
    to: usize,
    first: u64,
    second: u64,
)
    requires some { from < mid }
    requires order { mid < to }
    requires bound { mid ≤ from + 64 }
    requires narrow { to ≤ mid + 64 }
    requires inside { to ≤ (seen_mut view.old).window.len }
    ensures first { loaded_be O.HIGH T.BITS ((seen_mut view.old).window.start + from) (slice_range (seen_mut view.new).bits from mid) ≡ first % 2 ^ (mid - from) }
    ensures second { loaded_be O.HIGH T.BITS ((seen_mut view.old).window.start + mid) (slice_range (seen_mut view.new).bits mid to) ≡ second % 2 ^ (to - mid) }
    ensures window { (seen_mut view.new).window ≡ (seen_mut view.old).window }
{
    view.edit_with(from..mid, |piece| piece.store_be::<u64>(first));
    view.edit_with(mid..to, |piece| piece.store_be::<u64>(second));
}

/// A number stored from the order's own end, in the word of arrays.
#[tactic(auto, using(bitvec::specs::Laws::seamless))]
pub fn put_lowest_first<T: BitStore>(
    view: &mut BitSliceMut<'_, T, Lsb0>,
    from: usize,
    to: usize,
    number: u32,
)
    requires some { from < to }
    requires bound { to ≤ from + 32 }
    requires inside { to ≤ (seen_mut view.old).window.len }
    ensures { (seen_mut view.new).bits ≡ numbered false false T.BITS (seen_mut view.old).bits from to number }
{
    view.edit_with(from..to, |piece| piece.store_le::<u32>(number));
}

/// And loaded.
#[tactic(auto, using(bitvec::specs::Laws::seamless))]
pub fn take_highest_first<T: BitStore>(view: BitSlice<'_, T, Msb0>, from: usize, to: usize) -> u32
    requires some { from < to }
    requires bound { to ≤ from + 32 }
    requires inside { to ≤ (seen view).window.len }
    ensures { result ≡ number_in true true T.BITS (seen view.entry).bits from to }
{
    view.into_part(from..to).load_be::<u32>()
}

/// Stores 0, 4, 8 and so on in the chunks of five bits, and gives what each is read as then.
fn number_chunks(bytes: &mut [u8; 5]) -> [u8; 8] {
    let mut view = BitSliceMut::<u8, Msb0>::from_slice_mut(bytes);
    let mut chunks = view.chunks_mut(5);
    let mut loaded = [0; 8];
    for number in 0..8u8 {
        if let Some(mut chunk) = chunks.next_mut() {
            if !chunk.is_empty() && chunk.len() <= 8 {
                chunk.store_be::<u8>(4 * number);
                loaded[number as usize] = chunk.load_be::<u8>();
            }
        }
    }
    loaded
}

#[test]
fn chunks_hold_numbers(rt: HostRuntime) {
    let mut bytes = [0u8; 5];
    assert!(rt; number_chunks(&mut bytes) == [0, 4, 8, 12, 16, 20, 24, 28]);
    assert!(rt; bytes == [0x01, 0x10, 0xC8, 0x53, 0x1C]);
}

#[test]
fn views_hold_numbers(rt: HostRuntime) {
    let mut bytes = [0u8; 4];
    {
        let mut view = BitSliceMut::<u8, Msb0>::from_slice_mut(&mut bytes).into_part(3..32);
        put_two(&mut view, 0, 5, 18, 0b10101, 0x1001);
        assert!(rt; take_highest_first(view.as_bitslice(), 0, 18) == 0b10101 << 13 | 0x1001);
    }
    let mut words = [0u16; 2];
    {
        let mut view = BitSliceMut::<u16, Lsb0>::from_slice_mut(&mut words);
        put_lowest_first(&mut view, 12, 20, 0x5A);
    }
    assert!(rt; bytes == [0x15, 0x80, 0x08, 0] && words == [0xA000, 0x0005]);
}
