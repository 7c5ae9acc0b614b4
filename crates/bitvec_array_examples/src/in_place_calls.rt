//! Questions about ranges of an array, and edits of them by closures and with another view.
ghost use Rattle.std.specs.Prelude.{◌≡◌, ◌+◌, ◌<◌, ◌≤◌, false, slice_index_or};
ghost use Rattle.bitvec.specs.Arrays.{lsb0_bits};
ghost use Rattle.bitvec.specs.Asked.{FillsWith};
ghost use Rattle.bitvec.specs.Ranges.{ChangesOnly, bits_in};

use bitvec::in_place;
use bitvec::prelude::*;

/// A device with four words of lines.
#[derive(Drop)]
pub struct Lines {
    words: [u32; 4],
}

impl Lines {
    /// Makes the lines of a word what `f` answers for the number of each; every other line is as before.
    #[tactic(auto, using(bitvec::specs::Laws::callable))]
    pub fn set_word_by<F: FnMut(usize) -> bool>(&mut self, f: F)
        requires { F.IsAlwaysCallable f }
        ensures answers { FillsWith F.FnMut f (bits_in (lsb0_bits 32 self.new.words) 32 64) }
        ensures others { ChangesOnly 32 64 (lsb0_bits 32 self.old.words) (lsb0_bits 32 self.new.words) }
    {
        in_place::fill_with::<u32, Lsb0, F>(&mut self.words, 32..64, f);
    }
}

/// Sets the bits of a range whose index is even, and flips the first of them.
fn answered() -> [u8; 2] {
    let mut bytes = [0x2Fu8, 0x0C];
    in_place::fill_with::<u8, Lsb0, _>(&mut bytes, 4..8, |index| index % 2 == 0);
    in_place::for_each::<u8, Lsb0, _>(&mut bytes, 0..4, |index, bit| bit == (index == 0));
    bytes
}

/// The bits 1, 0, 1, 0 of a byte exchanged with the first four of another.
fn exchanged() -> ([u8; 2], [u8; 1]) {
    let mut bytes = [0x51u8, 0x0C];
    let mut other = [0xA0u8];
    {
        let mut view = BitSliceMut::<u8, Msb0>::from_slice_mut(&mut other).into_part(0..4);
        in_place::swap_with::<u8, Lsb0, u8, Msb0>(&mut bytes, 8..12, &mut view);
    }
    (bytes, other)
}

/// The bytes after an edit: those that move the bits 2 up to 12, those that combine the bits 2 up to 8 with 1, 0, 1, and one
/// that combines the bits 8 up to 12 with 1, 0, 1, 0.
fn after(edit: u8) -> [u8; 2] {
    let mut bytes = [0x2Fu8, 0x0C];
    let other = BitSlice::<u8, Msb0>::from_slice(&[0xA0]).into_part(0..3);
    match edit {
        0 => in_place::reverse::<u8, Lsb0>(&mut bytes, 2..12),
        1 => in_place::rotate_right::<u8, Lsb0>(&mut bytes, 2..12, 3),
        2 => in_place::shift_start::<u8, Lsb0>(&mut bytes, 2..12, 3),
        3 => in_place::shift_end::<u8, Lsb0>(&mut bytes, 2..12, 3),
        4 => in_place::and_bits::<u8, Lsb0, u8, Msb0>(&mut bytes, 2..8, other),
        5 => in_place::or_bits::<u8, Lsb0, u8, Msb0>(&mut bytes, 2..8, other),
        6 => in_place::and_not_bits::<u8, Lsb0, u8, Msb0>(&mut bytes, 2..8, other),
        7 => in_place::and_not_within::<u8, Lsb0>(&mut bytes, 3..7, 8),
        _ => in_place::xor_bits::<u8, Lsb0, u8, Msb0>(&mut bytes, 2..8, other),
    }
    bytes
}

// The bits are 1, 1, 1, 1, 0, 1, 0, 0, 0, 0, 1, 1, 0, 0, 0, 0.
#[test]
fn a_range_is_counted(rt: HostRuntime) {
    let bytes = [0x2Fu8, 0x0C];
    let ones = in_place::count_ones::<u8, Lsb0>(&bytes, 2..12);
    let zeros = in_place::count_zeros::<u8, Lsb0>(&bytes, 2..12);
    let leading = in_place::leading_ones::<u8, Lsb0>(&bytes, 2..12);
    let trailing = in_place::trailing_ones::<u8, Lsb0>(&bytes, 2..12);
    assert!(rt; [ones, zeros, leading, trailing] == [5, 5, 2, 2]);
    let leading = in_place::leading_zeros::<u8, Lsb0>(&bytes, 4..10);
    let trailing = in_place::trailing_zeros::<u8, Lsb0>(&bytes, 4..10);
    assert!(rt; [leading, trailing] == [1, 4]);
    let first = in_place::first_one::<u8, Lsb0>(&bytes, 2..12);
    let zero = in_place::first_zero::<u8, Lsb0>(&bytes, 2..12);
    assert!(rt; (first, zero) == (Some(0), Some(2)));
    let last = in_place::last_one::<u8, Lsb0>(&bytes, 2..12);
    let zero = in_place::last_zero::<u8, Lsb0>(&bytes, 2..12);
    assert!(rt; (last, zero) == (Some(9), Some(7)));
}

#[test]
fn a_range_is_asked(rt: HostRuntime) {
    let bytes = [0x2Fu8, 0x0C];
    assert!(rt;
        in_place::any::<u8, Lsb0>(&bytes, 6..11) && !in_place::any::<u8, Lsb0>(&bytes, 6..10)
    );
    assert!(rt;
        in_place::all::<u8, Lsb0>(&bytes, 0..4) && !in_place::all::<u8, Lsb0>(&bytes, 0..5)
    );
    assert!(rt;
        in_place::not_any::<u8, Lsb0>(&bytes, 6..10) && in_place::not_all::<u8, Lsb0>(&bytes, 0..5)
    );
    assert!(rt;
        in_place::some::<u8, Lsb0>(&bytes, 3..5) && !in_place::some::<u8, Lsb0>(&bytes, 0..4)
    );
}

#[test]
fn a_range_is_compared(rt: HostRuntime) {
    let bytes = [0x2Fu8, 0x0C];
    let front = BitSlice::<u8, Msb0>::from_slice(&[0xD0]).into_part(0..4);
    assert!(rt; in_place::eq_bits::<u8, Lsb0, u8, Msb0>(&bytes, 2..6, front));
    assert!(rt; in_place::starts_with::<u8, Lsb0, u8, Msb0>(&bytes, 2..12, front));
    assert!(rt; in_place::cmp_bits::<u8, Lsb0, u8, Msb0>(&bytes, 2..7, front).is_gt());
    let end = BitSlice::<u8, Msb0>::from_slice(&[0x60]).into_part(0..3);
    assert!(rt; in_place::ends_with::<u8, Lsb0, u8, Msb0>(&bytes, 2..12, end));
    let middle = BitSlice::<u16, Lsb0>::from_slice(&[0x0001]).into_part(0..5);
    assert!(rt; in_place::contains::<u8, Lsb0, u16, Lsb0>(&bytes, 2..12, middle));
    assert!(rt; !in_place::contains::<u8, Lsb0, u16, Lsb0>(&bytes, 6..12, middle));
}

#[test]
fn a_range_is_answered_and_exchanged(rt: HostRuntime) {
    assert!(rt; answered() == [0x51, 0x0C]);
    assert!(rt; exchanged() == ([0x51, 0x05], [0x30]));
}

#[test]
fn a_range_is_moved_and_combined(rt: HostRuntime) {
    for (edit, bytes) in [
        (0, [0x0Fu8, 0x0D]),
        (1, [0x7B, 0x01]),
        (2, [0x87, 0x01]),
        (3, [0x63, 0x01]),
        (4, [0x07, 0x0C]),
        (5, [0x3F, 0x0C]),
        (6, [0x2B, 0x0C]),
        (7, [0x2F, 0x08]),
        (8, [0x3B, 0x0C]),
    ] {
        assert!(rt; after(edit) == bytes, "edit {edit}");
    }
    let mut bytes = [0x2Fu8, 0x0C];
    assert!(rt; !in_place::replace::<u8, Lsb0>(&mut bytes, 4, true) && bytes == [0x3F, 0x0C]);
}
