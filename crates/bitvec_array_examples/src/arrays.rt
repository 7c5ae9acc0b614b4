//! Arrays edited in place, and what is known of them afterwards.
ghost use Rattle.std.specs.Prelude.{◌≡◌, ℕ, ◌+◌, ◌-◌, ◌*◌, ◌%◌, ◌<◌, ◌≤◌, false, true, length, replicate, slice_index_or, slice_set};
ghost use Rattle.bitvec.specs.Arrays.{lsb0_bits, msb0_bits};
ghost use Rattle.bitvec.specs.Lists.{rotated_left};
ghost use Rattle.bitvec.specs.Ranges.{ChangesOnly, edited, filled, flipped, number_in, numbered};
ghost use Rattle.bitvec.specs.Views.{seen_mut};
ghost use Rattle.bitvec.specs.Writes.{WritesBits};

use bitvec::in_place;
use bitvec::prelude::*;
use std::ops::Range;

/// Five edits of an array at literal places: what it holds then is their closed form.
pub fn drawn(number: u64) -> [u8; 8]
    ensures { lsb0_bits 8 result ≡ edited (rotated_left 3) (flipped (numbered false false 8
        (filled (slice_set (lsb0_bits 8 (replicate 8 0)) 3 true) 20 40 true) 5 17 number) 30 50) 40 60 }
{
    let mut bytes = [0u8; 8];
    in_place::set::<u8, Lsb0>(&mut bytes, 3, true);
    in_place::fill::<u8, Lsb0>(&mut bytes, 20..40, true);
    in_place::store_le::<u8, Lsb0, u64>(&mut bytes, 5..17, number);
    in_place::invert::<u8, Lsb0>(&mut bytes, 30..50);
    in_place::rotate_left::<u8, Lsb0>(&mut bytes, 40..60, 3);
    bytes
}

/// What these edits leave, told by single bits and the number.
#[tactic(auto, using(bitvec::specs::Laws::bitwise, bitvec::specs::Laws::fields))]
pub fn told(number: u64) -> [u8; 8]
    ensures mark { slice_index_or (lsb0_bits 8 result) 3 false ≡ true }
    ensures between { slice_index_or (lsb0_bits 8 result) 18 false ≡ false }
    ensures one { slice_index_or (lsb0_bits 8 result) 25 false ≡ true }
    ensures flipped { slice_index_or (lsb0_bits 8 result) 35 false ≡ false }
    ensures moved { slice_index_or (lsb0_bits 8 result) 46 false ≡ true }
    ensures number { number_in false false 8 (lsb0_bits 8 result) 5 17 ≡ number % 4096 }
{
    drawn(number)
}

/// The bit at a place from 20 up to 30: a one.
#[tactic(auto, using(bitvec::specs::Laws::bitwise))]
pub fn one_at(number: u64, place: usize) -> bool
    requires low { 20 ≤ place }
    requires high { place < 30 }
    ensures { result ≡ true }
{
    let bytes = drawn(number);
    in_place::get::<u8, Lsb0>(&bytes, place)
}

/// What these edits leave, told of each place.
#[tactic(auto, using(bitvec::specs::Laws::bitwise))]
pub fn told_each(number: u64) -> [u8; 8]
    ensures ones { (place : ℕ) → 20 ≤ place → place < 30 → slice_index_or (lsb0_bits 8 result) place false ≡ true }
    ensures rest { (place : ℕ) → 60 ≤ place → place < 64 → slice_index_or (lsb0_bits 8 result) place false ≡ false }
{
    drawn(number)
}

/// Two bits exchanged beside a number: it stays, and what was zero before is zero at any place.
#[tactic(auto, using(bitvec::specs::Laws::bitwise, bitvec::specs::Laws::fields))]
pub fn exchanged_beside(number: u64) -> [u16; 3]
    ensures number { number_in false true 16 (msb0_bits 16 result) 20 31 ≡ number % 2048 }
    ensures first { slice_index_or (msb0_bits 16 result) 3 false ≡ false }
    ensures second { slice_index_or (msb0_bits 16 result) 40 false ≡ true }
{
    let mut words = [0u16; 3];
    in_place::store_le::<u16, Msb0, u64>(&mut words, 20..31, number);
    in_place::set::<u16, Msb0>(&mut words, 3, true);
    in_place::swap::<u16, Msb0>(&mut words, 3, 40);
    words
}

/// Four registers with five fields of different widths.
#[derive(Drop)]
pub struct Port {
    registers: [u32; 4],
}

impl Port {
    /// A port whose fields are all 0.
    pub fn new() -> Self {
        Port { registers: [0; 4] }
    }

    /// Sets the divisor.
    pub fn set_divisor(&mut self, divisor: u16)
        ensures { lsb0_bits 32 self.new.registers ≡ numbered false false 32 (lsb0_bits 32 self.old.registers) 4 20 divisor }
    {
        in_place::store_le::<u32, Lsb0, u16>(&mut self.registers, 4..20, divisor);
    }

    /// Sets the parity.
    pub fn set_parity(&mut self, parity: u8)
        ensures { lsb0_bits 32 self.new.registers ≡ numbered false false 32 (lsb0_bits 32 self.old.registers) 32 34 parity }
    {
        in_place::store_le::<u32, Lsb0, u8>(&mut self.registers, 32..34, parity);
    }

    /// Switches the port on, or off.
    pub fn switch(&mut self, on: bool)
        ensures { lsb0_bits 32 self.new.registers ≡ slice_set (lsb0_bits 32 self.old.registers) 63 on }
    {
        in_place::set::<u32, Lsb0>(&mut self.registers, 63, on);
    }

    /// Connects all lines, or none.
    pub fn connect(&mut self, on: bool)
        ensures { lsb0_bits 32 self.new.registers ≡ filled (lsb0_bits 32 self.old.registers) 64 96 on }
    {
        in_place::fill::<u32, Lsb0>(&mut self.registers, 64..96, on);
    }

    /// Sets the data.
    pub fn set_data(&mut self, byte: u8)
        ensures { lsb0_bits 32 self.new.registers ≡ numbered false false 32 (lsb0_bits 32 self.old.registers) 104 112 byte }
    {
        in_place::store_le::<u32, Lsb0, u8>(&mut self.registers, 104..112, byte);
    }

    /// Clears the data; every other bit is as before.
    #[tactic(auto, using(bitvec::specs::Laws::bitwise, bitvec::specs::Laws::fields))]
    pub fn clear_data(&mut self)
        ensures byte { number_in false false 32 (lsb0_bits 32 self.new.registers) 104 112 ≡ 0 }
        ensures kept { ChangesOnly 104 112 (lsb0_bits 32 self.old.registers) (lsb0_bits 32 self.new.registers) }
    {
        self.set_data(0);
    }

    /// Sets them all: each has its value.
    #[tactic(auto, using(bitvec::specs::Laws::bitwise, bitvec::specs::Laws::fields))]
    pub fn configure(&mut self, divisor: u16, parity: u8, byte: u8)
        requires { parity < 4 }
        ensures divisor { number_in false false 32 (lsb0_bits 32 self.new.registers) 4 20 ≡ divisor }
        ensures parity { number_in false false 32 (lsb0_bits 32 self.new.registers) 32 34 ≡ parity }
        ensures on { slice_index_or (lsb0_bits 32 self.new.registers) 63 false ≡ true }
        ensures connected { slice_index_or (lsb0_bits 32 self.new.registers) 95 false ≡ true }
        ensures byte { number_in false false 32 (lsb0_bits 32 self.new.registers) 104 112 ≡ byte }
    {
        self.set_divisor(divisor);
        self.set_parity(parity);
        self.switch(true);
        self.connect(true);
        self.set_data(byte);
    }
}

/// Makes every third bit a one, in a loop.
#[tactic(auto, using(bitvec::specs::Laws::bitwise))]
pub fn every_third() -> [u16; 4]
    ensures { (k : ℕ) → k < 21 → slice_index_or (msb0_bits 16 result) (3 * k) false ≡ true }
{
    let mut words = [0u16; 4];
    for step in 0..21 {
        in_place::set::<u16, Msb0>(&mut words, 3 * step, true);
    }
    words
}

/// Stores in each five bits their number, in a loop.
#[tactic(auto, using(bitvec::specs::Laws::fields))]
pub fn fives() -> [u8; 8]
    ensures { (k : ℕ) → k < 12 → number_in true true 8 (msb0_bits 8 result) (5 * k) (5 * k + 5) ≡ k }
{
    let mut bytes = [0u8; 8];
    for step in 0..12 {
        in_place::store_be::<u8, Msb0, usize>(&mut bytes, 5 * step..5 * step + 5, step);
    }
    bytes
}

/// The closed form of [`drawn`] without the number, through a view.
pub fn drawn_view(view: &mut BitSliceMut<'_, u8, Lsb0>)
    requires { (seen_mut view.old).window.len ≡ 64 }
    ensures { (seen_mut view.new).bits ≡ flipped (filled (slice_set (seen_mut view.old).bits 3 true) 20 40 true) 30 50 }
{
    view.set(3, true);
    fill_range(view, 20..40);
    invert_range(view, 30..50);
}

/// Makes the bits of a range of a view ones.
#[tactic(auto, using(bitvec::specs::Laws::worded))]
fn fill_range(view: &mut BitSliceMut<'_, u8, Lsb0>, range: Range<usize>)
    requires order { range.start ≤ range.end }
    requires inside { range.end ≤ (seen_mut view.old).window.len }
    ensures { WritesBits view.old view.new (filled (seen_mut view.old).bits range.start range.end true) }
{
    view.edit_with(range, |piece| piece.fill(true));
}

/// Flips the bits of a range of a view.
#[tactic(auto, using(bitvec::specs::Laws::worded))]
fn invert_range(view: &mut BitSliceMut<'_, u8, Lsb0>, range: Range<usize>)
    requires order { range.start ≤ range.end }
    requires inside { range.end ≤ (seen_mut view.old).window.len }
    ensures { WritesBits view.old view.new (flipped (seen_mut view.old).bits range.start range.end) }
{
    view.edit_with(range, |piece| piece.invert());
}

#[test]
fn arrays_have_their_bits(rt: HostRuntime) {
    assert!(rt; drawn(0xABC) == [0x88, 0x57, 0xF1, 0x3F, 0x00, 0x7F, 0x00, 0x0E]);
    assert!(rt; one_at(0, 29));
    assert!(rt; exchanged_beside(677) == [0, 0x054A, 0x0080]);
    assert!(rt; fives() == [0x00, 0x44, 0x32, 0x14, 0xC7, 0x42, 0x54, 0xB0]);
    assert!(rt; every_third() == [0x9249, 0x2492, 0x4924, 0x9248]);
}

#[test]
fn ports_have_their_fields(rt: HostRuntime) {
    let mut port = Port::new();
    port.configure(0x0123, 2, 0x45);
    assert!(rt; port.registers == [0x1230, 0x8000_0002, 0xFFFF_FFFF, 0x4500]);
}
