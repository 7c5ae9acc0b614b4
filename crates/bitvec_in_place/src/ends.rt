//! Numbers that cursors read and write from the end that the caller names, whatever the order.
ghost use Rattle.std.specs.Prelude.{◌≡◌, ◌+◌, ◌<◌, ◌≤◌, IfOk, OnOk, if◌then◌else◌, is_ok, length, take};
ghost use Rattle.bitvec_base.specs.Window.{write_at};
ghost use Rattle.bitvec_in_place.specs.Cursors.{Answers, KeepsBits, KeepsElements, left_of, limit_of, reading, writing};
ghost use Rattle.bitvec_in_place.specs.declared.cursor_error.CursorError.TheVariants.{Ended, Full};
ghost use Rattle.bitvec_numbers.specs.Integers.{integer_of, remainder_of};
ghost use Rattle.bitvec_segments.specs.Segments.{segment_bits, segment_number};
ghost use Rattle.bitvec_slice.specs.Views.{seen};

use crate::combining::copy_from;
use crate::cursor_error::CursorError;
use crate::numbers::store_plain;
use crate::reader::{BitReader, plain_number};
use crate::writer::BitWriter;
use bitvec_base::{BitOrder, Lsb0, Msb0};
use bitvec_field::Integral;
use bitvec_numbers::FieldOrder;
use bitvec_slice::BitSlice;
use bitvec_store::BitStore;

#[tactic(auto, using(crate::proofs::Cursors::readers))]
impl<'a, T: BitStore, O: BitOrder> BitReader<'a, T, O> {
    ghost use Rattle.std.specs.Prelude.{true, false};

    /// The integer of the next `width` bits, the first of them the highest, 0 of none. If fewer are left, it is refused with
    /// `Ended`, and the reader stays. Conditions: `I` has a bit, and `width` is at most `I::BITS`.
    pub fn take_highest_first<I: Integral>(&mut self, width: u32) -> Result<I, CursorError>
        requires some { 0 < I.BITS }
        requires bound { width ≤ I.BITS }
        ensures answer { Answers ((reading self.old).position + width ≤ length (reading self.old).bits) Ended result }
        ensures value { IfOk result (λ number. I.value number ≡ integer_of I.SIGNED width (segment_number true (take width (left_of (reading self.old))))) }
        ensures keeps { KeepsBits self.old self.new }
        ensures position { (reading self.new).position ≡ (reading self.old).position + (if is_ok result then width else 0) }
    {
        let number = self.peek_highest_first::<I>(width)?;
        self.skip(width as usize)?;
        Ok(number)
    }

    /// [`BitReader::take_highest_first`] with the lowest bit first.
    pub fn take_lowest_first<I: Integral>(&mut self, width: u32) -> Result<I, CursorError>
        requires some { 0 < I.BITS }
        requires bound { width ≤ I.BITS }
        ensures answer { Answers ((reading self.old).position + width ≤ length (reading self.old).bits) Ended result }
        ensures value { IfOk result (λ number. I.value number ≡ integer_of I.SIGNED width (segment_number false (take width (left_of (reading self.old))))) }
        ensures keeps { KeepsBits self.old self.new }
        ensures position { (reading self.new).position ≡ (reading self.old).position + (if is_ok result then width else 0) }
    {
        let number = self.peek_lowest_first::<I>(width)?;
        self.skip(width as usize)?;
        Ok(number)
    }

    /// The integer that [`BitReader::take_highest_first`] would give; the reader stays. If fewer bits are left, it is refused
    /// with `Ended`. Conditions: as for `take_highest_first`.
    pub fn peek_highest_first<I: Integral>(&self, width: u32) -> Result<I, CursorError>
        requires some { 0 < I.BITS }
        requires bound { width ≤ I.BITS }
        ensures answer { Answers ((reading self.now).position + width ≤ length (reading self.now).bits) Ended result }
        ensures value { IfOk result (λ number. I.value number ≡ integer_of I.SIGNED width (segment_number true (take width (left_of (reading self.now))))) }
    {
        self.peek_by::<Msb0, I>(width)
    }

    /// [`BitReader::peek_highest_first`] with the lowest bit first.
    pub fn peek_lowest_first<I: Integral>(&self, width: u32) -> Result<I, CursorError>
        requires some { 0 < I.BITS }
        requires bound { width ≤ I.BITS }
        ensures answer { Answers ((reading self.now).position + width ≤ length (reading self.now).bits) Ended result }
        ensures value { IfOk result (λ number. I.value number ≡ integer_of I.SIGNED width (segment_number false (take width (left_of (reading self.now))))) }
    {
        self.peek_by::<Lsb0, I>(width)
    }

    /// The integer of the next `width` bits, their first bit the one that is first under `P`.
    fn peek_by<P: FieldOrder, I: Integral>(&self, width: u32) -> Result<I, CursorError>
        requires some { 0 < I.BITS }
        requires bound { width ≤ I.BITS }
        ensures answer { Answers ((reading self.now).position + width ≤ length (reading self.now).bits) Ended result }
        ensures value { IfOk result (λ number. I.value number ≡ integer_of I.SIGNED width (segment_number P.HIGH (take width (left_of (reading self.now))))) }
    {
        if width as usize > self.remaining() {
            return Err(CursorError::Ended);
        }
        if width == 0 {
            return Ok(I::from_bits(0, 1));
        }
        let next = self.rest().into_part(0..width as usize);
        Ok(number_by::<P, T, O, I>(next))
    }
}

/// The integer of a view's bits, their first bit the one that is first under `P`. Condition: the view has from 1 to `I::BITS`
/// bits.
fn number_by<P: FieldOrder, T: BitStore, O: BitOrder, I: Integral>(view: BitSlice<'_, T, O>) -> I
    requires some { 0 < (seen view).window.len }
    requires bound { (seen view).window.len ≤ I.BITS }
    ensures { I.value result ≡ integer_of I.SIGNED (seen view.entry).window.len (segment_number P.HIGH (seen view.entry).bits) }
{
    let mut word = [0u128];
    let len = view.len();
    copy_from::<u128, P, T, O>(&mut word, 0..len, view);
    plain_number::<u128, P, I>(BitSlice::<u128, P>::from_slice(&word).into_part(0..len))
}

#[tactic(auto, using(crate::proofs::Cursors::cursors))]
impl<'a, T: BitStore, O: BitOrder> BitWriter<'a, T, O> {
    ghost use Rattle.std.specs.Prelude.{true, false};

    /// Writes an integer to the next `width` bits, the highest of them first; every other bit stays. If it has more bits, its
    /// lowest are written. If fewer are left, it is refused with `Full`, and nothing is written. Condition: `width` is at most
    /// `I::BITS`.
    pub fn put_highest_first<I: Integral>(
        &mut self,
        value: I,
        width: u32,
    ) -> Result<(), CursorError>
        requires { width ≤ I.BITS }
        ensures answer { Answers ((writing self.old).position + width ≤ limit_of self.old) Full result }
        ensures bits { OnOk result ((writing self.new).bits ≡ write_at (writing self.old).bits (writing self.old).position (segment_bits true width (remainder_of I.BITS (I.value value)))) }
        ensures position { (writing self.new).position ≡ (writing self.old).position + (if is_ok result then width else 0) }
        ensures elements { KeepsElements self.old self.new result }
    {
        self.put_by::<Msb0, I>(value, width)
    }

    /// [`BitWriter::put_highest_first`] with the lowest bit first.
    pub fn put_lowest_first<I: Integral>(&mut self, value: I, width: u32) -> Result<(), CursorError>
        requires { width ≤ I.BITS }
        ensures answer { Answers ((writing self.old).position + width ≤ limit_of self.old) Full result }
        ensures bits { OnOk result ((writing self.new).bits ≡ write_at (writing self.old).bits (writing self.old).position (segment_bits false width (remainder_of I.BITS (I.value value)))) }
        ensures position { (writing self.new).position ≡ (writing self.old).position + (if is_ok result then width else 0) }
        ensures elements { KeepsElements self.old self.new result }
    {
        self.put_by::<Lsb0, I>(value, width)
    }

    /// Writes an integer to the next `width` bits, first the one that is first under `P`.
    fn put_by<P: FieldOrder, I: Integral>(
        &mut self,
        value: I,
        width: u32,
    ) -> Result<(), CursorError>
        requires { width ≤ I.BITS }
        ensures answer { Answers ((writing self.old).position + width ≤ limit_of self.old) Full result }
        ensures bits { OnOk result ((writing self.new).bits ≡ write_at (writing self.old).bits (writing self.old).position (segment_bits P.HIGH width (remainder_of I.BITS (I.value value)))) }
        ensures position { (writing self.new).position ≡ (writing self.old).position + (if is_ok result then width else 0) }
        ensures elements { KeepsElements self.old self.new result }
    {
        let mut word = [0u128];
        let len = width as usize;
        store_plain::<u128, P, I>(&mut word, 0..len, value);
        self.put_bits(BitSlice::<u128, P>::from_slice(&word).into_part(0..len))
    }
}
