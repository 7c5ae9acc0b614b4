//! A reader of numbers and bits, one behind the other.
ghost use Rattle.std.specs.Prelude.{◌≡◌, ◌<◌, ◌≤◌, length};
ghost use Rattle.bitvec_numbers.specs.Integers.{integer_of};
ghost use Rattle.bitvec_segments.specs.Segments.{segment_number};
ghost use Rattle.bitvec_slice.specs.Views.{seen};

use crate::cursor_error::CursorError;
use crate::rows::has_room;
use bitvec_base::BitOrder;
use bitvec_field::{BitField, Integral};
use bitvec_numbers::FieldOrder;
use bitvec_slice::BitSlice;
use bitvec_store::BitStore;

/// Reads numbers, bits and parts of a slice or of a view, one behind the other, from the first bit on. The first bit of a
/// number is its lowest under `Lsb0` and its highest under `Msb0`.
///
/// ```
/// let mut reader = BitReader::<u8, Msb0>::new(bytes);
/// reader.skip(width)?;
/// reader.take(16)
/// ```
#[derive(Drop)]
pub struct BitReader<'a, T: BitStore, O: BitOrder> {
    view: BitSlice<'a, T, O>,
    position: usize,
    ghost inside: { position ≤ length (seen view).bits },
}

#[tactic(auto, using(crate::proofs::Cursors::readers))]
impl<'a, T: BitStore, O: BitOrder> BitReader<'a, T, O> {
    ghost use Rattle.std.specs.Prelude.{◌≡◌, ◌+◌, ◌-◌, ◌*◌, ◌%◌, ◌<◌, IfOk, false, if◌then◌else◌, is_ok, map, slice_index_or};
    ghost use Rattle.bitvec_base.specs.Memory.{memory_bits};
    ghost use Rattle.bitvec_base.specs.Window.{max_bits};
    ghost use Rattle.bitvec_in_place.specs.Cursors.{Answers, KeepsBits, reading, start_of};
    ghost use Rattle.bitvec_in_place.specs.Ranges.{bits_in};
    ghost use Rattle.bitvec_in_place.specs.declared.cursor_error.CursorError.TheVariants.{Ended};

    /// A reader at the first bit of a slice. Condition: the elements have at most `MAX_BITS` bits.
    pub fn new(elements: &'a [T]) -> Self
        requires { T.BITS * length elements.now ≤ max_bits }
        ensures bits { (reading result).bits ≡ memory_bits T.BITS O.at (map T.value elements.now) }
        ensures position { (reading result).position ≡ 0 }
        ensures start { start_of result ≡ 0 }
    {
        BitReader::of_view(BitSlice::from_slice(elements))
    }

    /// A reader at the first bit of a view. It reads no bit outside the view, so the view's end is a limit.
    pub fn of_view(view: BitSlice<'a, T, O>) -> Self
        ensures bits { (reading result).bits ≡ (seen view.entry).bits }
        ensures position { (reading result).position ≡ 0 }
        ensures start { start_of result ≡ (seen view.entry).window.start }
    {
        BitReader { view, position: 0 }
    }

    /// The index of the bit that comes next: how many bits were read or skipped.
    pub fn position(&self) -> usize
        ensures { result ≡ (reading self.now).position }
    {
        self.position
    }

    /// How many bits are left.
    pub fn remaining(&self) -> usize
        ensures { result ≡ length (reading self.now).bits - (reading self.now).position }
    {
        self.view.len() - self.position
    }

    /// The bits that are left, as a view.
    pub fn rest(&self) -> BitSlice<'a, T, O>
        ensures bits { (seen result).bits ≡ bits_in (reading self.now).bits (reading self.now).position (length (reading self.now).bits) }
        ensures len { (seen result).window.len ≡ length (reading self.now).bits - (reading self.now).position }
        ensures start { (seen result).window.start ≡ (start_of self.now + (reading self.now).position) % T.BITS }
    {
        self.view.into_part(self.position..self.view.len())
    }

    /// Goes past bits. If fewer are left, it is refused with `Ended`, and the reader stays.
    pub fn skip(&mut self, width: usize) -> Result<(), CursorError>
        ensures answer { Answers ((reading self.old).position + width ≤ length (reading self.old).bits) Ended result }
        ensures keeps { KeepsBits self.old self.new }
        ensures position { (reading self.new).position ≡ (reading self.old).position + (if is_ok result then width else 0) }
    {
        if width > self.remaining() {
            return Err(CursorError::Ended);
        }
        self.position += width;
        Ok(())
    }

    /// The next bit. If none is left, it is refused with `Ended`, and the reader stays.
    pub fn take_bit(&mut self) -> Result<bool, CursorError>
        ensures answer { Answers ((reading self.old).position < length (reading self.old).bits) Ended result }
        ensures value { IfOk result (λ bit. bit ≡ slice_index_or (reading self.old).bits (reading self.old).position false) }
        ensures keeps { KeepsBits self.old self.new }
        ensures position { (reading self.new).position ≡ (reading self.old).position + (if is_ok result then 1 else 0) }
    {
        let index = self.position;
        self.skip(1)?;
        Ok(self.view[index])
    }

    /// The next `width` bits, as a view. If fewer are left, it is refused with `Ended`, and the reader stays.
    pub fn take_bits(&mut self, width: usize) -> Result<BitSlice<'a, T, O>, CursorError>
        ensures answer { Answers ((reading self.old).position + width ≤ length (reading self.old).bits) Ended result }
        ensures value { IfOk result (λ view. (seen view).bits ≡ bits_in (reading self.old).bits (reading self.old).position ((reading self.old).position + width)) }
        ensures long { IfOk result (λ view. (seen view).window.len ≡ width) }
        ensures start { IfOk result (λ view. (seen view).window.start ≡ (start_of self.old + (reading self.old).position) % T.BITS) }
        ensures keeps { KeepsBits self.old self.new }
        ensures position { (reading self.new).position ≡ (reading self.old).position + (if is_ok result then width else 0) }
    {
        let from = self.position;
        self.skip(width)?;
        Ok(self.view.into_part(from..from + width))
    }
}

#[tactic(auto, using(crate::proofs::Cursors::readers))]
impl<'a, T: BitStore, O: FieldOrder> BitReader<'a, T, O> {
    ghost use Rattle.std.specs.Prelude.{◌≡◌, ◌+◌, ◌<◌, IfOk, IsTrue, OnErr, OnOk, if◌then◌else◌, is_ok, nat_le};
    ghost use Rattle.std.specs.List.{list_all};
    ghost use Rattle.bitvec_in_place.specs.Cursors.{Answers, KeepsBits, reading};
    ghost use Rattle.bitvec_in_place.specs.Ranges.{number_in};
    ghost use Rattle.bitvec_in_place.specs.Rows.{ReadsRow, row_len};
    ghost use Rattle.bitvec_in_place.specs.declared.cursor_error.CursorError.TheVariants.{Ended};
    ghost use Rattle.bitvec_numbers.specs.Integers.{integer_of};

    /// The integer of the next `width` bits, 0 of none. If fewer are left, it is refused with `Ended`, and the reader
    /// stays. Conditions: `I` has a bit, and `width` is at most `I::BITS`.
    pub fn take<I: Integral>(&mut self, width: u32) -> Result<I, CursorError>
        requires some { 0 < I.BITS }
        requires bound { width ≤ I.BITS }
        ensures answer { Answers ((reading self.old).position + width ≤ length (reading self.old).bits) Ended result }
        ensures value { IfOk result (λ number. I.value number ≡ integer_of I.SIGNED width
            (number_in O.HIGH O.HIGH T.BITS (reading self.old).bits (reading self.old).position ((reading self.old).position + width))) }
        ensures keeps { KeepsBits self.old self.new }
        ensures position { (reading self.new).position ≡ (reading self.old).position + (if is_ok result then width else 0) }
    {
        let number = self.peek::<I>(width)?;
        self.position += width as usize;
        Ok(number)
    }

    /// The integer that [`BitReader::take`] would give; the reader stays. If fewer bits are left, it is refused with
    /// `Ended`. Conditions: as for `take`.
    pub fn peek<I: Integral>(&self, width: u32) -> Result<I, CursorError>
        requires some { 0 < I.BITS }
        requires bound { width ≤ I.BITS }
        ensures answer { Answers ((reading self.now).position + width ≤ length (reading self.now).bits) Ended result }
        ensures value { IfOk result (λ number. I.value number ≡ integer_of I.SIGNED width
            (number_in O.HIGH O.HIGH T.BITS (reading self.now).bits (reading self.now).position ((reading self.now).position + width))) }
    {
        if width as usize > self.remaining() {
            return Err(CursorError::Ended);
        }
        if width == 0 {
            return Ok(I::from_bits(0, 1));
        }
        let next = self.position..self.position + width as usize;
        Ok(plain_number::<T, O, I>(self.view.into_part(next)))
    }

    /// Reads numbers one behind the other into a row, each told by its width as `(width, number)`. If there are too few bits
    /// for all, it is refused with `Ended`, the row is as before, and the reader stays. Condition: each width is at most 64.
    pub fn take_row(&mut self, row: &mut [(u32, u64)]) -> Result<(), CursorError>
        requires { IsTrue (list_all (λ field. nat_le field.0 64) row.old) }
        ensures answer { Answers ((reading self.old).position + row_len row.old ≤ length (reading self.old).bits) Ended result }
        ensures row { OnOk result (ReadsRow O.HIGH T.BITS (reading self.old).bits (reading self.old).position row.old row.new) }
        ensures kept { OnErr result (row.new ≡ row.old) }
        ensures keeps { KeepsBits self.old self.new }
        ensures position { (reading self.new).position ≡ (reading self.old).position + (if is_ok result then row_len row.old else 0) }
    {
        if !has_room(self.remaining(), &*row) {
            return Err(CursorError::Ended);
        }
        for field in row.iter_mut() {
            field.1 = self.take_next(field.0);
        }
        Ok(())
    }

    /// The number of the next `width` bits. Conditions: `width` is at most 64, and as many bits are left.
    fn take_next(&mut self, width: u32) -> u64
        requires bound { width ≤ 64 }
        requires room { (reading self.old).position + width ≤ length (reading self.old).bits }
        ensures number { result ≡ number_in O.HIGH O.HIGH T.BITS (reading self.old).bits (reading self.old).position ((reading self.old).position + width) }
        ensures keeps { KeepsBits self.old self.new }
        ensures position { (reading self.new).position ≡ (reading self.old).position + width }
    {
        let from = self.position;
        self.position += width as usize;
        if width == 0 {
            return 0;
        }
        plain_number::<T, O, u64>(self.view.into_part(from..self.position))
    }
}

/// The integer of a view's bits, the first of them lowest under an order that begins with the lowest bit, else highest.
/// Condition: the view has from 1 to `I::BITS` bits.
#[tactic(auto, using(crate::proofs::Cursors::plain))]
pub(crate) fn plain_number<T: BitStore, O: FieldOrder, I: Integral>(view: BitSlice<'_, T, O>) -> I
    requires some { 0 < (seen view).window.len }
    requires bound { (seen view).window.len ≤ I.BITS }
    ensures { I.value result ≡ integer_of I.SIGNED (seen view.entry).window.len (segment_number O.HIGH (seen view.entry).bits) }
{
    if O::HIGH {
        view.load_be::<I>()
    } else {
        view.load_le::<I>()
    }
}
