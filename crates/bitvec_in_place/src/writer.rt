//! A writer of numbers and bits, one behind the other.
ghost use Rattle.std.specs.Prelude.{◌*◌, ◌≤◌, IsTrue, length};
ghost use Rattle.bitvec_base.specs.Window.{max_bits};

use crate::bits::set;
use crate::combining::copy_from;
use crate::cursor_error::CursorError;
use crate::numbers::store_plain;
use crate::rows::has_room;
use bitvec_base::BitOrder;
use bitvec_field::Integral;
use bitvec_numbers::FieldOrder;
use bitvec_slice::BitSlice;
use bitvec_store::BitStore;
use std::marker::PhantomData;
use std::ops::Range;

/// Writes numbers, bits and the bits of views to the bits of a slice, one behind the other; every other bit stays. The first
/// bit of a number is its lowest under `Lsb0` and its highest under `Msb0`. The caller knows the elements afterwards.
///
/// ```
/// let mut writer = BitWriter::<u8, Msb0>::new(bytes);
/// writer.put(first, width)?;
/// writer.put(second, 16)?;
/// ```
#[derive(Drop)]
pub struct BitWriter<'a, T: BitStore, O: BitOrder> {
    elements: &'a mut [T],
    position: usize,
    end: usize,
    order: PhantomData<O>,
    ghost bounded: { T.BITS * length elements.now ≤ max_bits },
    ghost limited: { end ≤ T.BITS * length elements.now },
    ghost inside: { position ≤ end },
}

#[tactic(auto, using(crate::proofs::Cursors::cursors))]
impl<'a, T: BitStore, O: BitOrder> BitWriter<'a, T, O> {
    ghost use Rattle.std.specs.Prelude.{◌≡◌, ◌+◌, ◌-◌, ◌%◌, ◌<◌, OnOk, if◌then◌else◌, is_ok, map, slice_set};
    ghost use Rattle.bitvec_base.specs.Memory.{memory_bits};
    ghost use Rattle.bitvec_base.specs.Window.{write_at};
    ghost use Rattle.bitvec_in_place.specs.Cursors.{Answers, KeepsElements, elements_of, lender_of, limit_of, writing};
    ghost use Rattle.bitvec_in_place.specs.Fronts.{front_bits};
    ghost use Rattle.bitvec_in_place.specs.Ranges.{HasBits, bits_in};
    ghost use Rattle.bitvec_in_place.specs.declared.cursor_error.CursorError.TheVariants.{Full};
    ghost use Rattle.bitvec_slice.specs.Views.{seen};

    /// A writer at the first bit. Condition: the elements have at most `MAX_BITS` bits.
    pub fn new(elements: &'a mut [T]) -> Self
        requires { T.BITS * length elements.old ≤ max_bits }
        ensures elements { elements_of result ≡ elements.old }
        ensures position { (writing result).position ≡ 0 }
        ensures limit { limit_of result ≡ length (writing result).bits }
        ensures name { lender_of result ≡ elements.entry.ghost_name }
    {
        BitWriter::starting_at(elements, 0)
    }

    /// A writer behind the first `position` bits, which stay. Conditions: the elements have at most `MAX_BITS` bits, and as
    /// many as these.
    pub fn starting_at(elements: &'a mut [T], position: usize) -> Self
        requires fits { T.BITS * length elements.old ≤ max_bits }
        requires inside { position ≤ T.BITS * length elements.old }
        ensures elements { elements_of result ≡ elements.old }
        ensures position { (writing result).position ≡ position }
        ensures limit { limit_of result ≡ length (writing result).bits }
        ensures name { lender_of result ≡ elements.entry.ghost_name }
    {
        let end = T::BITS as usize * elements.len();
        BitWriter {
            elements,
            position,
            end,
            order: PhantomData,
        }
    }

    /// A writer at the first bit of a range of bits, whose end is a limit: it puts no bit outside the range. Conditions: the
    /// elements have at most `MAX_BITS` bits, and the range's.
    pub fn within(elements: &'a mut [T], range: Range<usize>) -> Self
        requires { HasBits T.BITS (length elements.old) range.start range.end }
        ensures elements { elements_of result ≡ elements.old }
        ensures position { (writing result).position ≡ range.start }
        ensures limit { limit_of result ≡ range.end }
        ensures name { lender_of result ≡ elements.entry.ghost_name }
    {
        BitWriter {
            elements,
            position: range.start,
            end: range.end,
            order: PhantomData,
        }
    }

    /// The index of the bit that is written next.
    pub fn position(&self) -> usize
        ensures { result ≡ (writing self.now).position }
    {
        self.position
    }

    /// How many bits are left up to the limit.
    pub fn remaining(&self) -> usize
        ensures left { result ≡ limit_of self.now - (writing self.now).position }
        ensures fits { limit_of self.now ≤ length (writing self.now).bits }
    {
        self.end - self.position
    }

    /// The bits before the one that is written next, as a view.
    pub fn front(&self) -> BitSlice<'_, T, O>
        ensures bits { (seen result).bits ≡ front_bits (writing self.now).bits (writing self.now).position }
        ensures len { (seen result).window.len ≡ (writing self.now).position }
        ensures start { (seen result).window.start ≡ 0 }
    {
        BitSlice::from_slice(&*self.elements).into_part(0..self.position)
    }

    /// The bits that are left, as they stand there, as a view.
    pub fn rest(&self) -> BitSlice<'_, T, O>
        ensures bits { (seen result).bits ≡ bits_in (writing self.now).bits (writing self.now).position (limit_of self.now) }
        ensures len { (seen result).window.len ≡ limit_of self.now - (writing self.now).position }
        ensures start { (seen result).window.start ≡ (writing self.now).position % T.BITS }
    {
        BitSlice::from_slice(&*self.elements).into_part(self.position..self.end)
    }

    /// Goes past bits, which stay. If fewer are left, it is refused with `Full`, and the writer stays.
    pub fn skip(&mut self, width: usize) -> Result<(), CursorError>
        ensures answer { Answers ((writing self.old).position + width ≤ limit_of self.old) Full result }
        ensures kept { elements_of self.new ≡ elements_of self.old }
        ensures position { (writing self.new).position ≡ (writing self.old).position + (if is_ok result then width else 0) }
        ensures name { lender_of self.new ≡ lender_of self.old }
        ensures limit { limit_of self.new ≡ limit_of self.old }
    {
        if width > self.remaining() {
            return Err(CursorError::Full);
        }
        self.position += width;
        Ok(())
    }

    /// Makes the next bit `bit`. If none is left, it is refused with `Full`, and nothing is written.
    pub fn put_bit(&mut self, bit: bool) -> Result<(), CursorError>
        ensures answer { Answers ((writing self.old).position < limit_of self.old) Full result }
        ensures bits { OnOk result ((writing self.new).bits ≡ slice_set (writing self.old).bits (writing self.old).position bit) }
        ensures position { (writing self.new).position ≡ (writing self.old).position + (if is_ok result then 1 else 0) }
        ensures elements { KeepsElements self.old self.new result }
    {
        let index = self.position;
        self.skip(1)?;
        set::<T, O>(self.elements, index, bit);
        Ok(())
    }

    /// Copies the bits of a view to the next bits. If fewer are left, it is refused with `Full`, and nothing is written.
    pub fn put_bits<U: BitStore, P: BitOrder>(
        &mut self,
        source: BitSlice<'_, U, P>,
    ) -> Result<(), CursorError>
        ensures answer { Answers ((writing self.old).position + (seen source.entry).window.len ≤ limit_of self.old) Full result }
        ensures bits { OnOk result ((writing self.new).bits ≡ write_at (writing self.old).bits (writing self.old).position (seen source.entry).bits) }
        ensures position { (writing self.new).position ≡ (writing self.old).position + (if is_ok result then (seen source.entry).window.len else 0) }
        ensures elements { KeepsElements self.old self.new result }
    {
        let from = self.position;
        self.skip(source.len())?;
        copy_from::<T, O, U, P>(self.elements, from..self.position, source);
        Ok(())
    }
}

#[tactic(auto, using(crate::proofs::Cursors::cursors))]
impl<'a, T: BitStore, O: FieldOrder> BitWriter<'a, T, O> {
    ghost use Rattle.std.specs.Prelude.{◌≡◌, ◌+◌, ◌%◌, ◌^◌, OnOk, if◌then◌else◌, is_ok, map, nat_le};
    ghost use Rattle.std.specs.List.{list_all};
    ghost use Rattle.bitvec_base.specs.Memory.{memory_bits};
    ghost use Rattle.bitvec_in_place.specs.Cursors.{Answers, KeepsElements, elements_of, lender_of, limit_of, writing};
    ghost use Rattle.bitvec_in_place.specs.Ranges.{ChangesOnly, number_in, numbered};
    ghost use Rattle.bitvec_in_place.specs.Rows.{HasRow, row_len};
    ghost use Rattle.bitvec_in_place.specs.declared.cursor_error.CursorError.TheVariants.{Full};
    ghost use Rattle.bitvec_numbers.specs.Integers.{remainder_of};

    /// Writes an integer to the next `width` bits; every other bit stays. If it has more bits, its lowest are written. If
    /// fewer are left, it is refused with `Full`, and nothing is written. Condition: `width` is at most `I::BITS`.
    pub fn put<I: Integral>(&mut self, value: I, width: u32) -> Result<(), CursorError>
        requires { width ≤ I.BITS }
        ensures answer { Answers ((writing self.old).position + width ≤ limit_of self.old) Full result }
        ensures bits { OnOk result ((writing self.new).bits ≡ numbered O.HIGH O.HIGH T.BITS (writing self.old).bits
            (writing self.old).position ((writing self.old).position + width) (remainder_of I.BITS (I.value value))) }
        ensures position { (writing self.new).position ≡ (writing self.old).position + (if is_ok result then width else 0) }
        ensures elements { KeepsElements self.old self.new result }
    {
        let from = self.position;
        self.skip(width as usize)?;
        store_plain::<T, O, I>(self.elements, from..self.position, value);
        Ok(())
    }

    /// Writes numbers one behind the other, each told with its width as `(width, number)`; every other bit stays. Of a number
    /// that has more bits the lowest are written. If there are too few bits for all, it is refused with `Full`, and nothing
    /// is written. Condition: each width is at most 64.
    pub fn put_row(&mut self, row: &[(u32, u64)]) -> Result<(), CursorError>
        requires { IsTrue (list_all (λ field. nat_le field.0 64) row.now) }
        ensures answer { Answers ((writing self.old).position + row_len row.now ≤ limit_of self.old) Full result }
        ensures row { OnOk result (HasRow O.HIGH T.BITS (writing self.new).bits (writing self.old).position row.now) }
        ensures outside { ChangesOnly (writing self.old).position (writing self.new).position (writing self.old).bits (writing self.new).bits }
        ensures position { (writing self.new).position ≡ (writing self.old).position + (if is_ok result then row_len row.now else 0) }
        ensures elements { KeepsElements self.old self.new result }
    {
        if !has_room(self.remaining(), row) {
            return Err(CursorError::Full);
        }
        for field in row {
            self.put_next(field.0, field.1);
        }
        Ok(())
    }

    /// Writes a number to the next `width` bits. Conditions: `width` is at most 64, and as many bits are left.
    fn put_next(&mut self, width: u32, number: u64)
        requires bound { width ≤ 64 }
        requires room { (writing self.old).position + width ≤ limit_of self.old }
        ensures number { number_in O.HIGH O.HIGH T.BITS (writing self.new).bits (writing self.old).position ((writing self.old).position + width) ≡ number % 2 ^ width }
        ensures outside { ChangesOnly (writing self.old).position (writing self.new).position (writing self.old).bits (writing self.new).bits }
        ensures position { (writing self.new).position ≡ (writing self.old).position + width }
        ensures len { length (elements_of self.new) ≡ length (elements_of self.old) }
        ensures name { lender_of self.new ≡ lender_of self.old }
        ensures limit { limit_of self.new ≡ limit_of self.old }
    {
        let from = self.position;
        self.position += width as usize;
        store_plain::<T, O, u64>(self.elements, from..self.position, number);
    }
}
