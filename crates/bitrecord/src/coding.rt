//! One field of a record written into a view, and read from it.
ghost use Rattle.std.specs.Prelude.{◌≡◌, ◌+◌, ◌<◌, ◌≤◌, ◌↔◌, IfErr, OnErr, OnOk, IsOk, length, slice_range};
ghost use Rattle.bitvec.specs.Views.{seen, seen_mut};
ghost use Rattle.bitvec.specs.Integers.{remainder_of};
ghost use Rattle.bitvec.specs.Segments.{stored_be, stored_le};
ghost use Rattle.bitvec.specs.Window.{IsWithin, write_at};
ghost use Rattle.bitvec.specs.Writes.{WritesBits};
ghost use Rattle.bitrecord.specs.Layouts.{HasWidth, field_at};
ghost use Rattle.bitrecord.specs.declared.encode_error.EncodeError.TheVariants.{Range};
ghost use Rattle.bitrecord.specs.Records.{Fits, WritesField, field_number};
ghost use Rattle.bitrecord.specs.Runs.{IsSeamless};
ghost use Rattle.bitrecord.specs.Views.{bits_of, fields_of};

use crate::{EncodeError, Endian, Layout, fits};
use bitvec::index::Window;
use bitvec::prelude::*;
use std::alloc::Allocator;

/// Writes an integer into a field, the first segment lowest. Conditions: the field has a width, and no more
/// bits than the integer's type, and lies in the view.
fn put_le<I: Integral, T: BitStore, O: FieldOrder>(
    field: Window,
    value: I,
    out: &mut BitSliceMut<'_, T, O>,
)
    requires width { HasWidth field }
    requires bound { field.len ≤ I.BITS }
    requires inside { IsWithin field (seen_mut out.old).window.len }
    ensures { WritesBits out.old out.new (write_at (seen_mut out.old).bits field.start
        (stored_le O.HIGH T.BITS ((seen_mut out.old).window.start + field.start) (remainder_of I.BITS (I.value value)) (slice_range (seen_mut out.old).bits field.start (field.start + field.len)))) }
{
    out.edit_with(field.start..field.start + field.len, |piece| {
        piece.store_le::<I>(value)
    });
}

/// Writes an integer into a field, the first segment highest. Conditions: as for `put_le`.
fn put_be<I: Integral, T: BitStore, O: FieldOrder>(
    field: Window,
    value: I,
    out: &mut BitSliceMut<'_, T, O>,
)
    requires width { HasWidth field }
    requires bound { field.len ≤ I.BITS }
    requires inside { IsWithin field (seen_mut out.old).window.len }
    ensures { WritesBits out.old out.new (write_at (seen_mut out.old).bits field.start
        (stored_be O.HIGH T.BITS ((seen_mut out.old).window.start + field.start) (remainder_of I.BITS (I.value value)) (slice_range (seen_mut out.old).bits field.start (field.start + field.len)))) }
{
    out.edit_with(field.start..field.start + field.len, |piece| {
        piece.store_be::<I>(value)
    });
}

/// Writes an integer into a field. Conditions: the field has a width, and no more bits than the integer's
/// type, and lies in the view; the integer's number fits it.
fn put_integer<I: Integral, T: BitStore, O: FieldOrder>(
    endian: Endian,
    field: Window,
    value: I,
    out: &mut BitSliceMut<'_, T, O>,
)
    requires width { HasWidth field }
    requires bound { field.len ≤ I.BITS }
    requires inside { IsWithin field (seen_mut out.old).window.len }
    requires fits { Fits field (remainder_of I.BITS (I.value value)) }
    ensures { WritesField endian O.HIGH field (remainder_of I.BITS (I.value value)) out.old out.new }
{
    match endian {
        Endian::Little => put_le(field, value, out),
        Endian::Big => put_be(field, value, out),
    }
}

/// Writes a number into a field. Conditions: the field has a width and lies in the view; the number
/// fits it.
pub(crate) fn put<T: BitStore, O: FieldOrder>(
    endian: Endian,
    field: Window,
    value: u128,
    out: &mut BitSliceMut<'_, T, O>,
)
    requires width { HasWidth field }
    requires inside { IsWithin field (seen_mut out.old).window.len }
    requires fits { Fits field value }
    ensures { WritesField endian O.HIGH field value out.old out.new }
{
    put_integer(endian, field, value, out);
}

/// `put` of a word: the machine code of its store has no shift of 128 bits. Condition beside those of
/// `put`: the field has at most 64 bits.
pub(crate) fn put_word<T: BitStore, O: FieldOrder>(
    endian: Endian,
    field: Window,
    word: u64,
    out: &mut BitSliceMut<'_, T, O>,
)
    requires width { HasWidth field }
    requires bound { field.len ≤ 64 }
    requires inside { IsWithin field (seen_mut out.old).window.len }
    requires fits { Fits field word }
    ensures { WritesField endian O.HIGH field word out.old out.new }
{
    put_integer(endian, field, word, out);
}

/// `put` of a field of more than 64 bits as two words. Conditions beside those of `put`: the field has
/// more than 64 bits, and numbers join without a seam.
pub(crate) fn put_wide<T: BitStore, O: FieldOrder>(
    endian: Endian,
    field: Window,
    value: u128,
    out: &mut BitSliceMut<'_, T, O>,
)
    requires width { HasWidth field }
    requires wide { 64 < field.len }
    requires inside { IsWithin field (seen_mut out.old).window.len }
    requires fits { Fits field value }
    requires seamless { IsSeamless endian O.HIGH }
    ensures { WritesField endian O.HIGH field value out.old out.new }
{
    let high = (value >> 64) as u64;
    let low = (value & u128::from(u64::MAX)) as u64;
    let start = field.start;
    let len = field.len - 64;
    if O::HIGH {
        let last = start + len;
        put_word(endian, Window { start, len }, high, out);
        put_word(
            endian,
            Window {
                start: last,
                len: 64,
            },
            low,
            out,
        );
    } else {
        let last = start + 64;
        put_word(endian, Window { start, len: 64 }, low, out);
        put_word(endian, Window { start: last, len }, high, out);
    }
}

/// The number of a field. Conditions: the field has a width and lies in the view.
pub(crate) fn take<T: BitStore, O: FieldOrder>(
    endian: Endian,
    field: Window,
    view: BitSlice<'_, T, O>,
) -> u128
    requires width { HasWidth field }
    requires inside { IsWithin field (seen view).window.len }
    ensures { result ≡ field_number endian O.HIGH T.BITS (seen view.entry).window.start (seen view.entry).bits field }
{
    let part = view.into_part(field.start..field.start + field.len);
    match endian {
        Endian::Little => part.load_le::<u128>(),
        Endian::Big => part.load_be::<u128>(),
    }
}

/// Writes a value into one field; every other bit is as before. It is refused where the value has
/// more bits than the field, by the field's number; nothing is written then. Conditions: the view has
/// as many bits as a record, and there is such a field.
pub fn encode_one<T: BitStore, O: FieldOrder, A: Allocator>(
    layout: &Layout<A>,
    endian: Endian,
    number: usize,
    value: u128,
    out: &mut BitSliceMut<'_, T, O>,
) -> Result<(), EncodeError>
    requires bits { (seen_mut out.old).window.len ≡ bits_of layout.now }
    requires bound { number < length (fields_of layout.now) }
    ensures accepted { IsOk result ↔ Fits (field_at (fields_of layout.now) number) value }
    ensures refused { IfErr result (λ why. why ≡ Range number) }
    ensures kept { OnErr result (out.new ≡ out.old) }
    ensures encoded { OnOk result (WritesField endian O.HIGH (field_at (fields_of layout.now) number) value out.old out.new) }
{
    let field = layout.field(number);
    if !fits(value, field.len) {
        return Err(EncodeError::Range(number));
    }
    put(endian, field, value, out);
    Ok(())
}

/// The number of one field, which has no more bits than the field. Conditions: the view has as many bits as a record,
/// and there is such a field.
pub fn decode_one<T: BitStore, O: FieldOrder, A: Allocator>(
    layout: &Layout<A>,
    endian: Endian,
    view: BitSlice<'_, T, O>,
    number: usize,
) -> u128
    requires bits { (seen view).window.len ≡ bits_of layout.now }
    requires bound { number < length (fields_of layout.now) }
    ensures value { result ≡ field_number endian O.HIGH T.BITS (seen view.entry).window.start (seen view.entry).bits (field_at (fields_of layout.now) number) }
    ensures fits { Fits (field_at (fields_of layout.now) number) result }
{
    take(endian, layout.field(number), view)
}
