//! Records written into views.
ghost use Rattle.std.specs.Prelude.{◌≡◌, ◌<◌, IfErr, OnErr, OnOk};
ghost use Rattle.bitvec.specs.Views.{seen_mut};
ghost use Rattle.bitvec.specs.Window.{IsWithin};
ghost use Rattle.bitrecord.specs.Layouts.{HasWidth};
ghost use Rattle.bitrecord.specs.Records.{AreEncodable, Fits, IsRefusal, WritesField, WritesRecord, record_in};
ghost use Rattle.bitrecord.specs.Runs.{IsRun, IsSeamless};
ghost use Rattle.bitrecord.specs.RunWrites.{WritesRun};
ghost use Rattle.bitrecord.specs.Views.{bits_of, fields_of};

use crate::coding::{put, put_wide, put_word};
use crate::decoding::is_seamless;
use crate::fitting::first_too_large;
use crate::{EncodeError, Endian, Layout};
use bitvec::index::Window;
use bitvec::order::with_next;
use bitvec::prelude::*;
use std::alloc::Allocator;

/// Writes values into the fields of a run, of which there are several, as one word. Conditions: as for
/// `encode`, each value fits its field, the run is one of the layout, and numbers join without a seam.
fn encode_run<T: BitStore, O: FieldOrder, A: Allocator>(
    layout: &Layout<A>,
    endian: Endian,
    first: usize,
    last: usize,
    values: &[u128],
    out: &mut BitSliceMut<'_, T, O>,
)
    requires bits { (seen_mut out.old).window.len ≡ bits_of layout.now }
    requires values { AreEncodable (fields_of layout.now) values.now }
    requires run { IsRun (fields_of layout.now) first last }
    requires several { first < last }
    requires seamless { IsSeamless endian O.HIGH }
    ensures { WritesRun endian O.HIGH (fields_of layout.now) values.now first last out.old out.new }
{
    let mut word = 0;
    let mut len = 0;
    for number in first..last + 1 {
        let more = layout.field(number).len;
        word = with_next::<O>(word, len, values[number] as u64, more);
        len += more;
    }
    let start = layout.field(first).start;
    put_word(endian, Window { start, len }, word, out);
}

/// Writes a value into a field that is in no run of several. Conditions: as for `put`, and numbers join
/// without a seam.
fn put_alone<T: BitStore, O: FieldOrder>(
    endian: Endian,
    field: Window,
    value: u128,
    out: &mut BitSliceMut<'_, T, O>,
)
    requires width { HasWidth field }
    requires inside { IsWithin field (seen_mut out.old).window.len }
    requires fits { Fits field value }
    requires seamless { IsSeamless endian O.HIGH }
    ensures { WritesField endian O.HIGH field value out.old out.new }
{
    if field.len <= 64 {
        put_word(endian, field, value as u64, out);
    } else {
        put_wide(endian, field, value, out);
    }
}

/// `encode` of values that fit, by words, where the numbers of neighbouring fields join without a seam.
fn encode_words<T: BitStore, O: FieldOrder, A: Allocator>(
    layout: &Layout<A>,
    endian: Endian,
    values: &[u128],
    out: &mut BitSliceMut<'_, T, O>,
)
    requires bits { (seen_mut out.old).window.len ≡ bits_of layout.now }
    requires values { AreEncodable (fields_of layout.now) values.now }
    requires seamless { IsSeamless endian O.HIGH }
    ensures { WritesRecord endian O.HIGH (fields_of layout.now) values.now out.old out.new }
{
    let mut number = 0;
    while number < layout.len() {
        let last = layout.last_in_run(number);
        if last == number {
            put_alone(endian, layout.field(number), values[number], out);
        } else {
            encode_run(layout, endian, number, last, values, out);
        }
        number = last + 1;
    }
}

/// `encode` of values that fit, a field at a time.
fn encode_fields<T: BitStore, O: FieldOrder, A: Allocator>(
    layout: &Layout<A>,
    endian: Endian,
    values: &[u128],
    out: &mut BitSliceMut<'_, T, O>,
)
    requires bits { (seen_mut out.old).window.len ≡ bits_of layout.now }
    requires values { AreEncodable (fields_of layout.now) values.now }
    ensures { WritesRecord endian O.HIGH (fields_of layout.now) values.now out.old out.new }
{
    for number in 0..layout.len() {
        put(endian, layout.field(number), values[number], out);
    }
}

/// Writes a value into each field; every other bit is as before. Unless there is one value a field, and each
/// has no more bits than its field, the answer is an error, and nothing is written. Condition: the view has
/// as many bits as a record.
pub fn encode<T: BitStore, O: FieldOrder, A: Allocator>(
    layout: &Layout<A>,
    endian: Endian,
    values: &[u128],
    out: &mut BitSliceMut<'_, T, O>,
) -> Result<(), EncodeError>
    requires { (seen_mut out.old).window.len ≡ bits_of layout.now }
    ensures accepted { OnOk result (AreEncodable (fields_of layout.now) values.now) }
    ensures refused { IfErr result (IsRefusal (fields_of layout.now) values.now) }
    ensures kept { OnErr result (out.new ≡ out.old) }
    ensures numbers { OnOk result (record_in endian O.HIGH T.BITS (seen_mut out.new).window.start (seen_mut out.new).bits (fields_of layout.now) ≡ values.now) }
    ensures encoded { OnOk result (WritesRecord endian O.HIGH (fields_of layout.now) values.now out.old out.new) }
{
    if values.len() != layout.len() {
        return Err(EncodeError::Count);
    }
    if let Some(number) = first_too_large(layout, values) {
        return Err(EncodeError::Range(number));
    }
    if is_seamless::<O>(endian) {
        encode_words(layout, endian, values, out);
    } else {
        encode_fields(layout, endian, values, out);
    }
    Ok(())
}
