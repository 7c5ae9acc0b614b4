//! Records read from views.
ghost use Rattle.std.specs.Prelude.{◌≡◌, ◌<◌, ◌↔◌, IsTrue, length};
ghost use Rattle.bitvec.specs.Views.{seen};
ghost use Rattle.bitvec.specs.Window.{IsWithin};
ghost use Rattle.bitrecord.specs.Layouts.{HasWidth};
ghost use Rattle.bitrecord.specs.Records.{AreEncodable, field_number, record_in};
ghost use Rattle.bitrecord.specs.Runs.{IsRun, IsSeamless, ReadsRun};
ghost use Rattle.bitrecord.specs.Views.{bits_of, fields_of};

use crate::coding::take;
use crate::words::{last_of, split_off, to_split};
use crate::{Endian, Layout};
use bitvec::index::Window;
use bitvec::prelude::*;
use std::alloc::Allocator;

/// Whether numbers join without a seam: read from this end, under this order, the number of neighbouring
/// fields together is put together from theirs.
#[inline(always)]
pub(crate) fn is_seamless<O: FieldOrder>(endian: Endian) -> bool
    ensures { IsTrue result ↔ IsSeamless endian O.HIGH }
{
    match endian {
        Endian::Little => !O::HIGH,
        Endian::Big => O::HIGH,
    }
}

/// Reads the numbers of the fields of a run, of which there are several, from one word. Conditions: as
/// for `decode`, the run is one of the layout, and numbers join without a seam.
fn decode_run<T: BitStore, O: FieldOrder, A: Allocator>(
    layout: &Layout<A>,
    endian: Endian,
    first: usize,
    last: usize,
    view: BitSlice<'_, T, O>,
    out: &mut [u128],
)
    requires bits { (seen view).window.len ≡ bits_of layout.now }
    requires lengths { length out.old ≡ length (fields_of layout.now) }
    requires run { IsRun (fields_of layout.now) first last }
    requires several { first < last }
    requires seamless { IsSeamless endian O.HIGH }
    ensures { ReadsRun endian O.HIGH T.BITS (seen view.entry).window.start (seen view.entry).bits (fields_of layout.now) first last out.old out.new }
{
    let start = layout.field(first).start;
    let end = layout.field(last);
    let len = end.start + end.len - start;
    let number = take(endian, Window { start, len }, view);
    let mut word = to_split::<O>(number as u64, len);
    for field in first..last + 1 {
        let (number, rest) = split_off::<O>(word, layout.field(field).len);
        out[field] = u128::from(number);
        word = rest;
    }
}

/// The number of a field that is in no run of several. A field of fewer than 64 bits is read as the end of
/// the word that ends with it, if there is one, since a word is read fastest. Conditions: the field has a
/// width and lies in the view, and numbers join without a seam.
fn take_alone<T: BitStore, O: FieldOrder>(
    endian: Endian,
    field: Window,
    view: BitSlice<'_, T, O>,
) -> u128
    requires width { HasWidth field }
    requires inside { IsWithin field (seen view).window.len }
    requires seamless { IsSeamless endian O.HIGH }
    ensures { result ≡ field_number endian O.HIGH T.BITS (seen view.entry).window.start (seen view.entry).bits field }
{
    let end = field.start + field.len;
    if field.len >= 64 || end < 64 {
        return take(endian, field, view);
    }
    let word = take(
        endian,
        Window {
            start: end - 64,
            len: 64,
        },
        view,
    );
    u128::from(last_of::<O>(word as u64, field.len))
}

/// `decode` by words, where the numbers of neighbouring fields join without a seam.
fn decode_words<T: BitStore, O: FieldOrder, A: Allocator>(
    layout: &Layout<A>,
    endian: Endian,
    view: BitSlice<'_, T, O>,
    out: &mut [u128],
)
    requires bits { (seen view).window.len ≡ bits_of layout.now }
    requires lengths { length out.old ≡ length (fields_of layout.now) }
    requires seamless { IsSeamless endian O.HIGH }
    ensures { out.new ≡ record_in endian O.HIGH T.BITS (seen view.entry).window.start (seen view.entry).bits (fields_of layout.now) }
{
    let mut number = 0;
    while number < layout.len() {
        let last = layout.last_in_run(number);
        if last == number {
            out[number] = take_alone(endian, layout.field(number), view);
        } else {
            decode_run(layout, endian, number, last, view, out);
        }
        number = last + 1;
    }
}

/// Reads the number of each field, which has no more bits than the field. Conditions: the view has as
/// many bits as a record, and `out` one place a field.
pub fn decode<T: BitStore, O: FieldOrder, A: Allocator>(
    layout: &Layout<A>,
    endian: Endian,
    view: BitSlice<'_, T, O>,
    out: &mut [u128],
)
    requires bits { (seen view).window.len ≡ bits_of layout.now }
    requires lengths { length out.old ≡ length (fields_of layout.now) }
    ensures numbers { out.new ≡ record_in endian O.HIGH T.BITS (seen view.entry).window.start (seen view.entry).bits (fields_of layout.now) }
    ensures fit { AreEncodable (fields_of layout.now) out.new }
{
    if is_seamless::<O>(endian) {
        decode_words(layout, endian, view, out);
        return;
    }
    for number in 0..layout.len() {
        let field = layout.field(number);
        out[number] = take(endian, field, view);
    }
}
