//! Tests of a list of fields.
ghost use Rattle.std.specs.Prelude.{◌+◌, ◌^◌, ◌<◌, ◌↔◌, IfNone, IfSome, IsTrue, length};
ghost use Rattle.bitvec.specs.Window.{IsWithin};
ghost use Rattle.bitrecord.specs.Layouts.{AreApartBefore, EachField, HasWidth, IsApartFrom, IsFirstOverlap, IsFirstWithout, Overlap, field_at};

use bitvec::index::Window;

/// The first field that hasn't from 1 to 128 bits.
pub(crate) fn first_without_width(fields: &[Window]) -> Option<usize>
    ensures found { IfSome result (λ i. IsFirstWithout HasWidth fields.now i) }
    ensures none { IfNone result (EachField HasWidth fields.now) }
{
    for number in 0..fields.len() {
        let field = fields[number];
        if field.len == 0 || field.len > 128 {
            return Some(number);
        }
    }
    None
}

/// The first field that doesn't lie in so many bits.
pub(crate) fn first_outside(fields: &[Window], bits: usize) -> Option<usize>
    ensures found { IfSome result (λ i. IsFirstWithout (λ field. IsWithin field bits) fields.now i) }
    ensures none { IfNone result (EachField (λ field. IsWithin field bits) fields.now) }
{
    for number in 0..fields.len() {
        let field = fields[number];
        if !field.lies_in(bits) {
            return Some(number);
        }
    }
    None
}

/// Whether two fields have a bit in common. Condition: their ends are `usize`s.
fn overlap(first: Window, second: Window) -> bool
    requires first { first.start + first.len < 2 ^ 64 }
    requires second { second.start + second.len < 2 ^ 64 }
    ensures { IsTrue result ↔ Overlap first second }
{
    second.start < first.start + first.len && first.start < second.start + second.len
}

/// The first field behind that of a number that has a bit in common with it. Conditions: there is
/// such a field, and the fields' ends are `usize`s.
fn first_overlap_with(fields: &[Window], bits: usize, number: usize) -> Option<usize>
    requires bound { number < length fields.now }
    requires inside { EachField (λ field. IsWithin field bits) fields.now }
    ensures found { IfSome result (λ j. (number < j) × (j < length fields.now) × Overlap (field_at fields.now number) (field_at fields.now j) × IsApartFrom fields.now number (number + 1) j) }
    ensures none { IfNone result (IsApartFrom fields.now number (number + 1) (length fields.now)) }
{
    let field = fields[number];
    for other in number + 1..fields.len() {
        let second = fields[other];
        if overlap(field, second) {
            return Some(other);
        }
    }
    None
}

/// The first field that has a bit in common with a later one, and the first such one. Condition: the
/// fields lie in so many bits.
pub(crate) fn first_overlap(fields: &[Window], bits: usize) -> Option<(usize, usize)>
    requires { EachField (λ field. IsWithin field bits) fields.now }
    ensures found { IfSome result (λ pair. IsFirstOverlap fields.now pair.0 pair.1) }
    ensures none { IfNone result (AreApartBefore fields.now (length fields.now)) }
{
    for number in 0..fields.len() {
        if let Some(other) = first_overlap_with(fields, bits, number) {
            return Some((number, other));
        }
    }
    None
}
