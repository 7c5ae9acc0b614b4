//! Runs: fields that follow one another, of at most 64 bits together.
ghost use Rattle.std.specs.Prelude.{◌+◌, ◌<◌, length};
ghost use Rattle.bitvec.specs.Window.{IsWithin};
ghost use Rattle.bitrecord.specs.Layouts.{EachField, HasWidth};
ghost use Rattle.bitrecord.specs.Runs.{AreRuns, IsRun};

use bitvec::index::Window;

/// For how many fields a layout keeps the run that begins with them.
pub(crate) const KEPT: usize = 64;

/// The last field of the run that begins with a field. Conditions: there is such a field, and the fields
/// have a width and lie in so many bits.
pub(crate) fn last_in_run(fields: &[Window], bits: usize, first: usize) -> usize
    requires bound { first < length fields.now }
    requires widths { EachField HasWidth fields.now }
    requires inside { EachField (λ field. IsWithin field bits) fields.now }
    ensures { IsRun fields.now first result }
{
    for number in first + 1..fields.len() {
        let before = fields[number - 1];
        let field = fields[number];
        let end = before.start + before.len;
        if field.start != end || end + field.len - fields[first].start > 64 {
            return number - 1;
        }
    }
    fields.len() - 1
}

/// How many fields follow each of the first ones in the run that begins with it. Conditions: the
/// fields have a width and lie in so many bits.
pub(crate) fn runs_of(fields: &[Window], bits: usize) -> [u8; KEPT]
    requires widths { EachField HasWidth fields.now }
    requires inside { EachField (λ field. IsWithin field bits) fields.now }
    ensures { AreRuns fields.now result }
{
    let mut runs = [0u8; KEPT];
    for number in 0..fields.len().min(KEPT) {
        runs[number] = (last_in_run(fields, bits, number) - number) as u8;
    }
    runs
}
