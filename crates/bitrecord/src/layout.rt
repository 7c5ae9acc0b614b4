//! Layouts of records.
ghost use Rattle.std.specs.Prelude.{◌≡◌, ◌<◌, IfErr, IfOk, IsOk, IsTrue, ◌↔◌, [], length};
ghost use Rattle.bitrecord.specs.Layouts.{IsFault, IsLayout, field_at};
ghost use Rattle.bitrecord.specs.Runs.{AreRuns, IsRun};

use crate::LayoutError;
use crate::runs::{KEPT, runs_of};
use crate::testing::{first_outside, first_overlap, first_without_width};
use bitvec::index::Window;
use std::alloc::Allocator;

/// Where the fields of a record lie among its bits: windows of 1 to 128 bits, no two with a bit in
/// common. Starts and lengths are in bits.
#[derive(Drop)]
pub struct Layout<A: Allocator> {
    bits: usize,
    fields: Vec<Window, A>,
    runs: [u8; KEPT],
    ghost layout: { IsLayout bits fields.items },
    ghost plan: { AreRuns fields.items runs },
}

impl<A: Allocator> Layout<A> {
    ghost use Rattle.bitrecord.specs.Views.{bits_of, fields_of};

    /// The layout of these fields in a record of so many bits. It is refused by the first test that
    /// fails: of all widths, then of all places, then of all pairs of fields. Of no fields it takes
    /// no memory.
    pub fn new(alloc: A, bits: usize, fields: &[Window]) -> Result<Self, LayoutError>
        ensures made { IfOk result (λ layout. (bits_of layout ≡ bits) × (fields_of layout ≡ fields.now)) }
        ensures refused { IfErr result (IsFault bits fields.now) }
        ensures none { fields.now ≡ [] → IsOk result }
    {
        if let Some(field) = first_without_width(fields) {
            return Err(LayoutError::Width(field));
        }
        if let Some(field) = first_outside(fields, bits) {
            return Err(LayoutError::Outside(field));
        }
        if let Some((field, other)) = first_overlap(fields, bits) {
            return Err(LayoutError::Overlap(field, other));
        }
        let runs = runs_of(fields, bits);
        let mut kept = Vec::new(alloc);
        match kept.extend_from_slice(fields) {
            Ok(()) => Ok(Layout {
                bits,
                fields: kept,
                runs,
            }),
            Err(_) => Err(LayoutError::Memory),
        }
    }

    /// How many bits a record has.
    pub fn bits(&self) -> usize
        ensures { result ≡ bits_of self.now }
    {
        self.bits
    }

    /// The fields.
    pub fn fields(&self) -> &[Window]
        ensures { result.now ≡ fields_of self.now }
    {
        self.fields.as_slice()
    }

    /// How many fields there are.
    pub fn len(&self) -> usize
        ensures { result ≡ length (fields_of self.now) }
    {
        self.fields.len()
    }

    /// Whether there is no field.
    pub fn is_empty(&self) -> bool
        ensures { IsTrue result ↔ (fields_of self.now ≡ []) }
    {
        self.fields.is_empty()
    }

    /// The field of the number. Condition: there is one.
    pub fn field(&self, number: usize) -> Window
        requires { number < length (fields_of self.now) }
        ensures { result ≡ field_at (fields_of self.now) number }
    {
        self.fields[number]
    }

    /// The last field of the run that begins with the field of the number; the field itself where none is
    /// kept. Condition: there is such a field.
    pub(crate) fn last_in_run(&self, number: usize) -> usize
        requires { number < length (fields_of self.now) }
        ensures { IsRun (fields_of self.now) number result }
    {
        if number < KEPT {
            number + self.runs[number] as usize
        } else {
            number
        }
    }
}
