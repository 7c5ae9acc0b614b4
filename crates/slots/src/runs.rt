//! The places that are taken, as runs.
ghost use Rattle.std.specs.Prelude.{◌-◌, ◌≤◌, IfSome, IfNone, OnOk, length};
ghost use Rattle.std.specs.Io.KnownBytes.{Appends};
ghost use Rattle.bitvec.specs.Views.{seen};
ghost use Rattle.bitvec.specs.Pieces.{range_of};
ghost use Rattle.slots.specs.Places.{IsFree};
ghost use Rattle.slots.specs.Runs.{IsNextRun, ShowsRuns, range_text};

use bitvec::prelude::*;
use std::io::{self, Write};
use std::ops::Range;

/// The first run of taken places from a place on, as far as it goes. Condition: the place is not beyond
/// the end.
#[tactic(auto, using(bitvec::specs::Laws::found))]
fn next_run<T: BitStore, O: SliceOrder>(
    places: BitSlice<'_, T, O>,
    from: usize,
) -> Option<Range<usize>>
    requires { from ≤ length (seen places).bits }
    ensures run { IfSome result (IsNextRun (seen places.entry).bits from) }
    ensures none { IfNone result (IsFree (seen places.entry).bits (range_of from (length (seen places.entry).bits))) }
{
    let len = places.len();
    let start = from + places.into_part(from..len).first_one()?;
    let end = match places.into_part(start..len).first_zero() {
        Some(free) => start + free,
        None => len,
    };
    Some(start..end)
}

/// Prints the first place of a range and how many it has, on a line.
pub fn print_range<W: Write>(output: &mut W, range: &Range<usize>) -> io::Result<()>
    ensures { OnOk result (Appends (W.contents output.old) (W.contents output.new) (range_text range.now)) }
{
    let start = range.start;
    let count = range.end.saturating_sub(range.start);
    writeln!(output, "{start} {count}")
}

/// Prints the runs of taken places, one a line, in their order.
pub fn show<T: BitStore, O: SliceOrder, W: Write>(
    places: BitSlice<'_, T, O>,
    output: &mut W,
) -> io::Result<()>
    ensures { OnOk result (ShowsRuns (seen places.entry).bits (W.contents output.old) (W.contents output.new)) }
{
    let mut from = 0;
    while let Some(run) = next_run(places, from) {
        print_range(output, &run)?;
        from = run.end;
    }
    Ok(())
}
