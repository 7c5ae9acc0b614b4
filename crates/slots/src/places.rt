//! Taking places of a map, and giving them back. A place is a bit: 1 is taken.
ghost use Rattle.std.specs.Prelude.{◌≡◌, ◌-◌, ◌↔◌, IsTrue, IfSome, IfNone, OnOk, OnErr, IfOk, IfErr, true, false, length, replicate};
ghost use Rattle.bitvec.specs.Fits.{HasNoRun, IsFirstRun};
ghost use Rattle.bitvec.specs.Views.{name_of, seen, seen_mut};
ghost use Rattle.bitvec.specs.Window.{write_at};
ghost use Rattle.bitvec.specs.Writes.{WritesBits};
ghost use Rattle.slots.specs.Places.{HasNoFit, IsFirstFit, IsTaken};
ghost use Rattle.slots.specs.Changes.{Changes, Refuses};

use crate::fault::Fault;
use bitvec::prelude::*;
use std::ops::Range;

/// Where the first so many neighbouring places that are free begin; of no place 0. None, if so many
/// nowhere are.
#[tactic(auto, using(bitvec::specs::Laws::found, bitvec::specs::Laws::fitting))]
fn first_fit<T: BitStore, O: SliceOrder>(places: BitSlice<'_, T, O>, count: usize) -> Option<usize>
    ensures fit { IfSome result (IsFirstRun false (seen places.entry).bits count) }
    ensures none { IfNone result (HasNoRun false (seen places.entry).bits count) }
{
    let len = places.len();
    let mut start = 0;
    while count <= len - start {
        match places.into_part(start..start + count).last_one() {
            Some(taken) => start += taken + 1,
            None => return Some(start),
        }
    }
    None
}

/// Takes the first so many neighbouring places that are free, and gives them. None, if so many nowhere
/// are; the map is as before then. No place is always found, at 0..0.
#[tactic(auto, using(bitvec::specs::Laws::lengths))]
pub fn take<T: BitStore, O: SliceOrder>(
    places: &mut BitSliceMut<'_, T, O>,
    count: usize,
) -> Option<Range<usize>>
    ensures first { IfSome result (IsFirstFit (seen_mut places.old).bits count) }
    ensures taken { IfSome result (λ range. WritesBits places.old places.new
        (write_at (seen_mut places.old).bits range.start (replicate count true))) }
    ensures full { IfNone result (HasNoFit (seen_mut places.old).bits count) }
    ensures kept { IfNone result (places.new ≡ places.old) }
{
    let start = first_fit(places.as_ref(), count)?;
    let end = start + count;
    places.edit_with(start..end, |piece| piece.fill(true));
    Some(start..end)
}

/// Whether all places of a range are there and taken.
#[tactic(auto, using(bitvec::specs::Laws::lengths))]
fn is_taken<T: BitStore, O: SliceOrder>(places: BitSlice<'_, T, O>, range: &Range<usize>) -> bool
    ensures { IsTrue result ↔ IsTaken (seen places.entry).bits range.now }
{
    match places.get(range.start..range.end) {
        Some(piece) => piece.all(),
        None => false,
    }
}

/// Gives places back that are all taken. An error, if they aren't, or aren't all there; the map is as
/// before then.
#[tactic(auto, using(bitvec::specs::Laws::lengths))]
pub fn give<T: BitStore, O: SliceOrder>(
    places: &mut BitSliceMut<'_, T, O>,
    range: Range<usize>,
) -> Result<(), NotTaken>
    ensures taken { OnOk result (IsTaken (seen_mut places.old).bits range) }
    ensures free { OnOk result (WritesBits places.old places.new
        (write_at (seen_mut places.old).bits range.start (replicate (range.end - range.start) false))) }
    ensures refused { OnErr result (¬ IsTaken (seen_mut places.old).bits range) }
    ensures kept { OnErr result (places.new ≡ places.old) }
{
    if !is_taken(places.as_ref(), &range) {
        return Err(NotTaken);
    }
    places.edit_with(range, |piece| piece.fill(false));
    Ok(())
}

/// Some of the places aren't taken, or aren't there.
#[derive(Clone, Copy)]
pub struct NotTaken;

/// What changes a map.
#[derive(Drop)]
pub enum Change {
    /// To take so many neighbouring places.
    Take(usize),
    /// To give these places back.
    Give(Range<usize>),
}

/// Changes a map, and gives the places that were taken or given back. An error, if the change is
/// refused; the map is as before then.
pub fn make_change<T: BitStore, O: SliceOrder>(
    places: &mut BitSliceMut<'_, T, O>,
    change: &Change,
) -> Result<Range<usize>, Fault>
    ensures done { IfOk result (λ range. Changes change.now (seen_mut places.old).bits range (seen_mut places.new).bits) }
    ensures refused { IfErr result (Refuses change.now (seen_mut places.old).bits) }
    ensures kept { OnErr result (places.new ≡ places.old) }
    ensures window { (seen_mut places.new).window ≡ (seen_mut places.old).window }
    ensures elements { length (seen_mut places.new).elements ≡ length (seen_mut places.old).elements }
    ensures name { name_of places.new ≡ name_of places.old }
{
    match change {
        Change::Take(count) => take(places, *count).ok_or(Fault::Full),
        Change::Give(range) => match give(places, range.start..range.end) {
            Ok(()) => Ok(range.start..range.end),
            Err(NotTaken) => Err(Fault::NotTaken),
        },
    }
}
