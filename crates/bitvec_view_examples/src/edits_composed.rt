//! What a caller knows of several edits of one view, and of numbers stored in its parts.
ghost use Rattle.std.specs.Prelude.{◌≡◌, ℕ, ◌<◌, ◌≤◌, slice_index_or, true};
ghost use Rattle.bitvec.specs.Views.{seen, seen_mut};
ghost use Rattle.bitvec.specs.Writes.{WritesBits};

use bitvec::prelude::*;

/// Makes each bit that one, one after the other.
#[tactic(auto, using(bitvec::specs::Laws::composed))]
pub fn set_all<T: BitStore, O: SliceOrder>(view: &mut BitSliceMut<'_, T, O>, bit: bool)
    ensures { WritesBits view.old view.new (seen_mut view.new).bits }
{
    for index in 0..view.len() {
        view.set(index, bit);
    }
}

/// Makes the bits from `from` up to `to` ones: each bit outside the range is as before.
#[tactic(auto, using(bitvec::specs::Laws::spliced))]
pub fn fill_between<T: BitStore, O: SliceOrder>(
    view: &mut BitSliceMut<'_, T, O>,
    from: usize,
    to: usize,
)
    requires order { from ≤ to }
    requires bound { to ≤ (seen_mut view.old).window.len }
    ensures front { (index : ℕ) → index < from → slice_index_or (seen_mut view.new).bits index true ≡ slice_index_or (seen_mut view.old).bits index true }
    ensures behind { (index : ℕ) → to ≤ index → slice_index_or (seen_mut view.new).bits index true ≡ slice_index_or (seen_mut view.old).bits index true }
{
    view.edit_with(from..to, |piece| piece.fill(true));
}

/// Whether two views of one type that begin at one index of an element, with as many bits, have one
/// number: then they have the same bits.
#[tactic(auto, using(bitvec::specs::Laws::determined))]
pub fn same_number<T: BitStore, O: FieldOrder>(
    view: BitSlice<'_, T, O>,
    other: BitSlice<'_, T, O>,
) -> bool
    requires some { 0 < (seen view).window.len }
    requires bound { (seen view).window.len ≤ 128 }
    requires len { (seen other).window.len ≡ (seen view).window.len }
    requires start { (seen other).window.start ≡ (seen view).window.start }
    ensures { result ≡ true → (seen view.entry).bits ≡ (seen other.entry).bits }
{
    let _len = view.len();
    let _other_len = other.len();
    view.load_le::<u128>() == other.load_le::<u128>()
}

/// Loads a number, and stores it.
pub fn take_and_put<T: BitStore, O: FieldOrder>(view: &mut BitSliceMut<'_, T, O>)
    requires some { 0 < (seen_mut view.old).window.len }
    requires bound { (seen_mut view.old).window.len ≤ 128 }
{
    let number = view.load_le::<u128>();
    view.store_le::<u128>(number);
}

/// Loads a number, and stores it, the first segment highest.
pub fn take_and_put_be<T: BitStore, O: FieldOrder>(view: &mut BitSliceMut<'_, T, O>)
    requires some { 0 < (seen_mut view.old).window.len }
    requires bound { (seen_mut view.old).window.len ≤ 128 }
{
    let number = view.load_be::<u128>();
    view.store_be::<u128>(number);
}
