//! Runs of one bit at the ends of a view.
ghost use Rattle.std.specs.Prelude.{◌≡◌};
ghost use Rattle.std.specs.List.{prefix_len, suffix_len};
ghost use Rattle.bitvec_base.specs.LeadingLaws.{is_other};
ghost use Rattle.bitvec_slice.specs.Views.{seen};

use bitvec_elements::{find_first_in, find_last_in};
use bitvec_engine::SliceOrder;
use bitvec_slice::BitSlice;
use bitvec_store::BitStore;

/// How many bits come before the first that is `end`: all of them, if none is.
#[tactic(auto, using(bitvec_base::specs::LeadingLaws::first_run))]
pub(crate) fn before_first<T: BitStore, O: SliceOrder>(view: BitSlice<'_, T, O>, end: bool) -> usize
    ensures { result ≡ prefix_len (is_other end) (seen view.entry).bits }
{
    find_first_in::<T, O>(view.elements(), view.window(), end).unwrap_or(view.len())
}

/// How many bits come after the last that is `end`: all of them, if none is.
#[tactic(auto, using(bitvec_base::specs::LeadingLaws::last_run))]
pub(crate) fn behind_last<T: BitStore, O: SliceOrder>(view: BitSlice<'_, T, O>, end: bool) -> usize
    ensures { result ≡ suffix_len (is_other end) (seen view.entry).bits }
{
    match find_last_in::<T, O>(view.elements(), view.window(), end) {
        Some(index) => view.len() - index - 1,
        None => view.len(),
    }
}
