//! The texts of splits that lend their pieces.
ghost use Rattle.std.specs.Prelude.{◌++◌, Some, codes};
ghost use Rattle.std.specs.Fmt.{debug_variant, decimal};
ghost use Rattle.bitvec_domain.specs.Listing.{bits_text, comma};
ghost use Rattle.bitvec_lent_split.specs.Lent.{uncut_in};

use crate::split_state::look;
use crate::{AtMost, Every, SplitsMut};
use bitvec_base::BitOrder;
use bitvec_slice::write_named;
use bitvec_split::write_limited;
use bitvec_store::BitStore;
use std::fmt;

/// The bits that no piece has yet, as `SplitsMut([0, 1, 0])`: none once the last piece was found.
impl<'a, T: BitStore, O: BitOrder, P, W> fmt::Debug for SplitsMut<'a, T, O, P, W, Every> {
    ghost use Rattle.bitvec_lent_split.specs.LentViews.{left_in};

    ghost debug_output = { λ s. debug_variant (codes "SplitsMut") (Some (bits_text (uncut_in (left_in s)))) };

    fn fmt<V: fmt::Write>(&self, f: &mut fmt::Formatter<V>) -> fmt::Result {
        let bits = look::<T, O>(&self.elements, self.head, self.len);
        write_named("SplitsMut", self.state.uncut(bits), f)
    }
}

/// The bits that no piece has yet, and how many pieces may come, as `SplitsNMut([0, 1, 0], 2)`.
impl<'a, T: BitStore, O: BitOrder, P, W> fmt::Debug for SplitsMut<'a, T, O, P, W, AtMost> {
    ghost use Rattle.bitvec_lent_split.specs.LentViews.{limited_in};

    ghost debug_output = { λ s. debug_variant (codes "SplitsNMut") (Some (bits_text (uncut_in (limited_in s).left) ++ (comma ++ decimal (limited_in s).count))) };

    fn fmt<V: fmt::Write>(&self, f: &mut fmt::Formatter<V>) -> fmt::Result {
        let bits = look::<T, O>(&self.elements, self.head, self.len);
        write_limited("SplitsNMut", self.state.uncut(bits), self.state.count, f)
    }
}
