//! The texts of walks over indices.
ghost use Rattle.std.specs.Prelude.{Some, codes};
ghost use Rattle.std.specs.Fmt.{WritesOnOk, debug_variant, decimal};
ghost use Rattle.std.specs.List.{join_by};
ghost use Rattle.bitvec_domain.specs.Listing.{comma, listed};
ghost use Rattle.bitvec_query.specs.Indices.{remaining_indices};

use crate::{Places, Wanted};
use bitvec_domain::separator_before;
use bitvec_engine::SliceOrder;
use bitvec_store::BitStore;
use std::fmt;

/// The indices that are still to come, as `Places([1, 4])`.
impl<'a, T: BitStore, O: SliceOrder, B: Wanted> fmt::Debug for Places<'a, T, O, B> {
    ghost debug_output = { λ walk. debug_variant (codes "Places") (Some (listed decimal (remaining_indices walk))) };

    #[tactic(auto, unfolding(bitvec_domain::specs::Listing::listed))]
    fn fmt<W: fmt::Write>(&self, f: &mut fmt::Formatter<W>) -> fmt::Result {
        f.write_str("Places")?;
        f.write_str("(")?;
        f.write_str("[")?;
        write_indices(*self, f)?;
        f.write_str("]")?;
        f.write_str(")")
    }
}

fn write_indices<T: BitStore, O: SliceOrder, B: Wanted, W: fmt::Write>(
    walk: Places<'_, T, O, B>,
    f: &mut fmt::Formatter<W>,
) -> fmt::Result
    ensures { WritesOnOk W.write_str_gives f.old result (join_by decimal comma (remaining_indices walk.entry)) f.new }
{
    let mut passed = 0;
    for index in walk {
        f.write_str(separator_before(passed))?;
        fmt::Display::fmt(&index, f)?;
        passed = 1;
    }
    Ok(())
}
