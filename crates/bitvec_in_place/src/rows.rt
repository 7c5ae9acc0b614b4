//! Rows of numbers, one behind the other.
ghost use Rattle.std.specs.Prelude.{◌↔◌, ◌≤◌, IsTrue};
ghost use Rattle.bitvec_in_place.specs.Rows.{row_len};

/// Whether numbers fit so many bits.
#[tactic(auto, using(crate::proofs::RowLemmas::rooms))]
pub(crate) fn has_room(bits: usize, row: &[(u32, u64)]) -> bool
    ensures { IsTrue result ↔ (row_len row.now ≤ bits) }
{
    let mut left = bits;
    for field in row {
        let width = field.0 as usize;
        if width > left {
            return false;
        }
        left -= width;
    }
    true
}
