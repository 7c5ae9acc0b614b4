//! More numbers than one row has room for: a row behind another one.
ghost use Rattle.std.specs.Prelude.{◌≡◌, ◌+◌, ◌*◌, ◌<◌, ◌≤◌, IsTrue, OnErr, OnOk, length, nat_le, true};
ghost use Rattle.std.specs.List.{list_all};
ghost use Rattle.bitvec.specs.Arrays.{msb0_bits};
ghost use Rattle.bitvec.specs.Rows.{HasRow, row_len};
ghost use Rattle.bitvec.specs.Window.{max_bits};

use bitvec::in_place::{BitWriter, CursorError};
use bitvec::prelude::*;

/// Writes two rows, one behind the other: both stand. Conditions: the bytes have at most `MAX_BITS` bits, and each width is at
/// most 64.
#[tactic(auto, using(bitvec::specs::Laws::cursors))]
pub fn put_rows(
    bytes: &mut [u8],
    first: &[(u32, u64)],
    second: &[(u32, u64)],
) -> Result<(), CursorError>
    requires fits { 8 * length bytes.old ≤ max_bits }
    requires widths { IsTrue (list_all (λ field. nat_le field.0 64) first.now) }
    requires others { IsTrue (list_all (λ field. nat_le field.0 64) second.now) }
    ensures first { OnOk result (HasRow true 8 (msb0_bits 8 bytes.new) 0 first.now) }
    ensures second { OnOk result (HasRow true 8 (msb0_bits 8 bytes.new) (row_len first.now) second.now) }
    ensures refused { OnErr result (8 * length bytes.old < row_len first.now + row_len second.now) }
{
    let mut writer = BitWriter::<u8, Msb0>::new(bytes);
    writer.put_row(first)?;
    writer.put_row(second)
}

#[test]
fn rows_stand_behind_each_other(rt: HostRuntime) {
    let mut bytes = [0u8; 2];
    assert!(rt; put_rows(&mut bytes, &[(3, 5), (1, 1)], &[(0, 0), (9, 0x1FE)]) == Ok(()));
    assert!(rt; bytes == [0xBF, 0xF0]);
    assert!(rt; put_rows(&mut bytes, &[(8, 0)], &[(9, 0)]) == Err(CursorError::Full));
}
