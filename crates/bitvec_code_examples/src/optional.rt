//! A header of which one number may be absent: in its row it is an entry of width 0 then.
ghost use Rattle.std.specs.Prelude.{◌≡◌, ◌+◌, ◌*◌, ◌^◌, ◌<◌, ◌≤◌, IfSome, OnErr, OnOk, if◌then◌else◌, is_some, length, true};
ghost use Rattle.std.specs.Int.{from_bool};
ghost use Rattle.bitvec.specs.Arrays.{msb0_bits};
ghost use Rattle.bitvec.specs.Ranges.{number_in};
ghost use Rattle.bitvec.specs.Window.{max_bits};

use bitvec::in_place::{BitWriter, CursorError};
use bitvec::prelude::*;

/// Writes a kind of seven bits, whether there is a mark, the mark, and the length behind it. Conditions: the bytes have at most
/// `MAX_BITS` bits, and the kind fits.
#[tactic(auto, using(bitvec::specs::Laws::cursors))]
pub fn put_header(
    bytes: &mut [u8],
    kind: u8,
    mark: Option<u16>,
    len: u32,
) -> Result<(), CursorError>
    requires fits { 8 * length bytes.old ≤ max_bits }
    requires kind { kind < 2 ^ 7 }
    ensures kind { OnOk result (number_in true true 8 (msb0_bits 8 bytes.new) 0 7 ≡ kind) }
    ensures there { OnOk result (number_in true true 8 (msb0_bits 8 bytes.new) 7 8 ≡ from_bool (is_some mark)) }
    ensures mark { OnOk result (IfSome mark (λ mark. number_in true true 8 (msb0_bits 8 bytes.new) 8 24 ≡ mark)) }
    ensures len { OnOk result (number_in true true 8 (msb0_bits 8 bytes.new) (8 + (if is_some mark then 16 else 0)) (8 + (if is_some mark then 16 else 0) + 32) ≡ len) }
    ensures refused { OnErr result (8 * length bytes.old < 40 + (if is_some mark then 16 else 0)) }
{
    let (width, number) = match mark {
        Some(mark) => (16, u64::from(mark)),
        None => (0, 0),
    };
    let mut writer = BitWriter::<u8, Msb0>::new(bytes);
    writer.put_row(&[
        (7, u64::from(kind)),
        (1, u64::from(mark.is_some())),
        (width, number),
        (32, u64::from(len)),
    ])?;
    Ok(())
}

#[test]
fn a_mark_may_be_absent(rt: HostRuntime) {
    let mut bytes = [0u8; 7];
    assert!(rt; put_header(&mut bytes, 5, Some(0x1234), 0xABCDEF01) == Ok(()));
    assert!(rt; bytes == [0x0B, 0x12, 0x34, 0xAB, 0xCD, 0xEF, 0x01]);
    assert!(rt; put_header(&mut bytes[..5], 5, None, 0xABCDEF01) == Ok(()));
    assert!(rt; bytes == [0x0A, 0xAB, 0xCD, 0xEF, 0x01, 0xEF, 0x01]);
    assert!(rt; put_header(&mut bytes[..6], 5, Some(0), 0) == Err(CursorError::Full));
}
