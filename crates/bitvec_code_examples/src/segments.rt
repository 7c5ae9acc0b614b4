//! The header of a segment: sixteen fields and four zeros that are written as one row, and one of them read.
ghost use Rattle.std.specs.Prelude.{◌≡◌, ◌*◌, ◌^◌, ◌<◌, ◌≤◌, IfOk, OnErr, OnOk, length};
ghost use Rattle.bitvec.specs.Arrays.{msb0_bits};
ghost use Rattle.bitvec.specs.Ranges.{ChangesOnly};
ghost use Rattle.bitvec.specs.Window.{max_bits};
ghost use Rattle.bitvec_code_examples.specs.Segments.{HasFlags, HasPlaces, HasSizes};

use bitvec::in_place::{self, BitWriter, CursorError};
use bitvec::prelude::*;

/// The first fields of a segment of the Transmission Control Protocol.
#[derive(Clone, Copy, Drop)]
pub struct Segment {
    pub source: u16,
    pub target: u16,
    pub sequence: u32,
    pub awaited: u32,
    pub words: u8,
    pub reduced: bool,
    pub echo: bool,
    pub urgent: bool,
    pub answer: bool,
    pub push: bool,
    pub reset: bool,
    pub first: bool,
    pub last: bool,
    pub window: u16,
    pub checksum: u16,
    pub urgent_len: u16,
}

/// Writes the fields to the first 160 bits; every other bit stays. Conditions: the buffer has at most `MAX_BITS` bits, and
/// `words` fits its four.
#[tactic(auto, using(bitvec::specs::Laws::cursors))]
pub fn encode(bytes: &mut [u8], segment: Segment) -> Result<(), CursorError>
    requires fits { 8 * length bytes.old ≤ max_bits }
    requires words { segment.words < 2 ^ 4 }
    ensures places { OnOk result (HasPlaces (msb0_bits 8 bytes.new) segment.source segment.target segment.sequence segment.awaited) }
    ensures flags { OnOk result (HasFlags (msb0_bits 8 bytes.new) segment.reduced segment.echo segment.urgent segment.answer segment.push segment.reset segment.first segment.last) }
    ensures sizes { OnOk result (HasSizes (msb0_bits 8 bytes.new) segment.words segment.window segment.checksum segment.urgent_len) }
    ensures outside { ChangesOnly 0 160 (msb0_bits 8 bytes.old) (msb0_bits 8 bytes.new) }
    ensures refused { OnErr result (length bytes.old < 20) }
{
    BitWriter::<u8, Msb0>::new(bytes).put_row(&[
        (16, u64::from(segment.source)),
        (16, u64::from(segment.target)),
        (32, u64::from(segment.sequence)),
        (32, u64::from(segment.awaited)),
        (4, u64::from(segment.words)),
        (4, 0),
        (1, u64::from(segment.reduced)),
        (1, u64::from(segment.echo)),
        (1, u64::from(segment.urgent)),
        (1, u64::from(segment.answer)),
        (1, u64::from(segment.push)),
        (1, u64::from(segment.reset)),
        (1, u64::from(segment.first)),
        (1, u64::from(segment.last)),
        (16, u64::from(segment.window)),
        (16, u64::from(segment.checksum)),
        (16, u64::from(segment.urgent_len)),
    ])?;
    Ok(())
}

/// Writes the fields and reads one of them where it stands.
#[tactic(auto, using(bitvec::specs::Laws::cursors))]
pub fn window_of(bytes: &mut [u8; 20], segment: Segment) -> Result<u16, CursorError>
    requires { segment.words < 2 ^ 4 }
    ensures { IfOk result (λ window. window ≡ segment.window) }
{
    encode(bytes, segment)?;
    Ok(in_place::load_be::<u8, Msb0, u16>(bytes, 112..128))
}

/// Writes the fields and reads a flag where it stands.
#[tactic(auto, using(bitvec::specs::Laws::cursors))]
pub fn is_first(bytes: &mut [u8; 20], segment: Segment) -> Result<bool, CursorError>
    requires { segment.words < 2 ^ 4 }
    ensures { IfOk result (λ first. first ≡ segment.first) }
{
    encode(bytes, segment)?;
    Ok(in_place::load_be::<u8, Msb0, u8>(bytes, 110..111) == 1)
}

// 0xC350 and 0x0050, 0x01020304, 0, then 5, four zeros and 0000 0010, 0x7210, 0xBEEF and 0.
#[test]
fn segments_come_back(rt: HostRuntime) {
    let segment = Segment {
        source: 50000,
        target: 80,
        sequence: 0x01020304,
        awaited: 0,
        words: 5,
        reduced: false,
        echo: false,
        urgent: false,
        answer: false,
        push: false,
        reset: false,
        first: true,
        last: false,
        window: 0x7210,
        checksum: 0xBEEF,
        urgent_len: 0,
    };
    let mut bytes = [0xFFu8; 20];
    assert!(rt; window_of(&mut bytes, segment) == Ok(0x7210));
    assert!(rt; is_first(&mut bytes, segment) == Ok(true));
    assert!(rt;
        bytes
            == [
                0xC3, 0x50, 0x00, 0x50, 1, 2, 3, 4, 0, 0, 0, 0, 0x50, 0x02, 0x72, 0x10, 0xBE, 0xEF,
                0, 0,
            ]
    );
    assert!(rt; encode(&mut bytes[..19], segment) == Err(CursorError::Full));
}
