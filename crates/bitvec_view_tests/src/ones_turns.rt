//! Turns of a walk from both ends, and the loads that they take.
ghost use Rattle.std.specs.Prelude.{◌≡◌, length};
ghost use Rattle.bitvec_base.specs.Memory.{HasWindow};

use bitvec_base::{HiLo, Lsb0, Window};
use bitvec_cells::Shared;
use bitvec_engine::SliceOrder;
use bitvec_places::End::{Back, Front};
use bitvec_places::{End, scan_turns};
use bitvec_test_support::Counted;

/// What the turns give of a window of some bytes, in `out`, and how many loads they take.
fn walk<O: SliceOrder>(
    bytes: &[u8],
    window: Window,
    want: bool,
    turns: &[End],
    out: &mut [Option<usize>],
) -> u64
    requires window { HasWindow 8 bytes.now window }
    requires lengths { length turns.now ≡ length out.old }
{
    let mut cells = Counted::new(Shared::new(bytes));
    scan_turns::<O, _>(&mut cells, window, want, turns, out);
    cells.loads()
}

/// What five turns give of the ones of three bytes, and whether these are loaded twice at most.
fn of_three_bytes() -> ([Option<usize>; 5], bool) {
    let mut ones = [None; 5];
    let turns = [Front, Back, Front, Back, Front];
    let all = Window { start: 0, len: 24 };
    let loads = walk::<Lsb0>(&[0x21, 0x00, 0x80], all, true, &turns, &mut ones);
    (ones, loads <= 6)
}

/// What two turns from the end give of the zeros of three bits.
fn of_three_bits() -> ([Option<usize>; 2], bool) {
    let mut zeros = [Some(0); 2];
    let three = Window { start: 2, len: 3 };
    let loads = walk::<Lsb0>(&[0xF7], three, false, &[Back, Back], &mut zeros);
    (zeros, loads <= 2)
}

/// What three turns give of a byte under an order that has no words.
fn of_a_byte() -> ([Option<usize>; 3], bool) {
    let mut ones = [None; 3];
    let byte = Window { start: 0, len: 8 };
    let loads = walk::<HiLo>(&[0xA5], byte, true, &[Back, Front, Front], &mut ones);
    (ones, loads <= 4)
}

#[test]
fn turns_from_both_ends(rt: HostRuntime) {
    assert!(rt; of_three_bytes() == ([Some(0), Some(23), Some(5), None, None], true));
    assert!(rt; of_three_bits() == ([Some(1), None], true));
    assert!(rt; of_a_byte() == ([Some(6), Some(1), Some(3)], true));
}
