//! The first run of free places, of a view and in place.
ghost use Rattle.std.specs.Prelude.{◌≡◌, ◌+◌, ◌*◌, ◌≤◌, IfNone, IfSome, false, length};
ghost use Rattle.bitvec.specs.Arrays.{lsb0_bits};
ghost use Rattle.bitvec.specs.Views.{seen};
ghost use Rattle.bitvec.specs.Fits.{HasNoRun, IsFirstRun};

use bitvec::in_place;
use bitvec::prelude::*;

/// Where the first `size` free places in a row begin.
#[tactic(auto, using(bitvec::specs::Laws::found, bitvec::specs::Laws::fitting))]
pub fn first_run<T: BitStore, O: SliceOrder>(map: BitSlice<'_, T, O>, size: usize) -> Option<usize>
    ensures run { IfSome result (IsFirstRun false (seen map.entry).bits size) }
    ensures none { IfNone result (HasNoRun false (seen map.entry).bits size) }
{
    let len = map.len();
    let mut start = 0;
    while size <= len - start {
        match map.into_part(start..start + size).last_one() {
            Some(place) => start += place + 1,
            None => return Some(start),
        }
    }
    None
}

/// Where the first `size` free places of a map in a row begin.
#[tactic(auto, using(bitvec::specs::Laws::found, bitvec::specs::Laws::sized, bitvec::specs::Laws::fitting))]
pub fn first_run_in(map: &[u64; 4], size: usize) -> Option<usize>
    ensures run { IfSome result (IsFirstRun false (lsb0_bits 64 map.now) size) }
    ensures none { IfNone result (HasNoRun false (lsb0_bits 64 map.now) size) }
{
    let mut start = 0;
    while size <= 256 - start {
        match in_place::last_one::<u64, Lsb0>(map, start..start + size) {
            Some(place) => start += place + 1,
            None => return Some(start),
        }
    }
    None
}

#[test]
fn first_runs_are_found(rt: HostRuntime) {
    let map = [0xFFu64, 0, 0, u64::MAX];
    assert!(rt; first_run_in(&map, 56) == Some(8) && first_run_in(&map, 184) == Some(8));
    assert!(rt; first_run_in(&map, 185) == None && first_run_in(&map, 0) == Some(0));
    let part = BitSlice::<u8, Msb0>::from_slice(&[0b0010_0110, 0b0011_1111]);
    assert!(rt;
        first_run(part, 2) == Some(0) && first_run(part, 3) == Some(7) && first_run(part, 4) == None
    );
}
