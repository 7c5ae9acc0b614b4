//! The bit orders by value: `at`, `select` and `mask`.
use bitvec_test_support::base::{BitOrder, HiLo, Lsb0, Msb0};
use bitvec_test_support::store::BitStore;

/// Whether a bit stands at an index, alone, and the indices from this one up to another have a mask.
fn stands<O: BitOrder, R: BitStore>(place: u32, from: usize, to: usize, mask: u128) -> bool {
    if from >= to || to > R::BITS as usize {
        return false;
    }
    let alone = 1u128.checked_shl(place);
    O::at::<R>(from) == place as usize
        && Some(O::select::<R>(from).to_u128()) == alone
        && O::mask::<R>(from, to).to_u128() == mask
}

#[test]
fn an_index_is_a_bit_and_a_range_a_mask(rt: HostRuntime) {
    let stand = [
        stands::<Lsb0, u8>(2, 2, 5, 0x1C),
        stands::<Lsb0, u64>(20, 20, 40, 0x00FF_FFF0_0000),
        stands::<Msb0, u8>(5, 2, 5, 0x38),
        stands::<Msb0, u32>(31, 0, 31, 0xFFFF_FFFE),
        stands::<HiLo, u8>(6, 2, 5, 0xC1),
        stands::<HiLo, u16>(2, 6, 13, 0xF10C),
    ];
    assert!(rt; stand == [true; 6]);
}
