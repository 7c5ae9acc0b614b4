//! Equality, order and hash of views of one type.
ghost use Rattle.std.specs.Prelude.{◌≡◌, fold};
ghost use Rattle.std.specs.Hash.DefaultHasher as sip;
ghost use Rattle.bitvec_slice.specs.Views.{seen};
ghost use Rattle.bitvec_domain.specs.Feeding.{bits_fed};

use bitvec_base::Lsb0;
use bitvec_engine::SliceOrder;
use bitvec_slice::BitSlice;
use bitvec_store::BitStore;
use std::alloc::AllocError;
use std::cmp::Ordering;
use std::hash::{DefaultHasher, Hash, Hasher};
use std::process::Abort;

/// The hash of a view: that of its bits alone.
pub fn hash_of<T: BitStore, O: SliceOrder>(view: BitSlice<'_, T, O>) -> u64
    ensures { result ≡ sip.finish (fold sip.write sip.initial (bits_fed (seen view.entry).bits)) }
{
    let mut state = DefaultHasher::new();
    view.hash(&mut state);
    state.finish()
}

#[test]
fn each_bit_is_fed_without_their_number(rt: HostRuntime) {
    let view = BitSlice::<u8, Lsb0>::from_slice(&[0b010]).into_part(0..3);
    let mut state = DefaultHasher::new();
    false.hash(&mut state);
    true.hash(&mut state);
    false.hash(&mut state);
    assert!(rt; hash_of(view) == state.finish());
}

/// Asserts that a view's clone has the same bits, if one was made.
fn is_cloned<R: Abort>(rt: &R, elements: [u8; 2]) -> Result<(), AllocError> {
    let view = BitSlice::<u8, Lsb0>::from_slice(&elements).into_part(4..12);
    let copy = view.clone()?;
    assert!(rt; view == copy);
    Ok(())
}

// The bits are 0, 1, 0, 1, 0, 0, 1, 0. The first bit that differs decides, and of a beginning the length.
#[test]
fn views_are_cloned_and_compared(rt: HostRuntime) {
    let bits = BitSlice::<u8, Lsb0>::from_slice(&[0b0100_1010]);
    let (short, long) = (bits.into_part(0..2), bits.into_part(0..3));
    assert!(rt; short.cmp(&long) == Ordering::Less && short < long);
    assert!(rt; is_cloned(&rt, [0x50, 0x0F]).is_ok());
}
