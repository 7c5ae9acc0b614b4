//! What a caller knows of its slice after a store through an accessor, and of the elements that a write of bits left out;
//! and that the counts of an accessor take no bytes.
ghost use Rattle.std.specs.Prelude.{◌≡◌, ℕ, ◌<◌, length, map, slice_index, slice_set};
ghost use Rattle.bitvec_test_support.specs.base.Memory.{memory_bits, element_bits};
ghost use Rattle.bitvec_test_support.specs.store.Width.{FitWidth};
ghost use Rattle.bitvec_test_support.specs.base.Window.{write_at};

use bitvec_test_support::base::{BitOrder, HiLo};
use bitvec_test_support::cells::{Cells, Exclusive, Shared};
use bitvec_test_support::store::BitStore;
use std::mem::size_of;

/// Stores an element through an accessor.
fn set_first_to<T: BitStore>(elements: &mut [T], element: T)
    requires { 0 < length elements.old }
    ensures { map T.value elements.new ≡ slice_set (map T.value elements.old) 0 (T.value element) }
{
    let mut accessor = Exclusive::new(elements);
    accessor.store(0, element);
}

/// Stores an element, and says so by bits alone.
fn store_first<T: BitStore, O: BitOrder>(elements: &mut [T], element: T)
    requires { 0 < length elements.old }
    ensures { memory_bits T.BITS O.at (map T.value elements.new)
        ≡ write_at (memory_bits T.BITS O.at (map T.value elements.old)) 0
        (element_bits T.BITS O.at (T.value element)) }
{
    set_first_to(elements, element);
}

/// Tells a proof that the words are words; it does nothing when it runs.
fn fit(elements: &[u32])
    ensures { FitWidth 32 elements.now }
{}

/// Stores a word: the others keep their numbers.
fn store_first_word(elements: &mut [u32], word: u32)
    requires { 0 < length elements.old }
    ensures { (e : ℕ) → 0 < e → slice_index elements.new e ≡ slice_index elements.old e }
{
    fit(elements);
    store_first::<u32, HiLo>(elements, word);
}

#[test]
fn other_elements_are_kept(rt: HostRuntime) {
    let mut words = [1, 2, 3];
    store_first_word(&mut words, 9);
    assert!(rt; words == [9, 2, 3]);
}

#[test]
fn accessors_are_as_large_as_their_slices(rt: HostRuntime) {
    assert!(rt; size_of::<Shared<u8>>() == size_of::<&[u8]>());
    assert!(rt; size_of::<Exclusive<u64>>() == size_of::<&mut [u64]>());
}
