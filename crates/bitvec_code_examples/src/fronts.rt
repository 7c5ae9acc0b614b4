//! What a caller knows of the first bits of an array that has room for more.
ghost use Rattle.std.specs.Prelude.{◌≡◌, ◌+◌, ◌-◌, ◌*◌, ◌<◌, ◌≤◌, [], ◌∷◌, ◌++◌, false, length, replicate, slice_index_or, slice_set, take};
ghost use Rattle.std.specs.List.{insert, remove};
ghost use Rattle.bitvec.specs.Arrays.{lsb0_bits};
ghost use Rattle.bitvec.specs.Fronts.{front_bits};
ghost use Rattle.bitvec.specs.Views.{seen};
ghost use Rattle.bitvec.specs.Window.{max_bits};

use bitvec::in_place;
use bitvec::prelude::*;

/// The bit at an index of the first `len`.
#[tactic(auto, using(bitvec::specs::Laws::fronts))]
pub fn get(words: &[u32], len: usize, index: usize) -> bool
    requires fits { 32 * length words.now ≤ max_bits }
    requires inside { len ≤ 32 * length words.now }
    requires bound { index < len }
    ensures { result ≡ slice_index_or (front_bits (lsb0_bits 32 words.now) len) index false }
{
    in_place::get::<u32, Lsb0>(words, index)
}

/// Makes the bit at an index of the first `len` another.
#[tactic(auto, using(bitvec::specs::Laws::fronts))]
pub fn set(words: &mut [u32], len: usize, index: usize, bit: bool)
    requires fits { 32 * length words.old ≤ max_bits }
    requires inside { len ≤ 32 * length words.old }
    requires bound { index < len }
    ensures { front_bits (lsb0_bits 32 words.new) len ≡ slice_set (front_bits (lsb0_bits 32 words.old) len) index bit }
{
    in_place::set::<u32, Lsb0>(words, index, bit);
}

/// Puts a bit behind the first `len`.
#[tactic(auto, using(bitvec::specs::Laws::fronts))]
pub fn push(words: &mut [u32], len: usize, bit: bool)
    requires fits { 32 * length words.old ≤ max_bits }
    requires room { len < 32 * length words.old }
    ensures { front_bits (lsb0_bits 32 words.new) (len + 1) ≡ front_bits (lsb0_bits 32 words.old) len ++ bit ∷ [] }
{
    in_place::set::<u32, Lsb0>(words, len, bit);
}

/// Puts the bits of a view behind the first `len`.
#[tactic(auto, using(bitvec::specs::Laws::fronts))]
pub fn extend<T: BitStore, O: SliceOrder>(
    words: &mut [u32],
    len: usize,
    end: usize,
    bits: BitSlice<'_, T, O>,
)
    requires fits { 32 * length words.old ≤ max_bits }
    requires room { end ≤ 32 * length words.old }
    requires long { end ≡ len + (seen bits).window.len }
    ensures { front_bits (lsb0_bits 32 words.new) end ≡ front_bits (lsb0_bits 32 words.old) len ++ (seen bits.entry).bits }
{
    in_place::copy_from::<u32, Lsb0, T, O>(words, len..end, bits);
}

/// Puts so many of a bit behind the first `len` that there are `end`.
#[tactic(auto, using(bitvec::specs::Laws::fronts))]
pub fn resize(words: &mut [u32], len: usize, end: usize, bit: bool)
    requires fits { 32 * length words.old ≤ max_bits }
    requires order { len ≤ end }
    requires room { end ≤ 32 * length words.old }
    ensures { front_bits (lsb0_bits 32 words.new) end ≡ front_bits (lsb0_bits 32 words.old) len ++ replicate (end - len) bit }
{
    in_place::fill::<u32, Lsb0>(words, len..end, bit);
}

/// Puts a bit among the first `len`.
#[tactic(auto, using(bitvec::specs::Laws::fronts))]
pub fn open_at(words: &mut [u32], len: usize, index: usize, bit: bool)
    requires fits { 32 * length words.old ≤ max_bits }
    requires room { len < 32 * length words.old }
    requires bound { index ≤ len }
    ensures { front_bits (lsb0_bits 32 words.new) (len + 1) ≡ insert (front_bits (lsb0_bits 32 words.old) len) index bit }
{
    in_place::insert::<u32, Lsb0>(words, len, index, bit);
}

/// Takes one out of them.
#[tactic(auto, using(bitvec::specs::Laws::fronts))]
pub fn close_at(words: &mut [u32], len: usize, index: usize) -> bool
    requires fits { 32 * length words.old ≤ max_bits }
    requires room { len ≤ 32 * length words.old }
    requires bound { index < len }
    ensures value { result ≡ slice_index_or (front_bits (lsb0_bits 32 words.old) len) index false }
    ensures rest { front_bits (lsb0_bits 32 words.new) (len - 1) ≡ remove (front_bits (lsb0_bits 32 words.old) len) index }
{
    in_place::remove::<u32, Lsb0>(words, len, index)
}

/// A view of them.
#[tactic(auto, using(bitvec::specs::Laws::fronts))]
pub fn view(words: &[u32], len: usize) -> BitSlice<'_, u32, Lsb0>
    requires fits { 32 * length words.now ≤ max_bits }
    requires inside { len ≤ 32 * length words.now }
    ensures bits { (seen result).bits ≡ front_bits (lsb0_bits 32 words.now) len }
    ensures len { (seen result).window.len ≡ len }
{
    BitSlice::from_slice(words).into_part(0..len)
}

#[test]
fn fronts_are_edited(rt: HostRuntime) {
    let mut words = [0u32; 2];
    push(&mut words, 0, true);
    push(&mut words, 1, false);
    resize(&mut words, 2, 31, true);
    open_at(&mut words, 31, 1, true);
    open_at(&mut words, 32, 32, true);
    assert!(rt; words == [0xFFFF_FFFB, 1]);
    assert!(rt; close_at(&mut words, 33, 0) && get(&words, 32, 0) && !get(&words, 32, 1));
    set(&mut words, 32, 1, true);
    assert!(rt; view(&words, 32).all());
    let more = [0u8];
    extend(&mut words, 32, 40, BitSlice::<u8, Msb0>::from_slice(&more));
    assert!(rt; words == [u32::MAX, 0]);
}
