//! What a caller knows of a set of numbers, each the index of a bit that is 1: put in, joined with another, looked up by rank,
//! walked, and kept in a range of an array.
ghost use Rattle.std.specs.Prelude.{◌≡◌, ◌-◌, ◌<◌, ◌≤◌, ◌==◌, IfSome, Some, count_by, filter, length, nat_lt, not, slice_get, slice_index, slice_index_or, take, true, false};
ghost use Rattle.std.specs.BTreeSet.{insert_key};
ghost use Rattle.std.specs.List.{list_any};
ghost use Rattle.std.specs.Ordering.{nat_cmp};
ghost use Rattle.std.specs.Set.{sorted_merge};
ghost use Rattle.bitvec.specs.Arrays.{lsb0_bits};
ghost use Rattle.bitvec.specs.Lists.{places_of};
ghost use Rattle.bitvec.specs.Owned.{owned};
ghost use Rattle.bitvec.specs.Ranges.{ChangesOnly, HasBits, bits_in};
ghost use Rattle.bitvec.specs.Views.{seen};

use bitvec::in_place;
use bitvec::prelude::*;
use std::alloc::{AllocError, Global};

/// Numbers below the length.
type Numbers = BitVec<u64, Lsb0, Global>;

/// Puts a number in, and tells whether it was new. Condition: it is below the length.
#[tactic(auto, using(bitvec::specs::Laws::placed, bitvec::specs::Laws::grown))]
pub fn put_in(numbers: &mut Numbers, number: usize) -> bool
    requires { number < (owned numbers.old).window.len }
    ensures numbers { places_of true (owned numbers.new).bits ≡ insert_key nat_cmp (places_of true (owned numbers.old).bits) number }
    ensures new { result ≡ not (list_any (λ other. other == number) (places_of true (owned numbers.old).bits)) }
{
    !numbers.replace(number, true)
}

/// Puts the numbers of another set in. Condition: its length is no greater.
#[tactic(auto, using(bitvec::specs::Laws::placed, bitvec::specs::Laws::grown))]
pub fn unite(numbers: &mut Numbers, others: BitSlice<'_, u64, Lsb0>)
    requires { (seen others).window.len ≤ (owned numbers.old).window.len }
    ensures { places_of true (owned numbers.new).bits ≡ sorted_merge nat_cmp true (places_of true (owned numbers.old).bits) (places_of true (seen others.entry).bits) }
{
    numbers.or_bits(others);
}

/// Takes the numbers of another set out.
#[tactic(auto, using(bitvec::specs::Laws::placed))]
pub fn take_out(numbers: &mut Numbers, others: BitSlice<'_, u64, Lsb0>)
    ensures { places_of true (owned numbers.new).bits
        ≡ filter (λ number. not (slice_index_or (seen others.entry).bits number false)) (places_of true (owned numbers.old).bits) }
{
    numbers.and_not_bits(others);
}

/// The number that has so many below it in the set, if there is one.
#[tactic(auto, using(bitvec::specs::Laws::placed))]
pub fn number_at(numbers: BitSlice<'_, u64, Lsb0>, rank: usize) -> Option<usize>
    ensures below { IfSome result (λ number. number < (seen numbers.entry).window.len) }
    ensures member { IfSome result (λ number. slice_index_or (seen numbers.entry).bits number false ≡ true) }
    ensures rank { IfSome result (λ number. count_by (λ other. nat_lt other number) (places_of true (seen numbers.entry).bits) ≡ rank) }
{
    numbers.nth_one(rank)
}

/// The number that isn't in the set and has so many such numbers below it, if there is one.
#[tactic(auto, using(bitvec::specs::Laws::placed))]
pub fn missing_at(numbers: BitSlice<'_, u64, Lsb0>, rank: usize) -> Option<usize>
    ensures below { IfSome result (λ number. number < (seen numbers.entry).window.len) }
    ensures missing { IfSome result (λ number. slice_index_or (seen numbers.entry).bits number false ≡ false) }
    ensures rank { IfSome result (λ number. count_by not (take number (seen numbers.entry).bits) ≡ rank) }
{
    numbers.nth_zero(rank)
}

/// The rank of a number that isn't in a set among those that aren't: [`missing_at`] finds it there. Condition: it is below the length.
#[tactic(auto, using(bitvec::specs::Laws::placed))]
pub fn rank_of_missing(numbers: BitSlice<'_, u64, Lsb0>, number: usize) -> usize
    requires below { number < (seen numbers).window.len }
    requires missing { slice_index_or (seen numbers).bits number false ≡ false }
    ensures { slice_get (places_of false (seen numbers.entry).bits) result ≡ Some number }
{
    numbers.count_zeros_before(number)
}

/// The first number of a set whose weight is 0. Condition: there are as many weights as bits.
#[tactic(auto, using(bitvec::specs::Laws::placed))]
pub fn first_idle(numbers: BitSlice<'_, u64, Lsb0>, weights: &[u32]) -> Option<usize>
    requires { length weights.now ≡ (seen numbers).window.len }
    ensures member { IfSome result (λ number. slice_index_or (seen numbers.entry).bits number false ≡ true) }
    ensures idle { IfSome result (λ number. slice_index weights.now number ≡ 0) }
{
    for number in numbers.iter_ones() {
        if weights[number] == 0 {
            return Some(number);
        }
    }
    None
}

/// Puts a number into a set whose bits are a range of an array. Condition: it is below the range's length.
#[tactic(auto, using(bitvec::specs::Laws::asked, bitvec::specs::Laws::composed, bitvec::specs::Laws::placed, bitvec::specs::Laws::sized))]
pub fn put_in_range(words: &mut [u64], from: usize, to: usize, number: usize)
    requires range { HasBits 64 (length words.old) from to }
    requires number { number < to - from }
    ensures numbers { places_of true (bits_in (lsb0_bits 64 words.new) from to)
        ≡ insert_key nat_cmp (places_of true (bits_in (lsb0_bits 64 words.old) from to)) number }
    ensures outside { ChangesOnly from to (lsb0_bits 64 words.old) (lsb0_bits 64 words.new) }
{
    in_place::set::<u64, Lsb0>(words, from + number, true);
}

/// Whether 2, 3, 5 and 7 with 4 and 5, without 3 and 4, are 2, 5 and 7, of which 7 is the first one idle.
fn are_sets(alloc: Global) -> Result<bool, AllocError> {
    let mut numbers = Numbers::new_in(alloc);
    numbers.resize(8, false)?;
    let mut new = true;
    for number in [2usize, 3, 5, 7] {
        if number < numbers.len() {
            new = put_in(&mut numbers, number) && new;
        }
    }
    if numbers.len() != 8 {
        return Ok(false);
    }
    let others = [0b0011_0000u64];
    unite(&mut numbers, BitSlice::from_slice(&others).into_part(0..8));
    take_out(&mut numbers, BitSlice::from_slice(&[0b0001_1000u64]));
    let view = numbers.as_bitslice();
    if view.len() != 8 {
        return Ok(false);
    }
    let found = [
        number_at(view, 1),
        number_at(view, 3),
        first_idle(view, &[0, 1, 2, 1, 0, 1, 0, 0]),
    ];
    Ok(new && found == [Some(5), None, Some(7)])
}

#[test]
fn sets_are_joined(rt: HostRuntime) {
    assert!(rt; are_sets(rt.alloc()) == Ok(true));
    let mut words = [0u64; 2];
    put_in_range(&mut words, 60, 70, 5);
    assert!(rt; words == [0, 2]);
}
