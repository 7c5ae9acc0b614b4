//! Elements of 128 bits as two words side by side in one register of the processor, which shifts both at once.
ghost use Rattle.std.specs.Prelude.{◌≡◌, ◌^◌, ◌<◌};
ghost use Rattle.bitvec_words.specs.Lanes.{AreJoined, AreWords, number_of_words, words_between};

use crate::{Carried, WordOrder};
use bitvec_store::BitStore;
use std::simd::prelude::*;

/// How many numbers a word has.
const WORDS: u128 = 1 << 64;

/// An element of 128 bits as two words, the less significant one first.
#[derive(Clone, Copy)]
pub struct Lanes {
    words: u64x2,
    ghost two: { AreWords words },
}

impl<T: BitStore> Carried<T> for Lanes {
    ghost fits = { λ bits. bits ≡ 128 };

    ghost value = { λ lanes. number_of_words lanes.words };

    #[inline(always)]
    fn of(element: T) -> Self {
        Lanes {
            words: words_of(element.to_u128()),
        }
    }

    #[inline(always)]
    fn element(&self) -> T {
        T::from_u128(number_of(self.words))
    }

    #[inline(always)]
    fn joined<O: WordOrder>(&self, next: &Self, skip: usize) -> T {
        let between = words_between::<O>(self.words, next.words);
        let words = if skip < 64 {
            joined_words::<O>(self.words, between, skip as u64)
        } else {
            joined_words::<O>(between, next.words, skip as u64 - 64)
        };
        T::from_u128(number_of(words))
    }
}

/// The two words of a number.
#[inline(always)]
fn words_of(number: u128) -> u64x2
    ensures words { AreWords result }
    ensures number { number_of_words result ≡ number }
{
    u64x2::from_array([(number % WORDS) as u64, (number / WORDS) as u64])
}

/// The number of two words.
#[inline(always)]
fn number_of(words: u64x2) -> u128
    requires { AreWords words }
    ensures number { result ≡ number_of_words words }
    ensures in_range { result < 2 ^ 128 }
{
    let [low, high] = words.to_array();
    u128::from(high) * WORDS + u128::from(low)
}

/// The two words that stand half a number into two numbers side by side.
#[inline(always)]
fn words_between<O: WordOrder>(first: u64x2, second: u64x2) -> u64x2
    requires first { AreWords first }
    requires second { AreWords second }
    ensures words { AreWords result }
    ensures between { result ≡ words_between O.HIGH first second }
{
    if O::HIGH {
        return second.shuffle(first, [1, 2]);
    }
    first.shuffle(second, [1, 2])
}

/// The words that stand `skip` bits into two words side by side, for the words at both places.
#[inline(always)]
fn joined_words<O: WordOrder>(first: u64x2, second: u64x2, skip: u64) -> u64x2
    requires first { AreWords first }
    requires second { AreWords second }
    requires bound { skip < 64 }
    ensures words { AreWords result }
    ensures joined { AreJoined O.at skip first second result }
{
    // in two shifts, since none may be by the whole width
    let (one, rest) = (u64x2::splat(1), u64x2::splat(63 - skip));
    if O::HIGH {
        return (first << u64x2::splat(skip)) | ((second >> one) >> rest);
    }
    (first >> u64x2::splat(skip)) | ((second << one) << rest)
}
