//! The checksum of the header.
ghost use Rattle.std.specs.Prelude.{◌≡◌, ◌<◌, All, true};
ghost use Rattle.bitvec.specs.Views.{seen, seen_mut};
ghost use Rattle.bitrecord.specs.Records.{record_in};
ghost use Rattle.bitrecord.specs.Views.{bits_of, fields_of};
ghost use Rattle.packet.specs.Changes.{MakesRight};
ghost use Rattle.packet.specs.Checksums.{add_words, sum_words};
ghost use Rattle.packet.specs.Packets.{AreFields, AreWords};

use crate::field::CHECKSUM;
use bitrecord::bits::{BitSlice, BitSliceMut, Msb0};
use bitrecord::{Endian, Layout, decode, encode_one};
use std::alloc::Allocator;

/// The sum of two words, to which the carry is added. Condition: they have 16 bits.
fn add_word(sum: u128, word: u128) -> u128
    requires sum { sum < 65536 }
    requires word { word < 65536 }
    ensures sum { result ≡ add_words sum word }
    ensures bound { result < 65536 }
{
    let sum = sum + word;
    if sum < 0x1_0000 { sum } else { sum - 0xFFFF }
}

/// The sum of words, to which carries are added. Condition: they have 16 bits.
fn add_up(words: &[u128]) -> u128
    requires { All (λ word. word < 65536) words.now }
    ensures sum { result ≡ sum_words words.now }
    ensures bound { result < 65536 }
{
    let mut sum = 0;
    for word in words {
        sum = add_word(sum, *word);
    }
    sum
}

/// The sum of the words of a header. Conditions: the layout is of words, and the view has as many bits
/// as its records.
pub(crate) fn header_sum<A: Allocator>(words: &Layout<A>, view: BitSlice<'_, u8, Msb0>) -> u128
    requires bits { (seen view).window.len ≡ bits_of words.now }
    requires words { AreWords (fields_of words.now) }
    ensures sum { result ≡ sum_words (record_in Endian.Big true 8 (seen view.entry).window.start (seen view.entry).bits (fields_of words.now)) }
    ensures bound { result < 65536 }
{
    let mut numbers = [0u128; 30];
    let numbers = &mut numbers[..words.len()];
    decode(words, Endian::Big, view, numbers);
    add_up(numbers)
}

/// Makes the checksum of a header right. Conditions: the layouts are of fields and of words, and the
/// view has as many bits as their records.
pub(crate) fn make_right<A: Allocator>(
    layout: &Layout<A>,
    words: &Layout<A>,
    view: &mut BitSliceMut<'_, u8, Msb0>,
)
    requires bits { (seen_mut view.old).window.len ≡ bits_of layout.now }
    requires word_bits { bits_of words.now ≡ bits_of layout.now }
    requires fields { AreFields (fields_of layout.now) }
    requires words { AreWords (fields_of words.now) }
    ensures { MakesRight (fields_of layout.now) (fields_of words.now) view.old view.new }
{
    encode_one(layout, Endian::Big, CHECKSUM, 0, view).unwrap();
    let sum = header_sum(words, view.as_ref());
    encode_one(layout, Endian::Big, CHECKSUM, 0xFFFF - sum, view).unwrap();
}
