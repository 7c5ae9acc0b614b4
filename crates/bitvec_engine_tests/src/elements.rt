//! The operations of `BitStore` by value, at each width.
ghost use Rattle.std.specs.Prelude.{◌/◌, ◌<◌, ◌≤◌, length};

use crate::tally::Tally;
use bitvec_test_support::store::BitStore;

/// Two elements as numbers, a number of bits to move by, and what the operations are to give of them.
#[derive(Clone, Copy)]
struct Row {
    left: u128,
    right: u128,
    by: u32,

    /// `and`, `or`, `xor`, `not`, `shl` and `shr`.
    numbers: [u128; 6],

    /// How many bits of the left one are 1, and how many are 0 above the highest and below the lowest of these.
    counts: [u32; 3],
}

/// What the operations on bits and the moves give.
fn results<T: BitStore>(left: T, right: T, by: u32) -> [u128; 6]
    requires { by < T.BITS }
{
    [
        left.and(right).to_u128(),
        left.or(right).to_u128(),
        left.xor(right).to_u128(),
        left.not().to_u128(),
        left.shl(by).to_u128(),
        left.shr(by).to_u128(),
    ]
}

/// How many bits are 1, and how many are 0 above the highest and below the lowest of these.
fn counts<T: BitStore>(element: T) -> [u32; 3] {
    [
        element.count_ones(),
        element.leading_zeros(),
        element.trailing_zeros(),
    ]
}

/// Whether the operations give what a row says.
fn give<T: BitStore>(row: Row) -> bool {
    let all = T::ALL.to_u128();
    if row.left > all || row.right > all || row.by >= T::BITS {
        return false;
    }
    let left = T::from_u128(row.left);
    results(left, T::from_u128(row.right), row.by) == row.numbers && counts(left) == row.counts
}

/// Whether narrow elements are operated on as rows say.
fn narrow_agree() -> [bool; 3] {
    [
        give::<u8>(Row {
            left: 0xB2,
            right: 0x5C,
            by: 3,
            numbers: [0x10, 0xFE, 0xEE, 0x4D, 0x90, 0x16],
            counts: [4, 0, 1],
        }),
        give::<u16>(Row {
            left: 0x1E60,
            right: 0xF0F0,
            by: 4,
            numbers: [0x1060, 0xFEF0, 0xEE90, 0xE19F, 0xE600, 0x01E6],
            counts: [6, 3, 5],
        }),
        give::<u32>(Row {
            left: 0x00C0_3500,
            right: 0xFFFF_0F00,
            by: 8,
            numbers: [
                0x00C0_0500,
                0xFFFF_3F00,
                0xFF3F_3A00,
                0xFF3F_CAFF,
                0xC035_0000,
                0x0000_C035,
            ],
            counts: [6, 8, 8],
        }),
    ]
}

/// Whether words agree, and an element of two words.
fn wide_agree() -> [bool; 3] {
    [
        give::<u64>(Row {
            left: 0x0000_0001_8000_0000,
            right: 0x0000_0003_0000_0000,
            by: 32,
            numbers: [
                0x0000_0001_0000_0000,
                0x0000_0003_8000_0000,
                0x0000_0002_8000_0000,
                0xFFFF_FFFE_7FFF_FFFF,
                0x8000_0000_0000_0000,
                0x0000_0000_0000_0001,
            ],
            counts: [2, 31, 31],
        }),
        give::<usize>(Row {
            left: 0xF000_0000_0000_0001,
            right: 0x0FFF_FFFF_FFFF_FFFF,
            by: 63,
            numbers: [
                1,
                0xFFFF_FFFF_FFFF_FFFF,
                0xFFFF_FFFF_FFFF_FFFE,
                0x0FFF_FFFF_FFFF_FFFE,
                0x8000_0000_0000_0000,
                1,
            ],
            counts: [5, 0, 0],
        }),
        give::<u128>(Row {
            left: 0x0001_8000_0000_0000_0000,
            right: 0x0100_0000_0000_0003_0000_0000_0000_0000,
            by: 64,
            numbers: [
                0x0001_0000_0000_0000_0000,
                0x0100_0000_0000_0003_8000_0000_0000_0000,
                0x0100_0000_0000_0002_8000_0000_0000_0000,
                0xFFFF_FFFF_FFFF_FFFE_7FFF_FFFF_FFFF_FFFF,
                0x8000_0000_0000_0000_0000_0000_0000_0000,
                1,
            ],
            counts: [2, 63, 63],
        }),
    ]
}

#[test]
fn elements_are_operated_on(rt: HostRuntime) {
    assert!(rt; narrow_agree() == [true; 3]);
    assert!(rt; wide_agree() == [true; 3]);
}

/// The number that a slice's first elements make, before those of another are stored there.
fn exchanged<T: BitStore>(elements: &mut [T], word: u64) -> u64
    requires { 64 / T.BITS ≤ length elements.old }
{
    let old = T::load_word(elements);
    T::store_word(elements, word);
    old
}

/// Whether bytes are loaded by a word and stored so.
fn bytes_agree() -> bool {
    let mut bytes = [0x11u8, 0x22, 0x33, 0x44, 0x55, 0x66, 0x77, 0x88, 0x99];
    exchanged(&mut bytes, 0xF8E7_D6C5_B4A3_9281) == 0x8877_6655_4433_2211
        && bytes == [0x81, 0x92, 0xA3, 0xB4, 0xC5, 0xD6, 0xE7, 0xF8, 0x99]
}

/// Whether elements of 16 bits are.
fn shorts_agree() -> bool {
    let mut shorts = [0x1122u16, 0x3344, 0x5566, 0x7788, 0x99AA];
    exchanged(&mut shorts, 0xF8E7_D6C5_B4A3_9281) == 0x7788_5566_3344_1122
        && shorts == [0x9281, 0xB4A3, 0xD6C5, 0xF8E7, 0x99AA]
}

/// Whether elements of 32 bits are.
fn halves_agree() -> bool {
    let mut halves = [0x1122_3344u32, 0x5566_7788, 0x99AA_BBCC];
    exchanged(&mut halves, 0xF8E7_D6C5_B4A3_9281) == 0x5566_7788_1122_3344
        && halves == [0xB4A3_9281, 0xF8E7_D6C5, 0x99AA_BBCC]
}

/// Whether words are.
fn words_agree() -> bool {
    let mut words = [0x1122_3344_5566_7788u64, 2];
    exchanged(&mut words, 3) == 0x1122_3344_5566_7788 && words == [3, 2]
}

/// Whether elements of the machine's size are.
fn sizes_agree() -> bool {
    let mut sizes = [4usize, 5];
    exchanged(&mut sizes, 6) == 4 && sizes == [6, 5]
}

/// Whether an element that is wider than a word is left, and gives no bits.
fn a_wide_element_is_left() -> bool {
    let mut wide = [7u128];
    exchanged(&mut wide, 8) == 0 && wide == [7]
}

/// Whether elements of a type of these tests are loaded by a word and stored so.
fn tallies_agree() -> bool {
    let mut tallies = [Tally::from_u128(9), Tally::from_u128(10)];
    let old = exchanged(&mut tallies, 11);
    let [first, second] = tallies;
    (old, first.to_u128(), second.to_u128()) == (9, 11, 10)
}

#[test]
fn elements_are_loaded_by_words(rt: HostRuntime) {
    let agree = [
        bytes_agree(),
        shorts_agree(),
        halves_agree(),
        words_agree(),
        sizes_agree(),
        a_wide_element_is_left(),
        tallies_agree(),
    ];
    assert!(rt; agree == [true; 7]);
}
