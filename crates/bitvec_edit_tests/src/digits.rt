//! What views print, and their digits.

use bitvec_base::{Lsb0, Msb0};
use bitvec_field::{Binary, LowerHex, Octal, UpperHex};
use bitvec_slice::BitSlice;
use bitvec_test_support::prints;
use std::alloc::Global;

/// Whether the digits of a view print so.
fn digits_print(alloc: Global, view: BitSlice<'_, u8, Lsb0>, hex: &str, binary: &str) -> bool {
    prints(alloc, &UpperHex(view), hex) && prints(alloc, &Binary(view), binary)
}

/// Whether the digits of one wide element print so.
fn wide_digits_print(alloc: Global, hex: &str, octal: &str) -> bool {
    let wide = BitSlice::<u128, Lsb0>::from_slice(&[1]);
    prints(alloc, &LowerHex(wide), hex) && prints(alloc, &Octal(wide), octal)
}

#[test]
fn digits_of_one_element_of_two_and_of_none(rt: HostRuntime) {
    let alloc = rt.alloc();
    let view = BitSlice::<u8, Lsb0>::from_slice(&[0x21, 0x84]).into_part(4..12);
    let hex = "[80000000000000000000000000000000]";
    let octal = "[2000000000000000000000000000000000000000000]";
    let print = [
        digits_print(alloc, view, "[4, 2]", "[0100, 0010]"),
        prints(alloc, &view, "[0, 1, 0, 0, 0, 0, 1, 0]"),
        digits_print(alloc, BitSlice::empty(), "[]", "[]"),
        wide_digits_print(alloc, hex, octal),
        prints(
            alloc,
            &LowerHex(BitSlice::<u8, Lsb0>::from_slice(&[0x21])),
            "[84]",
        ),
        prints(
            alloc,
            &Octal(BitSlice::<u8, Msb0>::from_slice(&[0x21])),
            "[041]",
        ),
    ];
    assert!(rt; print == [true; 6]);
}
