//! Numbers in views.
ghost use Rattle.std.specs.Prelude.{◌≤◌};

use bitvec_base::{Lsb0, Msb0};
use bitvec_field::{BitField, BitFieldMut, Integral};
use bitvec_numbers::FieldOrder;
use bitvec_slice::{BitSlice, BitSliceMut};

/// The number of the bits 4 up to 12, `le` or else `be`.
fn load_middle<O: FieldOrder>(bytes: &[u8; 2], le: bool) -> u8 {
    let part = BitSlice::<u8, O>::from_slice(bytes).into_part(4..12);
    if le {
        part.load_le::<u8>()
    } else {
        part.load_be::<u8>()
    }
}

/// What a view of four bits is read as from either end, and one of two bits from an index on with and without a sign.
fn load_few(bytes: &[u8; 1], from: usize) -> (u8, u8, u8, i8)
    requires { from ≤ 6 }
{
    let view = BitSlice::<u8, Lsb0>::from_slice(bytes);
    let (four, two) = (view.into_part(2..6), view.into_part(from..from + 2));
    (
        four.load_le::<u8>(),
        four.load_be::<u8>(),
        two.load_le::<u8>(),
        two.load_le::<i8>(),
    )
}

#[test]
fn a_number_is_read_from_either_end(rt: HostRuntime) {
    let elements = [0xB4u8, 0x6E];
    let found = [
        load_middle::<Lsb0>(&elements, true),
        load_middle::<Lsb0>(&elements, false),
        load_middle::<Msb0>(&elements, true),
        load_middle::<Msb0>(&elements, false),
    ];
    assert!(rt; found == [0xEB, 0xBE, 0x64, 0x46]);
    assert!(rt; load_few(&[0xB4], 3) == (0xD, 0xD, 2, -2));
    assert!(rt; load_few(&[0x06], 1) == (1, 1, 3, -1));
}

/// Stores a negative number in the bits 6 up to 10, `le` or else `be`, and gives what is loaded then.
fn store_negative(bytes: &mut [u8; 2], le: bool) -> i8 {
    let mut part = BitSliceMut::<u8, Msb0>::from_slice_mut(bytes).into_part(6..10);
    if le {
        part.store_le::<i8>(-3);
        return part.load_le::<i8>();
    }
    part.store_be::<i8>(-3);
    part.load_be::<i8>()
}

#[test]
fn a_number_comes_back(rt: HostRuntime) {
    for (le, bytes) in [(true, [0x01, 0xC0]), (false, [0x03, 0x40])] {
        let mut elements = [0u8, 0];
        assert!(rt; (store_negative(&mut elements, le), elements) == (-3, bytes));
    }
    let mut elements = [0u16, 0];
    let mut view = BitSliceMut::<u16, Lsb0>::from_slice_mut(&mut elements);
    view.store::<u32>(0x0123_4567);
    assert!(rt; view.load::<u32>() == 0x0123_4567);
    assert!(rt; elements == [0x4567, 0x0123]);
}

/// Stores an integer in seven bits, the first of them the last of an element, and loads it.
fn through_seven_bits<I: Integral>(value: I) -> I
    requires { 7 ≤ I.BITS }
{
    let mut elements = [0u8; 2];
    let mut part = BitSliceMut::<u8, Lsb0>::from_slice_mut(&mut elements).into_part(7..14);
    part.store_le::<I>(value);
    part.load_le::<I>()
}

#[test]
fn integers_of_each_type_keep_their_lowest_bits(rt: HostRuntime) {
    let are_kept = [
        through_seven_bits::<u8>(200) == 72,
        through_seven_bits::<u16>(200) == 72,
        through_seven_bits::<u32>(200) == 72,
        through_seven_bits::<u64>(200) == 72,
        through_seven_bits::<u128>(200) == 72,
        through_seven_bits::<usize>(200) == 72,
        through_seven_bits::<i8>(-50) == -50,
        through_seven_bits::<i16>(-50) == -50,
        through_seven_bits::<i32>(-50) == -50,
        through_seven_bits::<i64>(-50) == -50,
        through_seven_bits::<i128>(-50) == -50,
        through_seven_bits::<isize>(-50) == -50,
    ];
    assert!(rt; are_kept == [true; 12]);
}
