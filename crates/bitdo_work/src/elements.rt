//! A memory in the arguments' notation: elements of hexadecimal digits, joined by commas.
ghost use Rattle.std.specs.Prelude.{◌≡◌, ◌^◌, ◌<◌, ◌≤◌, is_some, IfSome, IfOk, Some, map};
ghost use Rattle.std.specs.Char.{is_ascii_hexdigit};
ghost use Rattle.std.specs.List.{list_all};
ghost use Rattle.std.specs.Option.{option_map};
ghost use Rattle.bitdo_work.specs.Elements.{hexadecimal_of, element_of, elements_of};

use bitvec_store::BitStore;
use std::alloc::{AllocError, Allocator};

/// Whether each byte is a hexadecimal digit, in either case.
fn is_hexadecimal(word: &str) -> bool
    ensures { result ≡ list_all is_ascii_hexdigit word.now }
{
    word.bytes().all(|byte| byte.is_ascii_hexdigit())
}

/// The number of a word of exactly `digits` hexadecimal digits. Condition: they are at least one,
/// and at most as many as the widest element has.
fn parse_hexadecimal(word: &str, digits: usize) -> Option<u128>
    requires some { 0 < digits }
    requires bound { digits ≤ 32 }
    ensures number { result ≡ hexadecimal_of digits word.now }
    ensures bound { IfSome result (λ number. number < 16 ^ digits) }
{
    if word.len() == digits && is_hexadecimal(word) {
        u128::from_str_radix(word, 16).ok()
    } else {
        None
    }
}

/// The element of a word of exactly `BITS / 4` hexadecimal digits.
fn parse_element<T: BitStore>(word: &str) -> Option<T>
    ensures { option_map T.value result ≡ element_of T.BITS word.now }
{
    let number = parse_hexadecimal(word, T::BITS as usize / 4)?;
    Some(T::from_u128(number))
}

/// The elements of a memory, words of elements joined by commas or `-` for none; or that there is no room for
/// them. None, if the text isn't a memory, also where there is no room.
pub(crate) fn parse_elements<T: BitStore, A: Allocator>(
    alloc: A,
    text: &str,
) -> Option<Result<Vec<T, A>, AllocError>>
    ensures notation { is_some result ≡ is_some (elements_of T.BITS text.now) }
    ensures read { IfSome result (λ made. IfOk made (λ elements.
        elements_of T.BITS text.now ≡ Some (map T.value elements.items))) }
{
    let mut elements = Vec::new(alloc);
    if text == "-" {
        return Some(Ok(elements));
    }
    let mut has_room = true;
    for word in text.split(',') {
        let element = parse_element(word)?;
        if has_room {
            has_room = elements.push(element).is_ok();
        }
    }
    if has_room {
        Some(Ok(elements))
    } else {
        Some(Err(AllocError))
    }
}
