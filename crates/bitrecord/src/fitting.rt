//! Values that fit their fields.
ghost use Rattle.std.specs.Prelude.{◌≡◌, ◌^◌, ◌<◌, ◌↔◌, IfNone, IfSome, IsTrue, length};
ghost use Rattle.bitrecord.specs.Records.{AreEncodable, IsFirstTooLarge};
ghost use Rattle.bitrecord.specs.Views.{fields_of};

use crate::Layout;
use std::alloc::Allocator;

/// Whether a value has at most so many bits: what `encode` asks of each value and its field.
#[inline(always)]
pub fn fits(value: u128, len: usize) -> bool
    ensures { IsTrue result ↔ value < 2 ^ len }
{
    if len >= 128 {
        return true;
    }
    value < 1u128 << (len as u32)
}

/// The first value that has more bits than its field.
pub(crate) fn first_too_large<A: Allocator>(layout: &Layout<A>, values: &[u128]) -> Option<usize>
    requires { length values.now ≡ length (fields_of layout.now) }
    ensures found { IfSome result (λ i. IsFirstTooLarge (fields_of layout.now) values.now i) }
    ensures none { IfNone result (AreEncodable (fields_of layout.now) values.now) }
{
    for number in 0..layout.len() {
        if !fits(values[number], layout.field(number).len) {
            return Some(number);
        }
    }
    None
}
