//! What a caller knows of numbers that it stored in a view, and of those that it loads.
ghost use Rattle.std.specs.Prelude.{◌≡◌, ◌+◌, ◌-◌, ◌%◌, ◌^◌, ◌<◌, ◌≤◌, slice_range};
ghost use Rattle.bitvec.specs.Integers.{integer_of, remainder_of};
ghost use Rattle.bitvec.specs.Segments.{loaded_le};
ghost use Rattle.bitvec.specs.Views.{seen, seen_mut};

use bitvec::prelude::*;

/// Stores a number in the `width` bits from `from` on, and loads it: it is the number modulo
/// `2^width`, of a signed type less `2^width` where the highest bit is 1.
#[tactic(auto, using(bitvec::specs::Laws::reloaded))]
pub fn put_and_take<T: BitStore, O: FieldOrder, I: Integral>(
    view: BitSliceMut<'_, T, O>,
    from: usize,
    width: usize,
    number: I,
) -> I
    requires some { 0 < width }
    requires bound { width ≤ I.BITS }
    requires inside { from + width ≤ (seen_mut view).window.len }
    ensures { I.value result ≡ integer_of I.SIGNED width (remainder_of width (I.value number)) }
{
    let mut part = view.into_part(from..from + width);
    let _len = part.len();
    part.store_le::<I>(number);
    part.load_le::<I>()
}

/// Puts a number in and takes it out, the first segment highest.
#[tactic(auto, using(bitvec::specs::Laws::reloaded))]
pub fn put_and_take_be<T: BitStore, O: FieldOrder, I: Integral>(
    view: BitSliceMut<'_, T, O>,
    from: usize,
    width: usize,
    number: I,
) -> I
    requires some { 0 < width }
    requires bound { width ≤ I.BITS }
    requires inside { from + width ≤ (seen_mut view).window.len }
    ensures { I.value result ≡ integer_of I.SIGNED width (remainder_of width (I.value number)) }
{
    let mut part = view.into_part(from..from + width);
    let _len = part.len();
    part.store_be::<I>(number);
    part.load_be::<I>()
}

/// Stores a number in a range of a view: it is the range's, as far as it fits.
#[tactic(auto, using(bitvec::specs::Laws::fields))]
pub fn put_in_range<T: BitStore, O: FieldOrder>(
    view: &mut BitSliceMut<'_, T, O>,
    from: usize,
    to: usize,
    number: u32,
)
    requires some { from < to }
    requires bound { to ≤ from + 32 }
    requires inside { to ≤ (seen_mut view.old).window.len }
    ensures { loaded_le O.HIGH T.BITS ((seen_mut view.old).window.start + from) (slice_range (seen_mut view.new).bits from to) ≡ number % 2 ^ (to - from) }
{
    view.edit_with(from..to, |piece| piece.store_le::<u32>(number));
}

/// Loads a view that lies in one element from both ends: the numbers are one.
#[tactic(auto, using(bitvec::specs::Laws::reloaded))]
pub fn take_both_ways<T: BitStore, O: FieldOrder, I: Integral>(view: BitSlice<'_, T, O>) -> (I, I)
    requires some { 0 < (seen view).window.len }
    requires bound { (seen view).window.len ≤ I.BITS }
    requires one { (seen view).window.start % T.BITS + (seen view).window.len ≤ T.BITS }
    ensures { I.value result.0 ≡ I.value result.1 }
{
    let _len = view.len();
    (view.load_le::<I>(), view.load_be::<I>())
}
