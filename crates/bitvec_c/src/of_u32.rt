//! The exports over elements of 32 bits.
ghost use Rattle.std.specs.Prelude.{◌&&◌};
ghost use Rattle.bitvec_base.specs.Lists.{differs};
ghost use Rattle.bitvec_commands.specs.declared.command.Op.TheVariants.{All, And, Any, Cmp, Contains, CopyFrom, CopyWithin, CountOnes, CountZeros, EndsWith, Eq, Fill, FirstOne, FirstZero, Get, Invert, LastOne, LastZero, Or, Replace, Reverse, RotateLeft, RotateRight, Set, ShiftEnd, ShiftStart, StartsWith, Swap, Xor};
ghost use Rattle.bitvec_segments.specs.Segments.{loaded_be, loaded_le, stored_be, stored_le};
ghost use Rattle.bitvec_checked.specs.Calls.{Asks, AsksBeside, CopiesEvery, CountsEvery, EditsBeside, EditsBy, FillsEvery, Joins, Loads, Seeks, Stores, Swaps, Tells};
ghost use Rattle.bitvec_checked.specs.Pairs.{no_pair_where, only_first, pairs_where};
ghost use Rattle.bitvec_checked.specs.Replies.{bit_of, count_of, order_of};
ghost use Rattle.bitvec_checked.specs.Statuses.{bits_from};
ghost use Rattle.bitvec_c.specs.Ones.{Lists};

use crate::ones::ones;

/// The bit at an index of a window.
#[unsafe(no_mangle)]
pub extern "C" fn fb_u32_get(
    order: u32,
    elements: &[u32],
    start: usize,
    len: usize,
    index: usize,
    bit: &mut bool,
) -> u32
    ensures { Asks order 32 (λ x. x) (Get index) bit_of (bits_from start len) elements.now bit.old bit.new result }
{
    bitvec_checked::get(order, elements, start, len, index, bit)
}

/// Makes the bit at an index of a window `bit`.
#[unsafe(no_mangle)]
pub extern "C" fn fb_u32_set(
    order: u32,
    elements: &mut [u32],
    start: usize,
    len: usize,
    index: usize,
    bit: bool,
) -> u32
    ensures { EditsBy order 32 (λ x. x) (Set index bit) (bits_from start len) elements.old elements.new result }
{
    bitvec_checked::set(order, elements, start, len, index, bit)
}

/// Makes the bit at an index of a window `bit`, and gives the old one.
#[unsafe(no_mangle)]
pub extern "C" fn fb_u32_replace(
    order: u32,
    elements: &mut [u32],
    start: usize,
    len: usize,
    index: usize,
    bit: bool,
    old: &mut bool,
) -> u32
    ensures value { Asks order 32 (λ x. x) (Replace index bit) bit_of (bits_from start len) elements.old old.old old.new result }
    ensures writes { EditsBy order 32 (λ x. x) (Replace index bit) (bits_from start len) elements.old elements.new result }
{
    bitvec_checked::replace(order, elements, start, len, index, bit, old)
}

/// Exchanges the bits at two indices of a window.
#[unsafe(no_mangle)]
pub extern "C" fn fb_u32_swap_bits(
    order: u32,
    elements: &mut [u32],
    start: usize,
    len: usize,
    first: usize,
    second: usize,
) -> u32
    ensures { EditsBy order 32 (λ x. x) (Swap first second) (bits_from start len) elements.old elements.new result }
{
    bitvec_checked::swap_bits(order, elements, start, len, first, second)
}

/// Makes each bit of a window `bit`.
#[unsafe(no_mangle)]
pub extern "C" fn fb_u32_fill(
    order: u32,
    elements: &mut [u32],
    start: usize,
    len: usize,
    bit: bool,
) -> u32
    ensures { EditsBy order 32 (λ x. x) (Fill bit) (bits_from start len) elements.old elements.new result }
{
    bitvec_checked::fill(order, elements, start, len, bit)
}

/// Flips each bit of a window.
#[unsafe(no_mangle)]
pub extern "C" fn fb_u32_invert(order: u32, elements: &mut [u32], start: usize, len: usize) -> u32
    ensures { EditsBy order 32 (λ x. x) Invert (bits_from start len) elements.old elements.new result }
{
    bitvec_checked::invert(order, elements, start, len)
}

/// Puts the bits of a window in the opposite order.
#[unsafe(no_mangle)]
pub extern "C" fn fb_u32_reverse(order: u32, elements: &mut [u32], start: usize, len: usize) -> u32
    ensures { EditsBy order 32 (λ x. x) Reverse (bits_from start len) elements.old elements.new result }
{
    bitvec_checked::reverse(order, elements, start, len)
}

/// Shifts the bits of a window towards its start: as many zeros as were lost follow the others.
#[unsafe(no_mangle)]
pub extern "C" fn fb_u32_shift_start(
    order: u32,
    elements: &mut [u32],
    start: usize,
    len: usize,
    by: usize,
) -> u32
    ensures { EditsBy order 32 (λ x. x) (ShiftStart by) (bits_from start len) elements.old elements.new result }
{
    bitvec_checked::shift_start(order, elements, start, len, by)
}

/// Shifts the bits of a window towards its end: as many zeros as were lost stand before the others.
#[unsafe(no_mangle)]
pub extern "C" fn fb_u32_shift_end(
    order: u32,
    elements: &mut [u32],
    start: usize,
    len: usize,
    by: usize,
) -> u32
    ensures { EditsBy order 32 (λ x. x) (ShiftEnd by) (bits_from start len) elements.old elements.new result }
{
    bitvec_checked::shift_end(order, elements, start, len, by)
}

/// Rotates the bits of a window so that the one at `by` comes first.
#[unsafe(no_mangle)]
pub extern "C" fn fb_u32_rotate_left(
    order: u32,
    elements: &mut [u32],
    start: usize,
    len: usize,
    by: usize,
) -> u32
    ensures { EditsBy order 32 (λ x. x) (RotateLeft by) (bits_from start len) elements.old elements.new result }
{
    bitvec_checked::rotate_left(order, elements, start, len, by)
}

/// Rotates the bits of a window so that the last `by` come first.
#[unsafe(no_mangle)]
pub extern "C" fn fb_u32_rotate_right(
    order: u32,
    elements: &mut [u32],
    start: usize,
    len: usize,
    by: usize,
) -> u32
    ensures { EditsBy order 32 (λ x. x) (RotateRight by) (bits_from start len) elements.old elements.new result }
{
    bitvec_checked::rotate_right(order, elements, start, len, by)
}

/// Copies the bits `from` up to, without, `to` of a window to those from `dest` on.
#[unsafe(no_mangle)]
pub extern "C" fn fb_u32_copy_within(
    order: u32,
    elements: &mut [u32],
    start: usize,
    len: usize,
    from: usize,
    to: usize,
    dest: usize,
) -> u32
    ensures { EditsBy order 32 (λ x. x) (CopyWithin from to dest) (bits_from start len) elements.old elements.new result }
{
    bitvec_checked::copy_within(order, elements, start, len, from, to, dest)
}

/// Copies the bits of the right window, which is as long.
#[unsafe(no_mangle)]
pub extern "C" fn fb_u32_copy(
    order: u32,
    elements: &mut [u32],
    start: usize,
    len: usize,
    right: &[u32],
    right_start: usize,
    right_len: usize,
) -> u32
    ensures { EditsBeside order 32 (λ x. x) (CopyFrom (bits_from right_start right_len)) (bits_from start len) elements.old elements.new right.now result }
{
    bitvec_checked::copy(order, elements, start, len, right, right_start, right_len)
}

/// Makes each bit of a window that bit and the right one at its index, 0 past the right window's
/// end.
#[unsafe(no_mangle)]
pub extern "C" fn fb_u32_and(
    order: u32,
    elements: &mut [u32],
    start: usize,
    len: usize,
    right: &[u32],
    right_start: usize,
    right_len: usize,
) -> u32
    ensures { EditsBeside order 32 (λ x. x) (And (bits_from right_start right_len)) (bits_from start len) elements.old elements.new right.now result }
{
    bitvec_checked::and(order, elements, start, len, right, right_start, right_len)
}

/// Makes each bit of a window that bit or the right one at its index, 0 past the right window's
/// end.
#[unsafe(no_mangle)]
pub extern "C" fn fb_u32_or(
    order: u32,
    elements: &mut [u32],
    start: usize,
    len: usize,
    right: &[u32],
    right_start: usize,
    right_len: usize,
) -> u32
    ensures { EditsBeside order 32 (λ x. x) (Or (bits_from right_start right_len)) (bits_from start len) elements.old elements.new right.now result }
{
    bitvec_checked::or(order, elements, start, len, right, right_start, right_len)
}

/// Makes each bit of a window whether it differs from the right one at its index, 0 past the right
/// window's end.
#[unsafe(no_mangle)]
pub extern "C" fn fb_u32_xor(
    order: u32,
    elements: &mut [u32],
    start: usize,
    len: usize,
    right: &[u32],
    right_start: usize,
    right_len: usize,
) -> u32
    ensures { EditsBeside order 32 (λ x. x) (Xor (bits_from right_start right_len)) (bits_from start len) elements.old elements.new right.now result }
{
    bitvec_checked::xor(order, elements, start, len, right, right_start, right_len)
}

/// Clears each bit of a window where the right one at its index, 0 past the right window's end, is 1.
#[unsafe(no_mangle)]
pub extern "C" fn fb_u32_and_not(
    order: u32,
    elements: &mut [u32],
    start: usize,
    len: usize,
    right: &[u32],
    right_start: usize,
    right_len: usize,
) -> u32
    ensures { Joins order 32 (λ x. x) only_first (bits_from start len) (bits_from right_start right_len) elements.old elements.new right.now result }
{
    bitvec_checked::and_not(order, elements, start, len, right, right_start, right_len)
}

/// Exchanges the bits of two windows, which are as long.
#[unsafe(no_mangle)]
pub extern "C" fn fb_u32_swap(
    order: u32,
    elements: &mut [u32],
    start: usize,
    len: usize,
    right: &mut [u32],
    right_start: usize,
    right_len: usize,
) -> u32
    ensures { Swaps order 32 (λ x. x) (bits_from start len) (bits_from right_start right_len) elements.old elements.new right.old right.new result }
{
    bitvec_checked::swap(order, elements, start, len, right, right_start, right_len)
}

/// Whether two windows have the same bits.
#[unsafe(no_mangle)]
pub extern "C" fn fb_u32_equal(
    order: u32,
    elements: &[u32],
    start: usize,
    len: usize,
    right: &[u32],
    right_start: usize,
    right_len: usize,
    answer: &mut bool,
) -> u32
    ensures { AsksBeside order 32 (λ x. x) (Eq (bits_from right_start right_len)) bit_of (bits_from start len) elements.now right.now answer.old answer.new result }
{
    bitvec_checked::equal(
        order,
        elements,
        start,
        len,
        right,
        right_start,
        right_len,
        answer,
    )
}

/// How the bits of two windows compare, as lists of truth values do: -1, 0 or 1.
#[unsafe(no_mangle)]
pub extern "C" fn fb_u32_compare(
    order: u32,
    elements: &[u32],
    start: usize,
    len: usize,
    right: &[u32],
    right_start: usize,
    right_len: usize,
    ordering: &mut i32,
) -> u32
    ensures { AsksBeside order 32 (λ x. x) (Cmp (bits_from right_start right_len)) order_of (bits_from start len) elements.now right.now ordering.old ordering.new result }
{
    bitvec_checked::compare(
        order,
        elements,
        start,
        len,
        right,
        right_start,
        right_len,
        ordering,
    )
}

/// Whether the right bits begin those of a window.
#[unsafe(no_mangle)]
pub extern "C" fn fb_u32_starts_with(
    order: u32,
    elements: &[u32],
    start: usize,
    len: usize,
    right: &[u32],
    right_start: usize,
    right_len: usize,
    answer: &mut bool,
) -> u32
    ensures { AsksBeside order 32 (λ x. x) (StartsWith (bits_from right_start right_len)) bit_of (bits_from start len) elements.now right.now answer.old answer.new result }
{
    bitvec_checked::starts_with(
        order,
        elements,
        start,
        len,
        right,
        right_start,
        right_len,
        answer,
    )
}

/// Whether the right bits end those of a window.
#[unsafe(no_mangle)]
pub extern "C" fn fb_u32_ends_with(
    order: u32,
    elements: &[u32],
    start: usize,
    len: usize,
    right: &[u32],
    right_start: usize,
    right_len: usize,
    answer: &mut bool,
) -> u32
    ensures { AsksBeside order 32 (λ x. x) (EndsWith (bits_from right_start right_len)) bit_of (bits_from start len) elements.now right.now answer.old answer.new result }
{
    bitvec_checked::ends_with(
        order,
        elements,
        start,
        len,
        right,
        right_start,
        right_len,
        answer,
    )
}

/// Whether the right bits stand together somewhere among those of a window.
#[unsafe(no_mangle)]
pub extern "C" fn fb_u32_contains(
    order: u32,
    elements: &[u32],
    start: usize,
    len: usize,
    right: &[u32],
    right_start: usize,
    right_len: usize,
    answer: &mut bool,
) -> u32
    ensures { AsksBeside order 32 (λ x. x) (Contains (bits_from right_start right_len)) bit_of (bits_from start len) elements.now right.now answer.old answer.new result }
{
    bitvec_checked::contains(
        order,
        elements,
        start,
        len,
        right,
        right_start,
        right_len,
        answer,
    )
}

/// How many bits of a window are 1.
#[unsafe(no_mangle)]
pub extern "C" fn fb_u32_count_ones(
    order: u32,
    elements: &[u32],
    start: usize,
    len: usize,
    ones: &mut usize,
) -> u32
    ensures { Asks order 32 (λ x. x) CountOnes count_of (bits_from start len) elements.now ones.old ones.new result }
{
    bitvec_checked::count_ones(order, elements, start, len, ones)
}

/// How many bits of a window are 0.
#[unsafe(no_mangle)]
pub extern "C" fn fb_u32_count_zeros(
    order: u32,
    elements: &[u32],
    start: usize,
    len: usize,
    zeros: &mut usize,
) -> u32
    ensures { Asks order 32 (λ x. x) CountZeros count_of (bits_from start len) elements.now zeros.old zeros.new result }
{
    bitvec_checked::count_zeros(order, elements, start, len, zeros)
}

/// The index of the first bit of a window that is 1.
#[unsafe(no_mangle)]
pub extern "C" fn fb_u32_first_one(
    order: u32,
    elements: &[u32],
    start: usize,
    len: usize,
    index: &mut usize,
) -> u32
    ensures { Seeks order 32 (λ x. x) FirstOne (bits_from start len) elements.now index.old index.new result }
{
    bitvec_checked::first_one(order, elements, start, len, index)
}

/// The index of the first bit of a window that is 0.
#[unsafe(no_mangle)]
pub extern "C" fn fb_u32_first_zero(
    order: u32,
    elements: &[u32],
    start: usize,
    len: usize,
    index: &mut usize,
) -> u32
    ensures { Seeks order 32 (λ x. x) FirstZero (bits_from start len) elements.now index.old index.new result }
{
    bitvec_checked::first_zero(order, elements, start, len, index)
}

/// The index of the last bit of a window that is 1.
#[unsafe(no_mangle)]
pub extern "C" fn fb_u32_last_one(
    order: u32,
    elements: &[u32],
    start: usize,
    len: usize,
    index: &mut usize,
) -> u32
    ensures { Seeks order 32 (λ x. x) LastOne (bits_from start len) elements.now index.old index.new result }
{
    bitvec_checked::last_one(order, elements, start, len, index)
}

/// The index of the last bit of a window that is 0.
#[unsafe(no_mangle)]
pub extern "C" fn fb_u32_last_zero(
    order: u32,
    elements: &[u32],
    start: usize,
    len: usize,
    index: &mut usize,
) -> u32
    ensures { Seeks order 32 (λ x. x) LastZero (bits_from start len) elements.now index.old index.new result }
{
    bitvec_checked::last_zero(order, elements, start, len, index)
}

/// Whether some bit of a window is 1.
#[unsafe(no_mangle)]
pub extern "C" fn fb_u32_any(
    order: u32,
    elements: &[u32],
    start: usize,
    len: usize,
    answer: &mut bool,
) -> u32
    ensures { Asks order 32 (λ x. x) Any bit_of (bits_from start len) elements.now answer.old answer.new result }
{
    bitvec_checked::any(order, elements, start, len, answer)
}

/// Whether each bit of a window is 1.
#[unsafe(no_mangle)]
pub extern "C" fn fb_u32_all(
    order: u32,
    elements: &[u32],
    start: usize,
    len: usize,
    answer: &mut bool,
) -> u32
    ensures { Asks order 32 (λ x. x) All bit_of (bits_from start len) elements.now answer.old answer.new result }
{
    bitvec_checked::all(order, elements, start, len, answer)
}

/// The number of the bits of a window, the first segment lowest.
#[unsafe(no_mangle)]
pub extern "C" fn fb_u32_load_le(
    order: u32,
    elements: &[u32],
    start: usize,
    len: usize,
    number: &mut u64,
) -> u32
    ensures { Loads order 32 (λ x. x) loaded_le (bits_from start len) elements.now number.old number.new result }
{
    bitvec_checked::load_le(order, elements, start, len, number)
}

/// The number of the bits of a window, the first segment highest.
#[unsafe(no_mangle)]
pub extern "C" fn fb_u32_load_be(
    order: u32,
    elements: &[u32],
    start: usize,
    len: usize,
    number: &mut u64,
) -> u32
    ensures { Loads order 32 (λ x. x) loaded_be (bits_from start len) elements.now number.old number.new result }
{
    bitvec_checked::load_be(order, elements, start, len, number)
}

/// Gives the bits of a window a number modulo `2^len`, the first segment lowest.
#[unsafe(no_mangle)]
pub extern "C" fn fb_u32_store_le(
    order: u32,
    elements: &mut [u32],
    start: usize,
    len: usize,
    number: u64,
) -> u32
    ensures { Stores order 32 (λ x. x) stored_le number (bits_from start len) elements.old elements.new result }
{
    bitvec_checked::store_le(order, elements, start, len, number)
}

/// Gives the bits of a window a number modulo `2^len`, the first segment highest.
#[unsafe(no_mangle)]
pub extern "C" fn fb_u32_store_be(
    order: u32,
    elements: &mut [u32],
    start: usize,
    len: usize,
    number: u64,
) -> u32
    ensures { Stores order 32 (λ x. x) stored_be number (bits_from start len) elements.old elements.new result }
{
    bitvec_checked::store_be(order, elements, start, len, number)
}

/// The indices, from `from` on, of the bits of a window that are 1, ascending, as many as there are
/// places for, and how many these are.
#[unsafe(no_mangle)]
pub extern "C" fn fb_u32_ones(
    order: u32,
    elements: &[u32],
    start: usize,
    len: usize,
    from: usize,
    indices: &mut [usize],
    found: &mut usize,
) -> u32
    ensures { Lists order 32 (λ x. x) from (bits_from start len) elements.now indices.old indices.new found.old found.new result }
{
    ones(order, elements, start, len, from, indices, found)
}

/// Makes every so many bits of a window `bit`.
#[unsafe(no_mangle)]
pub extern "C" fn fb_u32_fill_step(
    order: u32,
    elements: &mut [u32],
    start: usize,
    len: usize,
    step: usize,
    bit: bool,
) -> u32
    ensures { FillsEvery order 32 (λ x. x) step bit (bits_from start len) elements.old elements.new result }
{
    bitvec_checked::fill_step(order, elements, start, len, step, bit)
}

/// How many of every so many bits of a window are 1.
#[unsafe(no_mangle)]
pub extern "C" fn fb_u32_count_step(
    order: u32,
    elements: &[u32],
    start: usize,
    len: usize,
    step: usize,
    ones: &mut usize,
) -> u32
    ensures { CountsEvery order 32 (λ x. x) step (bits_from start len) elements.now ones.old ones.new result }
{
    bitvec_checked::count_step(order, elements, start, len, step, ones)
}

/// Copies every so many bits of the right window to every so many places of a window, which are as many.
#[unsafe(no_mangle)]
pub extern "C" fn fb_u32_copy_step(
    order: u32,
    elements: &mut [u32],
    start: usize,
    len: usize,
    right: &[u32],
    right_start: usize,
    right_len: usize,
    step: usize,
    right_step: usize,
) -> u32
    ensures { CopiesEvery order 32 (λ x. x) step (bits_from start len) (bits_from right_start right_len) right_step elements.old elements.new right.now result }
{
    bitvec_checked::copy_step(
        order,
        elements,
        start,
        len,
        right,
        right_start,
        right_len,
        step,
        right_step,
    )
}

/// How many bits of a window are 1, and so are those at their indices in the right window.
#[unsafe(no_mangle)]
pub extern "C" fn fb_u32_count_and(
    order: u32,
    elements: &[u32],
    start: usize,
    len: usize,
    right: &[u32],
    right_start: usize,
    right_len: usize,
    pairs: &mut usize,
) -> u32
    ensures { Tells order 32 (λ x. x) (pairs_where ◌&&◌) (bits_from start len) (bits_from right_start right_len) elements.now right.now pairs.old pairs.new result }
{
    bitvec_checked::count_and(
        order,
        elements,
        start,
        len,
        right,
        right_start,
        right_len,
        pairs,
    )
}

/// How many bits of a window differ from those at their indices in the right window, 0 past its end.
#[unsafe(no_mangle)]
pub extern "C" fn fb_u32_count_xor(
    order: u32,
    elements: &[u32],
    start: usize,
    len: usize,
    right: &[u32],
    right_start: usize,
    right_len: usize,
    pairs: &mut usize,
) -> u32
    ensures { Tells order 32 (λ x. x) (pairs_where differs) (bits_from start len) (bits_from right_start right_len) elements.now right.now pairs.old pairs.new result }
{
    bitvec_checked::count_xor(
        order,
        elements,
        start,
        len,
        right,
        right_start,
        right_len,
        pairs,
    )
}

/// Whether no bit is 1 in a window and at its index in the right window.
#[unsafe(no_mangle)]
pub extern "C" fn fb_u32_disjoint(
    order: u32,
    elements: &[u32],
    start: usize,
    len: usize,
    right: &[u32],
    right_start: usize,
    right_len: usize,
    answer: &mut bool,
) -> u32
    ensures { Tells order 32 (λ x. x) (no_pair_where ◌&&◌) (bits_from start len) (bits_from right_start right_len) elements.now right.now answer.old answer.new result }
{
    bitvec_checked::disjoint(
        order,
        elements,
        start,
        len,
        right,
        right_start,
        right_len,
        answer,
    )
}

/// Whether each bit that is 1 in a window is 1 at its index in the right window.
#[unsafe(no_mangle)]
pub extern "C" fn fb_u32_subset(
    order: u32,
    elements: &[u32],
    start: usize,
    len: usize,
    right: &[u32],
    right_start: usize,
    right_len: usize,
    answer: &mut bool,
) -> u32
    ensures { Tells order 32 (λ x. x) (no_pair_where only_first) (bits_from start len) (bits_from right_start right_len) elements.now right.now answer.old answer.new result }
{
    bitvec_checked::subset(
        order,
        elements,
        start,
        len,
        right,
        right_start,
        right_len,
        answer,
    )
}
