//! Each operation once, and each status, on windows of three bytes from bit 3 on.
use bitvec_checked::{
    DONE, LSB0, MSB0, NONE, ORDER, all, and, any, compare, contains, copy, copy_step, copy_within,
    count_and, count_ones, count_step, count_xor, count_zeros, disjoint, ends_with, equal, fill,
    fill_step, first_one, first_zero, get, invert, last_one, last_zero, load_be, load_le, or,
    replace, reverse, rotate_left, rotate_right, set, shift_end, shift_start, starts_with,
    store_be, store_le, subset, swap, swap_bits, xor,
};
use bitvec_store::BitStore;

/// Edits a window by one call each, and gives the statuses and the old bit that the first one replaces.
fn edit<T: BitStore>(elements: &mut [T]) -> ([u32; 10], bool) {
    let mut old = false;
    let statuses = [
        replace(MSB0, elements, 3, 18, 0, true, &mut old),
        set(MSB0, elements, 3, 18, 0, true),
        swap_bits(MSB0, elements, 3, 18, 1, 17),
        invert(MSB0, elements, 3, 18),
        reverse(MSB0, elements, 3, 18),
        shift_start(MSB0, elements, 3, 18, 2),
        shift_end(MSB0, elements, 3, 18, 3),
        rotate_left(MSB0, elements, 3, 18, 5),
        rotate_right(MSB0, elements, 3, 18, 1),
        copy_within(MSB0, elements, 3, 18, 0, 4, 6),
    ];
    (statuses, old)
}

#[test]
fn edits_write_their_window(rt: HostRuntime) {
    let mut bytes = [0x12u8, 0x34, 0x56];
    assert!(rt; (edit(&mut bytes), bytes) == (([DONE; 10], true), [0x0E, 0xBD, 0x8E]));
    assert!(rt; (fill(LSB0, &mut bytes, 3, 18, true), bytes) == (DONE, [0xFE, 0xFF, 0x9F]));
}

/// Edits a window by another, by one call each.
fn edit_by<T: BitStore>(elements: &mut [T], right: &mut [T]) -> [u32; 5] {
    [
        xor(MSB0, elements, 3, 18, right, 1, 18),
        or(MSB0, elements, 3, 18, right, 2, 9),
        and(MSB0, elements, 3, 18, right, 0, 12),
        swap(MSB0, elements, 3, 18, right, 1, 18),
        copy(MSB0, elements, 3, 17, right, 1, 17),
    ]
}

#[test]
fn right_bits_are_taken(rt: HostRuntime) {
    let mut bytes = [0x12u8, 0x34, 0x56];
    let mut right = [0xF0u8, 0x0F, 0xAA];
    assert!(rt; edit_by(&mut bytes, &mut right) == [DONE; 5]);
    assert!(rt; [bytes, right] == [[0x1E, 0x00, 0x0E], [0xF8, 0x00, 0x0A]]);
}

/// Compares two windows by one call each: the statuses, whether they are equal, how they are ordered, and whether the one
/// contains the other, begins with it and ends with it.
fn compare_by<T: BitStore>(elements: &[T], right: &[T]) -> ([u32; 5], bool, i32, [bool; 3]) {
    let (mut same, mut inside, mut first, mut last) = (true, false, true, false);
    let mut ordering = 7;
    let statuses = [
        equal(MSB0, elements, 3, 18, right, 1, 18, &mut same),
        compare(MSB0, elements, 3, 18, right, 5, 3, &mut ordering),
        contains(MSB0, elements, 3, 18, right, 0, 4, &mut inside),
        starts_with(MSB0, elements, 3, 18, right, 0, 4, &mut first),
        ends_with(MSB0, elements, 3, 18, right, 20, 1, &mut last),
    ];
    (statuses, same, ordering, [inside, first, last])
}

#[test]
fn two_windows_are_compared(rt: HostRuntime) {
    let answers = compare_by(&[0x1Cu8, 0x03, 0xEE], &[0xF8u8, 0x00, 0x0A]);
    assert!(rt; answers == ([DONE; 5], false, 1, [true, false, true]));
}

/// Counts by one call each: the statuses, how many bits are 1 in both windows, differ, and are 1 of every fifth, and whether
/// none is 1 in both, and each that is 1 is so in the other, and in its own window.
fn count_by<T: BitStore>(elements: &[T], right: &[T]) -> ([u32; 6], [usize; 3], [bool; 3]) {
    let (mut both, mut differing, mut of_step) = (0, 0, 0);
    let (mut apart, mut inside, mut own) = (true, true, false);
    let statuses = [
        count_and(MSB0, elements, 3, 18, right, 1, 18, &mut both),
        count_xor(MSB0, elements, 3, 18, right, 1, 18, &mut differing),
        count_step(MSB0, elements, 3, 18, 5, &mut of_step),
        disjoint(MSB0, elements, 3, 18, right, 1, 18, &mut apart),
        subset(MSB0, elements, 3, 18, right, 1, 18, &mut inside),
        subset(MSB0, elements, 3, 18, elements, 3, 18, &mut own),
    ];
    (statuses, [both, differing, of_step], [apart, inside, own])
}

/// Sets every fourth bit of a window, and copies every fourth of the right one to every sixth.
fn edit_steps<T: BitStore>(elements: &mut [T], right: &[T]) -> [u32; 2] {
    [
        fill_step(MSB0, elements, 3, 18, 4, true),
        copy_step(MSB0, elements, 3, 18, right, 1, 12, 6, 4),
    ]
}

#[test]
fn bits_of_steps_and_of_pairs(rt: HostRuntime) {
    let counted = count_by(&[0x1Cu8, 0x03, 0xEE], &[0xF8u8, 0x00, 0x0A]);
    assert!(rt; counted == ([DONE; 6], [3, 7, 2], [false, false, true]));
    let mut bytes = [0x12u8, 0x34, 0x56];
    assert!(rt;
        (edit_steps(&mut bytes, &[0xF0, 0x0F, 0xAA]), bytes) == ([DONE; 2], [0x13, 0x34, 0x56])
    );
}

/// Copies so many bits from bit 7 on to bit 3 on, and says whether they are equal then.
fn copy_shifted<T: BitStore>(
    order: u32,
    elements: &mut [T],
    right: &[T],
    len: usize,
) -> ([u32; 2], bool) {
    let mut same = false;
    let statuses = [
        copy(order, elements, 3, len, right, 7, len),
        equal(order, elements, 3, len, right, 7, len, &mut same),
    ];
    (statuses, same)
}

#[test]
fn few_wide_elements_are_shifted(rt: HostRuntime) {
    let mut words = [0u32; 3];
    let copied = copy_shifted(
        LSB0,
        &mut words,
        &[0x89AB_CDEF, 0x0123_4567, 0x7654_3210],
        70,
    );
    assert!(rt; (copied, words) == (([DONE; 2], true), [0x789A_BCD8, 0x0012_3456, 0x121]));
    let mut words = [0u64; 2];
    let copied = copy_shifted(
        MSB0,
        &mut words,
        &[0x0123_4567_89AB_CDEF, 0xFEDC_BA98_7654_3210],
        100,
    );
    assert!(rt;
        (copied, words)
            == (
                ([DONE; 2], true),
                [0x1234_5678_9ABC_DEFF, 0xEDCB_A987_6400_0000]
            )
    );
}

/// The statuses of questions, a bit, whether any is 1 and all are, and how many are 1 and 0.
fn ask<T: BitStore>(elements: &[T]) -> ([u32; 5], [bool; 3], [usize; 2]) {
    let (mut bit, mut some, mut every) = (false, false, true);
    let (mut ones, mut zeros) = (0, 0);
    let statuses = [
        get(MSB0, elements, 3, 18, 1, &mut bit),
        any(MSB0, elements, 3, 18, &mut some),
        all(MSB0, elements, 3, 18, &mut every),
        count_ones(MSB0, elements, 3, 18, &mut ones),
        count_zeros(MSB0, elements, 3, 18, &mut zeros),
    ];
    (statuses, [bit, some, every], [ones, zeros])
}

/// The statuses of searches, the places of the first one and zero and of the last ones, and what stays where there is no one.
fn seek<T: BitStore>(elements: &[T]) -> ([u32; 5], [usize; 5]) {
    let (mut one, mut zero, mut other_one, mut other_zero) = (99, 99, 99, 99);
    let mut none = 16;
    let statuses = [
        first_one(MSB0, elements, 3, 18, &mut one),
        first_zero(MSB0, elements, 3, 18, &mut zero),
        last_one(MSB0, elements, 3, 18, &mut other_one),
        last_zero(MSB0, elements, 3, 18, &mut other_zero),
        first_one(MSB0, elements, 0, 4, &mut none),
    ];
    (statuses, [one, zero, other_one, other_zero, none])
}

#[test]
fn questions_are_answered_and_bits_are_found(rt: HostRuntime) {
    let bytes = [0x0Eu8, 0xBD, 0x8E];
    assert!(rt; ask(&bytes) == ([DONE; 5], [true, true, false], [11, 7]));
    assert!(rt; seek(&bytes) == ([DONE, DONE, DONE, DONE, NONE], [1, 0, 17, 16, 16]));
}

/// The statuses of loads and stores, and the number that is loaded from either end and stored by the other then.
fn load_and_store<T: BitStore>(elements: &mut [T]) -> ([u32; 4], [u64; 2]) {
    let (mut low_first, mut high_first) = (0, 0);
    let statuses = [
        load_le(MSB0, elements, 3, 18, &mut low_first),
        load_be(MSB0, elements, 3, 18, &mut high_first),
        store_le(MSB0, elements, 3, 18, high_first),
        store_be(MSB0, elements, 3, 18, high_first),
    ];
    (statuses, [low_first, high_first])
}

#[test]
fn numbers_are_loaded_and_stored(rt: HostRuntime) {
    let mut bytes = [0x1Cu8, 0x03, 0xEE];
    assert!(rt; load_and_store(&mut bytes) == ([DONE; 4], [0x3A07C, 0x3807D]));
    assert!(rt; bytes == [0x1C, 0x03, 0xEE]);
}

/// The statuses of calls that are refused.
fn break_conditions<T: BitStore>(elements: &mut [T], right: &[T]) -> [u32; 10] {
    [
        fill(MSB0, elements, 3, 22, true),
        fill(MSB0, elements, usize::MAX, 2, true),
        set(MSB0, elements, 3, 18, 18, true),
        rotate_left(MSB0, elements, 3, 18, 19),
        copy_within(MSB0, elements, 3, 18, 4, 3, 0),
        copy_within(MSB0, elements, 3, 18, 0, 9, 10),
        copy(MSB0, elements, 3, 18, right, 1, 18),
        copy(MSB0, elements, 3, 18, right, 1, 7),
        store_le(MSB0, elements, 3, 0, 1),
        fill(2, elements, 3, 18, true),
    ]
}

#[test]
fn refusals_are_told(rt: HostRuntime) {
    let mut bytes = [0x12u8, 0x34, 0x56];
    let statuses = break_conditions(&mut bytes, &[0xF0]);
    assert!(rt; statuses == [1, 1, 2, 3, 4, 5, 6, 7, 8, ORDER]);
    assert!(rt; bytes == [0x12, 0x34, 0x56]);
}
