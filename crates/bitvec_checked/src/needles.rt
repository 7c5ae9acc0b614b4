//! Whether the bits of one window stand in those of another.
ghost use Rattle.std.specs.Prelude.{◌≡◌, map};
ghost use Rattle.bitvec_base.specs.Lists.{is_prefix, is_suffix, stands_in};
ghost use Rattle.bitvec_base.specs.Memory.{HasWindow, list_in};
ghost use Rattle.bitvec_commands.specs.declared.command.Op.TheVariants.{Contains, EndsWith, StartsWith};
ghost use Rattle.bitvec_checked.specs.Calls.{AsksBeside};
ghost use Rattle.bitvec_checked.specs.Replies.{bit_of};
ghost use Rattle.bitvec_checked.specs.Statuses.{bits_from};

use crate::status::windows_status;
use bitvec_base::Window;
use bitvec_cells::Shared;
use bitvec_engine::SliceOrder;
use bitvec_store::BitStore;

/// Whether the bits of the right window begin those of a window.
pub fn starts_with<T: BitStore>(
    order: u32,
    elements: &[T],
    start: usize,
    len: usize,
    right: &[T],
    right_start: usize,
    right_len: usize,
    answer: &mut bool,
) -> u32
    ensures { AsksBeside order T.BITS T.value (StartsWith (bits_from right_start right_len)) bit_of (bits_from start len) elements.now right.now answer.old answer.new result }
{
    tested_beside!(
        windows_status,
        *answer,
        order,
        elements[start, len],
        right[right_start, right_len],
        starts_with_in::<T>
    )
}

fn starts_with_in<T: BitStore, O: SliceOrder>(
    elements: &[T],
    window: Window,
    right: &[T],
    right_window: Window,
) -> bool
    requires window { HasWindow T.BITS (map T.value elements.now) window }
    requires right_window { HasWindow T.BITS (map T.value right.now) right_window }
    ensures { result ≡ is_prefix (list_in T.BITS O.at (map T.value right.now) right_window) (list_in T.BITS O.at (map T.value elements.now) window) }
{
    let mut cells = Shared::new(elements);
    let mut beside = Shared::new(right);
    bitvec_engine::starts_with::<O, Shared<T>, Shared<T>>(
        &mut cells,
        window,
        &mut beside,
        right_window,
    )
}

/// Whether the bits of the right window end those of a window.
pub fn ends_with<T: BitStore>(
    order: u32,
    elements: &[T],
    start: usize,
    len: usize,
    right: &[T],
    right_start: usize,
    right_len: usize,
    answer: &mut bool,
) -> u32
    ensures { AsksBeside order T.BITS T.value (EndsWith (bits_from right_start right_len)) bit_of (bits_from start len) elements.now right.now answer.old answer.new result }
{
    tested_beside!(
        windows_status,
        *answer,
        order,
        elements[start, len],
        right[right_start, right_len],
        ends_with_in::<T>
    )
}

fn ends_with_in<T: BitStore, O: SliceOrder>(
    elements: &[T],
    window: Window,
    right: &[T],
    right_window: Window,
) -> bool
    requires window { HasWindow T.BITS (map T.value elements.now) window }
    requires right_window { HasWindow T.BITS (map T.value right.now) right_window }
    ensures { result ≡ is_suffix (list_in T.BITS O.at (map T.value right.now) right_window) (list_in T.BITS O.at (map T.value elements.now) window) }
{
    let mut cells = Shared::new(elements);
    let mut beside = Shared::new(right);
    bitvec_engine::ends_with::<O, Shared<T>, Shared<T>>(
        &mut cells,
        window,
        &mut beside,
        right_window,
    )
}

/// Whether the bits of the right window stand together somewhere among those of a window.
pub fn contains<T: BitStore>(
    order: u32,
    elements: &[T],
    start: usize,
    len: usize,
    right: &[T],
    right_start: usize,
    right_len: usize,
    answer: &mut bool,
) -> u32
    ensures { AsksBeside order T.BITS T.value (Contains (bits_from right_start right_len)) bit_of (bits_from start len) elements.now right.now answer.old answer.new result }
{
    tested_beside!(
        windows_status,
        *answer,
        order,
        elements[start, len],
        right[right_start, right_len],
        contains_in::<T>
    )
}

fn contains_in<T: BitStore, O: SliceOrder>(
    elements: &[T],
    window: Window,
    right: &[T],
    right_window: Window,
) -> bool
    requires window { HasWindow T.BITS (map T.value elements.now) window }
    requires right_window { HasWindow T.BITS (map T.value right.now) right_window }
    ensures { result ≡ stands_in (list_in T.BITS O.at (map T.value right.now) right_window) (list_in T.BITS O.at (map T.value elements.now) window) }
{
    bitvec_within::contains_in::<T, O, T, O>(elements, window, right, right_window)
}
