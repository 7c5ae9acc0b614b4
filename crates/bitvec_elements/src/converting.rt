//! The bits of two windows of elements of one width, compared, copied and combined as elements of one type.
ghost use Rattle.std.specs.Prelude.{◌≡◌, map};
ghost use Rattle.bitvec_base.specs.Lists.{combined, same_bits};
ghost use Rattle.bitvec_base.specs.Memory.{HasWindow, Writes, list_in};
ghost use Rattle.bitvec_words.specs.Operator.{operator};

use bitvec_base::Window;
use bitvec_cells::{CellsRead, Exclusive, Shared};
use bitvec_engine::SliceOrder;
use bitvec_store::BitStore;
use bitvec_words::BitOp;
use std::marker::PhantomData;

/// An accessor that reads the elements of a slice as those of another type with as many bits. Where
/// the two types are the same, the machine code has no conversion, and it reads as [`Shared`] does.
#[derive(Drop)]
pub(crate) struct Converted<'a, T: BitStore, U: BitStore> {
    cells: Shared<'a, U>,
    read_as: PhantomData<T>,
    ghost same_width: { T.BITS ≡ U.BITS },
}

impl<'a, T: BitStore, U: BitStore> Converted<'a, T, U> {
    ghost use Rattle.bitvec_cells.specs.Accessors.{shared_numbers};
    ghost use Rattle.bitvec_elements.specs.Converting.{unconverted};

    /// The accessor of this slice. Condition: the elements of both types have as many bits.
    fn new(elements: &'a [U]) -> Self
        requires { T.BITS ≡ U.BITS }
        ensures { shared_numbers U.value (unconverted result) ≡ map U.value elements.now }
    {
        Converted {
            cells: Shared::new(elements),
            read_as: PhantomData,
        }
    }
}

impl<'a, T: BitStore, U: BitStore> CellsRead for Converted<'a, T, U> {
    ghost use Rattle.bitvec_cells.specs.Accessors.{shared_borrow, shared_loads, shared_numbers, shared_stores};
    ghost use Rattle.bitvec_elements.specs.Converting.{unconverted};

    type Elem = T;

    ghost borrow = { λ it. shared_borrow (unconverted it) };

    ghost numbers = { λ it. shared_numbers U.value (unconverted it) };

    ghost loads = { λ it. shared_loads (unconverted it) };

    ghost stores = { λ it. shared_stores (unconverted it) };

    fn len(&self) -> usize {
        self.cells.len()
    }

    fn load(&mut self, index: usize) -> T {
        let element = self.cells.load(index);
        T::from_u128(element.to_u128())
    }
}

/// Whether two windows of elements of two types of one width have the same bits, as the order compares
/// them. Condition: each memory has at most `MAX_BITS` bits, and each window lies in its memory.
pub(crate) fn eq_converted<O: SliceOrder, T: BitStore, U: BitStore>(
    left: &[T],
    left_window: Window,
    right: &[U],
    right_window: Window,
) -> bool
    requires width { T.BITS ≡ U.BITS }
    requires window { HasWindow T.BITS (map T.value left.now) left_window }
    requires right_window { HasWindow T.BITS (map U.value right.now) right_window }
    ensures { result ≡ same_bits (list_in T.BITS O.at (map T.value left.now) left_window)
        (list_in T.BITS O.at (map U.value right.now) right_window) }
{
    let mut left = Shared::new(left);
    let mut right = Converted::<T, U>::new(right);
    O::block_eq::<Shared<T>, Converted<T, U>>(&mut left, left_window, &mut right, right_window)
}

/// Copies the bits of the right window, whose elements have another type of one width, to the left one, as the order
/// copies them. Condition: each memory has at most `MAX_BITS` bits, each window lies in its memory, and both are equally
/// long.
pub(crate) fn copy_converted<O: SliceOrder, T: BitStore, U: BitStore>(
    left: &mut [T],
    to: Window,
    right: &[U],
    from: Window,
)
    requires width { T.BITS ≡ U.BITS }
    requires window { HasWindow T.BITS (map T.value left.old) to }
    requires right_window { HasWindow T.BITS (map U.value right.now) from }
    requires lengths { to.len ≡ from.len }
    ensures writes { Writes T.BITS O.at (map T.value left.old) (map T.value left.new) to
        (list_in T.BITS O.at (map U.value right.now) from) }
{
    let mut left = Exclusive::new(left);
    let mut right = Converted::<T, U>::new(right);
    O::block_copy::<Exclusive<T>, Converted<T, U>>(&mut left, to, &mut right, from);
}

/// Replaces each bit of the left window by what the operator makes of it and the bit at its index in the right window,
/// whose elements have another type of one width, as the order does it. Condition: as for [`eq_converted`].
pub(crate) fn combine_converted<O: SliceOrder, T: BitStore, U: BitStore>(
    left: &mut [T],
    to: Window,
    right: &[U],
    from: Window,
    op: BitOp,
)
    requires width { T.BITS ≡ U.BITS }
    requires window { HasWindow T.BITS (map T.value left.old) to }
    requires right_window { HasWindow T.BITS (map U.value right.now) from }
    ensures writes { Writes T.BITS O.at (map T.value left.old) (map T.value left.new) to
        (combined (operator op) (list_in T.BITS O.at (map T.value left.old) to)
        (list_in T.BITS O.at (map U.value right.now) from)) }
{
    let mut left = Exclusive::new(left);
    let mut right = Converted::<T, U>::new(right);
    O::block_op::<Exclusive<T>, Converted<T, U>>(&mut left, to, &mut right, from, op);
}
