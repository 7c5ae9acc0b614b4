//! Counted access to the elements of a memory: the only way in which bit work reaches one.
ghost use Rattle.std.specs.Prelude.{◌≡◌, ℕ, ◌+◌, ◌*◌, ◌/◌, ◌^◌, ◌<◌, ◌≤◌, ◌↔◌, List, length, take, drop, slice_index, slice_set, IsTrue};
ghost use Rattle.std.specs.Simd.Lanes.{digits_l};
ghost use Rattle.bitvec_base.specs.Memory.{FitsMaxBits, HasWindow};
ghost use Rattle.bitvec_base.specs.Window.{write_at};

use bitvec_base::{MAX_BITS, Window, elements_of};
use bitvec_store::BitStore;

/// A memory that can be read, an element at a time.
///
/// Contracts see an accessor as four values: the borrow that it stands for, by its name among
/// borrows (0 where nothing is borrowed for writing), the list of its elements' numbers, and how
/// many loads and stores were made so far.
pub trait CellsRead {
    /// The type of an element.
    type Elem: BitStore;

    ghost borrow: { Self → ℕ };

    ghost numbers: { Self → List ℕ };

    ghost loads: { Self → ℕ };

    ghost stores: { Self → ℕ };

    /// How many elements there are.
    fn len(&self) -> usize
        ensures { result ≡ length (numbers self.now) };

    /// The element at an index, which counts as one load. Condition: the index is below `len`.
    fn load(&mut self, index: usize) -> Self::Elem
        requires { index < length (numbers self.old) }
        ensures value { Self.Elem.value result ≡ slice_index (numbers self.old) index }
        ensures in_range { Self.Elem.value result < 2 ^ Self.Elem.BITS }
        ensures numbers { numbers self.new ≡ numbers self.old }
        ensures borrow { borrow self.new ≡ borrow self.old }
        ensures loads { loads self.new ≡ loads self.old + 1 }
        ensures stores { stores self.new ≡ stores self.old };

    /// The number of the elements from an index on, as many as 64 bits hold: the first one is its least significant
    /// digit. It is 0 if they are wider. It counts as a load of each. Condition: the memory has as many there.
    fn load_word(&mut self, first: usize) -> u64
        requires { first + 64 / Self.Elem.BITS ≤ length (numbers self.old) }
        ensures digits { take (64 / Self.Elem.BITS) (drop first (numbers self.old))
            ≡ digits_l (2 ^ Self.Elem.BITS) (64 / Self.Elem.BITS) result }
        ensures wide { 64 < Self.Elem.BITS → result ≡ 0 }
        ensures numbers { numbers self.new ≡ numbers self.old }
        ensures borrow { borrow self.new ≡ borrow self.old }
        ensures loads { loads self.new ≡ loads self.old + 64 / Self.Elem.BITS }
        ensures stores { stores self.new ≡ stores self.old }
    {
        let _bounds_indices = self.len();
        let mut word = 0;
        for step in 0..elements_of::<Self::Elem>(64) {
            let element = self.load(first + step).to_u128() as u64;
            word += element << bits_before::<Self::Elem>(step);
        }
        word
    }
}

/// A memory that can be written too, an element at a time.
pub trait Cells: CellsRead {
    /// Replaces the element at an index, which counts as one store; all others stay. Condition:
    /// the index is below `len`.
    fn store(&mut self, index: usize, element: Self::Elem)
        requires { index < length (Self.numbers self.old) }
        ensures numbers { Self.numbers self.new
            ≡ slice_set (Self.numbers self.old) index (Self.Elem.value element) }
        ensures borrow { Self.borrow self.new ≡ Self.borrow self.old }
        ensures loads { Self.loads self.new ≡ Self.loads self.old }
        ensures stores { Self.stores self.new ≡ Self.stores self.old + 1 };

    /// Makes the digits of a number the elements from an index on, as many as 64 bits hold: the least significant one
    /// the first. All others stay. It counts as a store of each. Condition: the memory has as many there.
    fn store_word(&mut self, first: usize, word: u64)
        requires { first + 64 / Self.Elem.BITS ≤ length (Self.numbers self.old) }
        ensures numbers { Self.numbers self.new
            ≡ write_at (Self.numbers self.old) first (digits_l (2 ^ Self.Elem.BITS) (64 / Self.Elem.BITS) word) }
        ensures borrow { Self.borrow self.new ≡ Self.borrow self.old }
        ensures loads { Self.loads self.new ≡ Self.loads self.old }
        ensures stores { Self.stores self.new ≡ Self.stores self.old + 64 / Self.Elem.BITS }
    {
        let _bounds_indices = self.len();
        for step in 0..elements_of::<Self::Elem>(64) {
            let shifted = word >> bits_before::<Self::Elem>(step);
            let digit = (shifted as u128) & Self::Elem::ALL.to_u128();
            self.store(first + step, Self::Elem::from_u128(digit));
        }
    }
}

/// How many bits of a word are lower than those of an element with `count` others before it. Condition: a word holds
/// more elements than those.
#[inline(always)]
fn bits_before<T: BitStore>(count: usize) -> u32
    requires { count < 64 / T.BITS }
    ensures value { result ≡ count * T.BITS }
    ensures bound { result < 64 }
{
    count as u32 * T::BITS
}

/// Whether a memory has at most `MAX_BITS` bits.
pub fn fits_max_bits<C: CellsRead>(cells: &C) -> bool
    ensures { IsTrue result ↔ FitsMaxBits C.Elem.BITS (C.numbers cells.now) }
{
    cells.len() <= MAX_BITS / C::Elem::BITS as usize
}

/// Whether a memory has at most `MAX_BITS` bits and the window lies in it.
pub fn has_window<C: CellsRead>(cells: &C, window: Window) -> bool
    ensures { IsTrue result ↔ HasWindow C.Elem.BITS (C.numbers cells.now) window }
{
    fits_max_bits(cells) && window.lies_in(cells.len() * C::Elem::BITS as usize)
}
