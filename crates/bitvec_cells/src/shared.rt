//! Counted access to a memory that is only read.
ghost use Rattle.std.specs.Prelude.{◌≡◌, ◌+◌, ◌/◌, ◌^◌, ◌<◌, ◌≤◌, length, map, take, drop};
ghost use Rattle.std.specs.Simd.Lanes.{digits_l};
ghost use Rattle.bitvec_cells.specs.Accessors.{shared_numbers, shared_borrow, shared_loads, shared_stores};

use crate::CellsRead;
use crate::counts::Counts;
use bitvec_store::BitStore;

/// The accessor of a shared slice. It is as large as the slice's reference, since its counts take
/// no bytes.
#[derive(Drop)]
pub struct Shared<'a, T> {
    cells: &'a [T],
    counts: Counts,
}

impl<'a, T: BitStore> Shared<'a, T> {
    /// The accessor of this slice, with no load made so far.
    pub fn new(cells: &'a [T]) -> Self
        ensures numbers { shared_numbers T.value result ≡ map T.value cells.now }
        ensures borrow { shared_borrow result ≡ 0 }
        ensures loads { shared_loads result ≡ 0 }
        ensures stores { shared_stores result ≡ 0 }
    {
        Shared {
            cells,
            counts: Counts::new(),
        }
    }
}

impl<'a, T: BitStore> CellsRead for Shared<'a, T> {
    type Elem = T;

    ghost borrow = { shared_borrow };

    ghost numbers = { shared_numbers T.value };

    ghost loads = { shared_loads };

    ghost stores = { shared_stores };

    fn len(&self) -> usize {
        self.cells.len()
    }

    fn load(&mut self, index: usize) -> T {
        self.counts = self.counts.loaded(1);
        let element = self.cells[index];
        element.in_range();
        element
    }

    #[inline(always)]
    fn load_word(&mut self, first: usize) -> u64 {
        self.counts = self.counts.loaded(64 / T::BITS as usize);
        word_of(self.cells, first)
    }
}

/// The number of a slice's elements from an index on, as [`CellsRead::load_word`] gives it. Condition: the slice has
/// as many there.
#[inline(always)]
pub(crate) fn word_of<T: BitStore>(elements: &[T], first: usize) -> u64
    requires { first + 64 / T.BITS ≤ length elements.now }
    ensures digits { take (64 / T.BITS) (drop first (map T.value elements.now)) ≡ digits_l (2 ^ T.BITS) (64 / T.BITS) result }
    ensures wide { 64 < T.BITS → result ≡ 0 }
{
    T::load_word(&elements[first..])
}
