//! Counted access to a memory that is written too.
ghost use Rattle.std.specs.Prelude.{◌≡◌, ◌+◌, ◌/◌, ◌^◌, ◌<◌, ◌≤◌, length, map, take, drop};
ghost use Rattle.std.specs.Simd.Lanes.{digits_l};
ghost use Rattle.bitvec_cells.specs.Accessors.{exclusive_numbers, exclusive_borrow, exclusive_loads, exclusive_stores};

use crate::counts::Counts;
use crate::shared::word_of;
use crate::{Cells, CellsRead};
use bitvec_base::elements_of;
use bitvec_store::BitStore;

/// The accessor of an exclusive slice, which holds the accessor's list once it ends. It is as
/// large as the slice's reference, since its counts take no bytes.
#[derive(Drop)]
pub struct Exclusive<'a, T> {
    cells: &'a mut [T],
    counts: Counts,
}

impl<'a, T: BitStore> Exclusive<'a, T> {
    /// The accessor of this slice, with no load and no store made so far.
    pub fn new(cells: &'a mut [T]) -> Self
        ensures numbers { exclusive_numbers T.value result ≡ map T.value cells.old }
        ensures borrow { exclusive_borrow result ≡ cells.entry.ghost_name }
        ensures loads { exclusive_loads result ≡ 0 }
        ensures stores { exclusive_stores result ≡ 0 }
    {
        Exclusive {
            cells,
            counts: Counts::new(),
        }
    }

    // The number of the elements from an index on: what a `&mut` lends is known only behind a `&`.
    #[inline(always)]
    fn word_at(&self, first: usize) -> u64
        requires { first + 64 / T.BITS ≤ length (exclusive_numbers T.value self.now) }
        ensures digits { take (64 / T.BITS) (drop first (exclusive_numbers T.value self.now)) ≡ digits_l (2 ^ T.BITS) (64 / T.BITS) result }
        ensures wide { 64 < T.BITS → result ≡ 0 }
    {
        word_of(self.cells, first)
    }
}

impl<'a, T: BitStore> CellsRead for Exclusive<'a, T> {
    type Elem = T;

    ghost borrow = { exclusive_borrow };

    ghost numbers = { exclusive_numbers T.value };

    ghost loads = { exclusive_loads };

    ghost stores = { exclusive_stores };

    fn len(&self) -> usize {
        self.cells.len()
    }

    fn load(&mut self, index: usize) -> T {
        self.counts = self.counts.loaded(1);
        let element = self.cells[index];
        element.in_range();
        element
    }

    #[inline(always)]
    fn load_word(&mut self, first: usize) -> u64 {
        self.counts = self.counts.loaded(64 / T::BITS as usize);
        self.word_at(first)
    }
}

impl<'a, T: BitStore> Cells for Exclusive<'a, T> {
    fn store(&mut self, index: usize, element: T) {
        self.counts = self.counts.stored(1);
        self.cells[index] = element;
    }

    #[inline(always)]
    fn store_word(&mut self, first: usize, word: u64) {
        let count = elements_of::<T>(64);
        self.counts = self.counts.stored(count);
        T::store_word(&mut self.cells[first..first + count], word);
    }
}
