//! A map of pages.
ghost use Rattle.std.specs.Prelude.{◌≡◌, ◌<◌, IfNone, IfSome, count_by, false, replicate, slice_set, true};
ghost use Rattle.bitvec.specs.Arrays.{lsb0_bits};
ghost use Rattle.bitvec.specs.Lists.{first_place};
ghost use Rattle.pages.specs.Pages.{leaf_of};

use bitvec::in_place;
use bitvec::prelude::*;
use std::marker::Model;

/// How many pages a leaf has.
const SIZE: usize = 64;

/// How many pages there are.
pub const PAGES: usize = 4096;

/// Which of 4096 pages are taken, and which of their 64 leaves are full. Contracts see the list of the pages, a bit each.
#[derive(Drop)]
pub struct PageMap {
    leaves: [u64; 64],
    summary: [u64; 1],
}

impl Model for PageMap {
    ghost use Rattle.std.specs.Prelude.{Bool, List};
    ghost use Rattle.bitvec.specs.Arrays.{lsb0_bits};
    ghost use Rattle.pages.specs.Pages.{IsSummed};

    ghost Value = { List Bool };

    ghost view = { λ map. lsb0_bits 64 map.leaves };

    ghost invariant = { λ map. IsSummed (lsb0_bits 64 map.leaves) (lsb0_bits 64 map.summary) };
}

/// The first leaf whose bit in the summary is 0.
#[tactic(auto, using(bitvec::specs::Laws::found))]
fn first_open(summary: &[u64; 1]) -> Option<usize>
    ensures first { result ≡ first_place false (lsb0_bits 64 summary.now) }
    ensures below { IfSome result (λ leaf. leaf < 64) }
{
    BitSlice::<u64, Lsb0>::from_slice(summary).first_zero()
}

/// The first page of a leaf that is free, counted from the leaf's first.
#[tactic(auto, using(bitvec::specs::Laws::found, bitvec::specs::Laws::bitwise))]
fn first_free(leaves: &[u64; 64], leaf: usize) -> Option<usize>
    requires { leaf < 64 }
    ensures first { result ≡ first_place false (leaf_of (lsb0_bits 64 leaves.now) leaf) }
    ensures below { IfSome result (λ place. place < 64) }
{
    in_place::first_zero::<u64, Lsb0>(leaves, SIZE * leaf..SIZE * leaf + SIZE)
}

impl PageMap {
    /// A map whose pages are all free.
    #[tactic(auto, using(bitvec::specs::Laws::zeroed))]
    pub fn new() -> Self
        ensures { result ≡ replicate 4096 false }
    {
        PageMap {
            leaves: [0; 64],
            summary: [0],
        }
    }

    /// How many pages are taken.
    pub fn taken(&self) -> usize
        ensures { result ≡ count_by (λ bit. bit) self.now }
    {
        BitSlice::<u64, Lsb0>::from_slice(&self.leaves).count_ones()
    }

    /// Takes the first page that is free, and gives its number. None, if all are taken.
    #[tactic(auto, using(bitvec::specs::Laws::bitwise, crate::proofs::PageLaws::summing))]
    pub fn take(&mut self) -> Option<usize>
        ensures first { result ≡ first_place false self.old }
        ensures taken { IfSome result (λ page. self.new ≡ slice_set self.old page true) }
        ensures full { IfNone result (self.new ≡ self.old) }
    {
        let leaf = first_open(&self.summary)?;
        let place = first_free(&self.leaves, leaf)?;
        let page = SIZE * leaf + place;
        in_place::set::<u64, Lsb0>(&mut self.leaves, page, true);
        let full = in_place::all::<u64, Lsb0>(&self.leaves, SIZE * leaf..SIZE * leaf + SIZE);
        in_place::set::<u64, Lsb0>(&mut self.summary, leaf, full);
        Some(page)
    }

    /// Gives a page back. Condition: there is such a page.
    #[tactic(auto, using(bitvec::specs::Laws::bitwise, crate::proofs::PageLaws::summing))]
    pub fn free(&mut self, page: usize)
        requires { page < 4096 }
        ensures { self.new ≡ slice_set self.old page false }
    {
        in_place::set::<u64, Lsb0>(&mut self.leaves, page, false);
        in_place::set::<u64, Lsb0>(&mut self.summary, page / SIZE, false);
    }
}
