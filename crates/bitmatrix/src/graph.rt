//! Which of sixteen places lead to which, in four words of a struct's own.
ghost use Rattle.std.specs.Prelude.{◌≡◌, ◌+◌, ◌*◌, ◌<◌, IfSome, OnOk, false, replicate, slice_set, true};
ghost use Rattle.std.specs.Io.KnownBytes.{Appends};
ghost use Rattle.bitvec.specs.Arrays.{lsb0_bits};
ghost use Rattle.bitmatrix.specs.Matrix.{Closes, entry};
ghost use Rattle.bitmatrix.specs.Texts.{rows_text};

use crate::matrix::closure;
use crate::print::print_rows;
use bitvec::in_place;
use bitvec::prelude::*;
use std::io::{self, Write};

/// Sixteen places, and which lead to which.
#[derive(Drop)]
pub struct Graph {
    pub words: [u64; 4],
}

impl Graph {
    /// No place leads to another.
    #[tactic(auto, using(bitvec::specs::Laws::zeroed))]
    pub fn new() -> Self
        ensures { lsb0_bits 64 result.words ≡ replicate 256 false }
    {
        Graph { words: [0; 4] }
    }

    /// Place `i` leads to place `j` from now on; all else is as before.
    pub fn connect(&mut self, i: usize, j: usize)
        requires row { i < 16 }
        requires column { j < 16 }
        ensures { lsb0_bits 64 self.new.words ≡ slice_set (lsb0_bits 64 self.old.words) (i * 16 + j) true }
    {
        in_place::set::<u64, Lsb0>(&mut self.words, i * 16 + j, true);
    }

    /// Makes each place lead to exactly those that a path from it led to.
    pub fn close(&mut self)
        ensures { Closes 16 (lsb0_bits 64 self.old.words) (lsb0_bits 64 self.new.words) }
    {
        let _words = EditElements::<u64, Lsb0>::edit_elements(
            &mut self.words[..],
            |view| closure(view, 16),
        );
    }

    /// Prints a row of 0 and 1 for each place: 1 where it leads.
    pub fn print<W: Write>(&self, output: &mut W) -> io::Result<()>
        ensures { OnOk result (Appends (W.contents output.old) (W.contents output.new) (rows_text 16 (lsb0_bits 64 self.now.words))) }
    {
        print_rows(output, BitSlice::<u64, Lsb0>::from_slice(&self.words), 16)
    }
}
