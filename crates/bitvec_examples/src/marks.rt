//! A struct that owns a sequence of bits which grows: marks of levels, of which it keeps how many there are.
#![tactic(auto, using(bitvec::specs::Laws::grown))]

ghost use Rattle.std.specs.Prelude.{◌≡◌, ◌<◌, ◌≤◌, ◌↔◌, [], ◌∷◌, ◌++◌, IsSome, if◌then◌else◌, is_ok, length};
ghost use Rattle.std.specs.List.{insert};
ghost use Rattle.std.specs.Option.{option_to_list};

use bitvec::prelude::*;
use std::alloc::{AllocError, Global};
use std::marker::Model;

/// Marks of levels, the outermost first.
#[derive(Drop)]
pub struct Marks {
    bits: BitVec<u64, Lsb0, Global>,
    depth: usize,
}

impl Model for Marks {
    ghost use Rattle.std.specs.Prelude.{◌≡◌, Bool, List, length};
    ghost use Rattle.bitvec.specs.Owned.{owned};

    ghost Value = { List Bool };

    ghost view = { λ marks. (owned marks.bits).bits };

    ghost invariant = { λ marks. marks.depth ≡ length (owned marks.bits).bits };
}

impl Marks {
    /// No level.
    pub fn new(alloc: Global) -> Self
        ensures { result ≡ [] }
    {
        Marks {
            bits: BitVec::new_in(alloc),
            depth: 0,
        }
    }

    /// How many levels there are.
    pub fn depth(&self) -> usize
        ensures { result ≡ length self.now }
    {
        self.depth
    }

    /// Opens a level within all others. An error where memory is refused, and the marks are as before then.
    pub fn open(&mut self, mark: bool) -> Result<(), AllocError>
        ensures { self.new ≡ (if is_ok result then self.old ++ mark ∷ [] else self.old) }
    {
        self.bits.push(mark)?;
        self.depth = self.bits.len();
        Ok(())
    }

    /// Closes the innermost level, if there is one, and gives its mark.
    pub fn close(&mut self) -> Option<bool>
        ensures marks { self.old ≡ self.new ++ option_to_list result }
        ensures some { IsSome result ↔ (0 < length self.old) }
    {
        let mark = self.bits.pop();
        self.depth = self.bits.len();
        mark
    }

    /// Puts a level before the one of a number. An error where memory is refused, and the marks are as before then.
    /// Condition: there are at least so many.
    pub fn put_in(&mut self, number: usize, mark: bool) -> Result<(), AllocError>
        requires { number ≤ length self.old }
        ensures { self.new ≡ (if is_ok result then insert self.old number mark else self.old) }
    {
        self.bits.insert(number, mark)?;
        self.depth = self.bits.len();
        Ok(())
    }
}

/// Whether two levels are closed from the innermost on, and then none is left.
fn are_closed_in_turn(alloc: Global) -> Result<bool, AllocError> {
    let mut marks = Marks::new(alloc);
    marks.open(true)?;
    marks.put_in(0, false)?;
    let depth = marks.depth();
    let closed = [marks.close(), marks.close(), marks.close()];
    Ok(depth == 2 && closed == [Some(true), Some(false), None] && marks.depth() == 0)
}

#[test]
fn levels_are_closed_in_turn(rt: HostRuntime) {
    assert!(rt; are_closed_in_turn(rt.alloc()) == Ok(true));
}
