//! The brackets that are open, a bit each.
ghost use Rattle.std.specs.Prelude.{◌≡◌, ◌≢◌, [], ◌∷◌, ◌++◌, All, Bool, IfNone, IfSome, List, false, if◌then◌else◌, is_ok, replicate, true};
ghost use Rattle.std.specs.Bool.{OnFalse, OnTrue};
ghost use Rattle.std.specs.Option.{option_to_list};

use bitvec::prelude::*;
use std::alloc::{AllocError, Global};
use std::marker::Model;

/// The brackets that are open, and which of them are blocks. Contracts see a list, the innermost bracket first.
#[derive(Drop)]
pub struct Marks {
    bits: BitVec<u64, Lsb0, Global>,
}

impl Model for Marks {
    ghost use Rattle.std.specs.Prelude.{Bool, List, reverse};
    ghost use Rattle.bitvec.specs.Owned.{owned};

    ghost Value = { List Bool };

    ghost view = { λ marks. reverse (owned marks.bits).bits };
}

impl Marks {
    /// No bracket is open. It asks for no memory.
    pub fn new(alloc: Global) -> Self
        ensures { result ≡ [] }
    {
        Marks {
            bits: BitVec::new_in(alloc),
        }
    }

    /// Opens a bracket within all others. An error where memory is refused, and the marks are as before then.
    pub fn open(&mut self, block: bool) -> Result<(), AllocError>
        ensures { self.new ≡ (if is_ok result then block ∷ self.old else self.old) }
    {
        self.bits.push(block)
    }

    /// Closes the innermost bracket, if one is open, and gives its mark.
    #[tactic(auto, using(crate::proofs::MarkLaws::marking))]
    pub fn close(&mut self) -> Option<bool>
        ensures mark { self.old ≡ option_to_list result ++ self.new }
        ensures none { IfNone result (self.old ≡ []) }
    {
        self.bits.pop()
    }

    /// Closes the innermost bracket where that is a group, and tells whether it is.
    #[tactic(auto, using(bitvec::specs::Laws::lengths, crate::proofs::MarkLaws::marking))]
    pub fn close_group(&mut self) -> bool
        ensures group { OnTrue result (self.old ≡ false ∷ self.new) }
        ensures other { OnFalse result ((outer : List Bool) → self.old ≢ false ∷ outer) }
        ensures kept { OnFalse result (self.new ≡ self.old) }
    {
        let len = self.bits.len();
        if len == 0 {
            return false;
        }
        if self.bits.as_bitslice()[len - 1] {
            return false;
        }
        self.bits.truncate(len - 1);
        true
    }

    /// Backs up to where the innermost block was opened, and gives how many groups were open in it. None, and nothing is
    /// closed, where no block is open.
    #[tactic(auto, using(bitvec::specs::Laws::found))]
    pub fn close_block(&mut self) -> Option<usize>
        ensures block { IfSome result (λ groups. self.old ≡ replicate groups false ++ true ∷ self.new) }
        ensures none { IfNone result (All (λ mark. mark ≡ false) self.old) }
        ensures kept { IfNone result (self.new ≡ self.old) }
    {
        let block = self.bits.last_one()?;
        let groups = self.bits.len() - block - 1;
        self.bits.truncate(block);
        Some(groups)
    }
}
