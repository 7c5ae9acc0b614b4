//! A device with arrays of its own, whose bits views read and write.
ghost use Rattle.std.specs.Prelude.{◌≡◌, ◌*◌, ◌<◌, IfSome, false, replicate, slice_index_or};
ghost use Rattle.bitvec.specs.Arrays.{lsb0_bits, msb0_bits};
ghost use Rattle.bitvec.specs.Views.{seen, seen_mut};

use crate::filled::fill_all;
use bitvec::prelude::*;

/// Four control words, the lowest bit of each first, and flags of 128 lines, the highest bit first.
#[derive(Drop)]
pub struct Device {
    control: [u32; 4],
    flags: [u64; 2],
}

impl Device {
    /// A device whose bits are all 0.
    #[tactic(auto, using(bitvec::specs::Laws::zeroed))]
    pub fn new() -> Self
        ensures control { lsb0_bits 32 result.control ≡ replicate 128 false }
        ensures flags { msb0_bits 64 result.flags ≡ replicate 128 false }
    {
        Device {
            control: [0; 4],
            flags: [0; 2],
        }
    }

    /// The control bits.
    pub fn control(&self) -> BitSlice<'_, u32, Lsb0>
        ensures bits { (seen result).bits ≡ lsb0_bits 32 self.now.control }
        ensures len { (seen result).window.len ≡ 128 }
    {
        BitSlice::from_slice(&self.control)
    }

    /// The control bits for writing.
    pub fn control_mut(&mut self) -> BitSliceMut<'_, u32, Lsb0>
        ensures { (seen_mut result).window.len ≡ 128 }
    {
        BitSliceMut::from_slice_mut(&mut self.control)
    }

    /// The bits of one control word. Condition: there is such a word.
    pub fn word(&self, number: usize) -> BitSlice<'_, u32, Lsb0>
        requires { number < 4 }
        ensures { (seen result).window.len ≡ 32 }
    {
        self.control().into_part(32 * number..32 * number + 32)
    }

    /// The bits of one control word, for writing. Condition: there is such a word.
    pub fn word_mut(&mut self, number: usize) -> BitSliceMut<'_, u32, Lsb0>
        requires { number < 4 }
        ensures { (seen_mut result).window.len ≡ 32 }
    {
        self.control_mut().into_part(32 * number..32 * number + 32)
    }

    /// The highest control bit of a word, for writing. Condition: there is such a word.
    pub fn sign(&mut self, number: usize) -> BitRefMut<'_, u32, Lsb0>
        requires { number < 4 }
    {
        self.word_mut(number).into_bit(31)
    }

    /// The control bit at an index, if there is one.
    pub fn control_bit(&self, index: usize) -> Option<bool>
        ensures { IfSome result (λ bit. bit ≡ slice_index_or (lsb0_bits 32 self.now.control) index false) }
    {
        match self.control().get(index) {
            Some(bit) => Some(*bit),
            None => None,
        }
    }

    /// Clears all flags; the control words stay.
    pub fn clear_flags(&mut self)
        ensures flags { msb0_bits 64 self.new.flags ≡ replicate 128 false }
        ensures control { self.new.control ≡ self.old.control }
    {
        fill_all::<u64, Msb0>(&mut self.flags, false);
    }

    /// Sets the first four control bits and clears the next four.
    pub fn start(&mut self) {
        {
            let mut low = self.control_mut().into_part(0..4);
            low.fill(true);
        }
        let mut high = self.control_mut().into_part(4..8);
        high.fill(false);
    }
}
