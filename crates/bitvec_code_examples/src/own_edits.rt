//! Edits of types of one's own, and questions to one.
ghost use Rattle.std.specs.Prelude.{◌≡◌, count_by, map, not};
ghost use Rattle.std.proofs.lemmas.List.{length-map};
ghost use Rattle.bitvec.specs.Arrays.{lsb0_bits};
ghost use Rattle.bitvec.specs.Ranges.{edited};
ghost use Rattle.bitvec.specs.Views.{seen};

use bitvec::in_place;
use bitvec::prelude::*;

/// The edit that flips each bit.
pub struct Flip;

impl<T: BitStore, O: SliceOrder> Edit<T, O> for Flip {
    ghost made = { λ _ list. map not list };

    fn edit(&self, view: &mut BitSliceMut<'_, T, O>) {
        view.invert();
    }

    ghost keeps_length = { λ _ list. length-map list not };
}

/// A device with four words of lines.
#[derive(Drop)]
pub struct Lines {
    words: [u32; 4],
}

impl Lines {
    /// Edits all lines but those of the first byte in any way.
    pub fn edit_rest<E: Edit<u32, Lsb0>>(&mut self, edit: &E)
        ensures { lsb0_bits 32 self.new.words ≡ edited (E.made edit.now) (lsb0_bits 32 self.old.words) 8 128 }
    {
        in_place::edit::<u32, Lsb0, E>(&mut self.words, 8..128, edit);
    }

    /// The lines as a view: each question of views is one of the device.
    pub fn as_bitslice(&self) -> BitSlice<'_, u32, Lsb0>
        ensures bits { (seen result).bits ≡ lsb0_bits 32 self.now.words }
        ensures len { (seen result).window.len ≡ 128 }
    {
        BitSlice::from_slice(&self.words)
    }

    /// How many lines are set.
    pub fn count(&self) -> usize
        ensures { result ≡ count_by (λ bit. bit) (lsb0_bits 32 self.now.words) }
    {
        self.as_bitslice().count_ones()
    }
}

#[test]
fn lines_are_edited(rt: HostRuntime) {
    let mut lines = Lines {
        words: [0xF0, 0, 1, 0],
    };
    lines.edit_rest(&Flip);
    assert!(rt; lines.words == [0xFFFF_FFF0, u32::MAX, 0xFFFF_FFFE, u32::MAX]);
    assert!(rt; lines.count() == 123);
}
