//! Arrays edited in place, in one function and in a struct's methods: what a caller knows of their bits.
ghost use Rattle.std.specs.Prelude.{◌≡◌, ◌<◌, count_by, false, replicate, slice_set, true};
ghost use Rattle.bitvec.specs.Arrays.{lsb0_bits};
ghost use Rattle.bitvec.specs.BitArrays.{in_array};

use bitvec::prelude::*;

/// Bits that are all 1 but for number 3, of a local array.
#[tactic(auto, using(bitvec::specs::Laws::zeroed))]
pub fn all_but_one() -> [u8; 3]
    ensures { lsb0_bits 8 result ≡ slice_set (replicate 24 true) 3 false }
{
    let mut bytes = [0u8; 3];
    let _bytes = EditElements::<u8, Lsb0>::edit_elements(&mut bytes[..], |view| {
        view.fill(true);
        view.set(3, false);
    });
    bytes
}

/// Registers of a device, as plain words.
pub struct Registers {
    pub words: [u32; 4],
    pub writes: u32,
}

impl Registers {
    /// Raises the line.
    pub fn raise(&mut self, line: usize)
        requires { line < 128 }
        ensures words { lsb0_bits 32 self.new.words ≡ slice_set (lsb0_bits 32 self.old.words) line true }
        ensures writes { self.new.writes ≡ self.old.writes }
    {
        let _words = EditElements::<u32, Lsb0>::edit_elements(&mut self.words[..], move |view| {
            view.set(line, true);
        });
    }
}

/// Lines of a device, as bits.
pub struct Lines {
    pub raised: BitArray<u32, Lsb0, 4>,
    pub writes: u32,
}

impl Lines {
    /// Raises the line.
    pub fn raise(&mut self, line: usize)
        requires { line < (in_array self.old.raised).window.len }
        ensures raised { (in_array self.new.raised).bits ≡ slice_set (in_array self.old.raised).bits line true }
        ensures len { (in_array self.new.raised).window.len ≡ (in_array self.old.raised).window.len }
        ensures writes { self.new.writes ≡ self.old.writes }
    {
        self.raised.set(line, true);
    }

    /// How many lines are raised.
    pub fn count(&self) -> usize
        ensures { result ≡ count_by (λ bit. bit) (in_array self.now.raised).bits }
    {
        self.raised.count_ones()
    }
}

#[test]
fn arrays_are_edited_in_place(rt: HostRuntime) {
    assert!(rt; all_but_one() == [0xF7, 0xFF, 0xFF]);
    let mut registers = Registers {
        words: [0; 4],
        writes: 0,
    };
    registers.raise(37);
    assert!(rt; registers.words == [0, 32, 0, 0]);
    let Registers {
        words: _,
        writes: _,
    } = registers;
    let mut bits = BitArray::<u16, Msb0, 2>::zeroed();
    bits.set(17, true);
    let copy = bits;
    bits.invert();
    assert!(rt; copy.into_inner() == [0, 0x4000]);
    assert!(rt; bits.as_raw_slice() == [0xFFFF, 0xBFFF].as_slice());
    assert!(rt; bits != copy);
    assert!(rt; bits.count_ones() == 31);
}
