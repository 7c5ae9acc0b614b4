//! Types of one's own that answer the questions of views.
ghost use Rattle.std.specs.Prelude.{◌≡◌, ◌*◌, ◌≤◌, count_by, length, true};
ghost use Rattle.std.proofs.Common.{arith};
ghost use Rattle.bitvec.specs.Arrays.{lsb0_bits};
ghost use Rattle.bitvec.specs.Fronts.{front_bits};
ghost use Rattle.bitvec.specs.Lists.{first_place};
ghost use Rattle.bitvec.specs.OwnViews.{shown_all, shown_range};
ghost use Rattle.bitvec.specs.OwnViewsLaws.{shows-all, shows-range};
ghost use Rattle.bitvec.specs.Ranges.{HasBits};
ghost use Rattle.bitvec.specs.Window.{max_bits};

use bitvec::prelude::*;
use bitvec::slice::Shows;

/// Lines of a device, all bits of its words.
#[derive(Drop)]
pub struct Lines {
    words: [u32; 4],
    ghost few: { 32 * length words ≤ max_bits },
}

impl Shows<u32> for Lines {
    ghost shows = { λ lines. shown_all 32 (λ _ i. i) (λ x. x) lines.words };
}

impl View<u32, Lsb0> for Lines {
    ghost shows_elements = { λ lines. shows-all 32 (λ _ i. i) (λ x. x) lines.words lines.few };

    fn as_bitslice(&self) -> BitSlice<'_, u32, Lsb0> {
        BitSlice::from_slice(&self.words)
    }
}

impl BitQueries<u32, Lsb0> for Lines {}

/// Marks in a `Vec` with room for more.
#[derive(Drop)]
pub struct Marks {
    words: Vec<u32>,
    len: usize,
    ghost has: { HasBits 32 (length words.items) 0 len },
}

impl Shows<u32> for Marks {
    ghost shows = { λ marks. shown_range 32 (λ _ i. i) (λ x. x) marks.words.items 0 marks.len };
}

impl View<u32, Lsb0> for Marks {
    ghost shows_elements = { λ marks. shows-range 32 (λ _ i. i) (λ x. x) marks.words.items 0 marks.len (Prim.search arith) marks.has };

    fn as_bitslice(&self) -> BitSlice<'_, u32, Lsb0> {
        BitSlice::from_slice(self.words.as_slice()).into_part(0..self.len)
    }
}

impl BitQueries<u32, Lsb0> for Marks {}

/// The first line that is set.
#[tactic(auto, using(bitvec::specs::Laws::own_views))]
pub fn first_line(lines: &Lines) -> Option<usize>
    ensures { result ≡ first_place true (lsb0_bits 32 lines.now.words) }
{
    lines.first_one()
}

/// How many marks are set.
#[tactic(auto, using(bitvec::specs::Laws::own_views))]
pub fn marked(marks: &Marks) -> usize
    ensures { result ≡ count_by (λ bit. bit) (front_bits (lsb0_bits 32 marks.now.words.items) marks.now.len) }
{
    marks.count_ones()
}

/// How many bits are 1 of whatever answers questions.
pub fn taken<T: BitStore, O: SliceOrder, V: BitQueries<T, O>>(view: &V) -> usize
    ensures { result ≡ count_by (λ bit. bit) (V.shows view.now).bits }
{
    view.count_ones()
}

#[test]
fn own_types_are_asked(rt: HostRuntime) {
    let lines = Lines {
        words: [0, 0x10, 0, 1],
    };
    assert!(rt; first_line(&lines) == Some(36) && lines.last_one() == Some(96));
    assert!(rt; taken::<u32, Lsb0, Lines>(&lines) == 2);
    let words = vec![in rt.alloc(); 0xFFu32, 0xF0];
    if let Ok(words) = words {
        if words.len() == 2 {
            let marks = Marks { words, len: 38 };
            assert!(rt;
                marked(&marks) == 10 && marks.leading_ones() == 8 && marks.trailing_ones() == 2
            );
        }
    }
}
