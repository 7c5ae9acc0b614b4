//! What a caller knows of bits that begin a view, end it, or occur in it.
ghost use Rattle.std.specs.Prelude.{◌≡◌, ℕ, ◌+◌, ◌-◌, ◌<◌, ◌≤◌, ◌++◌, IfSome, false, length, slice_index_or, slice_range, true};
ghost use Rattle.bitvec.specs.Views.{seen};

use bitvec::prelude::*;

/// Whether a packet begins with a header: then each bit of the header is the packet's at its index.
#[tactic(auto, using(bitvec::specs::Laws::matched))]
pub fn has_header<T: BitStore, O: SliceOrder>(
    packet: BitSlice<'_, T, O>,
    header: BitSlice<'_, T, O>,
) -> bool
    ensures { result ≡ true → (k : ℕ) → k < length (seen header.entry).bits
        → slice_index_or (seen packet.entry).bits k false ≡ slice_index_or (seen header.entry).bits k false }
{
    packet.starts_with(header)
}

/// Whether a packet ends with a trailer: then each bit of the trailer is the packet's, as far before the end.
#[tactic(auto, using(bitvec::specs::Laws::matched))]
pub fn has_trailer<T: BitStore, O: SliceOrder>(
    packet: BitSlice<'_, T, O>,
    trailer: BitSlice<'_, T, O>,
) -> bool
    ensures { result ≡ true → (k : ℕ) → k < length (seen trailer.entry).bits
        → slice_index_or (seen packet.entry).bits (length (seen packet.entry).bits - length (seen trailer.entry).bits + k) false
        ≡ slice_index_or (seen trailer.entry).bits k false }
{
    packet.ends_with(trailer)
}

/// Whether a mark occurs in a packet: then it stands at some place, and else at none.
#[tactic(auto, using(bitvec::specs::Laws::matched))]
pub fn has_mark<T: BitStore, O: SliceOrder>(
    packet: BitSlice<'_, T, O>,
    mark: BitSlice<'_, T, O>,
) -> bool
    ensures there { result ≡ true → (k : ℕ) × (k + length (seen mark.entry).bits ≤ length (seen packet.entry).bits)
        × (slice_range (seen packet.entry).bits k (k + length (seen mark.entry).bits) ≡ (seen mark.entry).bits) }
    ensures nowhere { result ≡ false → (k : ℕ) → k + length (seen mark.entry).bits ≤ length (seen packet.entry).bits
        → slice_range (seen packet.entry).bits k (k + length (seen mark.entry).bits) ≡ (seen mark.entry).bits → ⊥ }
{
    packet.contains(mark)
}

/// A packet without its header: both joined are the packet.
#[tactic(auto, using(bitvec::specs::Laws::matched))]
pub fn body<'a, T: BitStore, O: SliceOrder>(
    packet: BitSlice<'a, T, O>,
    header: BitSlice<'_, T, O>,
) -> Option<BitSlice<'a, T, O>>
    ensures { IfSome result (λ body. (seen header.entry).bits ++ (seen body).bits ≡ (seen packet.entry).bits) }
{
    packet.strip_prefix(header)
}
