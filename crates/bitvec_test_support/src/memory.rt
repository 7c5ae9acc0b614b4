//! Three bytes as a plain list of bits.

/// Three bytes, and the same with each bit flipped: a bit that is made 0 or 1 by mistake shows in one of
/// the two.
pub const MEMORIES: [[u8; 3]; 2] = [[0xA6, 0x3C, 0x59], [0x59, 0xC3, 0xA6]];

/// The bits, the lowest of each byte first.
pub fn bits_of(bytes: [u8; 3]) -> [bool; 24] {
    let mut bits = [false; 24];
    for (byte, places) in bytes.into_iter().zip(bits.chunks_mut(8)) {
        let mut number = byte;
        for bit in places {
            *bit = number % 2 == 1;
            number /= 2;
        }
    }
    bits
}

/// Flips the bits from one place up to another.
fn flip(bits: &mut [bool; 24], from: usize, to: usize) {
    if let Some(part) = bits.get_mut(from..to) {
        for bit in part {
            *bit = !*bit;
        }
    }
}

/// The bits, those from one place up to another flipped.
pub fn flipped(bytes: [u8; 3], from: usize, to: usize) -> [bool; 24] {
    let mut bits = bits_of(bytes);
    flip(&mut bits, from, to);
    bits
}
