//! Where a map is kept.
ghost use Rattle.std.specs.Prelude.{◌≡◌, ◌*◌, ◌≤◌, ◌⊎◌, ℕ, IfErr, IfOk, List, OnErr, OnOk, Option, length};
ghost use Rattle.bitvec.specs.Window.{max_bits};
ghost use Rattle.slots.specs.Work.{IsMap};
ghost use Rattle.slots.specs.declared.fault.Fault.TheVariants.{Memory, Read, Write};

use crate::fault::Fault;
use std::alloc::Allocator;

/// Keeps a map as bytes. Contracts see the bytes, where these are known.
pub trait Store {
    ghost map: { Self → Option (List ℕ) };

    /// The bytes of the map.
    fn read<A: Allocator>(&mut self, alloc: A) -> Result<Vec<u8, A>, Fault>
        ensures bytes { IfOk result (λ bytes. IsMap (map self.old) bytes.items) }
        ensures bound { IfOk result (λ bytes. 8 * length bytes.items ≤ max_bits) }
        ensures kept { map self.new ≡ map self.old }
        ensures fault { IfErr result (λ fault. (fault ≡ Read) ⊎ (fault ≡ Memory)) };

    /// Puts a new map in the old one's place. On a fault the old one stays.
    fn replace(&mut self, bytes: &[u8]) -> Result<(), Fault>
        ensures written { OnOk result (IsMap (map self.new) bytes.now) }
        ensures kept { OnErr result (map self.new ≡ map self.old) }
        ensures fault { IfErr result (λ fault. (fault ≡ Write) ⊎ (fault ≡ Memory)) };
}
