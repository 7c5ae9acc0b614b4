//! A serial port's registers.
ghost use Rattle.std.specs.Prelude.{◌≡◌, ◌<◌};
ghost use Rattle.device.specs.Registers.{KeepsReserved, SetsField, baud_of, data_of, parity_of, registers_of};

use bitvec::in_place;
use bitvec::prelude::*;

/// Four registers: the baud divisor in bits 4 to 19 of the first, the parity in bits 0 and 1 of the
/// second, the data in bits 8 to 15 of the third. All other bits are reserved.
#[derive(Drop)]
pub struct Uart {
    registers: [u32; 4],
}

impl Uart {
    /// A port with these registers.
    pub fn new(registers: [u32; 4]) -> Self
        ensures { registers_of result ≡ registers }
    {
        Uart { registers }
    }

    /// The registers.
    pub fn registers(&self) -> [u32; 4]
        ensures { result ≡ registers_of self.now }
    {
        self.registers
    }

    /// The baud divisor.
    pub fn baud(&self) -> u16
        ensures { result ≡ baud_of self.now }
    {
        in_place::load_le::<u32, Lsb0, u16>(&self.registers, 4..20)
    }

    /// The parity.
    pub fn parity(&self) -> u8
        ensures { result ≡ parity_of self.now }
    {
        in_place::load_le::<u32, Lsb0, u8>(&self.registers, 32..34)
    }

    /// The data.
    pub fn data(&self) -> u8
        ensures { result ≡ data_of self.now }
    {
        in_place::load_le::<u32, Lsb0, u8>(&self.registers, 72..80)
    }

    /// Sets the baud divisor; every other bit stays.
    pub fn set_baud(&mut self, baud: u16)
        ensures { SetsField 4 20 baud self.old self.new }
    {
        in_place::store_le::<u32, Lsb0, u16>(&mut self.registers, 4..20, baud);
    }

    /// Sets the parity to the lowest two bits of a number; every other bit stays.
    pub fn set_parity(&mut self, parity: u8)
        ensures { SetsField 32 34 parity self.old self.new }
    {
        in_place::store_le::<u32, Lsb0, u8>(&mut self.registers, 32..34, parity);
    }

    /// Sets the data; every other bit stays.
    pub fn set_data(&mut self, byte: u8)
        ensures { SetsField 72 80 byte self.old self.new }
    {
        in_place::store_le::<u32, Lsb0, u8>(&mut self.registers, 72..80, byte);
    }

    /// Sets all three; every reserved bit stays. Condition: the parity is below 4.
    #[tactic(auto, using(bitvec::specs::Laws::bitwise, bitvec::specs::Laws::fields))]
    pub fn configure(&mut self, baud: u16, parity: u8, byte: u8)
        requires { parity < 4 }
        ensures baud { baud_of self.new ≡ baud }
        ensures parity { parity_of self.new ≡ parity }
        ensures byte { data_of self.new ≡ byte }
        ensures reserved { KeepsReserved self.old self.new }
    {
        self.set_baud(baud);
        self.set_parity(parity);
        self.set_data(byte);
    }
}
