//! The fields of the headers: their names, and where they lie.
use bitrecord::bits::Window;

/// A field of a packet: its name, and where it lies, in bits from the packet's start.
#[derive(Clone, Copy)]
pub struct Field {
    /// The name, as it is printed and given.
    pub name: &'static str,
    /// Its bits.
    pub window: Window,
}

/// A field of a header: its name, where it begins, in bits from the header's start, and how many bits
/// it has.
pub type Row = (&'static str, usize, usize);

/// The header of the Internet protocol, version 4, without its options.
pub const INTERNET: [Row; 13] = [
    ("ip.version", 0, 4),
    ("ip.header_length", 4, 4),
    ("ip.differentiated_services", 8, 6),
    ("ip.congestion_notification", 14, 2),
    ("ip.total_length", 16, 16),
    ("ip.identification", 32, 16),
    ("ip.flags", 48, 3),
    ("ip.fragment_offset", 51, 13),
    ("ip.time_to_live", 64, 8),
    ("ip.protocol", 72, 8),
    ("ip.header_checksum", 80, 16),
    ("ip.source_address", 96, 32),
    ("ip.destination_address", 128, 32),
];

/// The number of the version among the fields of that header.
pub const VERSION: usize = 0;

/// The number of the header's length, in words of 32 bits.
pub const HEADER_LENGTH: usize = 1;

/// The number of the next header's protocol.
pub const PROTOCOL: usize = 9;

/// The number of the header's checksum.
pub const CHECKSUM: usize = 10;

/// The header of the user datagram protocol, which is protocol 17.
pub const DATAGRAM: [Row; 4] = [
    ("udp.source_port", 0, 16),
    ("udp.destination_port", 16, 16),
    ("udp.length", 32, 16),
    ("udp.checksum", 48, 16),
];

/// The header of the transmission control protocol, which is protocol 6, without its options.
pub const TRANSMISSION: [Row; 17] = [
    ("tcp.source_port", 0, 16),
    ("tcp.destination_port", 16, 16),
    ("tcp.sequence_number", 32, 32),
    ("tcp.acknowledgment_number", 64, 32),
    ("tcp.data_offset", 96, 4),
    ("tcp.reserved", 100, 4),
    ("tcp.congestion_window_reduced", 104, 1),
    ("tcp.congestion_echo", 105, 1),
    ("tcp.urgent", 106, 1),
    ("tcp.acknowledge", 107, 1),
    ("tcp.push", 108, 1),
    ("tcp.reset", 109, 1),
    ("tcp.synchronize", 110, 1),
    ("tcp.finish", 111, 1),
    ("tcp.window", 112, 16),
    ("tcp.checksum", 128, 16),
    ("tcp.urgent_pointer", 144, 16),
];
