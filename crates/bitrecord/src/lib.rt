//! Records packed into bits: a layout lists the windows of a record's fields, `encode` writes a number
//! into each and leaves every other bit as it was, and `decode` reads the numbers back.
//!
//! The bits are any view's, of elements of any width, under `Lsb0` or `Msb0`.
#![tactic(auto)]

pub mod bits;
mod coding;
mod decoding;
mod encode_error;
mod encoding;
mod endian;
mod fitting;
mod layout;
mod layout_error;
mod powers;
mod runs;
mod testing;
mod words;

pub use coding::{decode_one, encode_one};
pub use decoding::decode;
pub use encode_error::EncodeError;
pub use encoding::encode;
pub use endian::Endian;
pub use fitting::fits;
pub use layout::Layout;
pub use layout_error::LayoutError;
