//! The element types of the library: a file for each unsigned integer.
mod u128_element;
mod u16_element;
mod u32_element;
mod u64_element;
mod u8_element;
mod usize_element;
