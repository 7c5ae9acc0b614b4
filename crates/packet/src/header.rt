//! Which fields the headers of a packet have.
ghost use Rattle.std.specs.Prelude.{◌≡◌, ◌*◌, ◌^◌, ◌<◌, ◌≤◌, ◌⊎◌, ◌++◌, All, IfErr, IfOk, OnOk, length, map};
ghost use Rattle.bitrecord.specs.Layouts.{IsLayout, field_at};
ghost use Rattle.bitrecord.specs.Views.{bits_of, fields_of};
ghost use Rattle.packet.specs.Packets.{HeaderFault, IsHeader, IsLayoutOf, IsShape, fields_by, internet_fields, number_at, placed_all, places_of, protocol_rows, row, windows_of, word_windows};

use crate::fault::Fault;
use crate::field::{
    DATAGRAM, Field, HEADER_LENGTH, INTERNET, PROTOCOL, Row, TRANSMISSION, VERSION,
};
use bitrecord::bits::{BitSlice, Msb0, Window};
use bitrecord::{Endian, Layout, LayoutError, decode_one};
use std::alloc::Allocator;

/// The headers of a packet: their fields, and the layouts of these and of the words that the checksum
/// is of.
#[derive(Drop)]
pub struct Header<A: Allocator> {
    pub(crate) fields: Vec<Field, A>,
    pub(crate) layout: Layout<A>,
    pub(crate) words: Layout<A>,
}

/// The layout of windows of a packet. Condition: it has at most 65,535 bytes.
fn make_layout<A: Allocator>(alloc: A, bytes: &[u8], windows: &[Window]) -> Result<Layout<A>, Fault>
    requires { length bytes.now ≤ 65535 }
    ensures layout { IfOk result (IsLayoutOf bytes.now windows.now) }
    ensures fault { IfErr result (λ fault. (fault ≡ Fault.Memory) ⊎ ((fault ≡ Fault.Truncated) × (IsLayout (8 * length bytes.now) windows.now → ⊥))) }
{
    match Layout::new(alloc, 8 * bytes.len(), windows) {
        Ok(layout) => Ok(layout),
        Err(LayoutError::Memory) => Err(Fault::Memory),
        Err(_) => Err(Fault::Truncated),
    }
}

/// The windows of fields.
fn list_windows<A: Allocator>(alloc: A, fields: &[Field]) -> Result<Vec<Window, A>, Fault>
    ensures windows { IfOk result (λ windows. windows.items ≡ map (λ field. field.window) fields.now) }
    ensures fault { IfErr result (λ fault. fault ≡ Fault.Memory) }
{
    let windows: Vec<Window, A> = fields.iter().map(|field| field.window).collect(alloc)?;
    Ok(windows)
}

/// The layout of fields of a packet. Condition: it has at most 65,535 bytes.
fn layout_of<A: Allocator + Copy>(
    alloc: A,
    bytes: &[u8],
    fields: &[Field],
) -> Result<Layout<A>, Fault>
    requires { length bytes.now ≤ 65535 }
    ensures layout { IfOk result (IsLayoutOf bytes.now (windows_of (places_of fields.now))) }
    ensures fault { IfErr result (λ fault. (fault ≡ Fault.Memory) ⊎ ((fault ≡ Fault.Truncated) × (IsLayout (8 * length bytes.now) (windows_of (places_of fields.now)) → ⊥))) }
{
    let windows = list_windows(alloc, fields)?;
    make_layout(alloc, bytes, windows.as_slice())
}

/// The layout of the first words of a packet, of 16 bits each. Conditions: it has at most 65,535 bytes,
/// and so many words are few.
fn layout_of_words<A: Allocator + Copy>(
    alloc: A,
    bytes: &[u8],
    count: usize,
) -> Result<Layout<A>, Fault>
    requires bound { length bytes.now ≤ 65535 }
    requires few { count ≤ 30 }
    ensures layout { IfOk result (IsLayoutOf bytes.now (word_windows count)) }
    ensures fault { IfErr result (λ fault. (fault ≡ Fault.Memory) ⊎ ((fault ≡ Fault.Truncated) × (IsLayout (8 * length bytes.now) (word_windows count) → ⊥))) }
{
    let mut windows = Vec::new(alloc);
    for number in 0..count {
        windows.push(Window {
            start: 16 * number,
            len: 16,
        })?;
    }
    make_layout(alloc, bytes, windows.as_slice())
}

/// The number of a field of a packet: it has no more bits than the field. Conditions: the layout is of
/// the packet, which has at most 65,535 bytes, and there is such a field.
pub(crate) fn read_field<A: Allocator>(layout: &Layout<A>, bytes: &[u8], number: usize) -> u128
    requires bound { length bytes.now ≤ 65535 }
    requires bits { bits_of layout.now ≡ 8 * length bytes.now }
    requires field { number < length (fields_of layout.now) }
    ensures number { result ≡ number_at bytes.now (field_at (fields_of layout.now) number) }
    ensures below { result < 2 ^ (field_at (fields_of layout.now) number).len }
{
    let view = BitSlice::<u8, Msb0>::from_slice(bytes);
    decode_one(layout, Endian::Big, view, number)
}

/// The header of a protocol.
fn transport(protocol: u128) -> &'static [Row]
    ensures rows { map row result.now ≡ protocol_rows protocol }
    ensures small { All (λ row. row.1 < 1024) result.now }
{
    if protocol == 6 {
        &TRANSMISSION
    } else if protocol == 17 {
        &DATAGRAM
    } else {
        &[]
    }
}

/// Adds the fields of a header that begins so many bits into the packet. Conditions: these and the
/// fields' places are small.
fn push_fields<A: Allocator>(
    fields: &mut Vec<Field, A>,
    rows: &[Row],
    start: usize,
) -> Result<(), Fault>
    requires start { start < 1024 }
    requires small { All (λ row. row.1 < 1024) rows.now }
    ensures fields { OnOk result (places_of fields.new.items ≡ places_of fields.old.items ++ placed_all start (map row rows.now)) }
    ensures fault { IfErr result (λ fault. fault ≡ Fault.Memory) }
{
    for (name, from, len) in rows {
        let window = Window {
            start: start + *from,
            len: *len,
        };
        fields.push(Field {
            name: *name,
            window,
        })?;
    }
    Ok(())
}

/// The fields of the first header.
fn list_internet<A: Allocator>(alloc: A) -> Result<Vec<Field, A>, Fault>
    ensures fields { IfOk result (λ fields. places_of fields.items ≡ internet_fields) }
    ensures fault { IfErr result (λ fault. fault ≡ Fault.Memory) }
{
    let mut fields = Vec::new(alloc);
    push_fields(&mut fields, &INTERNET, 0)?;
    Ok(fields)
}

/// How many words of 32 bits the first header has, and the protocol of the next. Condition: the packet
/// has at most 65,535 bytes.
fn read_shape<A: Allocator + Copy>(alloc: A, bytes: &[u8]) -> Result<(usize, u128), Fault>
    requires { length bytes.now ≤ 65535 }
    ensures shape { IfOk result (λ shape. IsShape bytes.now shape.0 shape.1) }
    ensures fault { IfErr result (HeaderFault bytes.now) }
{
    let fields = list_internet(alloc)?;
    let layout = layout_of(alloc, bytes, fields.as_slice())?;
    if read_field(&layout, bytes, VERSION) != 4 {
        return Err(Fault::Version);
    }
    let length = read_field(&layout, bytes, HEADER_LENGTH) as usize;
    if length < 5 {
        return Err(Fault::HeaderLength);
    }
    Ok((length, read_field(&layout, bytes, PROTOCOL)))
}

/// All fields of a packet, by the length of its first header and the protocol of the next. Condition: a
/// header can be so long.
fn list_fields<A: Allocator>(
    alloc: A,
    length: usize,
    protocol: u128,
) -> Result<Vec<Field, A>, Fault>
    requires { length ≤ 15 }
    ensures fields { IfOk result (λ fields. places_of fields.items ≡ fields_by length protocol) }
    ensures fault { IfErr result (λ fault. fault ≡ Fault.Memory) }
{
    let mut fields = list_internet(alloc)?;
    push_fields(&mut fields, transport(protocol), 32 * length)?;
    Ok(fields)
}

/// The headers of a packet. Condition: it has at most 65,535 bytes.
pub(crate) fn read_header<A: Allocator + Copy>(alloc: A, bytes: &[u8]) -> Result<Header<A>, Fault>
    requires { length bytes.now ≤ 65535 }
    ensures header { IfOk result (IsHeader bytes.now) }
    ensures fault { IfErr result (HeaderFault bytes.now) }
{
    let (length, protocol) = read_shape(alloc, bytes)?;
    let fields = list_fields(alloc, length, protocol)?;
    let layout = layout_of(alloc, bytes, fields.as_slice())?;
    let words = layout_of_words(alloc, bytes, 2 * length)?;
    Ok(Header {
        fields,
        layout,
        words,
    })
}
