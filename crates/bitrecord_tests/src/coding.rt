//! Records that are coded by a layout made for them.
use bitrecord::bits::{BitSliceMut, BitStore, FieldOrder, Window};
use bitrecord::{Endian, Layout, encode};
use std::alloc::Global;

/// Whether there is a layout of these fields in as many bits as the view has, and it takes the values.
pub(crate) fn encodes<T: BitStore, O: FieldOrder>(
    alloc: Global,
    endian: Endian,
    fields: &[Window],
    values: &[u128],
    view: &mut BitSliceMut<'_, T, O>,
) -> bool {
    match Layout::new(alloc, view.len(), fields) {
        Ok(layout) => encode(&layout, endian, values, view).is_ok(),
        Err(_) => false,
    }
}
