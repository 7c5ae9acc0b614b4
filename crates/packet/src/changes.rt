//! Changes of fields.
ghost use Rattle.std.specs.Prelude.{◌≡◌, ◌*◌, ◌≤◌, All, length};
ghost use Rattle.bitvec.specs.Views.{seen_mut};
ghost use Rattle.bitrecord.specs.Views.{bits_of, fields_of};
ghost use Rattle.packet.specs.Changes.{CanChange, SetsFields, WritesChanges};
ghost use Rattle.packet.specs.Packets.{AreLayouts};

use crate::checksum::make_right;
use bitrecord::bits::{BitSliceMut, Msb0};
use bitrecord::{Endian, Layout, encode_one};
use std::alloc::Allocator;

/// A field, by its number, that is to have a value.
#[derive(Clone, Copy)]
pub struct Change {
    /// The field's number among all of the packet.
    pub number: usize,
    /// The value.
    pub value: u128,
}

/// Writes changes, one after the other. Conditions: the view has as many bits as a record, each change
/// is of a field, and its value fits it.
fn write_changes<A: Allocator>(
    layout: &Layout<A>,
    changes: &[Change],
    view: &mut BitSliceMut<'_, u8, Msb0>,
)
    requires bits { (seen_mut view.old).window.len ≡ bits_of layout.now }
    requires changes { All (CanChange (fields_of layout.now)) changes.now }
    ensures { WritesChanges (fields_of layout.now) changes.now view.old view.new }
{
    for change in changes {
        encode_one(layout, Endian::Big, change.number, change.value, view).unwrap();
    }
}

/// The bytes with the changes, and with the checksum that is right then. Conditions: those of the two
/// steps.
fn changed<'a, A: Allocator>(
    layout: &Layout<A>,
    words: &Layout<A>,
    changes: &[Change],
    bytes: &'a mut [u8],
) -> &'a mut [u8]
    requires bound { length bytes.old ≤ 65535 }
    requires layouts { AreLayouts (bits_of layout.now) (bits_of words.now) (fields_of layout.now) (fields_of words.now) (8 * length bytes.old) }
    requires changes { All (CanChange (fields_of layout.now)) changes.now }
    ensures set { SetsFields (fields_of layout.now) (fields_of words.now) changes.now bytes.old result.now }
    ensures name { result.ghost_name ≡ bytes.entry.ghost_name }
{
    let mut view = BitSliceMut::<u8, Msb0>::from_slice_mut(bytes);
    write_changes(layout, changes, &mut view);
    make_right(layout, words, &mut view);
    view.into_slice()
}

/// Sets fields of a packet, and makes the checksum of its header right: nothing else changes.
/// Conditions: the layouts are of the packet's fields and of its header's words, each change is of a
/// field, and its value fits it.
pub fn set_fields<A: Allocator>(
    layout: &Layout<A>,
    words: &Layout<A>,
    changes: &[Change],
    bytes: &mut [u8],
)
    requires bound { length bytes.old ≤ 65535 }
    requires layouts { AreLayouts (bits_of layout.now) (bits_of words.now) (fields_of layout.now) (fields_of words.now) (8 * length bytes.old) }
    requires changes { All (CanChange (fields_of layout.now)) changes.now }
    ensures { SetsFields (fields_of layout.now) (fields_of words.now) changes.now bytes.old bytes.new }
{
    let _bytes = changed(layout, words, changes, bytes);
}
