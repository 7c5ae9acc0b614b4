//! What is asked for, done on a map, but for what a file is.
ghost use Rattle.std.specs.Prelude.{◌≡◌, ◌*◌, ◌≤◌, ◌⊎◌, IfErr, IfOk, OnOk, length};
ghost use Rattle.std.specs.Io.KnownBytes.{Appends};
ghost use Rattle.bitvec.specs.Window.{max_bits};
ghost use Rattle.slots.specs.Work.{ChangesMap, Does, Fails, IsMap, Refuses, ShowsMap};
ghost use Rattle.slots.specs.declared.fault.Fault.TheVariants.{Output};

use crate::arguments::Request;
use crate::bytes::change_bytes;
use crate::fault::Fault;
use crate::places::Change;
use crate::runs::{print_range, show};
use crate::store::Store;
use bitvec::prelude::*;
use std::alloc::Allocator;
use std::io::{ErrorKind, Read, Write};

/// The most bytes that a view can have.
const MAX_BYTES: usize = (1 << 58) - 1;

/// Reads a map to its end.
pub fn read_map<R: Read, A: Allocator>(alloc: A, input: &mut R) -> Result<Vec<u8, A>, Fault>
    ensures bytes { IfOk result (λ bytes. IsMap (R.remaining input.old) bytes.items) }
    ensures bound { IfOk result (λ bytes. 8 * length bytes.items ≤ max_bits) }
    ensures fault { IfErr result (λ fault. (fault ≡ Fault.Read) ⊎ (fault ≡ Fault.Memory)) }
{
    let mut bytes = Vec::new(alloc);
    if let Err(error) = input.read_to_end(&mut bytes) {
        return Err(if error.kind() == ErrorKind::OutOfMemory {
            Fault::Memory
        } else {
            Fault::Read
        });
    }
    if bytes.len() > MAX_BYTES {
        return Err(Fault::Memory);
    }
    Ok(bytes)
}

/// Writes a map whole.
pub fn write_map<W: Write>(output: &mut W, bytes: &[u8]) -> Result<(), Fault>
    ensures written { OnOk result (Appends (W.contents output.old) (W.contents output.new) bytes.now) }
    ensures fault { IfErr result (λ fault. fault ≡ Fault.Write) }
{
    output.write_all(bytes).or(Err(Fault::Write))?;
    output.flush().or(Err(Fault::Write))
}

/// Changes the map, and prints which places were taken or given back. Unless the fault is that this can't be printed, the map
/// is as before.
fn change_map<A: Allocator, S: Store, W: Write>(
    alloc: A,
    change: &Change,
    store: &mut S,
    output: &mut W,
) -> Result<(), Fault>
    ensures changed { OnOk result (ChangesMap change.now (S.map store.old) (S.map store.new) (W.contents output.old) (W.contents output.new)) }
    ensures refused { IfErr result (Fails change.now (S.map store.old)) }
    ensures kept { IfErr result (λ fault. (fault ≡ Output) ⊎ (S.map store.new ≡ S.map store.old)) }
{
    let mut bytes = store.read(alloc)?;
    let range = change_bytes(bytes.as_mut_slice(), change)?;
    store.replace(bytes.as_slice())?;
    print_range(output, &range).or(Err(Fault::Output))
}

/// Prints the runs of taken places of the map, which stays.
fn show_map<A: Allocator, S: Store, W: Write>(
    alloc: A,
    store: &mut S,
    output: &mut W,
) -> Result<(), Fault>
    ensures shown { OnOk result (ShowsMap (S.map store.old) (W.contents output.old) (W.contents output.new)) }
    ensures kept { S.map store.new ≡ S.map store.old }
    ensures fault { IfErr result (λ fault. (fault ≡ Fault.Read) ⊎ (fault ≡ Fault.Memory) ⊎ (fault ≡ Fault.Output)) }
{
    let bytes = store.read(alloc)?;
    let places = BitSlice::<u8, Lsb0>::from_slice(bytes.as_slice());
    show(places, output).or(Err(Fault::Output))
}

/// Does what is asked for, and prints the answer. Unless the fault is that this can't be printed, the map is as before then.
pub fn work<A: Allocator, S: Store, W: Write>(
    alloc: A,
    request: &Request,
    store: &mut S,
    output: &mut W,
) -> Result<(), Fault>
    ensures done { OnOk result (Does request.now (S.map store.old) (S.map store.new) (W.contents output.old) (W.contents output.new)) }
    ensures refused { IfErr result (Refuses request.now (S.map store.old)) }
    ensures kept { IfErr result (λ fault. (fault ≡ Output) ⊎ (S.map store.new ≡ S.map store.old)) }
{
    match request {
        Request::Show => show_map(alloc, store, output),
        Request::Change(change) => change_map(alloc, change, store, output),
    }
}
