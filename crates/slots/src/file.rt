//! A map in a file.
ghost use Rattle.std.specs.Prelude.{None};

use crate::fault::Fault;
use crate::store::Store;
use crate::work::{read_map, write_map};
use std::alloc::Allocator;
use std::fs::{self, OpenFile};
use std::rt::Files;

/// The file of a path. A new map is written whole to a file beside it, which then takes its place.
#[derive(Drop)]
pub struct MapFile<'a, R> {
    rt: &'a R,
    path: &'a str,
}

impl<'a, R: Files + AllocGlobal> MapFile<'a, R> {
    /// The file of that path.
    pub fn new(rt: &'a R, path: &'a str) -> Self {
        MapFile { rt, path }
    }

    /// Writes a map to the file `beside`, and puts it in the place of the old one, once the disk has it.
    fn write_beside(&self, bytes: &[u8], beside: &str) -> Result<(), Fault> {
        let mut new = fs::create(self.rt, beside).or(Err(Fault::Write))?;
        write_map(&mut new, bytes)?;
        new.sync_all().or(Err(Fault::Write))?;
        fs::rename(self.rt, beside, self.path).or(Err(Fault::Write))
    }
}

impl<'a, R: Files + AllocGlobal> Store for MapFile<'a, R> {
    ghost map = { λ _. None };

    fn read<A: Allocator>(&mut self, alloc: A) -> Result<Vec<u8, A>, Fault> {
        let mut old = fs::open(self.rt, self.path).or(Err(Fault::Read))?;
        read_map(alloc, &mut old)
    }

    fn replace(&mut self, bytes: &[u8]) -> Result<(), Fault> {
        let path = self.path;
        let beside = format!(in self.rt.alloc(); "{path}.new")?;
        let written = self.write_beside(bytes, beside.as_str());
        if written.is_err() {
            let _ = fs::remove_file(self.rt, beside.as_str());
        }
        written.or(Err(Fault::Write))
    }
}
