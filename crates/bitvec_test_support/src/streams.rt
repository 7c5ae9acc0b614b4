//! Readers and writers that give or take little, or fail.
//!
//! A `Vec<u8, A>` is the writer that takes everything and keeps it.
ghost use Rattle.std.specs.Prelude.{◌≡◌, ◌+◌, ◌<◌, ◌≤◌, ◌↔◌, [], length, min, Some, None, IfOk, OnErr, IsTrue, IsFalse};
ghost use Rattle.std.specs.Io.{ReadsAtMost, WritesAtMost};
ghost use Rattle.std.specs.Io.KnownBytes.{Keeps, ReadConsumes, WriteAppends};
ghost use Rattle.bitvec_test_support.specs.Fails.{FailsWhere};

use std::io::{self, ErrorKind, Read, Write};

/// A reader that gives one byte a call, and fails with `Interrupted` between two bytes.
#[derive(Drop)]
pub struct OneByteReader<'a> {
    /// What is still to be read.
    pub bytes: &'a [u8],

    /// Whether the next read fails, as the one after a byte does where another byte follows.
    pub is_interrupted: bool,
}

impl<'a> OneByteReader<'a> {
    /// A reader over `bytes`, whose first read gives a byte.
    pub fn new(bytes: &'a [u8]) -> Self
        ensures bytes { result.bytes.now ≡ bytes.now }
        ensures uninterrupted { IsFalse result.is_interrupted }
    {
        OneByteReader {
            bytes,
            is_interrupted: false,
        }
    }
}

impl<'a> Read for OneByteReader<'a> {
    ghost remaining = { λ reader. Some reader.bytes.now };

    fn read(&mut self, buf: &mut [u8]) -> io::Result<usize>
        ensures bound { ReadsAtMost result buf.new }
        ensures bytes { ReadConsumes (Some self.old.bytes.now) (Some self.new.bytes.now) result buf.new }
        ensures one { IfOk result (λ count. count ≤ 1) }
        ensures fails { FailsWhere result (IsTrue self.old.is_interrupted) ErrorKind.Interrupted }
        ensures next { IfOk result (λ count. IsTrue self.new.is_interrupted ↔ (0 < count) × (0 < length self.new.bytes.now)) }
        ensures retried { OnErr result (IsFalse self.new.is_interrupted) }
    {
        if self.is_interrupted {
            self.is_interrupted = false;
            return Err(io::Error::from(ErrorKind::Interrupted));
        }
        let most = buf.len().min(1);
        let count = self.bytes.read(&mut buf[..most])?;
        self.is_interrupted = count > 0 && !self.bytes.is_empty();
        Ok(count)
    }
}

/// A reader that gives its bytes, and from then on fails.
#[derive(Drop)]
pub struct FailingReader<'a> {
    /// What is still to be read.
    pub bytes: &'a [u8],

    /// The kind of the error that follows the bytes.
    pub kind: ErrorKind,
}

impl<'a> FailingReader<'a> {
    /// A reader that gives `bytes`, and then an error of the kind `kind` at each call.
    pub fn new(bytes: &'a [u8], kind: ErrorKind) -> Self
        ensures bytes { result.bytes.now ≡ bytes.now }
        ensures kind { result.kind ≡ kind }
    {
        FailingReader { bytes, kind }
    }
}

impl<'a> Read for FailingReader<'a> {
    ghost remaining = { λ reader. Some reader.bytes.now };

    fn read(&mut self, buf: &mut [u8]) -> io::Result<usize>
        ensures bound { ReadsAtMost result buf.new }
        ensures bytes { ReadConsumes (Some self.old.bytes.now) (Some self.new.bytes.now) result buf.new }
        ensures count { IfOk result (λ count. count ≡ min (length self.old.bytes.now) (length buf.old)) }
        ensures fails { FailsWhere result (self.old.bytes.now ≡ []) self.old.kind }
        ensures kept { self.new.kind ≡ self.old.kind }
    {
        if self.bytes.is_empty() {
            return Err(io::Error::from(self.kind));
        }
        self.bytes.read(buf)
    }
}

/// A writer that takes a number of bytes in all, keeps none of them, and fails once it is full.
#[derive(Drop)]
pub struct FailingWriter {
    /// How many bytes it still takes.
    pub room: usize,

    /// The kind of the error once it is full.
    pub kind: ErrorKind,
}

impl FailingWriter {
    /// A writer that takes `room` bytes. Once it is full, a write fails with an error of the kind
    /// `kind`, and so does a flush: what fits exactly still fails where it is flushed.
    pub fn new(room: usize, kind: ErrorKind) -> Self
        ensures room { result.room ≡ room }
        ensures kind { result.kind ≡ kind }
    {
        FailingWriter { room, kind }
    }
}

impl Write for FailingWriter {
    fn write(&mut self, buf: &[u8]) -> io::Result<usize>
        ensures bound { WritesAtMost result buf.now }
        ensures bytes { WriteAppends None None result buf.now }
        ensures count { IfOk result (λ count. (count ≡ min (length buf.now) self.old.room)
            × (self.new.room + count ≡ self.old.room)) }
        ensures fails { FailsWhere result (self.old.room ≡ 0) self.old.kind }
        ensures unchanged { OnErr result (self.new ≡ self.old) }
        ensures kept { self.new.kind ≡ self.old.kind }
    {
        self.flush()?;
        let count = buf.len().min(self.room);
        self.room -= count;
        Ok(count)
    }

    fn flush(&mut self) -> io::Result<()>
        ensures bytes { Keeps None None }
        ensures fails { FailsWhere result (self.old.room ≡ 0) self.old.kind }
        ensures unchanged { self.new ≡ self.old }
    {
        if self.room == 0 {
            return Err(io::Error::from(self.kind));
        }
        Ok(())
    }
}
