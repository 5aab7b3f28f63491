//! The real streams and files, as the traits of the outside: what both programs hand on.
//!
//! They count their faults and tell no bytes, so no clause says that a stream gives what it holds.
//! The trap: a write of nothing is a fault here, or `put_all` would go round for ever.

ghost use Rattle.std.specs.Prelude.{◌≤◌, [], None};
ghost use Rattle.std.specs.Io.{ReadsAtMost, WritesAtMost};
ghost use Rattle.fx_base.specs.Causes.{Rose, HasCause};
ghost use Rattle.fx_base.specs.Sink.{WritesSome};

use crate::{Failed, Shelf, Sink, Source};
use std::fs::File;
use std::io::{Read, Stderr, Stdin, Stdout, Write};
use std::os::unix::fs::FileExt;
use std::{io, rt};

// One fault more.
fn counted(faults: &mut u64) -> Failed
    ensures rose { Rose faults.old faults.new }
    ensures later { faults.old ≤ faults.new }
{
    *faults = faults.saturating_add(1);
    Failed
}

/// Standard input.
#[derive(Drop)]
pub struct StdIn {
    stream: Stdin,
    faults: u64,
}

impl StdIn {
    /// No read has failed yet.
    pub fn new(stream: Stdin) -> Self {
        StdIn { stream, faults: 0 }
    }
}

impl<K: Sink> Source<K> for StdIn {
    ghost seen = { λ s. record { left = None; asked = []; faults = s.faults } };

    fn read(&mut self, buf: &mut [u8], _shown: &K) -> Result<usize, Failed> {
        match self.stream.read(buf) {
            Ok(count) => Ok(count),
            Err(_) => Err(counted(&mut self.faults)),
        }
    }
}

// Writes a front of the piece, and some of it where it isn't empty.
fn write_some<W: Write>(stream: &mut W, piece: &[u8], faults: &mut u64) -> Result<usize, Failed>
    ensures bound { WritesAtMost result piece.now }
    ensures some { WritesSome result piece.now }
    ensures cause { HasCause faults.old faults.new result }
{
    match stream.write(piece) {
        Ok(count) if count > 0 || piece.is_empty() => Ok(count),
        _ => Err(counted(faults)),
    }
}

/// Standard output.
#[derive(Drop)]
pub struct StdOut {
    stream: Stdout,
    faults: u64,
}

impl StdOut {
    /// No write has failed yet.
    pub fn new(stream: Stdout) -> Self {
        StdOut { stream, faults: 0 }
    }
}

impl Sink for StdOut {
    ghost seen = { λ s. record { taken = None; faults = s.faults } };

    fn write(&mut self, piece: &[u8]) -> Result<usize, Failed> {
        write_some(&mut self.stream, piece, &mut self.faults)
    }
}

/// Standard error.
#[derive(Drop)]
pub struct StdErr {
    stream: Stderr,
    faults: u64,
}

impl StdErr {
    /// No write has failed yet.
    pub fn new(stream: Stderr) -> Self {
        StdErr { stream, faults: 0 }
    }
}

impl Sink for StdErr {
    ghost seen = { λ s. record { taken = None; faults = s.faults } };

    fn write(&mut self, piece: &[u8]) -> Result<usize, Failed> {
        write_some(&mut self.stream, piece, &mut self.faults)
    }
}

/// The files of the system. Each read opens its file anew.
#[derive(Drop)]
pub struct Files<'a, R> {
    system: &'a R,
    faults: u64,
}

impl<'a, R: rt::Files<File = File>> Files<'a, R> {
    /// No read has failed yet.
    pub fn new(system: &'a R) -> Self {
        Files { system, faults: 0 }
    }
}

fn read_at<R: rt::Files<File = File>>(
    system: &R,
    name: &str,
    at: u64,
    buf: &mut [u8],
) -> io::Result<usize>
    ensures { ReadsAtMost result buf.new }
{
    File::open(system, name)?.read_at(buf, at)
}

impl<'a, R: rt::Files<File = File>> Shelf for Files<'a, R> {
    ghost seen = { λ s. record { files = None; asked = []; faults = s.faults } };

    fn read_at(&mut self, name: &str, at: u64, buf: &mut [u8]) -> Result<usize, Failed> {
        match read_at(self.system, name, at, buf) {
            Ok(count) => Ok(count),
            Err(_) => Err(counted(&mut self.faults)),
        }
    }
}
