//! The edge of the system: its files as a shelf, and a writer of bytes as a sink.
ghost use Rattle.std.specs.Prelude.{◌≡◌, ◌<◌, length, IfOk};
ghost use Rattle.std.specs.Io.{ReadsAtMost, WritesAtMost};
ghost use Rattle.std.specs.Io.KnownBytes.{ReadConsumes, WriteAppends};

use crate::{Failed, Shelf, Sink};
use std::fs;
use std::io::{Read, Write};
use std::marker::Model;
use std::rt::Files;

/// The files of the system by their paths. It tells nothing of them, and contracts see it as its
/// count of faults.
#[derive(Drop)]
pub struct HostShelf<'a, R: Files> {
    rt: &'a R,
    file: Option<R::File>,
    faults: u64,
}

impl<'a, R: Files> Model for HostShelf<'a, R> {
    ghost use Rattle.std.specs.Prelude.{ℕ};

    ghost Value = { ℕ };

    ghost view = { λ s. s.faults };
}

impl<'a, R: Files> HostShelf<'a, R> {
    /// A shelf with no file open.
    pub fn new(rt: &'a R) -> HostShelf<'a, R>
        ensures { result ≡ 0 }
    {
        HostShelf {
            rt,
            file: None,
            faults: 0,
        }
    }
}

impl<'a, R: Files> Shelf for HostShelf<'a, R> {
    ghost use Rattle.std.specs.Prelude.{None};
    ghost use Rattle.scr_io.specs.Content.{Untold};

    ghost content = { λ _ _. Untold };

    ghost left = { λ _. None };

    ghost faults = { λ s. s };

    ghost strays = { λ _. 0 };

    fn open(&mut self, name: &str) -> Result<(), Failed> {
        match fs::open(self.rt, name) {
            Ok(file) => {
                self.file = Some(file);
                Ok(())
            }
            Err(_) => {
                self.file = None;
                self.faults = self.faults.saturating_add(1);
                Err(Failed)
            }
        }
    }

    fn read(&mut self, buf: &mut [u8]) -> Result<usize, Failed> {
        let Some(file) = &mut self.file else {
            return Ok(0);
        };
        match read_step(file, buf) {
            Ok(count) => Ok(count),
            Err(Failed) => {
                self.faults = self.faults.saturating_add(1);
                Err(Failed)
            }
        }
    }
}

/// One read: what the reader gives next, none only at its end or for an empty buffer. A read that
/// fails is no end.
pub fn read_step<R: Read>(reader: &mut R, buf: &mut [u8]) -> Result<usize, Failed>
    ensures bound { ReadsAtMost result buf.new }
    ensures bytes { ReadConsumes (R.remaining reader.old) (R.remaining reader.new) result buf.new }
{
    match reader.read(buf) {
        Ok(count) => Ok(count),
        Err(_) => Err(Failed),
    }
}

/// A writer as a sink. It tells nothing of what was written, and contracts see it as its count of
/// faults.
#[derive(Drop)]
pub struct HostSink<W: Write> {
    out: W,
    faults: u64,
}

impl<W: Write> Model for HostSink<W> {
    ghost use Rattle.std.specs.Prelude.{ℕ};

    ghost Value = { ℕ };

    ghost view = { λ s. s.faults };
}

impl<W: Write> HostSink<W> {
    /// A sink over this writer, which must keep no bytes back.
    pub fn new(out: W) -> HostSink<W>
        ensures { result ≡ 0 }
    {
        HostSink { out, faults: 0 }
    }
}

impl<W: Write> Sink for HostSink<W> {
    ghost use Rattle.std.specs.Prelude.{None};

    ghost written = { λ _. None };

    ghost faults = { λ s. s };

    fn write(&mut self, bytes: &[u8]) -> Result<usize, Failed> {
        match write_step(&mut self.out, bytes) {
            Ok(count) => Ok(count),
            Err(Failed) => {
                self.faults = self.faults.saturating_add(1);
                Err(Failed)
            }
        }
    }
}

/// One write: how many of the bytes the writer took, one or more unless there are none. Where it
/// fails, or takes none, it took nothing.
pub fn write_step<W: Write>(writer: &mut W, bytes: &[u8]) -> Result<usize, Failed>
    ensures bound { WritesAtMost result bytes.now }
    ensures progress { 0 < length bytes.now → IfOk result (λ count. 0 < count) }
    ensures appends { WriteAppends (W.contents writer.old)
        (W.contents writer.new) result bytes.now }
{
    match writer.write(bytes) {
        Ok(count) if count > 0 || bytes.is_empty() => Ok(count),
        _ => Err(Failed),
    }
}
