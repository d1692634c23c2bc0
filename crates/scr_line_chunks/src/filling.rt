//! How passages are filled by what is read.
ghost use Rattle.std.specs.Prelude.{◌≡◌, ◌++◌, [], IfOk, OnOk};
ghost use Rattle.scr_line_chunks.specs.Passages.{AreWhole, IsWhole};
ghost use Rattle.scr_line_chunks.specs.Files.{bytes_of};

use crate::Passages;
use memchr::memrchr;
use scr_io::NoMemory;
use std::alloc::Global;
use std::mem;

/// A passage of so many bytes or more ends with the last newline of what is read next: six readings.
const FULL: usize = 49_152;

/// The room of a passage: seven readings, and the part of a line that the one before left. A longer
/// line doubles it, up to 64 MiB. What follows takes the room of a passage that was given back.
const ROOM: usize = 65_536;

impl Passages {
    /// No bytes yet.
    pub(crate) fn new(alloc: Global) -> Result<Passages, NoMemory>
        ensures bytes { IfOk result (λ file. bytes_of file ≡ []) }
        ensures whole { IfOk result (λ file. AreWhole file.whole.items) }
    {
        let last = Vec::with_capacity(alloc, ROOM)?;
        Ok(Passages {
            whole: Vec::new(alloc),
            last,
        })
    }

    /// Appends what was read next.
    pub(crate) fn add(&mut self, alloc: Global, bytes: &[u8]) -> Result<(), NoMemory>
        requires { AreWhole self.old.whole.items }
        ensures bytes { OnOk result (bytes_of self.new ≡ bytes_of self.old ++ bytes.now) }
        ensures whole { OnOk result (AreWhole self.new.whole.items) }
    {
        if self.last.len() < FULL {
            return self.last.extend_from_slice(bytes);
        }
        match memrchr(b'\n', bytes) {
            Some(end) => self.close(alloc, &bytes[..end + 1], &bytes[end + 1..]),
            None => self.last.extend_from_slice(bytes),
        }
    }

    /// Ends the last passage with these lines, and begins one with what follows them.
    fn close(&mut self, alloc: Global, lines: &[u8], rest: &[u8]) -> Result<(), NoMemory>
        requires lines { IsWhole lines.now }
        requires whole { AreWhole self.old.whole.items }
        ensures whole { OnOk result (AreWhole self.new.whole.items) }
        ensures bytes { OnOk result (bytes_of self.new ≡ (bytes_of self.old ++ lines.now) ++ rest.now) }
    {
        let mut next = Vec::with_capacity(alloc, ROOM)?;
        next.extend_from_slice(rest)?;
        self.last.extend_from_slice(lines)?;
        self.whole.push(mem::replace(&mut self.last, next))?;
        Ok(())
    }
}
