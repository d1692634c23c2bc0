//! A file that is made when something is written to it.
ghost use Rattle.std.specs.Prelude.{◌≡◌, IsOk, None, is_some, true};
ghost use Rattle.std.specs.Io.{WritesAtMost};
ghost use Rattle.std.specs.Io.KnownBytes.{Keeps, WriteAppends};

use std::fs;
use std::io::{self, Write};
use std::rt::Files;

/// A file of this name, which is made, or emptied, at the first write. What a file takes no contract says.
#[derive(Drop)]
pub struct LateFile<'a, R: Files> {
    rt: &'a R,
    name: &'a str,
    file: Option<R::File>,
}

impl<'a, R: Files> LateFile<'a, R> {
    /// The file of this name, which is not made yet.
    pub fn new(rt: &'a R, name: &'a str) -> LateFile<'a, R>
        ensures name { result.name ≡ name.entry }
        ensures none { result.file ≡ None }
    {
        LateFile {
            rt,
            name,
            file: None,
        }
    }
}

impl<R: Files> Write for LateFile<'_, R> {
    fn write(&mut self, buf: &[u8]) -> io::Result<usize>
        ensures bound { WritesAtMost result buf.now }
        ensures bytes { WriteAppends None None result buf.now }
        ensures name { self.new.name ≡ self.old.name }
        ensures made { IsOk result → is_some self.new.file ≡ true }
        ensures kept { is_some self.old.file ≡ true → is_some self.new.file ≡ true }
    {
        if self.file.is_none() {
            self.file = Some(fs::create(self.rt, self.name)?);
        }
        match &mut self.file {
            Some(file) => file.write(buf),
            None => Ok(0),
        }
    }

    fn flush(&mut self) -> io::Result<()>
        ensures bytes { Keeps None None }
        ensures ok { IsOk result }
        ensures same { self.new ≡ self.old }
    {
        Ok(())
    }
}
