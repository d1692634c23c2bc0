//! A shelf and a sink that stand in memory, tell what they hold, and fail where they are told to.
ghost use Rattle.std.specs.Prelude.{◌≡◌, ◌<◌, ◌≤◌, ◌+◌, ◌^◌, min, not, map, [], ◌++◌, length, take, drop, Some, is_ok, IfOk, MatchResult, nat_eq, string_bytes};
ghost use Rattle.std.specs.Io.{ReadsAtMost};
ghost use Rattle.std.specs.Io.KnownBytes.{ReadConsumes};
ghost use Rattle.std.specs.List.{position};
ghost use Rattle.std.specs.Cmp.Lexicographic.{pointwise};
ghost use Rattle.std.specs.Option.{ForSome};
ghost use Rattle.scr_io.specs.MemShelf.{bytes_at, left_of};
ghost use Rattle.scr_io.specs.Memory.{file_of, is_to_fail, read_count, can_open, after_open, after_read, write_count, can_write, after_write};

use crate::{Failed, NoMemory, Shelf, Sink};
use std::alloc::Global;
use std::marker::Model;

/// A shelf of files in memory.
#[derive(Drop)]
pub struct MemShelf {
    files: Vec<(String, Vec<u8>)>,
    fails: Vec<u64>,
    piece: usize,
    calls: u64,
    faults: u64,
    strays: u64,
    // The place of the open file, and how many of its bytes were read.
    place: Option<usize>,
    offset: usize,
}

impl Model for MemShelf {
    ghost use Rattle.scr_io.specs.Memory.{ShelfState};

    ghost Value = { ShelfState };

    ghost use Rattle.scr_io.specs.MemShelf.{state_of, IsPlaced};

    ghost view = { state_of };

    ghost invariant = { IsPlaced };
}

impl MemShelf {
    /// Holds these files. The calls whose numbers are listed, counted from 1, fail, and a read
    /// gives at most `piece` bytes.
    pub fn new(files: Vec<(String, Vec<u8>)>, fails: Vec<u64>, piece: usize) -> MemShelf
        requires { 1 ≤ piece }
        ensures { result ≡ record {
          files = map file_of files.items;
          fails = fails.items;
          piece = piece;
          calls = 0;
          left = [];
          faults = 0;
          strays = 0;
        } }
    {
        MemShelf {
            files,
            fails,
            piece,
            calls: 0,
            faults: 0,
            strays: 0,
            place: None,
            offset: 0,
        }
    }

    /// How many opens and reads have failed.
    pub fn faults(&self) -> u64
        ensures { result ≡ self.now.faults }
    {
        self.faults
    }

    /// How often an absent name was opened.
    pub fn strays(&self) -> u64
        ensures { result ≡ self.now.strays }
    {
        self.strays
    }
}

impl Shelf for MemShelf {
    ghost use Rattle.std.specs.Prelude.{◌≡◌, ◌≤◌, Some, is_ok};
    ghost use Rattle.scr_io.specs.Memory.{content_under};

    ghost content = { λ s. content_under s.files };

    ghost left = { λ s. Some s.left };

    ghost faults = { λ s. s.faults };

    ghost strays = { λ s. s.strays };

    fn open(&mut self, name: &str) -> Result<(), Failed>
        ensures outcome { is_ok result ≡ can_open self.old name.now }
        ensures state { self.new ≡ after_open self.old name.now }
        ensures faults_stay { self.old.faults ≤ self.new.faults }
        ensures strays_stay { self.old.strays ≤ self.new.strays }
    {
        self.calls = self.calls.saturating_add(1);
        self.place = None;
        self.offset = 0;
        let Some(place) = place_of(&self.files, name) else {
            self.strays = self.strays.saturating_add(1);
            self.faults = self.faults.saturating_add(1);
            return Err(Failed);
        };
        if self.fails.contains(&self.calls) {
            self.faults = self.faults.saturating_add(1);
            return Err(Failed);
        }
        self.place = Some(place);
        Ok(())
    }

    fn read(&mut self, buf: &mut [u8]) -> Result<usize, Failed>
        ensures outcome { is_ok result ≡ not (is_to_fail self.old.fails self.old.calls) }
        ensures count { IfOk result (λ count. count ≡ read_count self.old (length buf.old)) }
        ensures state { self.new ≡ after_read self.old (length buf.old) }
        ensures buffer { MatchResult result
            (λ count. buf.new ≡ take count self.old.left ++ drop count buf.old)
            (λ _. buf.new ≡ buf.old) }

        ensures bound { ReadsAtMost result buf.new }
        ensures bytes { ReadConsumes (Some self.old.left) (Some self.new.left) result buf.new }
        ensures faults_stay { self.old.faults ≤ self.new.faults }
    {
        self.calls = self.calls.saturating_add(1);
        if self.fails.contains(&self.calls) {
            self.faults = self.faults.saturating_add(1);
            return Err(Failed);
        }
        let left = left_in(&self.files, self.place, self.offset);
        let count = give(left, self.piece, buf);
        self.offset += count;
        Ok(count)
    }
}

/// A sink in memory, with room for `RESERVE` bytes.
#[derive(Drop)]
pub struct MemSink {
    bytes: Vec<u8>,
    fails: Vec<u64>,
    piece: usize,
    calls: u64,
    faults: u64,
}

/// The bytes that a `MemSink` has room for: 16 MiB.
pub const RESERVE: usize = 16_777_216;

impl Model for MemSink {
    ghost use Rattle.scr_io.specs.Memory.{SinkState};

    ghost Value = { SinkState };

    ghost use Rattle.scr_io.specs.MemSink.{state_of, HasRoom};

    ghost view = { state_of };

    ghost invariant = { HasRoom };
}

impl MemSink {
    /// Holds nothing. The calls whose numbers are listed, counted from 1, fail, and a write takes
    /// at most `piece` bytes.
    pub fn new(alloc: Global, fails: Vec<u64>, piece: usize) -> Result<MemSink, NoMemory>
        ensures { IfOk result (λ sink. sink ≡ record {
          written = [];
          fails = fails.items;
          piece = piece;
          calls = 0;
          faults = 0;
        }) }
    {
        let bytes = Vec::with_capacity(alloc, RESERVE)?;
        Ok(MemSink {
            bytes,
            fails,
            piece,
            calls: 0,
            faults: 0,
        })
    }

    /// All bytes that were written.
    pub fn written(&self) -> &[u8]
        ensures { result.now ≡ self.now.written }
    {
        &self.bytes
    }

    /// How many writes have failed.
    pub fn faults(&self) -> u64
        ensures { result ≡ self.now.faults }
    {
        self.faults
    }
}

impl Sink for MemSink {
    ghost use Rattle.std.specs.Prelude.{◌≡◌, Some};

    ghost written = { λ s. Some s.written };

    ghost faults = { λ s. s.faults };

    fn write(&mut self, bytes: &[u8]) -> Result<usize, Failed>
        ensures outcome { is_ok result ≡ can_write self.old bytes.now }
        ensures count { IfOk result (λ count. count ≡ write_count self.old bytes.now) }
        ensures state { self.new ≡ after_write self.old bytes.now }
        ensures faults_stay { self.old.faults ≤ self.new.faults }
    {
        self.calls = self.calls.saturating_add(1);
        let count = self.piece.min(bytes.len());
        let has_room = count <= RESERVE - self.bytes.len();
        let takes_some = count > 0 || bytes.is_empty();
        if self.fails.contains(&self.calls) || !takes_some || !has_room {
            self.faults = self.faults.saturating_add(1);
            return Err(Failed);
        }
        self.bytes.extend_from_slice(&bytes[..count]).unwrap();
        Ok(count)
    }
}

/// The place of the first file of that name.
fn place_of(files: &[(String, Vec<u8>)], name: &str) -> Option<usize>
    ensures { result ≡
        position (λ file. pointwise nat_eq (string_bytes file.0) name.now) files.now }
{
    files.iter().position(|file| file.0.as_str() == name)
}

/// What is left of the file at that place, of which `offset` bytes were read.
fn left_in(files: &[(String, Vec<u8>)], place: Option<usize>, offset: usize) -> &[u8]
    requires place { ForSome place (λ k. k < length files.now) }
    requires offset { ForSome place (λ k. offset ≤ length (bytes_at files.now k)) }
    ensures left { result.now ≡ left_of files.now place offset }
    ensures fits { offset + length result.now < 2 ^ 64 }
{
    match place {
        Some(place) => &files[place].1[offset..],
        None => &[],
    }
}

/// Copies the first bytes of what is left, at most `piece`, to the front of the buffer.
fn give(left: &[u8], piece: usize, buf: &mut [u8]) -> usize
    requires { 1 ≤ piece }
    ensures count { result ≡ min piece (min (length left.now) (length buf.old)) }
    ensures buffer { buf.new ≡ take result left.now ++ drop result buf.old }
    ensures front { take result buf.new ≡ take result left.now }
    ensures end { result ≡ 0 → 0 < length buf.new → left.now ≡ [] }
{
    let count = piece.min(left.len().min(buf.len()));
    buf[..count].copy_from_slice(&left[..count]);
    count
}
