//! Reading the bytes that stand under a name.
ghost use Rattle.std.specs.Prelude.{◌≡◌, ◌<◌, ◌≤◌, ℕ, List, Option, length, vec_len, IfOk, OnOk, OnErr, IsErrOf};
ghost use Rattle.std.specs.Io.{ReadsAtMost};
ghost use Rattle.std.specs.Io.KnownBytes.{IsAtEnd, ReadConsumes};
ghost use Rattle.scr_io.specs.Cause.{HasCause, Rose};
ghost use Rattle.scr_io.specs.Content.{Content, IsPresentAnd, RisesOnlyIfAbsent};
ghost use Rattle.scr_io.specs.Reading.{UnlessFailed};

use crate::{Failed, NoMemory};
use std::alloc::Global;
use thiserror::Error;

/// The most bytes that a file may have: 64 MiB.
pub const MAX_BYTES: usize = 67_108_864;

/// Bytes by name. One name is open at a time, and is read from its first byte to its last.
pub trait Shelf {
    // By a name's bytes, what stands under that name.
    ghost content: { Self → List ℕ → Content };

    // The bytes of the open name that were not read yet, where they are told.
    ghost left: { Self → Option (List ℕ) };

    // How many opens and reads have failed.
    ghost faults: { Self → ℕ };

    // How often an absent name was opened.
    ghost strays: { Self → ℕ };

    /// Places the reader at the first byte of the named content. Where this fails, no bytes are
    /// left.
    fn open(&mut self, name: &str) -> Result<(), Failed>
        ensures placed { OnOk result
            (IsPresentAnd (content self.old name.now) (λ bytes. left self.new ≡ Some bytes)) }
        ensures closed { OnErr result (IsAtEnd (left self.new)) }
        ensures cause { HasCause (faults self.old) (faults self.new) result }
        ensures steady { OnOk result (faults self.new ≡ faults self.old) }
        ensures faults_stay { faults self.old ≤ faults self.new }
        ensures strays_stay { RisesOnlyIfAbsent (content self.old name.now) (strays self.old)
            (strays self.new) }
        ensures content_stays { content self.new ≡ content self.old };

    /// Gives the next bytes that are left and says how many: one or more, or none exactly at the
    /// end or for an empty buffer. Where this fails, the same bytes are left.
    fn read(&mut self, buf: &mut [u8]) -> Result<usize, Failed>
        ensures bound { ReadsAtMost result buf.new }
        ensures bytes { ReadConsumes (left self.old) (left self.new) result buf.new }
        ensures cause { HasCause (faults self.old) (faults self.new) result }
        ensures steady { OnOk result (faults self.new ≡ faults self.old) }
        ensures faults_stay { faults self.old ≤ faults self.new }
        ensures strays_stay { strays self.new ≡ strays self.old }
        ensures content_stays { content self.new ≡ content self.old };
}

/// Why a named content was not read.
#[derive(Clone, Copy, Debug, PartialEq, Eq, Error)]
pub enum ReadFault {
    /// The shelf failed, and its count of faults rose.
    #[error("the file could not be read")]
    Failed,
    /// There are more than `MAX_BYTES` bytes.
    #[error("the file has more than 64 MiB")]
    TooLong,
    /// There was no memory for the bytes.
    #[error("out of memory")]
    NoMemory,
}

impl From<Failed> for ReadFault {
    ghost use Rattle.std.specs.Prelude.{◌≡◌};
    ghost use Rattle.scr_io.specs.declared.reading.ReadFault.TheVariants as faults;

    ghost from_gives = { λ _ fault. fault ≡ faults.Failed };

    fn from(_failed: Failed) -> ReadFault {
        ReadFault::Failed
    }
}

impl From<NoMemory> for ReadFault {
    ghost use Rattle.std.specs.Prelude.{◌≡◌};
    ghost use Rattle.scr_io.specs.declared.reading.ReadFault.TheVariants as faults;

    ghost from_gives = { λ _ fault. fault ≡ faults.NoMemory };

    fn from(_refused: NoMemory) -> ReadFault {
        ReadFault::NoMemory
    }
}

/// Reads the named content to its end. After a refusal the shelf stands where it was left.
pub fn read_all<F: Shelf>(alloc: Global, shelf: &mut F, name: &str) -> Result<Vec<u8>, ReadFault>
    ensures bytes { IfOk result (λ all.
        IsPresentAnd (F.content shelf.old name.now) (λ bytes. all.items ≡ bytes)) }
    ensures short { IfOk result (λ all. vec_len all ≤ MAX_BYTES) }
    ensures end { OnOk result (IsAtEnd (F.left shelf.new)) }
    ensures too_long { IsErrOf result ReadFault.TooLong →
        IsPresentAnd (F.content shelf.old name.now) (λ bytes. MAX_BYTES < length bytes) }
    ensures failed { IsErrOf result ReadFault.Failed →
        Rose (F.faults shelf.old) (F.faults shelf.new) }
    ensures steady { UnlessFailed result
        ((F.faults shelf.new ≡ F.faults shelf.old) × (F.strays shelf.new ≡ F.strays shelf.old)) }

    ensures faults_stay { F.faults shelf.old ≤ F.faults shelf.new }
    ensures strays_stay { RisesOnlyIfAbsent (F.content shelf.old name.now) (F.strays shelf.old)
        (F.strays shelf.new) }
    ensures content_stays { F.content shelf.new ≡ F.content shelf.old }
{
    shelf.open(name)?;
    let mut bytes = Vec::new(alloc);
    let mut buffer = [0u8; 8192];
    'reads: while bytes.len() <= MAX_BYTES {
        let count = shelf.read(&mut buffer)?;
        if count == 0 {
            return Ok(bytes);
        }
        bytes.extend_from_slice(&buffer[..count])?;
    }
    Err(ReadFault::TooLong)
}
