//! Reading a file into passages.
ghost use Rattle.std.specs.Prelude.{◌≡◌, ◌<◌, ◌≤◌, length, IfOk, OnOk, IsErrOf};
ghost use Rattle.std.specs.Io.KnownBytes.{IsAtEnd};
ghost use Rattle.scr_io.specs.Cause.{Rose};
ghost use Rattle.scr_io.specs.Content.{IsPresentAnd, RisesOnlyIfAbsent};
ghost use Rattle.scr_io.specs.Reading.{UnlessFailed};
ghost use Rattle.scr_line_chunks.specs.Files.{bytes_of};
ghost use Rattle.scr_line_chunks.specs.Passages.{AreWhole};

use crate::Passages;
use scr_io::{MAX_BYTES, ReadFault, Shelf};
use std::alloc::Global;

/// Reads the named content to its end, as `scr_io::read_all` does, into passages. After a refusal
/// the shelf stands where it was left.
pub fn read_passages<F: Shelf>(
    alloc: Global,
    shelf: &mut F,
    name: &str,
) -> Result<Passages, ReadFault>
    ensures bytes { IfOk result (λ file.
        IsPresentAnd (F.content shelf.old name.now) (λ bytes. bytes_of file ≡ bytes)) }
    ensures whole { IfOk result (λ file. AreWhole file.whole.items) }
    ensures short { IfOk result (λ file. length (bytes_of file) ≤ MAX_BYTES) }
    ensures end { OnOk result (IsAtEnd (F.left shelf.new)) }
    ensures too_long { IsErrOf result ReadFault.TooLong →
        IsPresentAnd (F.content shelf.old name.now) (λ bytes. MAX_BYTES < length bytes) }
    ensures failed { IsErrOf result ReadFault.Failed →
        Rose (F.faults shelf.old) (F.faults shelf.new) }
    ensures steady { UnlessFailed result
        ((F.faults shelf.new ≡ F.faults shelf.old) × (F.strays shelf.new ≡ F.strays shelf.old)) }
    ensures faults_stay { F.faults shelf.old ≤ F.faults shelf.new }
    ensures strays_stay { RisesOnlyIfAbsent (F.content shelf.old name.now) (F.strays shelf.old)
        (F.strays shelf.new) }
    ensures content_stays { F.content shelf.new ≡ F.content shelf.old }
{
    shelf.open(name)?;
    let mut file = Passages::new(alloc)?;
    let mut length = 0;
    let mut buffer = [0u8; 8192];
    'reads: while length <= MAX_BYTES {
        let count = shelf.read(&mut buffer)?;
        if count == 0 {
            return Ok(file);
        }
        file.add(alloc, &buffer[..count])?;
        length += count;
    }
    Err(ReadFault::TooLong)
}
