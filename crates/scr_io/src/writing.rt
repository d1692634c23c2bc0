//! Writing bytes in the pieces that a sink takes.
ghost use Rattle.std.specs.Prelude.{◌≡◌, ◌<◌, ◌≤◌, ℕ, List, Option, length, IfOk, OnOk};
ghost use Rattle.std.specs.Io.{WritesAtMost};
ghost use Rattle.std.specs.Io.KnownBytes.{Appends, WriteAppends};
ghost use Rattle.scr_io.specs.Cause.{HasCause};
ghost use Rattle.scr_io.specs.Front.{AppendsFront};

use crate::Failed;

/// A place that takes bytes one piece after another.
pub trait Sink {
    // All bytes that were written, where they are told.
    ghost written: { Self → Option (List ℕ) };

    // How many writes have failed.
    ghost faults: { Self → ℕ };

    /// Takes the first bytes of the piece, one or more unless it is empty, and says how many. Where
    /// this fails, it takes none.
    fn write(&mut self, bytes: &[u8]) -> Result<usize, Failed>
        ensures bound { WritesAtMost result bytes.now }
        ensures progress { 0 < length bytes.now → IfOk result (λ count. 0 < count) }
        ensures appends { WriteAppends (written self.old) (written self.new) result bytes.now }
        ensures cause { HasCause (faults self.old) (faults self.new) result }
        ensures steady { OnOk result (faults self.new ≡ faults self.old) }
        ensures faults_stay { faults self.old ≤ faults self.new };
}

/// Writes all the bytes. Where the sink fails, what it took until then is a front of them.
pub fn write_all<K: Sink>(sink: &mut K, bytes: &[u8]) -> Result<(), Failed>
    ensures ok { OnOk result (Appends (K.written sink.old) (K.written sink.new) bytes.now) }
    ensures front { AppendsFront (K.written sink.old) (K.written sink.new) bytes.now }
    ensures failed { HasCause (K.faults sink.old) (K.faults sink.new) result }
    ensures steady { OnOk result (K.faults sink.new ≡ K.faults sink.old) }
    ensures faults_stay { K.faults sink.old ≤ K.faults sink.new }
{
    let mut rest = bytes;
    'pieces: while !rest.is_empty() {
        let count = sink.write(rest)?;
        rest = &rest[count..];
    }
    Ok(())
}
