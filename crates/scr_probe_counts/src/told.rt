//! What is told of each piece of a report: its first line, and how much passed since the piece before.
ghost use Rattle.std.specs.Prelude.{◌≡◌, ◌≤◌, ◌<◌, ◌+◌, ◌==◌, IfSome, length, position};
ghost use Rattle.scr_probe_counts.specs.FirstLine as piece;

/// How much of what passed is told.
#[derive(Drop)]
pub struct Told {
    pub passes: u64,
}

impl Told {
    /// What passed since so much was told, where all that passed is told from now on.
    pub fn since(&mut self, passes: u64) -> u64
        ensures since { self.old.passes ≤ passes → result + self.old.passes ≡ passes }
        ensures told { self.new.passes ≡ passes }
    {
        let since = passes.saturating_sub(self.passes);
        self.passes = passes;
        since
    }
}

/// The bytes of a piece before its first newline.
pub fn first_line(bytes: &[u8]) -> &[u8]
    ensures { result.now ≡ piece.first_line bytes.now }
{
    match newline_at(bytes) {
        Some(end) => &bytes[..end],
        None => bytes,
    }
}

/// The place of the first newline.
fn newline_at(bytes: &[u8]) -> Option<usize>
    ensures place { result ≡ position (λ b. b == 10) bytes.now }
    ensures within { IfSome result (λ end. end < length bytes.now) }
{
    bytes.iter().position(|b| *b == b'\n')
}
