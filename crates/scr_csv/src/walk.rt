//! The records of a file, line by line.
ghost use Rattle.std.specs.Prelude.{◌≡◌, ℕ, ◌+◌, ◌≤◌, ◌<◌, ◌==◌, ◌-◌, ◌∷◌, List, length, take};
ghost use Rattle.std.specs.Prelude.{drop, position, IfSome};
ghost use Rattle.std.specs.Str.Lines.{strip_carriage_return, lines as text_lines};
ghost use Rattle.scr_csv.specs.Lines.{is_record as tells_a_record};

use memchr::memchr;

/// A record: the number of its line, from 1, and the line without its end.
#[derive(Clone, Copy, Debug)]
pub struct Line<'a> {
    pub number: u32,
    pub text: &'a [u8],
    ghost short: { length text.now ≤ 67108864 },
}

/// The records that are left of a file of at most 64 MiB.
#[derive(Drop)]
pub struct Lines<'a> {
    pub rest: &'a [u8],
    pub passed: u32,
    ghost in_range: { passed + length rest.now ≤ 67108864 },
}

impl<'a> Iterator for Lines<'a> {
    type Item = Line<'a>;

    ghost use Rattle.std.specs.Iterator.{YieldsFirstBy, item_count};
    ghost use Rattle.scr_csv.specs.LineOrder.{lines_left, numbered_text};

    ghost next_gives = { YieldsFirstBy numbered_text lines_left };

    ghost remaining = { item_count lines_left };

    fn next(&mut self) -> Option<Line<'a>> {
        while !self.rest.is_empty() {
            let (text, rest) = first_line(self.rest);
            self.rest = rest;
            self.passed += 1;
            if is_record(text) {
                return Some(Line {
                    number: self.passed,
                    text,
                });
            }
        }
        None
    }
}

/// The first line, and what follows its end.
fn first_line(bytes: &[u8]) -> (&[u8], &[u8])
    requires { 0 < length bytes.now }
    ensures shorter { length result.1.now < length bytes.now }
    ensures within { length result.0.now ≤ length bytes.now }
    ensures lines { text_lines bytes.now ≡ result.0.now ∷ text_lines result.1.now }
{
    match newline_at(bytes) {
        Some(end) => (without_return(&bytes[..end]), &bytes[end + 1..]),
        None => (bytes, &[]),
    }
}

/// The place of the first newline.
fn newline_at(bytes: &[u8]) -> Option<usize>
    ensures place { result ≡ position (λ b. b == 10) bytes.now }
    ensures within { IfSome result (λ end. end < length bytes.now) }
{
    memchr(b'\n', bytes)
}

fn without_return(line: &[u8]) -> &[u8]
    ensures value { result.now ≡ strip_carriage_return line.now }
    ensures within { length result.now ≤ length line.now }
{
    line.strip_suffix(b"\r").unwrap_or(line)
}

fn is_record(text: &[u8]) -> bool
    ensures { result ≡ tells_a_record text.now }
{
    match text {
        [] => false,
        [first, ..] => *first != b'#',
    }
}
