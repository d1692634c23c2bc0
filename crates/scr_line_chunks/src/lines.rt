//! The records of a passage, with the numbers that their lines have in the file.
ghost use Rattle.std.specs.Prelude.{◌≡◌, ◌+◌, ◌≤◌, length};
ghost use Rattle.scr_csv.specs.LineOrder.{lines_left};
ghost use Rattle.scr_line_chunks.specs.Passages.{ended_lines, records_behind};

use memchr::memchr_iter;
use scr_csv::{Lines, lines};

/// The records of bytes before which so many lines of a file of at most 64 MiB have passed.
pub fn lines_behind(passed: u32, bytes: &[u8]) -> Lines<'_>
    requires { passed + length bytes.now ≤ 67108864 }
    ensures { lines_left result ≡ records_behind passed bytes.now }
{
    if passed == 0 {
        lines(bytes)
    } else {
        Lines {
            rest: bytes,
            passed,
        }
    }
}

/// How many lines have passed behind these bytes, before which so many had.
pub fn passed_behind(passed: u32, bytes: &[u8]) -> u32
    requires { passed + length bytes.now ≤ 67108864 }
    ensures passed { result ≡ passed + ended_lines bytes.now }
    ensures within { result ≤ passed + length bytes.now }
{
    let mut ended = passed;
    for _ in memchr_iter(b'\n', bytes) {
        ended += 1;
    }
    ended
}
