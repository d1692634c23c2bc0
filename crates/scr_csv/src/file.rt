//! The records of a file.
ghost use Rattle.std.specs.Prelude.{◌≡◌, ◌≤◌, length};
ghost use Rattle.scr_csv.specs.Lines.{records};
ghost use Rattle.scr_csv.specs.LineOrder.{lines_left};

use crate::walk::Lines;

/// The records of a file of at most 64 MiB, each with the number of its line. A byte order mark at
/// the very start is dropped, and an empty line and one that begins with `#` are passed over.
pub fn lines(bytes: &[u8]) -> Lines<'_>
    requires { length bytes.now ≤ 67108864 }
    ensures { lines_left result ≡ records bytes.now }
{
    let rest = bytes.strip_prefix(b"\xEF\xBB\xBF").unwrap_or(bytes);
    Lines { rest, passed: 0 }
}
