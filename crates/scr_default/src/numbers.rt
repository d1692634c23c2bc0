//! Numbers that are known exactly.

ghost use Rattle.std.specs.Prelude.{◌≡◌, ◌^◌, ◌<◌, pos};
ghost use Rattle.scr_num.specs.Rounding.{ends, exact_ends};

use scr_num::{Span, exact};

pub(crate) fn number(v: u128) -> Span
    requires { v < 2 ^ 127 }
    ensures low { result.low ≡ pos v }
    ensures high { result.high ≡ pos v }
    ensures ends { ends result ≡ exact_ends (pos v) }
{
    exact(v as i128)
}
