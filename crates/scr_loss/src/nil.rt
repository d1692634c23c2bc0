//! Amounts below 0, which count as nil.

ghost use Rattle.std.specs.Prelude.{◌≡◌, ◌≤◌, pos, ◌≤ℤ◌, unsigned_abs};
ghost use Rattle.scr_num.specs.Rounding.{ends};
ghost use Rattle.scr_loss.specs.OperationalEnds.{or_nil_ends};

use scr_num::{Span, exact, max};

/// The greater of 0 and an amount.
pub(crate) fn or_nil(a: Span) -> Span
    ensures ends { ends result ≡ or_nil_ends (ends a) }
    ensures not_negative { pos 0 ≤ℤ result.low }
    ensures low_size { unsigned_abs result.low ≤ unsigned_abs a.low }
    ensures high_size { unsigned_abs result.high ≤ unsigned_abs a.high }
{
    max(exact(0), a)
}
