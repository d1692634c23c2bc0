//! Amounts in grains, thousandths of a cent.

ghost use Rattle.std.specs.Prelude.{◌≡◌, ◌*◌, pos, ◌≤ℤ◌};
ghost use Rattle.scr_num.specs.Enclosure.{Encloses};
ghost use Rattle.scr_num.specs.Rounding.{ends};
ghost use Rattle.scr_num.specs.Cents.{cents_figure, cents_ends};

use crate::{Span, exact};

/// So many cents, in grains.
pub fn cents(amount: u64) -> Span
    ensures low { result.low ≡ pos (1000 * amount) }
    ensures high { result.high ≡ pos (1000 * amount) }
    ensures ends { ends result ≡ cents_ends amount }
    ensures encloses { Encloses 1000 result.low result.high (cents_figure amount) }
    ensures not_negative { pos 0 ≤ℤ result.low }
{
    exact(i128::from(amount) * 1000)
}
