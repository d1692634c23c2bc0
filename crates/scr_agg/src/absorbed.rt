//! Amounts net of the loss absorbency of technical provisions.

ghost use Rattle.std.specs.Prelude.{◌≡◌, ℕ, ◌*◌, ◌^◌, ◌≤◌, pos, ◌≤ℤ◌, unsigned_abs};
ghost use Rattle.scr_num.specs.Figure.{Figure};
ghost use Rattle.scr_num.specs.Enclosure.{Encloses};
ghost use Rattle.scr_num.specs.Rounding.{ends};
ghost use Rattle.scr_agg.specs.Absorbed.{net_figure, net_ends};

use scr_num::{Span, exact, max, sub};

/// The gross amount less an absorption, and no less than 0 (Delegated Regulation (EU) 2015/35,
/// Article 206(2)). The amount is in grains, thousandths of a cent, and the absorption in cents.
pub fn net(gross: Span, absorb: u64) -> Span
    requires absorbed { absorb ≤ 10_000_000_000_000 }
    requires low_fits { unsigned_abs gross.low ≤ 2 ^ 100 }
    requires high_fits { unsigned_abs gross.high ≤ 2 ^ 100 }
    ensures ends { ends result ≡ net_ends (ends gross) absorb }
    ensures encloses { (figure : Figure) → Encloses 1000 gross.low gross.high figure
        → Encloses 1000 result.low result.high (net_figure figure absorb) }
    ensures not_negative { pos 0 ≤ℤ result.low }
    ensures low_size { unsigned_abs result.low ≤ unsigned_abs gross.low }
    ensures high_size { unsigned_abs result.high ≤ unsigned_abs gross.high }
{
    let absorbed = exact(i128::from(absorb) * 1000);
    max(exact(0), sub(gross, absorbed))
}
