//! Losses given default, and type 2 exposures: sums that are whole numbers of grains, thousandths of a cent.

ghost use Rattle.std.specs.Prelude.{◌≡◌, ◌*◌, ◌+◌, ◌≤◌, pos};
ghost use Rattle.scr_num.specs.Figure.{Frac};
ghost use Rattle.scr_num.specs.Enclosure.{Encloses, Measures};
ghost use Rattle.scr_num.specs.Rounding.{ends};
ghost use Rattle.scr_default.specs.Losses.{lgd_bank_exact, lgd_rein_exact};
ghost use Rattle.scr_default.specs.LossesEnds.{lgd_bank_grains, lgd_rein_grains};
ghost use Rattle.scr_default.specs.Default.{type2_figure};
ghost use Rattle.scr_default.specs.DefaultEnds.{type2_ends};
ghost use Rattle.scr_num.specs.Amounts.{IsAmount};
ghost use Rattle.scr_profile.specs.declared.limits.TheConstants.{MAX_AMOUNT};

use crate::numbers::number;
use scr_num::Span;

/// The loss given default of a bank in grains: so many cents.
pub fn lgd_bank(cents: u64) -> u64
    requires { cents ≤ MAX_AMOUNT }
    ensures value { result ≡ lgd_bank_grains cents }
    ensures exact { Measures 1000 (pos result) (lgd_bank_exact cents) }
    ensures size { result ≤ 1000 * cents }
{
    1000 * cents
}

/// The loss given default of a reinsurance arrangement in grains: Delegated Regulation (EU) 2015/35, Article 192(2).
///
/// `recov` are the recoverables, `rm` is the risk-mitigating effect on underwriting risk, and `coll` the effect of the
/// collateral, each in cents.
pub fn lgd_rein(recov: u64, rm: u64, coll: u64) -> u64
    requires recoverables { recov ≤ MAX_AMOUNT }
    requires effect { rm ≤ MAX_AMOUNT }
    requires collateral { coll ≤ MAX_AMOUNT }
    ensures value { result ≡ lgd_rein_grains recov rm coll }
    ensures exact { Measures 1000 (pos result) (lgd_rein_exact recov rm coll) }
    ensures size { result ≤ 1000 * (recov + rm) }
{
    (500 * recov + 250 * rm).saturating_sub(1000 * coll)
}

/// The capital requirement for type 2 exposures in grains: Article 202. `overdue` is what intermediaries have owed for
/// more than three months, and `other` all other exposures, in cents.
pub fn type2(overdue: u64, other: u64) -> Span
    requires overdue { overdue ≤ MAX_AMOUNT }
    requires other { other ≤ MAX_AMOUNT }
    ensures ends { ends result ≡ type2_ends overdue other }
    ensures encloses { Encloses 1000 result.low result.high (type2_figure overdue other) }
    ensures size { IsAmount (900 * overdue + 150 * other) (ends result) }
{
    number(u128::from(900 * overdue + 150 * other))
}
