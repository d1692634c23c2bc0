//! The figures of a liability, from its row.
ghost use Rattle.std.specs.Prelude.{◌≡◌, ◌≤◌, pos, Some, [], sum_by, unsigned_abs};
ghost use Rattle.scr_num.specs.Rounding.{ends, exact_ends, sub_ends};
ghost use Rattle.scr_factors.specs.Values.{FactorValues};
ghost use Rattle.scr_flow.specs.Sums.{weighted_ends};
ghost use Rattle.scr_nodes.specs.Rows.{liability_of};
ghost use Rattle.scr_nodes.specs.declared.node.Direction.TheVariants as directions;
ghost use Rattle.scr_nodes.specs.declared.node.Node.TheVariants as nodes;
ghost use Rattle.scr_nodes.specs.declared.node.OfLiability.TheVariants as of_liabilities;
ghost use Rattle.scr_rules.specs.ByRow.{by_rule, IsEstimateOf};
ghost use Rattle.scr_discounts.specs.Kept.{rows_of, AreDiscountsOf};
ghost use Rattle.scr_discounts.specs.KeptRates.{AreRatesOf};

use crate::known::falls_of;
use crate::life_rules::worth_above;
use crate::market_rules::base_worth;
use crate::paid::fallen;
use scr_book::{Book, Liability};
use scr_discounts::Rates;
use scr_flow::bucket_by;
use scr_nodes::Direction;
use scr_num::{Span, exact, sub};
use scr_sheet::Projection;
use scr_yield_curve::Falls;

/// A liability by the best estimate: what it costs more where rates rise and where they fall, and what it is worth, in 10^-18
/// cents (Delegated Regulation (EU) 2015/35, Articles 165 to 167; Directive 2009/138/EC, Article 77(2)). What falls due by it
/// is kept, by which the losses under each stress are reckoned.
#[derive(Clone, Copy)]
pub struct Estimate {
    pub rate_up: Span,
    pub rate_down: Span,
    pub present: Span,
    pub(crate) currency: usize,
    pub(crate) dues: [i64; 100],
}

/// The estimate of the liability in a row. Its payments are sorted by maturity once for all figures. The row is that of its
/// name.
pub fn liability_estimate(book: &Book, rates: &Rates, liability: &Liability) -> Estimate
    requires rows { AreDiscountsOf book.now.sheet.curves (rows_of rates.now.curves) }
    requires rates { AreRatesOf book.now.sheet (rows_of rates.now.curves) rates.now }
    requires row { liability_of liability.now.name book.now.sheet.liabilities ≡ Some liability.now }
    ensures rate_up { (factors : FactorValues) → ends result.rate_up ≡ by_rule factors book.now.sheet (rows_of rates.now.curves)
        (nodes.Liability liability.now.name (of_liabilities.Rate directions.Up)) [] }
    ensures rate_down { (factors : FactorValues) → ends result.rate_down ≡ by_rule factors book.now.sheet (rows_of rates.now.curves)
        (nodes.Liability liability.now.name (of_liabilities.Rate directions.Down)) [] }
    ensures present { (factors : FactorValues) → ends result.present ≡ by_rule factors book.now.sheet (rows_of rates.now.curves)
        (nodes.Liability liability.now.name of_liabilities.Present) [] }
    ensures kept { IsEstimateOf book.now.sheet liability.now result }
{
    let sheet = book.sheet();
    let Some(currency) = sheet.curves.place(&liability.currency) else {
        unreachable!()
    };
    let dues = bucket_by(&rates.years, liability.flows.base.as_slice());
    let up = falls_of(rates, currency, Direction::Up);
    let down = falls_of(rates, currency, Direction::Down);
    let discounts = rates.curves.row(currency);
    let rate_up = costs(&dues, up);
    let rate_down = costs(&dues, down);
    let present = base_worth(&dues, discounts);
    Estimate {
        rate_up,
        rate_down,
        present,
        currency,
        dues,
    }
}

/// What payments after 1 to 100 years cost more by the falls of their discounts.
fn costs(dues: &[i64; 100], falls: &Falls) -> Span
    requires { sum_by unsigned_abs dues.now ≤ 50_000_000_000_000 }
    ensures { ends result ≡ sub_ends (exact_ends (pos 0)) (weighted_ends dues.now falls.now) }
{
    sub(exact(0), fallen(dues, falls))
}

/// By how much the liability in a row is worth more under a stress than by its estimate, in 10^-18 cents, a gain counting as
/// nil (Delegated Regulation (EU) 2015/35, Articles 137 to 143 and 152 to 159).
pub fn liability_loss(
    book: &Book,
    rates: &Rates,
    liability: &Liability,
    estimate: &Estimate,
    projection: Projection,
) -> Span
    requires rows { AreDiscountsOf book.now.sheet.curves (rows_of rates.now.curves) }
    requires rates { AreRatesOf book.now.sheet (rows_of rates.now.curves) rates.now }
    requires row { liability_of liability.now.name book.now.sheet.liabilities ≡ Some liability.now }
    requires estimate { IsEstimateOf book.now.sheet liability.now estimate.now }
    ensures { (factors : FactorValues) → ends result ≡ by_rule factors book.now.sheet (rows_of rates.now.curves)
        (nodes.Liability liability.now.name (of_liabilities.Loss projection)) [] }
{
    book.sheet();
    let stressed = bucket_by(&rates.years, liability.flows.under(projection).as_slice());
    let discounts = rates.curves.row(estimate.currency);
    worth_above(&stressed, &estimate.dues, discounts)
}
