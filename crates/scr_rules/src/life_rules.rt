//! The rules of biometric stresses, and the roots over them.
ghost use Rattle.std.specs.Prelude.{◌≡◌, ◌≤◌, pos, All, map, sum_by, unsigned_abs, IfSome};
ghost use Rattle.std.specs.List.{range_with_len};
ghost use Rattle.scr_num.specs.Rounding.{ends, exact_ends, max_ends};
ghost use Rattle.scr_bio.specs.BiometricEnds.{life_ends, slt_ends};
ghost use Rattle.scr_yield_curve.specs.DiscountEnds.{IsDiscount};
ghost use Rattle.scr_flow.specs.LossEnds.{present_ends};
ghost use Rattle.scr_nodes.specs.OwnOf.{liability_valued, paid_under, stress_absorbed as absorbed_of_stress};
ghost use Rattle.scr_nodes.specs.declared.node.Node.TheVariants as nodes;
ghost use Rattle.scr_nodes.specs.declared.node.OfLiability.TheVariants as of_liabilities;
ghost use Rattle.scr_sheet.specs.Validity.{Valid};
ghost use Rattle.scr_rules.specs.Figures.{figures_from};
ghost use Rattle.scr_discounts.specs.Kept.{rows_of, row_in, tables, AreDiscountsOf};
ghost use Rattle.scr_rules.specs.Discounts.{discounts_in};
ghost use Rattle.scr_discounts.specs.KeptRates.{AreRatesOf};
ghost use Rattle.scr_rules.specs.LifeFits.{FitsExcess};
ghost use Rattle.scr_rules.specs.RootFits.{FitsRoot};
ghost use Rattle.scr_rules.specs.LifeRules.{excess_ends, less_at};
ghost use Rattle.scr_rules.specs.Paid.{valued_in};

use crate::known::bucketed;
use crate::market_rules::base_worth;
use crate::spans::at;
use scr_book::{BalanceSheet, Name};
use scr_dates::Day;
use scr_discounts::{Curves, Rates};
use scr_nodes::Biometric;
use scr_nodes::single_numbers::stress_key;
use scr_num::{Span, exact, max};
use scr_sheet::Projection;
use scr_yield_curve::Discounts;

/// By how much a liability is worth more under a stress than by the best estimate, in 10^-18 cents,
/// a gain counting as nil.
pub(crate) fn excess(
    sheet: &BalanceSheet,
    curves: &Curves,
    kept: Option<&Rates>,
    name: &Name,
    projection: Projection,
) -> Span
    requires valid { Valid sheet.now }
    requires fits { FitsExcess (liability_valued sheet.now name.now)
        (paid_under sheet.now name.now projection) }
    requires rows { AreDiscountsOf sheet.now.curves (rows_of curves.now) }
    requires kept { IfSome kept (λ rates. AreRatesOf sheet.now (rows_of curves.now) rates.now) }
    ensures { ends result
        ≡ excess_ends (liability_valued sheet.now name.now) (paid_under sheet.now name.now projection)
        (discounts_in sheet.now (rows_of curves.now) (nodes.Liability name.now (of_liabilities.Loss projection))) }
{
    let Some(liability) = sheet.liabilities.get(name) else {
        unreachable!()
    };
    let stressed = liability.flows.under(projection).as_slice();
    let base = liability.flows.base.as_slice();
    worth_more(sheet, curves, kept, &liability.currency, stressed, base)
}

/// By how much payments in a currency are worth more than others. What falls due at one maturity is
/// set off before it is discounted.
fn worth_more(
    sheet: &BalanceSheet,
    curves: &Curves,
    kept: Option<&Rates>,
    currency: &Name,
    stressed: &[(Day, i64)],
    base: &[(Day, i64)],
) -> Span
    requires valid { Valid sheet.now }
    requires fits { FitsExcess (valued_in sheet.now currency.now base.now) stressed.now }
    requires rows { AreDiscountsOf sheet.now.curves (rows_of curves.now) }
    requires kept { IfSome kept (λ rates. AreRatesOf sheet.now (rows_of curves.now) rates.now) }
    ensures value { ends result
        ≡ excess_ends (valued_in sheet.now currency.now base.now) stressed.now
        (row_in currency.now sheet.now.curves (rows_of curves.now)) }
{
    let Some(place) = sheet.curves.place(currency) else {
        unreachable!()
    };
    let before = bucketed(sheet, kept, base);
    worth_above(&bucketed(sheet, kept, stressed), &before, curves.row(place))
}

/// By how much amounts after 1 to 100 years are worth more than others, a gain counting as nil.
pub(crate) fn worth_above(stressed: &[i64; 100], base: &[i64; 100], row: &[Discounts; 3]) -> Span
    requires stressed { sum_by unsigned_abs stressed.now ≤ 50_000_000_000_000 }
    requires base { sum_by unsigned_abs base.now ≤ 50_000_000_000_000 }
    requires small { sum_by unsigned_abs (map (less_at stressed.now base.now) (range_with_len 0 100))
        ≤ 100_000_000_000_000 }
    requires in_range { All IsDiscount (tables row.now).base }
    ensures { ends result ≡ max_ends (present_ends (map (less_at stressed.now base.now) (range_with_len 0 100))
        (tables row.now).base) (exact_ends (pos 0)) }
{
    max(base_worth(&less(stressed, base), row), exact(0))
}

/// The differences of the amounts at each maturity.
fn less(amounts: &[i64; 100], others: &[i64; 100]) -> [i64; 100]
    requires amounts { sum_by unsigned_abs amounts.now ≤ 50_000_000_000_000 }
    requires others { sum_by unsigned_abs others.now ≤ 50_000_000_000_000 }
    ensures value { result ≡ map (less_at amounts.now others.now) (range_with_len 0 100) }
{
    let mut differences = [0; 100];
    for k in 0..100 {
        differences[k] = amounts[k] - others[k];
    }
    differences
}

/// What is absorbed of a stress, in cents.
pub(crate) fn stress_absorbed(
    sheet: &BalanceSheet,
    biometric: Biometric,
    projection: Projection,
) -> u64
    ensures { result ≡ absorbed_of_stress sheet.now biometric projection }
{
    match stress_key(biometric, projection) {
        Some(key) => sheet.numbers.absorbed(key),
        None => 0,
    }
}

/// The root over the seven risks of life insurance.
pub(crate) fn life(spans: &[Span]) -> Span
    requires { FitsRoot 7 (map ends spans.now) }
    ensures { ends result ≡ life_ends (figures_from (map ends spans.now) 0 7) }
{
    scr_bio::life(&[
        at(spans, 0),
        at(spans, 1),
        at(spans, 2),
        at(spans, 3),
        at(spans, 4),
        at(spans, 5),
        at(spans, 6),
    ])
}

/// The root over the six risks of health insurance similar to life.
pub(crate) fn slt(spans: &[Span]) -> Span
    requires { FitsRoot 6 (map ends spans.now) }
    ensures { ends result ≡ slt_ends (figures_from (map ends spans.now) 0 6) }
{
    scr_bio::slt(&[
        at(spans, 0),
        at(spans, 1),
        at(spans, 2),
        at(spans, 3),
        at(spans, 4),
        at(spans, 5),
    ])
}
