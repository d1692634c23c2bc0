//! What payments lose where the rates of their currency change.
ghost use Rattle.std.specs.Prelude.{◌≡◌, ◌^◌, ◌≤◌, pos, length, map, sum_by, unsigned_abs, IfSome};
ghost use Rattle.scr_num.specs.Rounding.{ends, exact_ends, sub_ends};
ghost use Rattle.scr_num.specs.Sizes.{IsWithin};
ghost use Rattle.scr_yield_curve.specs.Rate.{rate};
ghost use Rattle.scr_yield_curve.specs.Parts.{IsCurveInMillionths, rates_in_parts};
ghost use Rattle.scr_flow.specs.LossEnds.{loss_ends};
ghost use Rattle.scr_flow.specs.Sums.{weighted_ends};
ghost use Rattle.scr_yield_curve.specs.declared.tilt.Tilt.TheVariants as tilts;
ghost use Rattle.scr_nodes.specs.OwnOf.{security_paid, liability_paid};
ghost use Rattle.scr_sheet.specs.Validity.{Valid};
ghost use Rattle.scr_rules.specs.Fits.{FitsPaid};
ghost use Rattle.scr_discounts.specs.Kept.{rows_of, row_in, IsTable, AreDiscountsOf};
ghost use Rattle.scr_rules.specs.Discounts.{discounts_in};
ghost use Rattle.scr_discounts.specs.KeptRates.{AreRatesOf};
ghost use Rattle.scr_rules.specs.Rules.{paid_ends};
ghost use Rattle.scr_rules.specs.Paid.{paid_in};
ghost use Rattle.scr_nodes.specs.declared.node.Node.TheVariants as nodes;
ghost use Rattle.scr_nodes.specs.declared.node.OfSecurity.TheVariants as of_securities;
ghost use Rattle.scr_nodes.specs.declared.node.OfLiability.TheVariants as of_liabilities;

use crate::known::{bucketed, falls_of};
use scr_book::{BalanceSheet, Name};
use scr_dates::Day;
use scr_discounts::{Curves, Rates};
use scr_flow::curve_loss;
use scr_nodes::Direction;
use scr_num::{Span, exact, sub};
use scr_yield_curve::{Discounts, Falls, Tilt};

/// What the payments of a security lose, per 1,000,000 of its value in 10^-18.
pub(crate) fn unit(
    sheet: &BalanceSheet,
    curves: &Curves,
    kept: Option<&Rates>,
    name: &Name,
    direction: Direction,
) -> Span
    requires valid { Valid sheet.now }
    requires fits { FitsPaid (security_paid sheet.now name.now direction) }
    requires rows { AreDiscountsOf sheet.now.curves (rows_of curves.now) }
    requires kept { IfSome kept (λ rates. AreRatesOf sheet.now (rows_of curves.now) rates.now) }
    ensures { ends result ≡ paid_ends (security_paid sheet.now name.now direction)
        (discounts_in sheet.now (rows_of curves.now) (nodes.Security name.now (of_securities.UnitLoss direction))) }
{
    let Some(position) = sheet.securities.get(name) else {
        unreachable!()
    };
    let security = &position.security;
    paid(
        sheet,
        curves,
        kept,
        &security.currency,
        security.flows.as_slice(),
        direction,
    )
}

/// What a liability costs more, in 10^-18 cents.
pub(crate) fn cost(
    sheet: &BalanceSheet,
    curves: &Curves,
    kept: Option<&Rates>,
    name: &Name,
    direction: Direction,
) -> Span
    requires valid { Valid sheet.now }
    requires fits { FitsPaid (liability_paid sheet.now name.now direction) }
    requires rows { AreDiscountsOf sheet.now.curves (rows_of curves.now) }
    requires kept { IfSome kept (λ rates. AreRatesOf sheet.now (rows_of curves.now) rates.now) }
    ensures { ends result ≡ sub_ends (exact_ends (pos 0)) (paid_ends (liability_paid sheet.now name.now direction)
        (discounts_in sheet.now (rows_of curves.now) (nodes.Liability name.now (of_liabilities.Rate direction)))) }
{
    let Some(liability) = sheet.liabilities.get(name) else {
        unreachable!()
    };
    let flows = liability.flows.base.as_slice();
    let loss = paid(sheet, curves, kept, &liability.currency, flows, direction);
    sub(exact(0), loss)
}

/// What payments in a currency lose.
fn paid(
    sheet: &BalanceSheet,
    curves: &Curves,
    kept: Option<&Rates>,
    currency: &Name,
    payments: &[(Day, i64)],
    direction: Direction,
) -> Span
    requires valid { Valid sheet.now }
    requires fits { FitsPaid (paid_in sheet.now currency.now payments.now direction) }
    requires rows { AreDiscountsOf sheet.now.curves (rows_of curves.now) }
    requires kept { IfSome kept (λ rates. AreRatesOf sheet.now (rows_of curves.now) rates.now) }
    ensures value { ends result ≡ paid_ends (paid_in sheet.now currency.now payments.now direction)
        (row_in currency.now sheet.now.curves (rows_of curves.now)) }
    ensures small { IsWithin (2 ^ 125) (ends result) }
{
    let Some(place) = sheet.curves.place(currency) else {
        unreachable!()
    };
    let flows = bucketed(sheet, kept, payments);
    if let Some(rates) = kept {
        return fallen(&flows, falls_of(rates, place, direction));
    }
    let rates = sheet.curves.at(place).rates.as_slice();
    let [base, up, down] = curves.row(place);
    match direction {
        Direction::Up => loss(&flows, rates, base, Tilt::Up, up),
        Direction::Down => loss(&flows, rates, base, Tilt::Down, down),
    }
}

/// What payments after 1 to 100 years lose where rates in millionths are stressed, at discounts of these rates.
fn loss(flows: &[i64; 100], rates: &[i64], from: &Discounts, tilt: Tilt, to: &Discounts) -> Span
    requires curve { IsCurveInMillionths rates.now }
    requires count { length rates.now ≤ 100 }
    requires small { sum_by unsigned_abs flows.now ≤ 50_000_000_000_000 }
    requires from { IsTable (rate rates.now tilts.Base) (map ends from.now.at) }
    requires to { IsTable (rate rates.now tilt) (map ends to.now.at) }
    ensures value { ends result ≡ loss_ends flows.now (rates_in_parts rates.now tilts.Base) (map ends from.now.at)
        (rates_in_parts rates.now tilt) (map ends to.now.at) }
    ensures small { IsWithin (2 ^ 125) (ends result) }
{
    curve_loss(flows, rates, from, tilt, to)
}

/// What payments after 1 to 100 years lose by the falls of their discounts.
pub(crate) fn fallen(flows: &[i64; 100], falls: &Falls) -> Span
    requires { sum_by unsigned_abs flows.now ≤ 50_000_000_000_000 }
    ensures value { ends result ≡ weighted_ends flows.now falls.now }
    ensures small { IsWithin (2 ^ 125) (ends result) }
{
    scr_flow::fallen(flows, falls)
}
