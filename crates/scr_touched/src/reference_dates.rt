//! Which figures another reference date, or another reporting currency, touches.
ghost use Rattle.std.specs.Prelude.{◌≡◌, IfOk};
ghost use Rattle.scr_nodes.specs.Live.{is_stressed_liability, pays};
ghost use Rattle.scr_touched.specs.ReferenceDates.{same_date, is_foreign_to, dated_touched, reporting_touched, date_touches, date_nodes, reporting_nodes, is_of_currency};

use crate::comparisons::is_touched;
use crate::curves::{moved_nodes, push_foreign};
use scr_dates::Day;
use scr_nodes::live::{is_foreign_currency, is_stressed_liability, pays};
use scr_nodes::{Measure, Node, OfCurrency, OfLiability, OfSecurity, Whole};
use scr_sheet::{BalanceSheet, Name, Projection};
use std::alloc::{AllocError as NoMemory, Global};

/// Whether a figure is touched where the reference date and the reporting currency become these.
pub(crate) fn date_touches(sheet: &BalanceSheet, date: Day, currency: &Name, node: &Node) -> bool
    ensures { result ≡ date_touches sheet.now date currency.now node.now }
{
    match node {
        Node::Security(x, OfSecurity::UnitLoss(_)) => dated_touched(sheet, date, pays(sheet, x)),
        Node::Liability(x, OfLiability::Rate(_)) => dated_touched(
            sheet,
            date,
            sheet.liabilities.contains(x),
        ),
        Node::Liability(x, OfLiability::Present) => dated_touched(
            sheet,
            date,
            sheet.liabilities.contains(x),
        ),
        Node::Liability(x, OfLiability::Loss(projection)) => {
            dated_touched(sheet, date, is_stressed_liability(sheet, x, *projection))
        }
        Node::Currency(x, OfCurrency::Scenario(_, _)) => reporting_touched(sheet, currency, x),
        Node::Currency(x, OfCurrency::Choice) => reporting_touched(sheet, currency, x),
        Node::Currency(x, OfCurrency::Picked(_)) => reporting_touched(sheet, currency, x),
        Node::Whole(Whole::Currency(_)) => sheet.numbers.currency != *currency,
        _ => false,
    }
}

/// Payments are discounted from another day.
fn dated_touched(sheet: &BalanceSheet, date: Day, live: bool) -> bool
    ensures { result ≡ dated_touched sheet.now date live }
{
    is_touched(live, live, same_date(sheet, date), true)
}

fn same_date(sheet: &BalanceSheet, date: Day) -> bool
    ensures { result ≡ same_date sheet.now date }
{
    sheet.numbers.asof == date
}

/// The currency becomes a foreign one, or ceases to be one.
fn reporting_touched(sheet: &BalanceSheet, reporting: &Name, currency: &Name) -> bool
    ensures { result ≡ reporting_touched sheet.now reporting.now currency.now }
{
    let before = is_foreign_currency(sheet, currency);
    let after = is_foreign_to(sheet, reporting, currency);
    is_touched(before, after, true, true)
}

fn is_foreign_to(sheet: &BalanceSheet, reporting: &Name, currency: &Name) -> bool
    ensures { result ≡ is_foreign_to sheet.now reporting.now currency.now }
{
    match sheet.curves.get(currency) {
        Some(curve) => *reporting != curve.currency,
        None => false,
    }
}

/// The figures that they may touch: those of payments, unless the date stays, and those of the
/// reporting currency before. The cost is that of all securities and liabilities, unless the date
/// stays.
pub(crate) fn date_nodes(
    alloc: Global,
    sheet: &BalanceSheet,
    date: Day,
) -> Result<Vec<Node>, NoMemory>
    ensures { IfOk result (λ list. list.items ≡ date_nodes sheet.now date) }
{
    let mut list = moved_nodes(alloc, sheet, same_date(sheet, date))?;
    push_foreign(&mut list, &sheet.numbers.currency)?;
    Ok(list)
}

/// The figures of the reporting currency afterwards, and what all foreign currencies come to.
pub(crate) fn reporting_nodes(alloc: Global, currency: &Name) -> Result<Vec<Node>, NoMemory>
    ensures { IfOk result (λ list. list.items ≡ reporting_nodes currency.now) }
{
    let mut list = Vec::new(alloc);
    push_foreign(&mut list, currency)?;
    list.extend_from_slice(&[
        Node::Whole(Whole::Currency(Measure::Gross)),
        Node::Whole(Whole::Currency(Measure::Net)),
    ])?;
    Ok(list)
}

/// Whether a figure is one of the currency as a foreign one.
pub(crate) fn is_of_currency(currency: &Name, node: &Node) -> bool
    ensures { result ≡ is_of_currency currency.now node.now }
{
    match node {
        Node::Currency(x, OfCurrency::Scenario(_, _))
        | Node::Currency(x, OfCurrency::Choice)
        | Node::Currency(x, OfCurrency::Picked(_)) => x == currency,
        _ => false,
    }
}
