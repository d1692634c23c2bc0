//! All that is kept of the rates of a balance sheet.
ghost use Rattle.std.specs.Prelude.{◌≡◌, ◌≤◌, All, length, IfOk, map};
ghost use Rattle.scr_num.specs.Rounding.{ends};
ghost use Rattle.scr_yield_curve.specs.DiscountEnds.{IsDiscount};
ghost use Rattle.scr_yield_curve.specs.Falls.{differences};
ghost use Rattle.scr_yield_curve.specs.Parts.{IsCurveInMillionths, rates_in_parts};
ghost use Rattle.scr_yield_curve.specs.declared.tilt.Tilt.TheVariants as tilts;
ghost use Rattle.scr_sheet.specs.Validity.{Valid};
ghost use Rattle.scr_discounts.specs.Kept.{AreDiscountsAt, AreDiscountsOf, all_discounts, tables, rows_of};
ghost use Rattle.scr_discounts.specs.KeptRates.{AreKeptBut, falls_at, falls_of, known_of, all_rates};

use crate::discounting::curves_after;
use crate::{CurrencyFalls, Curves, Rates, curves_of};
use scr_dates::Years;
use scr_sheet::BalanceSheet;
use scr_tables::Name;
use scr_yield_curve::{Discounts, Falls, Tilt, yearly};
use std::alloc::{AllocError as NoMemory, Global};

/// The discounts of each currency of the balance sheet with their falls. Only want of memory keeps them back.
pub fn rates_of(alloc: Global, sheet: &BalanceSheet) -> Result<Rates, NoMemory>
    requires { Valid sheet.now }
    ensures { IfOk result (λ rates. known_of rates ≡ all_rates sheet.now) }
{
    with_falls(alloc, sheet, curves_of(alloc, sheet)?)
}

/// The rates of a balance sheet of which a curve has come or changed, from what is kept of all other currencies. Only want of
/// memory keeps them back.
pub fn rates_after(
    alloc: Global,
    sheet: &BalanceSheet,
    kept: &Rates,
    currency: &Name,
) -> Result<Rates, NoMemory>
    requires valid { Valid sheet.now }
    requires kept { AreKeptBut currency.now sheet.now.curves (rows_of kept.now.curves) }
    ensures { IfOk result (λ rates. known_of rates ≡ all_rates sheet.now) }
{
    let curves = curves_after(alloc, sheet, &kept.curves, currency)?;
    with_falls(alloc, sheet, curves)
}

/// The discounts of all currencies with their falls.
fn with_falls(alloc: Global, sheet: &BalanceSheet, curves: Curves) -> Result<Rates, NoMemory>
    requires valid { Valid sheet.now }
    requires rows { rows_of curves ≡ all_discounts sheet.now }
    ensures { IfOk result (λ rates. known_of rates ≡ all_rates sheet.now) }
{
    let falls = all_falls(alloc, sheet, &curves)?;
    let years = Years::new(sheet.numbers.asof);
    Ok(Rates {
        curves,
        years,
        falls,
    })
}

/// The falls of the discounts of all currencies.
fn all_falls(
    alloc: Global,
    sheet: &BalanceSheet,
    curves: &Curves,
) -> Result<Vec<CurrencyFalls>, NoMemory>
    requires valid { Valid sheet.now }
    requires rows { AreDiscountsOf sheet.now.curves (rows_of curves.now) }
    ensures { IfOk result (λ falls. falls.items ≡ falls_of sheet.now.curves (rows_of curves.now)) }
{
    let mut falls = Vec::with_capacity(alloc, sheet.curves.len())?;
    for k in 0..sheet.curves.len() {
        falls.push(currency_falls(sheet.curves.at(k).rates.as_slice(), curves.row(k)))?;
    }
    Ok(falls)
}

/// The falls of the discounts of one currency.
fn currency_falls(rates: &[i64], row: &[Discounts; 3]) -> CurrencyFalls
    requires curve { IsCurveInMillionths rates.now }
    requires count { length rates.now ≤ 100 }
    requires row { AreDiscountsAt rates.now (tables row.now) }
    ensures { result ≡ falls_at rates.now (tables row.now) }
{
    let [base, up, down] = row;
    let rising = tilted_falls(rates, base, Tilt::Up, up);
    let falling = tilted_falls(rates, base, Tilt::Down, down);
    CurrencyFalls {
        up: rising,
        down: falling,
    }
}

/// The falls of discounts where rates in millionths are stressed.
fn tilted_falls(rates: &[i64], from: &Discounts, tilt: Tilt, to: &Discounts) -> Falls
    requires curve { IsCurveInMillionths rates.now }
    requires count { length rates.now ≤ 100 }
    requires from { All IsDiscount (map ends from.now.at) }
    requires to { All IsDiscount (map ends to.now.at) }
    ensures { result ≡ differences (rates_in_parts rates.now tilts.Base) (map ends from.now.at)
        (rates_in_parts rates.now tilt) (map ends to.now.at) }
{
    Falls::new(&yearly(rates, Tilt::Base), from, &yearly(rates, tilt), to)
}
