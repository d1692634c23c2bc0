//! The discounts of all currencies of a balance sheet.
ghost use Rattle.std.specs.Prelude.{◌≡◌, false, Some, slice_get, IfOk};
ghost use Rattle.scr_tables.specs.Names.{same_name};
ghost use Rattle.scr_sheet.specs.Validity.{IsCurve, Valid};
ghost use Rattle.scr_discounts.specs.Discounts.{discounts_at};
ghost use Rattle.scr_discounts.specs.Kept.{tables, rows_of, all_discounts};
ghost use Rattle.scr_discounts.specs.KeptRates.{AreKeptBut};

use crate::Curves;
use scr_sheet::{BalanceSheet, Curve};
use scr_tables::Name;
use scr_yield_curve::{Discounts, Tilt, discounts, yearly};
use std::alloc::{AllocError as NoMemory, Global};

/// The discounts of each currency of the balance sheet. Only want of memory keeps them back.
pub fn curves_of(alloc: Global, sheet: &BalanceSheet) -> Result<Curves, NoMemory>
    requires { Valid sheet.now }
    ensures { IfOk result (λ curves. rows_of curves ≡ all_discounts sheet.now) }
{
    let mut curves = Curves::with_capacity(alloc, sheet.curves.len())?;
    for k in 0..sheet.curves.len() {
        curves.push(alloc, row(sheet.curves.at(k)))?;
    }
    Ok(curves)
}

/// The discounts of each currency: those of this currency anew, and of all others as they are kept.
pub(crate) fn curves_after(
    alloc: Global,
    sheet: &BalanceSheet,
    kept: &Curves,
    currency: &Name,
) -> Result<Curves, NoMemory>
    requires valid { Valid sheet.now }
    requires kept { AreKeptBut currency.now sheet.now.curves (rows_of kept.now) }
    ensures { IfOk result (λ curves. rows_of curves ≡ all_discounts sheet.now) }
{
    let mut curves = Curves::with_capacity(alloc, sheet.curves.len())?;
    for k in 0..sheet.curves.len() {
        curves.push(alloc, row_after(kept, currency, k, sheet.curves.at(k)))?;
    }
    Ok(curves)
}

/// The discounts of the currency at a place: anew where it is this one, and else as they are kept.
fn row_after(kept: &Curves, currency: &Name, place: usize, curve: &Curve) -> [Discounts; 3]
    requires formed { IsCurve curve.now }
    requires kept { same_name currency.now curve.now.currency ≡ false
        → slice_get (rows_of kept.now) place ≡ Some (discounts_at curve.now.rates) }
    ensures { tables result ≡ discounts_at curve.now.rates }
{
    if *currency == curve.currency {
        return row(curve);
    }
    let discounts = kept.row(place);
    *discounts
}

/// The discounts of one currency.
fn row(curve: &Curve) -> [Discounts; 3]
    requires { IsCurve curve.now }
    ensures { tables result ≡ discounts_at curve.now.rates }
{
    let rates = curve.rates.as_slice();
    [
        discounts(&yearly(rates, Tilt::Base)),
        discounts(&yearly(rates, Tilt::Up)),
        discounts(&yearly(rates, Tilt::Down)),
    ]
}
