//! The discounts of all currencies of a book, and all that is kept of its rates.
ghost use Rattle.std.specs.Prelude.{◌≡◌, IfOk};
ghost use Rattle.scr_discounts.specs.Kept.{rows_of, all_discounts};
ghost use Rattle.scr_discounts.specs.KeptRates.{AreKeptBut, known_of, all_rates};

use scr_book::{Book, Name};
use scr_discounts::{Curves, Rates, curves_of, rates_of};
use scr_factors::Factors;
use std::alloc::{AllocError as NoMemory, Global};

/// The discounts of each currency of the book. Only want of memory keeps them back.
pub fn curves(alloc: Global, factors: &Factors, book: &Book) -> Result<Curves, NoMemory>
    ensures { IfOk result (λ curves. rows_of curves ≡ all_discounts book.now.sheet) }
{
    curves_of(alloc, book.sheet())
}

/// The discounts of each currency of the book with their falls. Only want of memory keeps them back.
pub fn rates(alloc: Global, factors: &Factors, book: &Book) -> Result<Rates, NoMemory>
    ensures { IfOk result (λ rates. known_of rates ≡ all_rates book.now.sheet) }
{
    rates_of(alloc, book.sheet())
}

/// The rates of a book of which a curve has come or changed, from what is kept of all other currencies. Only want of memory
/// keeps them back.
pub fn rates_after(
    alloc: Global,
    book: &Book,
    kept: &Rates,
    currency: &Name,
) -> Result<Rates, NoMemory>
    requires { AreKeptBut currency.now book.now.sheet.curves (rows_of kept.now.curves) }
    ensures { IfOk result (λ rates. known_of rates ≡ all_rates book.now.sheet) }
{
    scr_discounts::rates_after(alloc, book.sheet(), kept, currency)
}
