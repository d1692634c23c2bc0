//! The balance sheet before the first record.
ghost use Rattle.std.specs.Prelude.{◌≡◌};
ghost use Rattle.scr_sheet.specs.BalanceSheet.{opening_numbers, euro};

use crate::{Name, Numbers};
use scr_dates::Day;

/// 1 January 2000, the reference date until a record gives another.
const OPENING_DAY: i32 = 10_957;

/// The euro, the reporting currency until a record gives another.
pub(crate) fn euro() -> Name
    ensures { result ≡ euro }
{
    Name::parse(b"EUR").unwrap()
}

/// Every number is 0.
pub(crate) fn numbers() -> Numbers
    ensures { result ≡ opening_numbers }
{
    let asof = Day {
        number: OPENING_DAY,
    };
    zeros(asof, euro())
}

// The same, at any reference date and in any reporting currency.
fn zeros(asof: Day, currency: Name) -> Numbers
    ensures { result ≡ record opening_numbers { asof = asof; currency = currency } }
{
    Numbers {
        asof,
        currency,
        absorb: [0; 25],
        nl: [[(0, 0); 18]; 12],
        nslt: [[(0, 0); 18]; 4],
        cat: [0; 13],
        health_cat: [0; 3],
        lapse: [0; 2],
        due: [0; 2],
        provisions: [0; 3],
        earned: [0; 7],
        sym: 0,
        tax: 0,
        cap: 0,
        fdb: 0,
        intangible: 0,
    }
}
