//! The figures of a security, from its row.
ghost use Rattle.std.specs.Prelude.{◌≡◌, Some, [], ◌∷◌, is_some, slice_get, IfSome};
ghost use Rattle.std.specs.Option.{option_map};
ghost use Rattle.scr_tables.specs.Tables.{has_row};
ghost use Rattle.scr_num.specs.Amounts.{IsAmount};
ghost use Rattle.scr_num.specs.Rounding.{ends};
ghost use Rattle.scr_num.specs.Sizes.{IsWithin};
ghost use Rattle.scr_factors.specs.Values.{FactorValues};
ghost use Rattle.scr_profile.specs.declared.limits.TheConstants.{MAX_HELD};
ghost use Rattle.scr_sheet.specs.BalanceSheet.{position_of, curve_name};
ghost use Rattle.scr_sheet.specs.Validity.{Valid};
ghost use Rattle.scr_nodes.specs.OwnOf.{own_of};
ghost use Rattle.scr_nodes.specs.declared.node.Direction.TheVariants as directions;
ghost use Rattle.scr_nodes.specs.declared.node.Node.TheVariants as nodes;
ghost use Rattle.scr_nodes.specs.declared.node.OfSecurity.TheVariants as of_securities;
ghost use Rattle.scr_rules.specs.ByRow.{by_rule};
ghost use Rattle.scr_rules.specs.Fits.{Fits};
ghost use Rattle.scr_discounts.specs.Kept.{rows_of, row_in, AreDiscountsOf};
ghost use Rattle.scr_discounts.specs.KeptRates.{AreRatesOf};
ghost use Rattle.scr_rules.specs.Paid.{paid_in};
ghost use Rattle.scr_rules.specs.Rules.{paid_ends};

use crate::known::falls_of;
use crate::market_rules::bond_loss;
use crate::spans::amount;
use scr_book::{BalanceSheet, Book, Name, Position};
use scr_discounts::Rates;
use scr_factors::Factors;
use scr_flow::{both_losses, per_million};
use scr_nodes::Direction;
use scr_num::Span;

/// What a security loses where rates rise and where they fall: 1,000,000 of it, in 10^-18 of their unit, and all that is held of
/// it, in 10^-18 cents (Delegated Regulation (EU) 2015/35, Articles 165 to 167).
#[derive(Clone, Copy)]
pub struct SecurityLosses {
    pub unit_up: Span,
    pub unit_down: Span,
    pub rate_up: Span,
    pub rate_down: Span,
}

/// The losses of the security in a row, of which so much is held in all. Its payments are walked once for all four. The row is
/// that of its name.
pub fn security_losses(
    book: &Book,
    rates: &Rates,
    position: &Position,
    total: Span,
) -> SecurityLosses
    requires rows { AreDiscountsOf book.now.sheet.curves (rows_of rates.now.curves) }
    requires rates { AreRatesOf book.now.sheet (rows_of rates.now.curves) rates.now }
    requires row { position_of position.now.security.name book.now.sheet.securities ≡ Some position.now }
    requires total { IsAmount MAX_HELD (ends total) }
    ensures unit_up { (factors : FactorValues) → ends result.unit_up ≡ by_rule factors book.now.sheet (rows_of rates.now.curves)
        (nodes.Security position.now.security.name (of_securities.UnitLoss directions.Up)) [] }
    ensures unit_down { (factors : FactorValues) → ends result.unit_down ≡ by_rule factors book.now.sheet (rows_of rates.now.curves)
        (nodes.Security position.now.security.name (of_securities.UnitLoss directions.Down)) [] }
    ensures rate_up { (factors : FactorValues) → ends result.rate_up ≡ by_rule factors book.now.sheet (rows_of rates.now.curves)
        (nodes.Security position.now.security.name (of_securities.Rate directions.Up))
        (ends total ∷ ends result.unit_up ∷ []) }
    ensures rate_down { (factors : FactorValues) → ends result.rate_down ≡ by_rule factors book.now.sheet (rows_of rates.now.curves)
        (nodes.Security position.now.security.name (of_securities.Rate directions.Down))
        (ends total ∷ ends result.unit_down ∷ []) }
{
    let (unit_up, unit_down) = unit_losses(book.sheet(), rates, position);
    let cents = amount(total);
    let rate_up = per_million(unit_up, cents);
    let rate_down = per_million(unit_down, cents);
    SecurityLosses {
        unit_up,
        unit_down,
        rate_up,
        rate_down,
    }
}

/// What the payments of a security lose, per 1,000,000 of its value in 10^-18, where rates rise and where they fall.
pub(crate) fn unit_losses(sheet: &BalanceSheet, rates: &Rates, position: &Position) -> (Span, Span)
    requires valid { Valid sheet.now }
    requires rows { AreDiscountsOf sheet.now.curves (rows_of rates.now.curves) }
    requires rates { AreRatesOf sheet.now (rows_of rates.now.curves) rates.now }
    requires row { position_of position.now.security.name sheet.now.securities ≡ Some position.now }
    ensures up { ends result.0 ≡ paid_ends
        (paid_in sheet.now position.now.security.currency position.now.security.flows directions.Up)
        (row_in position.now.security.currency sheet.now.curves (rows_of rates.now.curves)) }
    ensures down { ends result.1 ≡ paid_ends
        (paid_in sheet.now position.now.security.currency position.now.security.flows directions.Down)
        (row_in position.now.security.currency sheet.now.curves (rows_of rates.now.curves)) }
    ensures up_within { IsWithin 13_700_000_000_000_000_000_000_000 (ends result.0) }
    ensures down_within { IsWithin 13_700_000_000_000_000_000_000_000 (ends result.1) }
{
    let Some(place) = curve_place(sheet, &position.security.currency) else {
        unreachable!()
    };
    let up = falls_of(rates, place, Direction::Up);
    let down = falls_of(rates, place, Direction::Down);
    both_losses(&rates.years, position.security.flows.as_slice(), up, down)
}

/// The place of the curve of a currency. The first curve is tried before a name is looked up, since most securities are in its
/// currency.
fn curve_place(sheet: &BalanceSheet, currency: &Name) -> Option<usize>
    ensures there { is_some result ≡ has_row curve_name currency.now sheet.now.curves }
    ensures place { IfSome result (λ k. option_map curve_name (slice_get sheet.now.curves k) ≡ Some currency.now) }
{
    if !sheet.curves.is_empty() && sheet.curves.at(0).currency == *currency {
        return Some(0);
    }
    sheet.curves.place(currency)
}

/// What the bond in a row loses, of which so much is held in all, in grains. The row is that of its name.
pub fn bond_spread(factors: &Factors, book: &Book, position: &Position, total: Span) -> Span
    requires row { position_of position.now.security.name book.now.sheet.securities ≡ Some position.now }
    requires fits { Fits (own_of factors.now book.now.sheet
        (nodes.Security position.now.security.name of_securities.Spread)) (ends total ∷ []) }
    ensures { ends result ≡ by_rule factors.now book.now.sheet []
        (nodes.Security position.now.security.name of_securities.Spread) (ends total ∷ []) }
{
    bond_loss(factors, book.sheet(), position, total)
}
