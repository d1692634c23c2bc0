//! The rules of market risk besides interest rate and equity risk.
ghost use Rattle.std.specs.Prelude.{◌≡◌, ◌*◌, ◌^◌, ◌<◌, ◌≤◌, pos, ◌≤ℤ◌, All, map, sum_by, unsigned_abs, IfSome, Some, [], ◌∷◌};
ghost use Rattle.scr_num.specs.Amounts.{IsAmount};
ghost use Rattle.scr_num.specs.Rounding.{Ends, ends, exact_ends};
ghost use Rattle.scr_num.specs.Sizes.{AreTogether, IsWithin};
ghost use Rattle.scr_num.specs.Sums.{sum_ends};
ghost use Rattle.scr_yield_curve.specs.DiscountEnds.{IsDiscount};
ghost use Rattle.scr_flow.specs.LossEnds.{present_ends};
ghost use Rattle.scr_market.specs.MarketEnds.{market_ends};
ghost use Rattle.scr_market.specs.Spread.{row_of};
ghost use Rattle.scr_market.specs.SpreadEnds.{spread_ends};
ghost use Rattle.scr_conc.specs.ConcentrationEnds.{concentration_ends};
ghost use Rattle.scr_conc.specs.Thresholds as thresholds;
ghost use Rattle.scr_conc.specs.declared.TheConstants.{MAX_SQUARES};
ghost use Rattle.scr_profile.specs.declared.limits.TheConstants.{MAX_HELD, MAX_DURATION};
ghost use Rattle.scr_sheet.specs.Validity.{Valid};
ghost use Rattle.scr_nodes.specs.OwnOf.{own_of, held_in, liability_valued};
ghost use Rattle.scr_nodes.specs.Rows.{step_of};
ghost use Rattle.scr_nodes.specs.declared.node.Node.TheVariants as nodes;
ghost use Rattle.scr_nodes.specs.declared.node.OfSecurity.TheVariants as of_securities;
ghost use Rattle.scr_nodes.specs.declared.node.OfLiability.TheVariants as of_liabilities;
ghost use Rattle.scr_nodes.specs.declared.node.OfGroup.TheVariants as of_groups;
ghost use Rattle.scr_discounts.specs.Discounts.{no_discounts};
ghost use Rattle.scr_nodes.specs.Rows.{group_of};
ghost use Rattle.scr_rules.specs.ByRow.{by_rule};
ghost use Rattle.scr_rules.specs.Fits.{Fits};
ghost use Rattle.scr_discounts.specs.Kept.{rows_of, row_in, tables, AreDiscountsOf};
ghost use Rattle.scr_rules.specs.Discounts.{discounts_in};
ghost use Rattle.scr_discounts.specs.KeptRates.{AreRatesOf};
ghost use Rattle.scr_rules.specs.MarketFits.{FitsWorth, FitsForeign, FitsMultiple, FitsSquareRoot, FitsMarket};
ghost use Rattle.scr_rules.specs.MarketRules.{worth_ends, foreign_ends, multiple_ends, stressed_ends, group_square_ends};
ghost use Rattle.scr_rules.specs.Paid.{valued_in};
ghost use Rattle.scr_rules.specs.Rules.{amount_of, amount_at, first_sum, other_sum, six_parts, rule};

use crate::known::bucketed;
use crate::spans::{amount, at};
use scr_book::{BalanceSheet, Book, Group, GroupKind, Name, Position};
use scr_conc::{Scale, charge_of, root, threshold_of};
use scr_dates::Day;
use scr_discounts::{Curves, Rates};
use scr_factors::Factors;
use scr_flow::present;
use scr_market::stress;
use scr_nodes::Direction;
use scr_num::{Span, add, exact};
use scr_rate::total;
use scr_sheet::is_held_in;
use scr_yield_curve::Discounts;

/// The present value of a liability by the best estimate, in 10^-18 cents.
pub(crate) fn worth(
    sheet: &BalanceSheet,
    curves: &Curves,
    kept: Option<&Rates>,
    name: &Name,
) -> Span
    requires valid { Valid sheet.now }
    requires fits { FitsWorth (liability_valued sheet.now name.now) }
    requires rows { AreDiscountsOf sheet.now.curves (rows_of curves.now) }
    requires kept { IfSome kept (λ rates. AreRatesOf sheet.now (rows_of curves.now) rates.now) }
    ensures { ends result ≡ worth_ends (liability_valued sheet.now name.now)
        (discounts_in sheet.now (rows_of curves.now) (nodes.Liability name.now of_liabilities.Present)) }
{
    let Some(liability) = sheet.liabilities.get(name) else {
        unreachable!()
    };
    let flows = liability.flows.base.as_slice();
    payments_worth(sheet, curves, kept, &liability.currency, flows)
}

/// What payments in a currency are worth.
fn payments_worth(
    sheet: &BalanceSheet,
    curves: &Curves,
    kept: Option<&Rates>,
    currency: &Name,
    payments: &[(Day, i64)],
) -> Span
    requires valid { Valid sheet.now }
    requires fits { FitsWorth (valued_in sheet.now currency.now payments.now) }
    requires rows { AreDiscountsOf sheet.now.curves (rows_of curves.now) }
    requires kept { IfSome kept (λ rates. AreRatesOf sheet.now (rows_of curves.now) rates.now) }
    ensures value { ends result ≡ worth_ends (valued_in sheet.now currency.now payments.now)
        (row_in currency.now sheet.now.curves (rows_of curves.now)) }
{
    let Some(place) = sheet.curves.place(currency) else {
        unreachable!()
    };
    let flows = bucketed(sheet, kept, payments);
    base_worth(&flows, curves.row(place))
}

/// What payments after 1 to 100 years are worth at the discounts of the rates as they are.
pub(crate) fn base_worth(flows: &[i64; 100], row: &[Discounts; 3]) -> Span
    requires small { sum_by unsigned_abs flows.now ≤ 100_000_000_000_000 }
    requires in_range { All IsDiscount (tables row.now).base }
    ensures { ends result ≡ present_ends flows.now (tables row.now).base }
{
    let [base, _, _] = row;
    present(flows, base)
}

/// What a change of a foreign currency costs: the first figures are of the securities in it, and
/// the others of liabilities.
pub(crate) fn foreign(
    sheet: &BalanceSheet,
    currency: &Name,
    direction: Direction,
    spans: &[Span],
) -> Span
    requires { FitsForeign (held_in currency.now sheet.now) (map ends spans.now) }
    ensures { ends result ≡ foreign_ends direction
        (amount_of (first_sum (held_in currency.now sheet.now) (map ends spans.now)))
        (other_sum (held_in currency.now sheet.now) (map ends spans.now)) }
{
    let securities = held_count(sheet, currency);
    let held = total(&spans[..securities]);
    let owed = total(&spans[securities..]);
    foreign_by_sums(direction, held, owed)
}

/// What a change of a foreign currency costs, from what is held of all securities in it and what all liabilities in it are worth
/// (Article 188).
pub fn foreign_by_sums(direction: Direction, held: Span, owed: Span) -> Span
    requires held { IsAmount MAX_HELD (ends held) }
    requires owed { IsWithin (10 ^ 33) (ends owed) }
    ensures { ends result ≡ foreign_ends direction (amount_of (ends held)) (ends owed) }
{
    let [rise, fall] = scr_market::currency(amount(held), owed);
    match direction {
        Direction::Up => rise,
        Direction::Down => fall,
    }
}

/// How many securities are in a currency.
fn held_count(sheet: &BalanceSheet, currency: &Name) -> usize
    ensures { result ≡ held_in currency.now sheet.now }
{
    let mut count = 0;
    for k in 0..sheet.securities.len() {
        if is_held_in(currency, sheet.securities.at(k)) {
            count += 1;
        }
    }
    count
}

/// A quarter of what is held of immovable property.
pub(crate) fn property(spans: &[Span]) -> Span
    requires { FitsMultiple (map ends spans.now) }
    ensures { ends result ≡ multiple_ends 250 (amount_at (map ends spans.now) 0) }
{
    scr_market::property(amount(at(spans, 0)))
}

/// What a bond loses, by its step, or none, and its duration.
pub(crate) fn stressed(factors: &Factors, sheet: &BalanceSheet, name: &Name, spans: &[Span]) -> Span
    requires { Fits (own_of factors.now sheet.now (nodes.Security name.now of_securities.Spread))
        (map ends spans.now) }
    ensures { ends result ≡ rule (own_of factors.now sheet.now (nodes.Security name.now of_securities.Spread))
        no_discounts (map ends spans.now) }
{
    let cents = at(spans, 0);
    match sheet.securities.get(name) {
        Some(position) => bond_loss(factors, sheet, position, cents),
        None => bond(factors, None, 0, cents),
    }
}

/// What the bond in a row loses, by the step of its group, or none, and its duration.
pub(crate) fn bond_loss(
    factors: &Factors,
    sheet: &BalanceSheet,
    position: &Position,
    cents: Span,
) -> Span
    requires row { row_of (step_of sheet.now position.now) < 8 }
    requires duration { pos position.now.security.duration ≤ℤ MAX_DURATION }
    requires held { IsAmount MAX_HELD (ends cents) }
    ensures { ends result ≡ stressed_ends factors.now (step_of sheet.now position.now) position.now.security.duration
        (amount_of (ends cents)) }
{
    bond(
        factors,
        step_of(sheet, position),
        position.security.duration,
        cents,
    )
}

/// The credit quality step of a security's group, if it has a group and the group a step.
fn step_of(sheet: &BalanceSheet, position: &Position) -> Option<u8>
    ensures { result ≡ step_of sheet.now position.now }
{
    let group = position.security.group?;
    match sheet.groups.get(&group) {
        Some(group) => group.step,
        None => None,
    }
}

fn bond(factors: &Factors, step: Option<u8>, duration: u32, cents: Span) -> Span
    requires row { row_of step < 8 }
    requires duration { pos duration ≤ℤ MAX_DURATION }
    requires held { IsAmount MAX_HELD (ends cents) }
    ensures { ends result ≡ stressed_ends factors.now step duration (amount_of (ends cents)) }
{
    lost(amount(cents), stress(factors, row(step), duration))
}

/// What so many cents lose of which each loses so many 10^-9.
fn lost(cents: u64, share: u64) -> Span
    requires held { cents ≤ MAX_HELD }
    requires share { share ≤ 1_000_000_000 }
    ensures { ends result ≡ exact_ends (pos (cents * share)) }
{
    whole(u128::from(cents) * u128::from(share))
}

fn row(step: Option<u8>) -> u8
    ensures { result ≡ row_of step }
{
    match step {
        Some(step) => step,
        None => 7,
    }
}

/// What all bonds lose.
pub(crate) fn spread(spans: &[Span]) -> Span
    requires { AreTogether (10 ^ 33) (map ends spans.now) }
    ensures { ends result ≡ spread_ends (sum_ends (map ends spans.now)) }
{
    scr_market::spread(total(spans))
}

/// The square of the requirement for a group, by its kind and its step, or none.
pub(crate) fn square(factors: &Factors, sheet: &BalanceSheet, name: &Name, spans: &[Span]) -> Span
    requires { Fits (own_of factors.now sheet.now (nodes.Group name.now of_groups.ConcentrationSquare))
        (map ends spans.now) }
    ensures { ends result ≡ rule (own_of factors.now sheet.now (nodes.Group name.now of_groups.ConcentrationSquare))
        no_discounts (map ends spans.now) }
{
    let assets = at(spans, 0);
    let exposure = at(spans, 1);
    match sheet.groups.get(name) {
        Some(group) => group_square(group.kind, group.step, assets, exposure),
        None => group_square(GroupKind::Name, None, assets, exposure),
    }
}

/// What the squares of the requirements for all groups are reckoned by, from the assets of which concentrations are measured.
pub fn concentration_scale(assets: Span) -> Scale
    requires { IsAmount MAX_HELD (ends assets) }
    ensures { result ≡ amount_of (ends assets) }
{
    Scale::new(amount(assets))
}

/// The square of the requirement for the group in a row, from the assets of which concentrations are measured and what is held of the group
/// (Articles 182 to 185). The row is that of its name.
pub fn concentration_square(
    factors: &Factors,
    book: &Book,
    scale: &Scale,
    group: &Group,
    exposure: Span,
) -> Span
    requires row { group_of group.now.name book.now.sheet.groups ≡ Some group.now }
    requires fits { (assets : Ends) × (amount_of assets ≡ scale.now)
        × Fits (own_of factors.now book.now.sheet (nodes.Group group.now.name of_groups.ConcentrationSquare)) (assets ∷ ends exposure ∷ []) }
    ensures { (assets : Ends) → amount_of assets ≡ scale.now
        → ends result ≡ by_rule factors.now book.now.sheet [] (nodes.Group group.now.name of_groups.ConcentrationSquare)
        (assets ∷ ends exposure ∷ []) }
{
    whole(scale.square(group.kind, group.step, amount(exposure)))
}

fn group_square(kind: GroupKind, step: Option<u8>, assets: Span, exposure: Span) -> Span
    requires step { thresholds.step_of step ≤ 6 }
    requires assets { IsAmount MAX_HELD (ends assets) }
    requires exposure { IsAmount MAX_HELD (ends exposure) }
    requires part { amount_of (ends exposure) ≤ amount_of (ends assets) }
    ensures { ends result ≡ group_square_ends kind step (amount_of (ends assets))
        (amount_of (ends exposure)) }
{
    let threshold = threshold_of(kind, step);
    let charge = charge_of(kind, step);
    whole(scr_conc::square(amount(assets), amount(exposure), threshold, charge))
}

fn whole(v: u128) -> Span
    requires { v < 2 ^ 127 }
    ensures { ends result ≡ exact_ends (pos v) }
{
    exact(v as i128)
}

/// The root of the sum of the squares of all groups.
pub(crate) fn squares_root(spans: &[Span]) -> Span
    requires { FitsSquareRoot (map ends spans.now) }
    ensures { ends result ≡ concentration_ends (amount_of (sum_ends (map ends spans.now))) }
{
    root(square_amount(squares_sum(spans)))
}

fn squares_sum(spans: &[Span]) -> Span
    requires { AreTogether MAX_SQUARES (map ends spans.now) }
    ensures { ends result ≡ sum_ends (map ends spans.now) }
{
    let mut sum = exact(0);
    for span in spans {
        sum = add(sum, *span);
    }
    sum
}

/// A whole number of square hundred-thousandths of a cent.
fn square_amount(span: Span) -> u128
    requires { IsAmount MAX_SQUARES (ends span) }
    ensures value { result ≡ amount_of (ends span) }
    ensures small { result ≤ MAX_SQUARES }
{
    span.low as u128
}

/// The root over the six sub-modules, by the mask of the interest rate scenario.
pub(crate) fn market(spans: &[Span]) -> Span
    requires { FitsMarket (map ends spans.now) }
    ensures { ends result ≡ market_ends (six_parts (map ends spans.now))
        (amount_at (map ends spans.now) 6) }
{
    let parts = [
        at(spans, 0),
        at(spans, 1),
        at(spans, 2),
        at(spans, 3),
        at(spans, 4),
        at(spans, 5),
    ];
    scr_market::market(&parts, mask(at(spans, 6)))
}

fn mask(span: Span) -> u8
    requires { IsAmount 3 (ends span) }
    ensures value { result ≡ amount_of (ends span) }
    ensures small { result ≤ 3 }
{
    span.low as u8
}
