//! The figure of a node from those of its sources.
ghost use Rattle.std.specs.Prelude.{◌≡◌, ◌+◌, map, IfSome};
ghost use Rattle.scr_num.specs.Rounding.{ends};
ghost use Rattle.scr_nodes.specs.OwnOf.{own_of, currency_absorbed, interest_key as of_interest, stress_absorbed as absorbed_of_stress};
ghost use Rattle.scr_nodes.specs.declared.node.Node.TheVariants as nodes;
ghost use Rattle.scr_nodes.specs.Sources.{sources_of};
ghost use Rattle.scr_sheet.specs.Absorptions.{absorbed};
ghost use Rattle.scr_sheet.specs.Validity.{Valid};
ghost use Rattle.scr_rules.specs.Fits.{Fits};
ghost use Rattle.scr_rules.specs.GroupLosses.{AreLossesOf};
ghost use Rattle.scr_discounts.specs.Discounts.{no_discounts};
ghost use Rattle.scr_discounts.specs.Kept.{rows_of, all_discounts, AreDiscountsOf};
ghost use Rattle.scr_rules.specs.Discounts.{discounts_in};
ghost use Rattle.scr_discounts.specs.KeptRates.{AreRatesOf};
ghost use Rattle.scr_rules.specs.OwnParts.{scenario_own};
ghost use Rattle.scr_rules.specs.Rules.{rule};
ghost use Rattle.scr_rules.specs.Worked.{worked};

use crate::GroupLosses;
use crate::default_rules::{banded, bands, default, due, grains, losses, squares, variance};
use crate::held::held;
use crate::life_rules::{excess, life, slt, stress_absorbed};
use crate::loss_rules::{adjusted, bscr, diversification, operational, requirement};
use crate::market_rules::{
    foreign, market, property, spread, square, squares_root, stressed, worth,
};
use crate::nonlife_rules::{
    catastrophes, charged, health, health_catastrophe, man_made, natural, nonlife, nslt,
    premium_reserve, segment_deviation,
};
use crate::paid::{cost, unit};
use crate::rules::{choice, equities, fall, lost, net, picked, scaled};
use scr_book::{BalanceSheet, Book, Name};
use scr_discounts::{Curves, Rates};
use scr_factors::{Factors, Set};
use scr_io::Steps;
use scr_nodes::single_numbers::{catastrophe_cents, interest_key, lapse_cents, risk_key};
use scr_nodes::{
    Biometric, Direction, Measure, Node, OfCurrency, OfFund, OfGroup, OfLiability, OfSecurity,
    Whole,
};
use scr_num::Span;
use scr_rate::{gross, total};
use scr_sheet::Projection;
use std::sync::ledger::Ledger;

/// The figure of a node by its rule, from the figures of its sources in their order and from the discounts of the
/// currencies. It counts as one step.
pub fn evaluate<L: Ledger>(
    factors: &Factors,
    book: &Book,
    curves: &Curves,
    node: Node,
    spans: &[Span],
    steps: &mut Steps<L>,
) -> Span
    requires rows { AreDiscountsOf book.now.sheet.curves (rows_of curves.now) }
    requires fits { Fits (own_of factors.now book.now.sheet node) (map ends spans.now) }
    ensures rule { ends result
        ≡ rule (own_of factors.now book.now.sheet node) (discounts_in book.now.sheet (rows_of curves.now) node) (map ends spans.now) }
    ensures worked { rows_of curves.now ≡ all_discounts book.now.sheet
        → map ends spans.now ≡ map (worked factors.now book.now.sheet) (sources_of book.now.sheet node)
        → ends result ≡ worked factors.now book.now.sheet node }
    ensures step { steps.new ≡ steps.old + 1 }
{
    steps.tick();
    figure(factors, book.sheet(), curves, None, &node, spans)
}

/// The figure of a node as `evaluate` gives it, by rates that are kept. It counts as one step.
pub fn evaluate_by<L: Ledger>(
    factors: &Factors,
    book: &Book,
    rates: &Rates,
    node: Node,
    spans: &[Span],
    steps: &mut Steps<L>,
) -> Span
    requires rows { AreDiscountsOf book.now.sheet.curves (rows_of rates.now.curves) }
    requires rates { AreRatesOf book.now.sheet (rows_of rates.now.curves) rates.now }
    requires fits { Fits (own_of factors.now book.now.sheet node) (map ends spans.now) }
    ensures rule { ends result ≡ rule (own_of factors.now book.now.sheet node)
        (discounts_in book.now.sheet (rows_of rates.now.curves) node) (map ends spans.now) }
    ensures worked { rows_of rates.now.curves ≡ all_discounts book.now.sheet
        → map ends spans.now ≡ map (worked factors.now book.now.sheet) (sources_of book.now.sheet node)
        → ends result ≡ worked factors.now book.now.sheet node }
    ensures step { steps.new ≡ steps.old + 1 }
{
    steps.tick();
    figure(
        factors,
        book.sheet(),
        &rates.curves,
        Some(rates),
        &node,
        spans,
    )
}

/// The same where the losses of all groups are known: that of a group is looked up there. It counts as one step.
pub fn evaluate_with<L: Ledger>(
    factors: &Factors,
    book: &Book,
    rates: &Rates,
    losses: &GroupLosses,
    node: Node,
    spans: &[Span],
    steps: &mut Steps<L>,
) -> Span
    requires rows { AreDiscountsOf book.now.sheet.curves (rows_of rates.now.curves) }
    requires rates { AreRatesOf book.now.sheet (rows_of rates.now.curves) rates.now }
    requires losses { AreLossesOf book.now.sheet losses.now }
    requires fits { Fits (own_of factors.now book.now.sheet node) (map ends spans.now) }
    ensures rule { ends result ≡ rule (own_of factors.now book.now.sheet node)
        (discounts_in book.now.sheet (rows_of rates.now.curves) node) (map ends spans.now) }
    ensures worked { rows_of rates.now.curves ≡ all_discounts book.now.sheet
        → map ends spans.now ≡ map (worked factors.now book.now.sheet) (sources_of book.now.sheet node)
        → ends result ≡ worked factors.now book.now.sheet node }
    ensures step { steps.new ≡ steps.old + 1 }
{
    steps.tick();
    figure_with(factors, book.sheet(), rates, losses, &node, spans)
}

/// The same over a plain balance sheet.
fn figure_with(
    factors: &Factors,
    sheet: &BalanceSheet,
    rates: &Rates,
    losses: &GroupLosses,
    node: &Node,
    spans: &[Span],
) -> Span
    requires valid { Valid sheet.now }
    requires rows { AreDiscountsOf sheet.now.curves (rows_of rates.now.curves) }
    requires rates { AreRatesOf sheet.now (rows_of rates.now.curves) rates.now }
    requires losses { AreLossesOf sheet.now losses.now }
    requires fits { Fits (own_of factors.now sheet.now node.now) (map ends spans.now) }
    ensures { ends result ≡ rule (own_of factors.now sheet.now node.now)
        (discounts_in sheet.now (rows_of rates.now.curves) node.now) (map ends spans.now) }
{
    if let Node::Group(name, what) = node {
        if let OfGroup::Loss = what {
            if let Some(place) = sheet.groups.place(name) {
                return grains(losses.at(place));
            }
        }
    }
    figure(factors, sheet, &rates.curves, Some(rates), node, spans)
}

/// The figure of a node, by what is kept of the rates, if it is.
fn figure(
    factors: &Factors,
    sheet: &BalanceSheet,
    curves: &Curves,
    kept: Option<&Rates>,
    node: &Node,
    spans: &[Span],
) -> Span
    requires valid { Valid sheet.now }
    requires rows { AreDiscountsOf sheet.now.curves (rows_of curves.now) }
    requires kept { IfSome kept (λ rates. AreRatesOf sheet.now (rows_of curves.now) rates.now) }
    requires fits { Fits (own_of factors.now sheet.now node.now) (map ends spans.now) }
    ensures { ends result
        ≡ rule (own_of factors.now sheet.now node.now) (discounts_in sheet.now (rows_of curves.now) node.now) (map ends spans.now) }
{
    match node {
        Node::Fund(name, OfFund::Total) => held(sheet, name, sheet.fund_hold(name), spans),
        Node::Security(name, what) => match what {
            OfSecurity::Total => held(sheet, name, sheet.security_hold(name), spans),
            OfSecurity::UnitLoss(direction) => unit(sheet, curves, kept, name, *direction),
            OfSecurity::Rate(_) => scaled(spans),
            OfSecurity::Spread => stressed(factors, sheet, name, spans),
        },
        Node::Liability(name, what) => match what {
            OfLiability::Rate(direction) => cost(sheet, curves, kept, name, *direction),
            OfLiability::Present => worth(sheet, curves, kept, name),
            OfLiability::Loss(projection) => excess(sheet, curves, kept, name, *projection),
        },
        Node::Currency(currency, what) => match what {
            OfCurrency::Loss(_) => lost(spans),
            OfCurrency::Scenario(direction, measure) => match measure {
                Measure::Gross => foreign(sheet, currency, *direction, spans),
                Measure::Net => net(spans, change_absorbed(sheet, currency, *direction)),
            },
            OfCurrency::Choice => choice(spans),
            OfCurrency::Picked(measure) => picked(spans, *measure),
        },
        Node::Group(name, what) => match what {
            OfGroup::Total => total(spans),
            OfGroup::ConcentrationSquare => square(factors, sheet, name, spans),
            OfGroup::Loss => losses(sheet, name),
        },
        Node::Whole(what) => of_whole(factors, sheet, what, spans),
    }
}

/// The figure of the whole sheet, from those of its sources in their order.
fn of_whole(factors: &Factors, sheet: &BalanceSheet, what: &Whole, spans: &[Span]) -> Span
    requires fits { Fits (own_of factors.now sheet.now (nodes.Whole what.now)) (map ends spans.now) }
    ensures { ends result
        ≡ rule (own_of factors.now sheet.now (nodes.Whole what.now)) no_discounts (map ends spans.now) }
{
    match what {
        Whole::InterestScenario(direction, measure) => interest(sheet, *direction, *measure, spans),
        Whole::Choice(_) => choice(spans),
        Whole::Picked(_, measure) => picked(spans, *measure),
        Whole::ClassSum(_) | Whole::ClassLoss(_) => total(spans),
        Whole::Currency(_) | Whole::Assets => total(spans),
        Whole::EquityPart(kind) => fall(spans, *kind, sheet.numbers.sym),
        Whole::EquityRoot => equities(spans),
        Whole::NetPart(risk) => net(spans, sheet.numbers.absorbed(risk_key(*risk))),
        Whole::Property => property(spans),
        Whole::Spread => spread(spans),
        Whole::Concentration => squares_root(spans),
        Whole::Market(_) => market(spans),
        Whole::ClassSquare(_) => squares(spans),
        Whole::Variance => variance(spans),
        Whole::DefaultBand => bands(spans),
        Whole::DefaultType1 => banded(spans),
        Whole::DefaultType2 => due(sheet),
        Whole::Default => default(spans),
        Whole::BioScenario(kind, under, measure) => stress(sheet, *kind, *under, *measure, spans),
        Whole::Life(_) => life(spans),
        Whole::Slt(_) => slt(spans),
        Whole::Segment(segment) => segment_deviation(factors, &sheet.numbers, *segment),
        Whole::PremiumReserve(set) => premium_reserve(factors, spans, *set),
        Whole::CatCharge(key) => charged(1000, catastrophe_cents(&sheet.numbers, *key)),
        Whole::Lapse(set) => charged(1000, lapse_cents(&sheet.numbers, *set)),
        Whole::Natural => natural(spans),
        Whole::ManMade => man_made(spans),
        Whole::NonlifeCatastrophe => catastrophes(spans),
        Whole::HealthCatastrophe => health_catastrophe(spans),
        Whole::Nslt(_) => nslt(spans, lapse_cents(&sheet.numbers, Set::Nslt)),
        Whole::Health(_) => health(spans),
        Whole::Nonlife(_) => nonlife(spans, lapse_cents(&sheet.numbers, Set::Nl)),
        Whole::Intangible => charged(800, sheet.numbers.intangible),
        Whole::Bscr(_) => bscr(spans, sheet.numbers.intangible),
        Whole::OpPart(part) => operational(&sheet.numbers, *part, spans),
        Whole::Adjust(adjustment) => adjusted(&sheet.numbers, *adjustment, spans),
        Whole::Scr => requirement(spans),
        Whole::Diversification => diversification(spans, sheet.numbers.intangible),
    }
}

/// The requirement for a change of interest rates, before or after absorption.
fn interest(sheet: &BalanceSheet, direction: Direction, measure: Measure, spans: &[Span]) -> Span
    requires { Fits (scenario_own measure (absorbed (of_interest direction) sheet.now.numbers)) (map ends spans.now) }
    ensures { ends result ≡ rule (scenario_own measure (absorbed (of_interest direction) sheet.now.numbers)) no_discounts
        (map ends spans.now) }
{
    match measure {
        Measure::Gross => gross(spans),
        Measure::Net => net(spans, sheet.numbers.absorbed(interest_key(direction))),
    }
}

/// The requirement for a biometric stress, before or after absorption.
fn stress(
    sheet: &BalanceSheet,
    biometric: Biometric,
    projection: Projection,
    measure: Measure,
    spans: &[Span],
) -> Span
    requires { Fits (scenario_own measure (absorbed_of_stress sheet.now biometric projection)) (map ends spans.now) }
    ensures { ends result ≡ rule (scenario_own measure (absorbed_of_stress sheet.now biometric projection)) no_discounts
        (map ends spans.now) }
{
    match measure {
        Measure::Gross => gross(spans),
        Measure::Net => net(spans, stress_absorbed(sheet, biometric, projection)),
    }
}

/// What is absorbed of a change of a currency, which stands with its curve.
fn change_absorbed(sheet: &BalanceSheet, currency: &Name, direction: Direction) -> u64
    ensures { result ≡ currency_absorbed sheet.now currency.now direction }
{
    match sheet.curves.get(currency) {
        Some(curve) => match direction {
            Direction::Up => curve.absorb_up,
            Direction::Down => curve.absorb_down,
        },
        None => 0,
    }
}
