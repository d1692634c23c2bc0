//! How far apart the two bounds of a figure may be. Widths are in grains, thousandths of a cent, where nothing else is told.
ghost use Rattle.std.specs.Prelude.{◌≡◌, ◌≤◌};
ghost use Rattle.scr_widths.specs.Scales.{IsScale};
ghost use Rattle.scr_widths.specs.Widths as widths;

use crate::scale::{Scale, scale_of};
use scr_book::Book;
use scr_nodes::{Adjustment, Node, OfCurrency, OfSecurity, Operational, Risk, Whole};
use scr_profile::Set;

/// How far apart the bounds of a figure may be, in cents, where they rest on no choice that is left open: rounding outward to
/// cents adds less than two. None where it is not stated: of the payments of one row or of one currency, and of the variance
/// of losses. A law says that they are no further apart.
pub fn stated_width(book: &Book, node: &Node) -> Option<u64>
    ensures { result ≡ widths.stated_width book.now.sheet node.now }
{
    let grains = width(&scale_of(book), node)?;
    Some(grains / 1000 + 2)
}

/// How far apart the ends of the figure may be, where it is stated.
fn width(scale: &Scale, node: &Node) -> Option<u64>
    requires { IsScale scale.now }
    ensures { result ≡ widths.width scale.now node.now }
{
    match node {
        Node::Fund(_, _) | Node::Group(_, _) => Some(0),
        Node::Security(_, what) => security(what),
        Node::Liability(_, _) => None,
        Node::Currency(_, what) => currency_figure(what),
        Node::Whole(what) => whole(scale, what),
    }
}

fn security(what: &OfSecurity) -> Option<u64>
    ensures { result ≡ widths.security_width what.now }
{
    match what {
        OfSecurity::Total | OfSecurity::Spread => Some(0),
        OfSecurity::UnitLoss(_) | OfSecurity::Rate(_) => None,
    }
}

fn currency_figure(what: &OfCurrency) -> Option<u64>
    ensures { result ≡ widths.currency_figure_width what.now }
{
    match what {
        OfCurrency::Choice => Some(0),
        OfCurrency::Loss(_) | OfCurrency::Scenario(_, _) | OfCurrency::Picked(_) => None,
    }
}

fn whole(scale: &Scale, what: &Whole) -> Option<u64>
    requires { IsScale scale.now }
    ensures { result ≡ widths.whole_width scale.now what.now }
{
    let grains = match what {
        Whole::InterestScenario(_, _) | Whole::Picked(_, _) => payments(scale),
        Whole::EquityPart(_) | Whole::Segment(_) => 2,
        Whole::EquityRoot => risk_width(Risk::Equity),
        Whole::Property => risk_width(Risk::Property),
        Whole::Spread => risk_width(Risk::Spread),
        Whole::Concentration => risk_width(Risk::Concentration),
        Whole::NetPart(risk) => risk_width(*risk),
        Whole::Currency(_) => currency(scale),
        Whole::Market(_) => market(scale),
        Whole::DefaultType1 => 60,
        Whole::Default => risk_width(Risk::Default),
        Whole::BioScenario(_, _, _) => payments(scale),
        Whole::Life(_) => life(scale),
        Whole::Slt(_) => slt(scale),
        Whole::PremiumReserve(set) => premium_reserve(*set),
        Whole::Natural => natural(),
        Whole::ManMade => man_made(),
        Whole::NonlifeCatastrophe => nonlife_catastrophe(),
        Whole::HealthCatastrophe => risk_width(Risk::HealthCatastrophe),
        Whole::Nslt(_) => nslt(),
        Whole::Health(_) => health(scale),
        Whole::Nonlife(_) => nonlife(),
        Whole::Bscr(_) => bscr(scale),
        Whole::OpPart(part) => operational(scale, *part),
        Whole::Adjust(adjustment) => adjusted(scale, *adjustment),
        Whole::Scr => requirement(scale),
        Whole::Diversification => diversification(scale),
        Whole::Variance => return None,
        _ => 0,
    };
    Some(grains)
}

/// The root over so many parts, whose widths come to a sum together.
fn root(parts: u64, sum: u64) -> u64
    requires { sum ≤ 1_000_000 }
    ensures { result ≡ widths.root_width parts sum }
{
    if parts <= 9 { 3 * sum + 2 } else { 4 * sum + 2 }
}

/// The root over biometric stresses.
fn biometric(sum: u64) -> u64
    requires { sum ≤ 1_000_000 }
    ensures { result ≡ widths.biometric_width sum }
{
    7 * sum + 2
}

/// What one change of discounted payments costs.
fn payments(scale: &Scale) -> u64
    requires { IsScale scale.now }
    ensures { result ≡ widths.payments_width scale.now }
{
    16 * scale.multiple
}

/// Type 1 equities, and the three other kinds together.
fn equity() -> u64
    ensures { result ≡ widths.equity_width }
{
    root(2, 2 + (2 + 2 + 2))
}

fn currency(scale: &Scale) -> u64
    requires { IsScale scale.now }
    ensures { result ≡ widths.currency_width scale.now }
{
    payments(scale) + 2 * scale.foreign
}

/// Interest rate, equity, property, spread, concentration and currency risk, of which property risk
/// is exact.
fn market(scale: &Scale) -> u64
    requires { IsScale scale.now }
    ensures { result ≡ widths.market_width scale.now }
{
    root(6, payments(scale) + equity() + 2 + 2 + currency(scale))
}

/// Type 1 exposures, and type 2 exposures, which are exact.
fn default_risk() -> u64
    ensures { result ≡ widths.default_width }
{
    root(2, 60)
}

fn life(scale: &Scale) -> u64
    requires { IsScale scale.now }
    ensures { result ≡ widths.life_width scale.now }
{
    biometric(7 * payments(scale))
}

fn slt(scale: &Scale) -> u64
    requires { IsScale scale.now }
    ensures { result ≡ widths.slt_width scale.now }
{
    biometric(6 * payments(scale))
}

fn premium_reserve(set: Set) -> u64
    ensures { result ≡ widths.premium_reserve_width set }
{
    match set {
        Set::Nl => 3 * root(12, 12 * 2),
        Set::Nslt => 3 * root(4, 4 * 2),
    }
}

fn nslt() -> u64
    ensures { result ≡ widths.nslt_width }
{
    root(2, premium_reserve(Set::Nslt))
}

fn health_catastrophe() -> u64
    ensures { result ≡ widths.health_catastrophe_width }
{
    root(3, 0)
}

fn health(scale: &Scale) -> u64
    requires { IsScale scale.now }
    ensures { result ≡ widths.health_width scale.now }
{
    root(3, slt(scale) + nslt() + health_catastrophe())
}

fn natural() -> u64
    ensures { result ≡ widths.natural_width }
{
    root(5, 0)
}

fn man_made() -> u64
    ensures { result ≡ widths.man_made_width }
{
    root(6, 0)
}

fn nonlife_catastrophe() -> u64
    ensures { result ≡ widths.nonlife_catastrophe_width }
{
    root(3, natural() + man_made())
}

fn nonlife() -> u64
    ensures { result ≡ widths.nonlife_width }
{
    root(3, premium_reserve(Set::Nl) + nonlife_catastrophe())
}

fn modules(scale: &Scale) -> u64
    requires { IsScale scale.now }
    ensures { result ≡ widths.modules_width scale.now }
{
    market(scale) + default_risk() + life(scale) + health(scale) + nonlife()
}

fn bscr(scale: &Scale) -> u64
    requires { IsScale scale.now }
    ensures { result ≡ widths.bscr_width scale.now }
{
    root(5, modules(scale))
}

fn diversification(scale: &Scale) -> u64
    requires { IsScale scale.now }
    ensures { result ≡ widths.diversification_width scale.now }
{
    modules(scale) + bscr(scale)
}

/// Three tenths of the Basic Solvency Capital Requirement.
fn cap(scale: &Scale) -> u64
    requires { IsScale scale.now }
    ensures { result ≡ widths.cap_width scale.now }
{
    3 * bscr(scale) / 10 + 2
}

/// The Basic Solvency Capital Requirement before absorption and after it.
fn absorbing(scale: &Scale) -> u64
    requires { IsScale scale.now }
    ensures { result ≡ widths.absorbing_width scale.now }
{
    bscr(scale) + bscr(scale)
}

/// The rate of the adjustment for deferred taxes, of what is left.
fn taxed(scale: &Scale) -> u64
    requires { IsScale scale.now }
    ensures value { result ≡ widths.taxed_width scale.now }
    ensures small { result ≤ 1_000_000 }
{
    let left = bscr(scale) + absorbing(scale) + cap(scale);
    scale.tax * left / 1_000_000 + 2
}

fn requirement(scale: &Scale) -> u64
    requires { IsScale scale.now }
    ensures { result ≡ widths.requirement_width scale.now }
{
    bscr(scale) + absorbing(scale) + taxed(scale) + cap(scale)
}

/// A risk before absorption, and after it.
fn risk_width(risk: Risk) -> u64
    ensures { result ≡ widths.risk_width risk }
{
    match risk {
        Risk::Equity => equity(),
        Risk::Property => 0,
        Risk::Spread | Risk::Concentration => 2,
        Risk::Default => default_risk(),
        Risk::HealthCatastrophe => health_catastrophe(),
    }
}

fn operational(scale: &Scale, part: Operational) -> u64
    requires { IsScale scale.now }
    ensures { result ≡ widths.operational_width scale.now part }
{
    match part {
        Operational::Premiums => 0,
        Operational::Provisions => 2,
        Operational::Cap | Operational::Charge => cap(scale),
    }
}

fn adjusted(scale: &Scale, adjustment: Adjustment) -> u64
    requires { IsScale scale.now }
    ensures { result ≡ widths.adjustment_width scale.now adjustment }
{
    match adjustment {
        Adjustment::TechnicalProvisions => absorbing(scale),
        Adjustment::DeferredTaxes => taxed(scale),
    }
}
