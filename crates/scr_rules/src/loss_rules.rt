//! The rules of the Basic Solvency Capital Requirement, of operational risk, of the adjustments and of the Solvency Capital
//! Requirement.
ghost use Rattle.std.specs.Prelude.{◌≡◌, ◌≤◌, map};
ghost use Rattle.scr_num.specs.Rounding.{ends};
ghost use Rattle.scr_loss.specs.Operational.{IsWithinLimits};
ghost use Rattle.scr_loss.specs.OperationalEnds.{prem_ends, prov_ends};
ghost use Rattle.scr_nodes.specs.OwnOf.{operational_own, premiums_of, provisions_of};
ghost use Rattle.scr_discounts.specs.Discounts.{no_discounts};
ghost use Rattle.scr_rules.specs.Fits.{Fits};
ghost use Rattle.scr_rules.specs.LossFits.{IsRequirement, FitsBscr, FitsDiversified, FitsCharge, FitsAbsorbing, FitsTaxed, FitsRequirement};
ghost use Rattle.scr_rules.specs.LossRules.{bscr_from, diversification_from, cap_from, charge_from, absorbing_from, taxed_from, requirement_from};
ghost use Rattle.scr_rules.specs.Figures.{figure_at};
ghost use Rattle.scr_rules.specs.OwnParts.{adjustment_own};
ghost use Rattle.scr_rules.specs.Rules.{rule};

use crate::spans::at;
use scr_nodes::{Adjustment, Operational};
use scr_num::Span;
use scr_profile::OpInput;
use scr_sheet::Numbers;

// Nothing that operational risk is reckoned from.
const NO_OPERATIONS: OpInput = OpInput {
    tpl: 0,
    tpul: 0,
    tpn: 0,
    el: 0,
    eul: 0,
    pel: 0,
    peul: 0,
    en: 0,
    pen: 0,
    expul: 0,
};

/// The Basic Solvency Capital Requirement, from the five modules and the value of intangible assets in cents.
pub(crate) fn bscr(spans: &[Span], intangible: u64) -> Span
    requires { FitsBscr intangible (map ends spans.now) }
    ensures { ends result ≡ bscr_from intangible (map ends spans.now) }
{
    scr_loss::bscr(
        &[
            at(spans, 0),
            at(spans, 1),
            at(spans, 2),
            at(spans, 3),
            at(spans, 4),
        ],
        intangible,
    )
}

/// By how much the five modules together exceed their root, which is the Basic Solvency Capital Requirement without
/// intangible assets, of this value in cents.
pub(crate) fn diversification(spans: &[Span], intangible: u64) -> Span
    requires { FitsDiversified intangible (map ends spans.now) }
    ensures { ends result ≡ diversification_from intangible (map ends spans.now) }
{
    scr_loss::known_diversification(
        &[
            at(spans, 0),
            at(spans, 1),
            at(spans, 2),
            at(spans, 3),
            at(spans, 4),
        ],
        at(spans, 5),
        intangible,
    )
}

/// Operational risk by premiums, by provisions, the cap of both, and all.
pub(crate) fn operational(numbers: &Numbers, part: Operational, spans: &[Span]) -> Span
    requires { Fits (operational_own part numbers.now) (map ends spans.now) }
    ensures { ends result ≡ rule (operational_own part numbers.now) no_discounts (map ends spans.now) }
{
    match part {
        Operational::Premiums => premiums(numbers),
        Operational::Provisions => provisions(numbers),
        Operational::Cap => cap(spans),
        Operational::Charge => charge(spans, numbers.earned[6]),
    }
}

/// The adjustment for what absorbs losses.
pub(crate) fn adjusted(numbers: &Numbers, adjustment: Adjustment, spans: &[Span]) -> Span
    requires { Fits (adjustment_own adjustment numbers.now) (map ends spans.now) }
    ensures { ends result ≡ rule (adjustment_own adjustment numbers.now) no_discounts (map ends spans.now) }
{
    match adjustment {
        Adjustment::TechnicalProvisions => absorbing(spans, numbers.fdb),
        Adjustment::DeferredTaxes => taxed(spans, numbers.tax, numbers.cap),
    }
}

/// Operational risk by earned premiums.
fn premiums(numbers: &Numbers) -> Span
    requires { IsWithinLimits (premiums_of numbers.now) }
    ensures { ends result ≡ prem_ends (premiums_of numbers.now) }
{
    scr_loss::prem(&OpInput {
        el: numbers.earned[0],
        eul: numbers.earned[1],
        pel: numbers.earned[2],
        peul: numbers.earned[3],
        en: numbers.earned[4],
        pen: numbers.earned[5],
        ..NO_OPERATIONS
    })
}

/// Operational risk by technical provisions.
fn provisions(numbers: &Numbers) -> Span
    requires { IsWithinLimits (provisions_of numbers.now) }
    ensures { ends result ≡ prov_ends (provisions_of numbers.now) }
{
    scr_loss::prov(&OpInput {
        tpl: numbers.provisions[0],
        tpul: numbers.provisions[1],
        tpn: numbers.provisions[2],
        ..NO_OPERATIONS
    })
}

/// What both are limited to.
fn cap(spans: &[Span]) -> Span
    requires { IsRequirement (figure_at (map ends spans.now) 0) }
    ensures { ends result ≡ cap_from (map ends spans.now) }
{
    scr_loss::cap(at(spans, 0))
}

/// All operational risk, from premiums, provisions and the cap, and from the expenses of unit-linked business in cents.
fn charge(spans: &[Span], expenses: u64) -> Span
    requires { FitsCharge expenses (map ends spans.now) }
    ensures { ends result ≡ charge_from expenses (map ends spans.now) }
{
    scr_loss::op(at(spans, 2), at(spans, 0), at(spans, 1), expenses)
}

/// What technical provisions absorb, up to future discretionary benefits in cents.
fn absorbing(spans: &[Span], benefits: u64) -> Span
    requires { FitsAbsorbing benefits (map ends spans.now) }
    ensures { ends result ≡ absorbing_from benefits (map ends spans.now) }
{
    scr_loss::adj_tp(at(spans, 0), at(spans, 1), benefits)
}

/// What deferred taxes absorb, at a rate in millionths and up to a cap in cents.
fn taxed(spans: &[Span], rate: u32, cap: u64) -> Span
    requires { FitsTaxed rate cap (map ends spans.now) }
    ensures { ends result ≡ taxed_from rate cap (map ends spans.now) }
{
    scr_loss::adj_dt(at(spans, 0), at(spans, 1), at(spans, 2), rate, cap)
}

/// The Solvency Capital Requirement.
pub(crate) fn requirement(spans: &[Span]) -> Span
    requires { FitsRequirement (map ends spans.now) }
    ensures { ends result ≡ requirement_from (map ends spans.now) }
{
    scr_loss::scr(at(spans, 0), at(spans, 1), at(spans, 2), at(spans, 3))
}
