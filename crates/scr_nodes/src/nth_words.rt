//! The sources that no table gives, by their places.
ghost use Rattle.std.specs.Prelude.{◌++◌, [], ◌∷◌};
ghost use Rattle.scr_nodes.specs.declared.node.Node.TheVariants as nodes;
ghost use Rattle.scr_nodes.specs.declared.node.OfCurrency.TheVariants as of_currencies;
ghost use Rattle.scr_nodes.specs.declared.node.Whole.TheVariants as wholes;
ghost use Rattle.scr_nodes.specs.Nth.{IsNth};
ghost use Rattle.scr_nodes.specs.Sources.{adjustment_sources, classes_of, currency_scenarios, operational_sources, scenarios, segments_of, words_of};

use crate::nth::{Nth, nth_in};
use crate::words::{
    band_sources, charge_sources, currency_scenarios, default_types, diversification_sources,
    equity_parts, gross_of, health_parts, health_perils, infrastructure_classes,
    infrastructure_corporate_classes, interest_scenarios, lapse_scenarios, life_parts,
    man_made_perils, market_parts, modules, natural_perils, nonlife_catastrophes, nonlife_parts,
    nonlife_segments, nslt_segments, provision_sources, requirement_parts, slt_parts, tax_sources,
    type1_classes, type1_sources, type2_classes, variance_sources,
};
use crate::{
    Adjustment, Alternatives, Biometric, Direction, Equities, Measure, Node, OfCurrency, OfGroup,
    OfSecurity, Operational, Whole,
};
use scr_profile::Set;
use scr_sheet::{Class, Name, Projection};

/// Among the sources that no table gives.
pub fn nth_word(node: &Node, place: u32) -> Nth
    ensures { IsNth (words_of node.now) place result }
{
    match node {
        Node::Fund(_, _) | Node::Liability(_, _) => Nth::Past(place),
        Node::Security(name, what) => nth_of_security(name, *what, place),
        Node::Currency(currency, what) => nth_of_currency(currency, *what, place),
        Node::Group(name, what) => nth_of_group(name, *what, place),
        Node::Whole(what) => nth_of_whole(*what, place),
    }
}

fn nth_of_security(name: &Name, what: OfSecurity, place: u32) -> Nth
    ensures { IsNth (words_of (nodes.Security name.now what)) place result }
{
    match what {
        OfSecurity::Total | OfSecurity::UnitLoss(_) => Nth::Past(place),
        OfSecurity::Rate(direction) => nth_in(
            &[
                Node::Security(*name, OfSecurity::Total),
                Node::Security(*name, OfSecurity::UnitLoss(direction)),
            ],
            place,
        ),
        OfSecurity::Spread => nth_in(&[Node::Security(*name, OfSecurity::Total)], place),
    }
}

fn nth_of_group(name: &Name, what: OfGroup, place: u32) -> Nth
    ensures { IsNth (words_of (nodes.Group name.now what)) place result }
{
    match what {
        OfGroup::Total | OfGroup::Loss => Nth::Past(place),
        OfGroup::ConcentrationSquare => nth_in(
            &[
                Node::Whole(Whole::Assets),
                Node::Group(*name, OfGroup::Total),
            ],
            place,
        ),
    }
}

fn nth_of_currency(currency: &Name, what: OfCurrency, place: u32) -> Nth
    ensures { IsNth (words_of (nodes.Currency currency.now what)) place result }
{
    match what {
        OfCurrency::Loss(_) => Nth::Past(place),
        OfCurrency::Scenario(direction, measure) => nth_gross_of_currency(
            currency, direction, measure, place,
        ),
        OfCurrency::Choice => nth_in(&currency_scenarios(currency), place),
        OfCurrency::Picked(_) => nth_of_currency_picked(currency, place),
    }
}

/// Of a scenario after absorption, the one before it.
fn nth_gross_of_currency(currency: &Name, direction: Direction, measure: Measure, place: u32) -> Nth
    ensures { IsNth (words_of (nodes.Currency currency.now (of_currencies.Scenario direction measure)))
        place result }
{
    match measure {
        Measure::Gross => Nth::Past(place),
        Measure::Net => nth_in(
            &[Node::Currency(*currency, OfCurrency::Scenario(direction, Measure::Gross))],
            place,
        ),
    }
}

#[tactic(auto, using(crate::proofs::Joined::past_first))]
fn nth_of_currency_picked(currency: &Name, place: u32) -> Nth
    ensures { IsNth (currency_scenarios currency.now ++ nodes.Currency currency.now of_currencies.Choice ∷ [])
        place result }
{
    match nth_in(&currency_scenarios(currency), place) {
        Nth::Past(left) => nth_in(&[Node::Currency(*currency, OfCurrency::Choice)], left),
        found => found,
    }
}

fn nth_of_whole(what: Whole, place: u32) -> Nth
    ensures { IsNth (words_of (nodes.Whole what)) place result }
{
    match what {
        Whole::InterestScenario(direction, measure) => nth_gross_rates(direction, measure, place),
        Whole::BioScenario(biometric, projection, measure) => nth_gross_stress(
            biometric, projection, measure, place,
        ),
        Whole::Choice(alternatives) => nth_scenario(alternatives, place),
        Whole::Picked(alternatives, _) => nth_of_picked(alternatives, place),
        Whole::EquityPart(equities) => nth_class(equities, place),
        Whole::EquityRoot => nth_in(&equity_parts(), place),
        Whole::Property => nth_in(&[Node::Whole(Whole::ClassSum(Class::Property))], place),
        Whole::NetPart(risk) => nth_in(&[gross_of(risk)], place),
        Whole::Market(measure) => nth_in(&market_parts(measure), place),
        Whole::Variance => nth_in(&variance_sources(), place),
        Whole::DefaultBand => nth_in(&band_sources(), place),
        Whole::DefaultType1 => nth_in(&type1_sources(), place),
        Whole::Default => nth_in(&default_types(), place),
        Whole::Life(measure) => nth_in(&life_parts(measure), place),
        Whole::Slt(measure) => nth_in(&slt_parts(measure), place),
        Whole::PremiumReserve(set) => nth_segment(set, place),
        Whole::Natural => nth_in(&natural_perils(), place),
        Whole::ManMade => nth_in(&man_made_perils(), place),
        Whole::NonlifeCatastrophe => nth_in(&nonlife_catastrophes(), place),
        Whole::HealthCatastrophe => nth_in(&health_perils(), place),
        Whole::Nslt(_) => nth_in(&[Node::Whole(Whole::PremiumReserve(Set::Nslt))], place),
        Whole::Health(measure) => nth_in(&health_parts(measure), place),
        Whole::Nonlife(_) => nth_in(&nonlife_parts(), place),
        Whole::Bscr(measure) => nth_in(&modules(measure), place),
        Whole::OpPart(part) => nth_of_operational(part, place),
        Whole::Adjust(adjustment) => nth_of_adjustment(adjustment, place),
        Whole::Scr => nth_in(&requirement_parts(), place),
        Whole::Diversification => nth_in(&diversification_sources(), place),
        _ => Nth::Past(place),
    }
}

/// Of a scenario after absorption, the one before it.
fn nth_gross_rates(direction: Direction, measure: Measure, place: u32) -> Nth
    ensures { IsNth (words_of (nodes.Whole (wholes.InterestScenario direction measure))) place result }
{
    match measure {
        Measure::Gross => Nth::Past(place),
        Measure::Net => nth_in(
            &[Node::Whole(Whole::InterestScenario(direction, Measure::Gross))],
            place,
        ),
    }
}

/// Of a stress after absorption, the one before it.
fn nth_gross_stress(
    biometric: Biometric,
    projection: Projection,
    measure: Measure,
    place: u32,
) -> Nth
    ensures { IsNth (words_of (nodes.Whole (wholes.BioScenario biometric projection measure)))
        place result }
{
    match measure {
        Measure::Gross => Nth::Past(place),
        Measure::Net => nth_in(
            &[Node::Whole(Whole::BioScenario(biometric, projection, Measure::Gross))],
            place,
        ),
    }
}

fn nth_scenario(alternatives: Alternatives, place: u32) -> Nth
    ensures { IsNth (scenarios alternatives) place result }
{
    match alternatives {
        Alternatives::Interest => nth_in(&interest_scenarios(), place),
        Alternatives::LifeLapse => nth_in(&lapse_scenarios(Biometric::Life), place),
        Alternatives::HealthLapse => nth_in(&lapse_scenarios(Biometric::Health), place),
    }
}

#[tactic(auto, using(crate::proofs::Joined::past_first))]
fn nth_of_picked(alternatives: Alternatives, place: u32) -> Nth
    ensures { IsNth (scenarios alternatives ++ nodes.Whole (wholes.Choice alternatives) ∷ []) place result }
{
    match nth_scenario(alternatives, place) {
        Nth::Past(left) => nth_in(&[Node::Whole(Whole::Choice(alternatives))], left),
        found => found,
    }
}

fn nth_class(equities: Equities, place: u32) -> Nth
    ensures { IsNth (classes_of equities) place result }
{
    match equities {
        Equities::Type1 => nth_in(&type1_classes(), place),
        Equities::Type2 => nth_in(&type2_classes(), place),
        Equities::Infrastructure => nth_in(&infrastructure_classes(), place),
        Equities::InfrastructureCorporate => nth_in(&infrastructure_corporate_classes(), place),
    }
}

fn nth_segment(set: Set, place: u32) -> Nth
    ensures { IsNth (segments_of set) place result }
{
    match set {
        Set::Nl => nth_in(&nonlife_segments(), place),
        Set::Nslt => nth_in(&nslt_segments(), place),
    }
}

fn nth_of_operational(part: Operational, place: u32) -> Nth
    ensures { IsNth (operational_sources part) place result }
{
    match part {
        Operational::Premiums | Operational::Provisions => Nth::Past(place),
        Operational::Cap => nth_in(&[Node::Whole(Whole::Bscr(Measure::Gross))], place),
        Operational::Charge => nth_in(&charge_sources(), place),
    }
}

fn nth_of_adjustment(adjustment: Adjustment, place: u32) -> Nth
    ensures { IsNth (adjustment_sources adjustment) place result }
{
    match adjustment {
        Adjustment::TechnicalProvisions => nth_in(&provision_sources(), place),
        Adjustment::DeferredTaxes => nth_in(&tax_sources(), place),
    }
}
