//! The table of sources: what is read off the tables for a figure.
ghost use Rattle.std.specs.Prelude.{◌≡◌};
ghost use Rattle.scr_nodes.specs.Table.{first_of, second_of};
ghost use Rattle.scr_nodes.specs.declared.node.Node.TheVariants as nodes;
ghost use Rattle.scr_nodes.specs.declared.node.Whole.TheVariants as wholes;

use crate::selections::{Counterparties, Currencies, Holders, Holdings, Obligations, Selection};
use crate::{
    Biometric, Direction, Measure, Node, OfCurrency, OfFund, OfGroup, OfLiability, OfSecurity,
    Whole,
};
use scr_sheet::{Class, Name, Projection};

/// The sources that come first, none where a figure is reckoned from others by name.
pub fn first_of(node: &Node) -> Selection
    ensures { result ≡ first_of node.now }
{
    match node {
        Node::Fund(name, _) => Selection::Funds(Holders::Of(*name), OfFund::Total),
        Node::Security(name, what) => first_of_security(name, *what),
        Node::Liability(_, _) => Selection::None,
        Node::Currency(currency, what) => first_of_currency(currency, *what),
        Node::Group(name, what) => first_of_group(name, *what),
        Node::Whole(what) => first_of_whole(*what),
    }
}

fn first_of_security(name: &Name, what: OfSecurity) -> Selection
    ensures { result ≡ first_of (nodes.Security name.now what) }
{
    match what {
        OfSecurity::Total => Selection::Funds(Holders::Of(*name), OfFund::Total),
        _ => Selection::None,
    }
}

fn first_of_currency(currency: &Name, what: OfCurrency) -> Selection
    ensures { result ≡ first_of (nodes.Currency currency.now what) }
{
    match what {
        OfCurrency::Loss(direction) => Selection::Securities(
            Holdings::PayingIn(*currency),
            OfSecurity::Rate(direction),
        ),
        OfCurrency::Scenario(_, Measure::Gross) => Selection::Securities(
            Holdings::In(*currency),
            OfSecurity::Total,
        ),
        _ => Selection::None,
    }
}

fn first_of_group(name: &Name, what: OfGroup) -> Selection
    ensures { result ≡ first_of (nodes.Group name.now what) }
{
    match what {
        OfGroup::Total => Selection::Securities(Holdings::OfGroup(*name), OfSecurity::Total),
        _ => Selection::None,
    }
}

fn first_of_whole(what: Whole) -> Selection
    ensures { result ≡ first_of (nodes.Whole what) }
{
    match what {
        Whole::InterestScenario(direction, measure) => currencies_lost(direction, measure),
        Whole::BioScenario(biometric, projection, measure) => liabilities_lost(
            biometric, projection, measure,
        ),
        Whole::Currency(measure) => Selection::Currencies(
            Currencies::Foreign,
            OfCurrency::Picked(measure),
        ),
        Whole::ClassSum(class) => Selection::Securities(
            Holdings::OfClass(class),
            OfSecurity::Total,
        ),
        Whole::Spread => Selection::Securities(Holdings::OfClass(Class::Bond), OfSecurity::Spread),
        Whole::Assets => Selection::Securities(Holdings::Grouped, OfSecurity::Total),
        Whole::Concentration => Selection::Groups(
            Counterparties::All,
            OfGroup::ConcentrationSquare,
        ),
        Whole::ClassLoss(class) => Selection::Groups(Counterparties::OfClass(class), OfGroup::Loss),
        Whole::ClassSquare(class) => Selection::Groups(
            Counterparties::OfClass(class),
            OfGroup::Loss,
        ),
        _ => Selection::None,
    }
}

/// What is lost of each currency, of which the scenario is reckoned before absorption.
fn currencies_lost(direction: Direction, measure: Measure) -> Selection
    ensures { result ≡ first_of (nodes.Whole (wholes.InterestScenario direction measure)) }
{
    match measure {
        Measure::Gross => Selection::Currencies(Currencies::All, OfCurrency::Loss(direction)),
        Measure::Net => Selection::None,
    }
}

/// What is lost by each liability, of which the stress is reckoned before absorption.
fn liabilities_lost(biometric: Biometric, projection: Projection, measure: Measure) -> Selection
    ensures { result ≡ first_of (nodes.Whole (wholes.BioScenario biometric projection measure)) }
{
    match measure {
        Measure::Gross => Selection::Liabilities(
            Obligations::Stressed(biometric, projection),
            OfLiability::Loss(projection),
        ),
        Measure::Net => Selection::None,
    }
}

/// The sources that come next, off another table.
pub fn second_of(node: &Node) -> Selection
    ensures { result ≡ second_of node.now }
{
    match node {
        Node::Currency(currency, what) => second_of_currency(currency, *what),
        Node::Whole(what) => second_of_whole(*what),
        _ => Selection::None,
    }
}

fn second_of_currency(currency: &Name, what: OfCurrency) -> Selection
    ensures { result ≡ second_of (nodes.Currency currency.now what) }
{
    match what {
        OfCurrency::Loss(direction) => Selection::Liabilities(
            Obligations::In(*currency),
            OfLiability::Rate(direction),
        ),
        OfCurrency::Scenario(_, Measure::Gross) => Selection::Liabilities(
            Obligations::In(*currency),
            OfLiability::Present,
        ),
        _ => Selection::None,
    }
}

fn second_of_whole(what: Whole) -> Selection
    ensures { result ≡ second_of (nodes.Whole what) }
{
    match what {
        Whole::ClassSum(Class::Type2Equity) => Selection::Funds(Holders::Closed, OfFund::Total),
        _ => Selection::None,
    }
}
