//! The row of a figure, and the figure's family in it.
ghost use Rattle.std.specs.Prelude.{◌≡◌, ◌<◌};
ghost use Rattle.scr_nodes.specs.Numbers.{direction_place, measure_place};
ghost use Rattle.scr_figure_ids.specs.Families.{table_of, family_of, stress_place, security_family, liability_family, group_family, currency_family};

use crate::wholes::whole_family;
use scr_ids::Table;
use scr_nodes::live::is_stress;
use scr_nodes::{Direction, Measure, Node, OfCurrency, OfFund, OfGroup, OfLiability, OfSecurity};
use scr_sheet::Projection;

/// The table of the figure's row.
#[inline(always)]
pub fn table(node: &Node) -> Table
    ensures { result ≡ table_of node.now }
{
    match node {
        Node::Fund(_, _) => Table::Fund,
        Node::Security(_, _) => Table::Security,
        Node::Liability(_, _) => Table::Liability,
        Node::Currency(_, _) => Table::Currency,
        Node::Group(_, _) => Table::Group,
        Node::Whole(_) => Table::Whole,
    }
}

/// The figure's index among the figures of its row, from 0; the table's stride for a figure that no balance sheet can have.
#[inline(always)]
pub fn family(node: &Node) -> u32
    ensures { result ≡ family_of node.now }
{
    match node {
        Node::Fund(_, OfFund::Total) => 0,
        Node::Security(_, what) => security_family(*what),
        Node::Liability(_, what) => liability_family(*what),
        Node::Currency(_, what) => currency_family(*what),
        Node::Group(_, what) => group_family(*what),
        Node::Whole(what) => whole_family(*what),
    }
}

/// The index of a direction: 0 for a rise, 1 for a fall.
pub(crate) fn direction_place(direction: Direction) -> u32
    ensures place { result ≡ direction_place direction }
    ensures few { direction_place direction < 2 }
{
    match direction {
        Direction::Up => 0,
        Direction::Down => 1,
    }
}

/// The index of a measure: 0 for gross, 1 for net.
pub(crate) fn measure_place(measure: Measure) -> u32
    ensures place { result ≡ measure_place measure }
    ensures few { measure_place measure < 2 }
{
    match measure {
        Measure::Gross => 0,
        Measure::Net => 1,
    }
}

/// The family of a security's figure, 0 to 5.
pub fn security_family(what: OfSecurity) -> u32
    ensures { result ≡ security_family what }
{
    match what {
        OfSecurity::Total => 0,
        OfSecurity::UnitLoss(direction) => 1 + direction_place(direction),
        OfSecurity::Rate(direction) => 3 + direction_place(direction),
        OfSecurity::Spread => 5,
    }
}

fn stress_place(projection: Projection) -> u32
    ensures place { result ≡ stress_place projection }
    ensures few { stress_place projection < 9 }
{
    match projection {
        Projection::Base | Projection::Mortality => 0,
        Projection::Longevity => 1,
        Projection::Disability => 2,
        Projection::Expense => 3,
        Projection::Revision => 4,
        Projection::LapseUp => 5,
        Projection::LapseDown => 6,
        Projection::LapseMass => 7,
        Projection::Catastrophe => 8,
    }
}

/// The family of a liability's figure, 0 to 11; 12 for a figure that no balance sheet can have.
pub fn liability_family(what: OfLiability) -> u32
    ensures { result ≡ liability_family what }
{
    match what {
        OfLiability::Rate(direction) => direction_place(direction),
        OfLiability::Present => 2,
        OfLiability::Loss(projection) => {
            if is_stress(projection) {
                3 + stress_place(projection)
            } else {
                12
            }
        }
    }
}

/// The family of a group's figure, 0 to 2.
pub fn group_family(what: OfGroup) -> u32
    ensures { result ≡ group_family what }
{
    match what {
        OfGroup::Total => 0,
        OfGroup::ConcentrationSquare => 1,
        OfGroup::Loss => 2,
    }
}

/// The family of a currency's figure, 0 to 8.
pub fn currency_family(what: OfCurrency) -> u32
    ensures { result ≡ currency_family what }
{
    match what {
        OfCurrency::Loss(direction) => direction_place(direction),
        OfCurrency::Scenario(direction, measure) => {
            2 + 2 * direction_place(direction) + measure_place(measure)
        }
        OfCurrency::Choice => 6,
        OfCurrency::Picked(measure) => 7 + measure_place(measure),
    }
}

/// The security's figure with this family.
pub(crate) fn security_at(family: u32) -> OfSecurity
    requires { family < 6 }
    ensures { security_family result ≡ family }
{
    match family {
        0 => OfSecurity::Total,
        1 => OfSecurity::UnitLoss(Direction::Up),
        2 => OfSecurity::UnitLoss(Direction::Down),
        3 => OfSecurity::Rate(Direction::Up),
        4 => OfSecurity::Rate(Direction::Down),
        _ => OfSecurity::Spread,
    }
}

/// The liability's figure with this family.
pub(crate) fn liability_at(family: u32) -> OfLiability
    requires { family < 12 }
    ensures { liability_family result ≡ family }
{
    match family {
        0 => OfLiability::Rate(Direction::Up),
        1 => OfLiability::Rate(Direction::Down),
        2 => OfLiability::Present,
        3 => OfLiability::Loss(Projection::Mortality),
        4 => OfLiability::Loss(Projection::Longevity),
        5 => OfLiability::Loss(Projection::Disability),
        6 => OfLiability::Loss(Projection::Expense),
        7 => OfLiability::Loss(Projection::Revision),
        8 => OfLiability::Loss(Projection::LapseUp),
        9 => OfLiability::Loss(Projection::LapseDown),
        10 => OfLiability::Loss(Projection::LapseMass),
        _ => OfLiability::Loss(Projection::Catastrophe),
    }
}

/// The group's figure with this family.
pub(crate) fn group_at(family: u32) -> OfGroup
    requires { family < 3 }
    ensures { group_family result ≡ family }
{
    match family {
        0 => OfGroup::Total,
        1 => OfGroup::ConcentrationSquare,
        _ => OfGroup::Loss,
    }
}

/// The currency's figure with this family.
pub fn currency_at(family: u32) -> OfCurrency
    requires { family < 9 }
    ensures { currency_family result ≡ family }
{
    match family {
        0 => OfCurrency::Loss(Direction::Up),
        1 => OfCurrency::Loss(Direction::Down),
        2 => OfCurrency::Scenario(Direction::Up, Measure::Gross),
        3 => OfCurrency::Scenario(Direction::Up, Measure::Net),
        4 => OfCurrency::Scenario(Direction::Down, Measure::Gross),
        5 => OfCurrency::Scenario(Direction::Down, Measure::Net),
        6 => OfCurrency::Choice,
        7 => OfCurrency::Picked(Measure::Gross),
        _ => OfCurrency::Picked(Measure::Net),
    }
}
