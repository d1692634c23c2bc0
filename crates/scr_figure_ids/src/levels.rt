//! The topological levels of figures, by table and family: each source has a lower level.
ghost use Rattle.std.specs.Prelude.{◌≡◌, ◌<◌};
ghost use Rattle.scr_ids.specs.Ranges.{stride};
ghost use Rattle.scr_nodes.specs.Levels.{choice_level, currency_level, group_level, level, net_level, picked_level, security_level, whole_level};
ghost use Rattle.scr_nodes.specs.declared.node.Node.{Node};
ghost use Rattle.scr_figure_ids.specs.Families.{family_of, table_of};

use crate::families::{currency_at, group_at, security_at};
use crate::wholes::whole_at;
use scr_ids::Table;
use scr_nodes::{
    Adjustment, Alternatives, Measure, OfCurrency, OfGroup, OfSecurity, Operational, Risk, Whole,
};

/// The number of levels.
pub const LEVELS: u32 = 14;

/// The level of figure `family` of a table, 0 to 13. Totals of funds are all at level 0, though one may be a source of another.
pub fn level(table: Table, family: u32) -> u32
    requires { family < stride table }
    ensures level { (node : Node) → table_of node ≡ table → family_of node ≡ family → level node ≡ result }
    ensures few { result < 14 }
{
    match table {
        Table::Fund | Table::Liability | Table::Part => 0,
        Table::Security => security_level(security_at(family)),
        Table::Group => group_level(group_at(family)),
        Table::Currency => currency_level(currency_at(family)),
        Table::Whole => whole_level(whole_at(family)),
    }
}

fn security_level(what: OfSecurity) -> u32
    ensures level { result ≡ security_level what }
    ensures few { security_level what < 14 }
{
    match what {
        OfSecurity::UnitLoss(_) => 0,
        OfSecurity::Total => 1,
        OfSecurity::Rate(_) | OfSecurity::Spread => 2,
    }
}

fn group_level(what: OfGroup) -> u32
    ensures level { result ≡ group_level what }
    ensures few { group_level what < 14 }
{
    match what {
        OfGroup::Loss => 0,
        OfGroup::Total => 2,
        OfGroup::ConcentrationSquare => 3,
    }
}

fn currency_level(what: OfCurrency) -> u32
    ensures level { result ≡ currency_level what }
    ensures few { currency_level what < 14 }
{
    match what {
        OfCurrency::Scenario(_, Measure::Gross) => 2,
        OfCurrency::Scenario(_, Measure::Net) | OfCurrency::Loss(_) => 3,
        OfCurrency::Choice => 4,
        OfCurrency::Picked(_) => 5,
    }
}

fn whole_level(what: Whole) -> u32
    ensures level { result ≡ whole_level what }
    ensures few { whole_level what < 14 }
{
    match what {
        Whole::DefaultType2 | Whole::Segment(_) | Whole::CatCharge(_) | Whole::Lapse(_) => 0,
        Whole::Intangible | Whole::OpPart(Operational::Premiums | Operational::Provisions) => 0,
        Whole::ClassLoss(_) | Whole::ClassSquare(_) | Whole::PremiumReserve(_) => 1,
        Whole::Natural | Whole::ManMade | Whole::HealthCatastrophe => 1,
        Whole::BioScenario(_, _, Measure::Gross) => 1,
        Whole::ClassSum(_) | Whole::Assets | Whole::Variance | Whole::NonlifeCatastrophe => 2,
        Whole::BioScenario(_, _, Measure::Net) | Whole::Nslt(_) => 2,
        Whole::Spread | Whole::Property | Whole::EquityPart(_) | Whole::DefaultBand => 3,
        Whole::Nonlife(_) => 3,
        Whole::InterestScenario(_, Measure::Gross) | Whole::EquityRoot => 4,
        Whole::Concentration | Whole::DefaultType1 => 4,
        Whole::InterestScenario(_, Measure::Net) | Whole::Default => 5,
        Whole::Life(_) | Whole::Slt(_) => 5,
        Whole::Choice(which) => choice_level(which),
        Whole::Picked(which, _) => picked_level(which),
        Whole::NetPart(risk) => net_level(risk),
        Whole::Currency(_) | Whole::Health(_) => 6,
        Whole::Market(_) => 8,
        Whole::Bscr(_) => 9,
        Whole::Diversification | Whole::OpPart(Operational::Cap) => 10,
        Whole::Adjust(Adjustment::TechnicalProvisions) => 10,
        Whole::OpPart(Operational::Charge) => 11,
        Whole::Adjust(Adjustment::DeferredTaxes) => 12,
        Whole::Scr => 13,
    }
}

fn choice_level(which: Alternatives) -> u32
    ensures level { result ≡ choice_level which }
    ensures few { choice_level which < 14 }
{
    match which {
        Alternatives::LifeLapse | Alternatives::HealthLapse => 3,
        Alternatives::Interest => 6,
    }
}

fn picked_level(which: Alternatives) -> u32
    ensures level { result ≡ picked_level which }
    ensures few { picked_level which < 14 }
{
    match which {
        Alternatives::LifeLapse | Alternatives::HealthLapse => 4,
        Alternatives::Interest => 7,
    }
}

fn net_level(risk: Risk) -> u32
    ensures level { result ≡ net_level risk }
    ensures few { net_level risk < 14 }
{
    match risk {
        Risk::HealthCatastrophe => 2,
        Risk::Property | Risk::Spread => 4,
        Risk::Equity | Risk::Concentration => 5,
        Risk::Default => 6,
    }
}
