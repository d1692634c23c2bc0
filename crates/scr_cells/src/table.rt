//! The cells of the report and the figures that they show.
ghost use Rattle.std.specs.Prelude.{◌≡◌, ◌<◌, true, length, map, option_map, slice_get, Some};
ghost use Rattle.scr_nodes.specs.Live.{is_live};
ghost use Rattle.scr_sheet.specs.declared.sheet.BalanceSheet.{BalanceSheet};
ghost use Rattle.scr_cells.specs.Table.{seen, table};

use scr_nodes::{
    Adjustment, Alternatives, Biometric, Direction, Equities, Measure, Node, Operational, Risk,
    Whole,
};
use scr_profile::Set;
use scr_sheet::Projection;

/// How many cells there are.
pub const CELL_COUNT: u32 = 102;

/// The number of the cell of the Solvency Capital Requirement.
pub(crate) const REQUIREMENT: u32 = 16;

/// A cell's name and the figure that it shows, which is in grains, thousandths of a cent.
#[derive(Clone, Copy)]
pub(crate) struct Entry {
    pub(crate) name: &'static str,
    pub(crate) shown: Whole,
}

/// The cells, in the order of the report's lines.
const TABLE: [Entry; 102] = [
    // S.25.01: the Solvency Capital Requirement.
    Entry {
        name: "S2501.market.gross",
        shown: Whole::Market(Measure::Gross),
    },
    Entry {
        name: "S2501.market.net",
        shown: Whole::Market(Measure::Net),
    },
    Entry {
        name: "S2501.default.gross",
        shown: Whole::Default,
    },
    Entry {
        name: "S2501.default.net",
        shown: Whole::NetPart(Risk::Default),
    },
    Entry {
        name: "S2501.life.gross",
        shown: Whole::Life(Measure::Gross),
    },
    Entry {
        name: "S2501.life.net",
        shown: Whole::Life(Measure::Net),
    },
    Entry {
        name: "S2501.health.gross",
        shown: Whole::Health(Measure::Gross),
    },
    Entry {
        name: "S2501.health.net",
        shown: Whole::Health(Measure::Net),
    },
    Entry {
        name: "S2501.nonlife",
        shown: Whole::Nonlife(Measure::Gross),
    },
    Entry {
        name: "S2501.intangible",
        shown: Whole::Intangible,
    },
    Entry {
        name: "S2501.diversification",
        shown: Whole::Diversification,
    },
    Entry {
        name: "S2501.bscr.gross",
        shown: Whole::Bscr(Measure::Gross),
    },
    Entry {
        name: "S2501.bscr.net",
        shown: Whole::Bscr(Measure::Net),
    },
    Entry {
        name: "S2501.adj.tp",
        shown: Whole::Adjust(Adjustment::TechnicalProvisions),
    },
    Entry {
        name: "S2501.adj.dt",
        shown: Whole::Adjust(Adjustment::DeferredTaxes),
    },
    Entry {
        name: "S2501.op",
        shown: Whole::OpPart(Operational::Charge),
    },
    Entry {
        name: "S2501.scr",
        shown: Whole::Scr,
    },
    // S.26.01: market risk.
    Entry {
        name: "S2601.interest.up.gross",
        shown: Whole::InterestScenario(Direction::Up, Measure::Gross),
    },
    Entry {
        name: "S2601.interest.up.net",
        shown: Whole::InterestScenario(Direction::Up, Measure::Net),
    },
    Entry {
        name: "S2601.interest.down.gross",
        shown: Whole::InterestScenario(Direction::Down, Measure::Gross),
    },
    Entry {
        name: "S2601.interest.down.net",
        shown: Whole::InterestScenario(Direction::Down, Measure::Net),
    },
    Entry {
        name: "S2601.interest.gross",
        shown: Whole::Picked(Alternatives::Interest, Measure::Gross),
    },
    Entry {
        name: "S2601.interest.net",
        shown: Whole::Picked(Alternatives::Interest, Measure::Net),
    },
    Entry {
        name: "S2601.equity.type1",
        shown: Whole::EquityPart(Equities::Type1),
    },
    Entry {
        name: "S2601.equity.type2",
        shown: Whole::EquityPart(Equities::Type2),
    },
    Entry {
        name: "S2601.equity.infra",
        shown: Whole::EquityPart(Equities::Infrastructure),
    },
    Entry {
        name: "S2601.equity.infracorp",
        shown: Whole::EquityPart(Equities::InfrastructureCorporate),
    },
    Entry {
        name: "S2601.equity.gross",
        shown: Whole::EquityRoot,
    },
    Entry {
        name: "S2601.equity.net",
        shown: Whole::NetPart(Risk::Equity),
    },
    Entry {
        name: "S2601.property.gross",
        shown: Whole::Property,
    },
    Entry {
        name: "S2601.property.net",
        shown: Whole::NetPart(Risk::Property),
    },
    Entry {
        name: "S2601.spread.gross",
        shown: Whole::Spread,
    },
    Entry {
        name: "S2601.spread.net",
        shown: Whole::NetPart(Risk::Spread),
    },
    Entry {
        name: "S2601.concentration.gross",
        shown: Whole::Concentration,
    },
    Entry {
        name: "S2601.concentration.net",
        shown: Whole::NetPart(Risk::Concentration),
    },
    Entry {
        name: "S2601.currency.gross",
        shown: Whole::Currency(Measure::Gross),
    },
    Entry {
        name: "S2601.currency.net",
        shown: Whole::Currency(Measure::Net),
    },
    Entry {
        name: "S2601.market.gross",
        shown: Whole::Market(Measure::Gross),
    },
    Entry {
        name: "S2601.market.net",
        shown: Whole::Market(Measure::Net),
    },
    // S.26.02: counterparty default risk.
    Entry {
        name: "S2602.type1",
        shown: Whole::DefaultType1,
    },
    Entry {
        name: "S2602.type2",
        shown: Whole::DefaultType2,
    },
    Entry {
        name: "S2602.default.gross",
        shown: Whole::Default,
    },
    Entry {
        name: "S2602.default.net",
        shown: Whole::NetPart(Risk::Default),
    },
    // S.26.03: life underwriting risk.
    Entry {
        name: "S2603.mortality.gross",
        shown: Whole::BioScenario(Biometric::Life, Projection::Mortality, Measure::Gross),
    },
    Entry {
        name: "S2603.mortality.net",
        shown: Whole::BioScenario(Biometric::Life, Projection::Mortality, Measure::Net),
    },
    Entry {
        name: "S2603.longevity.gross",
        shown: Whole::BioScenario(Biometric::Life, Projection::Longevity, Measure::Gross),
    },
    Entry {
        name: "S2603.longevity.net",
        shown: Whole::BioScenario(Biometric::Life, Projection::Longevity, Measure::Net),
    },
    Entry {
        name: "S2603.disability.gross",
        shown: Whole::BioScenario(Biometric::Life, Projection::Disability, Measure::Gross),
    },
    Entry {
        name: "S2603.disability.net",
        shown: Whole::BioScenario(Biometric::Life, Projection::Disability, Measure::Net),
    },
    Entry {
        name: "S2603.expense.gross",
        shown: Whole::BioScenario(Biometric::Life, Projection::Expense, Measure::Gross),
    },
    Entry {
        name: "S2603.expense.net",
        shown: Whole::BioScenario(Biometric::Life, Projection::Expense, Measure::Net),
    },
    Entry {
        name: "S2603.revision.gross",
        shown: Whole::BioScenario(Biometric::Life, Projection::Revision, Measure::Gross),
    },
    Entry {
        name: "S2603.revision.net",
        shown: Whole::BioScenario(Biometric::Life, Projection::Revision, Measure::Net),
    },
    Entry {
        name: "S2603.lapse.up.gross",
        shown: Whole::BioScenario(Biometric::Life, Projection::LapseUp, Measure::Gross),
    },
    Entry {
        name: "S2603.lapse.up.net",
        shown: Whole::BioScenario(Biometric::Life, Projection::LapseUp, Measure::Net),
    },
    Entry {
        name: "S2603.lapse.down.gross",
        shown: Whole::BioScenario(Biometric::Life, Projection::LapseDown, Measure::Gross),
    },
    Entry {
        name: "S2603.lapse.down.net",
        shown: Whole::BioScenario(Biometric::Life, Projection::LapseDown, Measure::Net),
    },
    Entry {
        name: "S2603.lapse.mass.gross",
        shown: Whole::BioScenario(Biometric::Life, Projection::LapseMass, Measure::Gross),
    },
    Entry {
        name: "S2603.lapse.mass.net",
        shown: Whole::BioScenario(Biometric::Life, Projection::LapseMass, Measure::Net),
    },
    Entry {
        name: "S2603.lapse.gross",
        shown: Whole::Picked(Alternatives::LifeLapse, Measure::Gross),
    },
    Entry {
        name: "S2603.lapse.net",
        shown: Whole::Picked(Alternatives::LifeLapse, Measure::Net),
    },
    Entry {
        name: "S2603.cat.gross",
        shown: Whole::BioScenario(Biometric::Life, Projection::Catastrophe, Measure::Gross),
    },
    Entry {
        name: "S2603.cat.net",
        shown: Whole::BioScenario(Biometric::Life, Projection::Catastrophe, Measure::Net),
    },
    Entry {
        name: "S2603.life.gross",
        shown: Whole::Life(Measure::Gross),
    },
    Entry {
        name: "S2603.life.net",
        shown: Whole::Life(Measure::Net),
    },
    // S.26.04: health underwriting risk.
    Entry {
        name: "S2604.mortality.gross",
        shown: Whole::BioScenario(Biometric::Health, Projection::Mortality, Measure::Gross),
    },
    Entry {
        name: "S2604.mortality.net",
        shown: Whole::BioScenario(Biometric::Health, Projection::Mortality, Measure::Net),
    },
    Entry {
        name: "S2604.longevity.gross",
        shown: Whole::BioScenario(Biometric::Health, Projection::Longevity, Measure::Gross),
    },
    Entry {
        name: "S2604.longevity.net",
        shown: Whole::BioScenario(Biometric::Health, Projection::Longevity, Measure::Net),
    },
    Entry {
        name: "S2604.disability.gross",
        shown: Whole::BioScenario(Biometric::Health, Projection::Disability, Measure::Gross),
    },
    Entry {
        name: "S2604.disability.net",
        shown: Whole::BioScenario(Biometric::Health, Projection::Disability, Measure::Net),
    },
    Entry {
        name: "S2604.expense.gross",
        shown: Whole::BioScenario(Biometric::Health, Projection::Expense, Measure::Gross),
    },
    Entry {
        name: "S2604.expense.net",
        shown: Whole::BioScenario(Biometric::Health, Projection::Expense, Measure::Net),
    },
    Entry {
        name: "S2604.revision.gross",
        shown: Whole::BioScenario(Biometric::Health, Projection::Revision, Measure::Gross),
    },
    Entry {
        name: "S2604.revision.net",
        shown: Whole::BioScenario(Biometric::Health, Projection::Revision, Measure::Net),
    },
    Entry {
        name: "S2604.lapse.up.gross",
        shown: Whole::BioScenario(Biometric::Health, Projection::LapseUp, Measure::Gross),
    },
    Entry {
        name: "S2604.lapse.up.net",
        shown: Whole::BioScenario(Biometric::Health, Projection::LapseUp, Measure::Net),
    },
    Entry {
        name: "S2604.lapse.down.gross",
        shown: Whole::BioScenario(Biometric::Health, Projection::LapseDown, Measure::Gross),
    },
    Entry {
        name: "S2604.lapse.down.net",
        shown: Whole::BioScenario(Biometric::Health, Projection::LapseDown, Measure::Net),
    },
    Entry {
        name: "S2604.lapse.mass.gross",
        shown: Whole::BioScenario(Biometric::Health, Projection::LapseMass, Measure::Gross),
    },
    Entry {
        name: "S2604.lapse.mass.net",
        shown: Whole::BioScenario(Biometric::Health, Projection::LapseMass, Measure::Net),
    },
    Entry {
        name: "S2604.lapse.gross",
        shown: Whole::Picked(Alternatives::HealthLapse, Measure::Gross),
    },
    Entry {
        name: "S2604.lapse.net",
        shown: Whole::Picked(Alternatives::HealthLapse, Measure::Net),
    },
    Entry {
        name: "S2604.slt.gross",
        shown: Whole::Slt(Measure::Gross),
    },
    Entry {
        name: "S2604.slt.net",
        shown: Whole::Slt(Measure::Net),
    },
    Entry {
        name: "S2604.nslt.pr",
        shown: Whole::PremiumReserve(Set::Nslt),
    },
    Entry {
        name: "S2604.nslt.lapse",
        shown: Whole::Lapse(Set::Nslt),
    },
    Entry {
        name: "S2604.nslt",
        shown: Whole::Nslt(Measure::Gross),
    },
    Entry {
        name: "S2604.cat.gross",
        shown: Whole::HealthCatastrophe,
    },
    Entry {
        name: "S2604.cat.net",
        shown: Whole::NetPart(Risk::HealthCatastrophe),
    },
    Entry {
        name: "S2604.health.gross",
        shown: Whole::Health(Measure::Gross),
    },
    Entry {
        name: "S2604.health.net",
        shown: Whole::Health(Measure::Net),
    },
    // S.26.05: non-life underwriting risk.
    Entry {
        name: "S2605.pr",
        shown: Whole::PremiumReserve(Set::Nl),
    },
    Entry {
        name: "S2605.lapse",
        shown: Whole::Lapse(Set::Nl),
    },
    Entry {
        name: "S2605.cat.nat",
        shown: Whole::Natural,
    },
    Entry {
        name: "S2605.cat.manmade",
        shown: Whole::ManMade,
    },
    Entry {
        name: "S2605.cat",
        shown: Whole::NonlifeCatastrophe,
    },
    Entry {
        name: "S2605.nonlife",
        shown: Whole::Nonlife(Measure::Gross),
    },
    // S.26.06: operational risk.
    Entry {
        name: "S2606.prem",
        shown: Whole::OpPart(Operational::Premiums),
    },
    Entry {
        name: "S2606.prov",
        shown: Whole::OpPart(Operational::Provisions),
    },
    Entry {
        name: "S2606.cap",
        shown: Whole::OpPart(Operational::Cap),
    },
    Entry {
        name: "S2606.op",
        shown: Whole::OpPart(Operational::Charge),
    },
];

/// The entry of this number, from 0 in the order of the report's lines.
#[tactic(auto, unfolding(crate::specs::Table::table))]
pub(crate) fn entry_of(k: u32) -> &'static Entry
    requires { k < CELL_COUNT }
    ensures { slice_get table k ≡ Some (seen result.now) }
{
    entry_in(&TABLE, k)
}

fn entry_in(entries: &[Entry], k: u32) -> &Entry
    requires { k < length entries.now }
    ensures { slice_get (map seen entries.now) k ≡ Some (seen result.now) }
{
    &entries[k as usize]
}

/// The name of the cell of this number, from 0 in the order of the report's lines.
pub fn cell_name(k: u32) -> &'static str
    requires { k < CELL_COUNT }
    ensures { option_map (λ cell. cell.name) (slice_get table k) ≡ Some result.now }
{
    entry_of(k).name
}

/// The figure that the cell of this number shows, which every balance sheet has.
pub fn cell_node(k: u32) -> Node
    requires { k < CELL_COUNT }
    ensures node { option_map (λ cell. cell.node) (slice_get table k) ≡ Some result }
    ensures live { (sheet : BalanceSheet) → is_live sheet result ≡ true }
{
    Node::Whole(entry_of(k).shown)
}
