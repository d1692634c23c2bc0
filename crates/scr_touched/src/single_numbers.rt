//! Which figures other single numbers touch, the reference date and the reporting currency aside.
ghost use Rattle.std.specs.Prelude.{◌≡◌, ◌++◌, ◌&&◌, IfOk, OnOk};
ghost use Rattle.scr_nodes.specs.OwnOf.{volumes_in_regions};
ghost use Rattle.scr_nodes.specs.Rows.{has_stress};
ghost use Rattle.scr_nodes.specs.declared.node.Measure.TheVariants.{Net};
ghost use Rattle.scr_nodes.specs.declared.node.Node.TheVariants as nodes;
ghost use Rattle.scr_nodes.specs.declared.node.Whole.TheVariants as wholes;
ghost use Rattle.scr_touched.specs.SingleNumbers.{same_volumes, stress_cents, same_operations, numbers_touch, scenario_nodes, nonlife_nodes, number_nodes, risk_nodes, stress_nodes, charge_nodes, requirement_nodes};

use scr_nodes::live::has_stress;
use scr_nodes::single_numbers::{
    catastrophe_cents, interest_key, lapse_cents, risk_key, stress_key, volumes_in_regions,
};
use scr_nodes::words::{
    equity_parts, health_perils, interest_scenarios, lapse_scenarios, man_made_perils,
    natural_perils, nonlife_segments, nslt_segments,
};
use scr_nodes::{Adjustment, Biometric, Measure, Node, Operational, Risk, Whole};
use scr_profile::{Segment, Set};
use scr_sheet::{CatKey, Numbers, Projection};
use std::alloc::{AllocError as NoMemory, Global};

/// Whether a figure is touched where the single numbers become others.
pub(crate) fn numbers_touch(old: &Numbers, new: &Numbers, node: &Node) -> bool
    ensures { result ≡ numbers_touch old.now new.now node.now }
{
    match node {
        Node::Whole(Whole::InterestScenario(direction, Measure::Net)) => {
            let key = interest_key(*direction);
            old.absorbed(key) != new.absorbed(key)
        }
        Node::Whole(Whole::EquityPart(_)) => old.sym != new.sym,
        Node::Whole(Whole::NetPart(risk)) => {
            let key = risk_key(*risk);
            old.absorbed(key) != new.absorbed(key)
        }
        Node::Whole(Whole::DefaultType2) => !(old.due[0] == new.due[0] && old.due[1] == new.due[1]),
        Node::Whole(Whole::BioScenario(biometric, projection, Measure::Net)) => {
            is_stress_touched(old, new, *biometric, *projection)
        }
        Node::Whole(Whole::Segment(segment)) => !are_volumes_same(old, new, *segment),
        Node::Whole(Whole::CatCharge(key)) => catastrophe_cents(old, *key)
            != catastrophe_cents(new, *key),
        Node::Whole(Whole::Lapse(set)) => lapse_cents(old, *set) != lapse_cents(new, *set),
        Node::Whole(Whole::Nslt(_)) => lapse_cents(old, Set::Nslt) != lapse_cents(new, Set::Nslt),
        Node::Whole(Whole::Nonlife(_)) => lapse_cents(old, Set::Nl) != lapse_cents(new, Set::Nl),
        Node::Whole(Whole::Intangible)
        | Node::Whole(Whole::Bscr(_))
        | Node::Whole(Whole::Diversification) => { old.intangible != new.intangible }
        Node::Whole(Whole::OpPart(part)) => !are_operations_same(old, new, *part),
        Node::Whole(Whole::Adjust(Adjustment::TechnicalProvisions)) => old.fdb != new.fdb,
        Node::Whole(Whole::Adjust(Adjustment::DeferredTaxes)) => !(old.tax == new.tax
            && old.cap == new.cap),
        _ => false,
    }
}

fn is_stress_touched(
    old: &Numbers,
    new: &Numbers,
    biometric: Biometric,
    projection: Projection,
) -> bool
    ensures { result ≡ numbers_touch old.now new.now (nodes.Whole (wholes.BioScenario biometric projection Net)) }
{
    has_stress(biometric, projection)
        && stress_cents(old, biometric, projection) != stress_cents(new, biometric, projection)
}

/// What is absorbed of a stress, in cents.
fn stress_cents(numbers: &Numbers, biometric: Biometric, projection: Projection) -> u64
    ensures { result ≡ stress_cents biometric projection numbers.now }
{
    match stress_key(biometric, projection) {
        Some(key) => numbers.absorbed(key),
        None => 0,
    }
}

fn are_volumes_same(old: &Numbers, new: &Numbers, segment: Segment) -> bool
    ensures { result ≡ same_volumes (volumes_in_regions segment old.now) (volumes_in_regions segment new.now) }
{
    volumes_in_regions(old, segment) == volumes_in_regions(new, segment)
}

fn are_operations_same(old: &Numbers, new: &Numbers, part: Operational) -> bool
    ensures { result ≡ same_operations part old.now new.now }
{
    match part {
        Operational::Premiums => {
            old.earned[0] == new.earned[0]
                && old.earned[1] == new.earned[1]
                && old.earned[2] == new.earned[2]
                && old.earned[3] == new.earned[3]
                && old.earned[4] == new.earned[4]
                && old.earned[5] == new.earned[5]
        }
        Operational::Provisions => {
            old.provisions[0] == new.provisions[0]
                && old.provisions[1] == new.provisions[1]
                && old.provisions[2] == new.provisions[2]
        }
        Operational::Cap => true,
        Operational::Charge => old.earned[6] == new.earned[6],
    }
}

/// The figures that the single numbers may touch.
pub(crate) fn number_nodes(alloc: Global) -> Result<Vec<Node>, NoMemory>
    ensures { IfOk result (λ list. list.items ≡ number_nodes) }
{
    let mut list = Vec::new(alloc);
    push_scenarios(&mut list)?;
    push_nonlife(&mut list)?;
    Ok(list)
}

fn push_scenarios(list: &mut Vec<Node>) -> Result<(), NoMemory>
    ensures { OnOk result (list.new.items ≡ list.old.items ++ scenario_nodes) }
{
    list.extend_from_slice(&interest_scenarios())?;
    list.extend_from_slice(&equity_parts())?;
    list.extend_from_slice(&risk_nodes())?;
    list.extend_from_slice(&stress_nodes(Biometric::Life))?;
    list.extend_from_slice(&lapse_scenarios(Biometric::Life))?;
    list.extend_from_slice(&stress_nodes(Biometric::Health))?;
    list.extend_from_slice(&lapse_scenarios(Biometric::Health))?;
    Ok(())
}

fn push_nonlife(list: &mut Vec<Node>) -> Result<(), NoMemory>
    ensures { OnOk result (list.new.items ≡ list.old.items ++ nonlife_nodes) }
{
    list.extend_from_slice(&nonlife_segments())?;
    list.extend_from_slice(&nslt_segments())?;
    list.extend_from_slice(&natural_perils())?;
    list.extend_from_slice(&man_made_perils())?;
    list.extend_from_slice(&health_perils())?;
    list.extend_from_slice(&charge_nodes())?;
    list.extend_from_slice(&requirement_nodes())?;
    Ok(())
}

fn risk_nodes() -> [Node; 7]
    ensures { result ≡ risk_nodes }
{
    [
        Node::Whole(Whole::NetPart(Risk::Equity)),
        Node::Whole(Whole::NetPart(Risk::Property)),
        Node::Whole(Whole::NetPart(Risk::Spread)),
        Node::Whole(Whole::NetPart(Risk::Concentration)),
        Node::Whole(Whole::NetPart(Risk::Default)),
        Node::Whole(Whole::NetPart(Risk::HealthCatastrophe)),
        Node::Whole(Whole::DefaultType2),
    ]
}

fn stress_nodes(biometric: Biometric) -> [Node; 6]
    ensures { result ≡ stress_nodes biometric }
{
    [
        Node::Whole(Whole::BioScenario(biometric, Projection::Mortality, Measure::Net)),
        Node::Whole(Whole::BioScenario(biometric, Projection::Longevity, Measure::Net)),
        Node::Whole(Whole::BioScenario(biometric, Projection::Disability, Measure::Net)),
        Node::Whole(Whole::BioScenario(biometric, Projection::Expense, Measure::Net)),
        Node::Whole(Whole::BioScenario(biometric, Projection::Revision, Measure::Net)),
        Node::Whole(Whole::BioScenario(biometric, Projection::Catastrophe, Measure::Net)),
    ]
}

fn charge_nodes() -> [Node; 8]
    ensures { result ≡ charge_nodes }
{
    [
        Node::Whole(Whole::CatCharge(CatKey::NonProportionalProperty)),
        Node::Whole(Whole::CatCharge(CatKey::Other)),
        Node::Whole(Whole::Lapse(Set::Nl)),
        Node::Whole(Whole::Lapse(Set::Nslt)),
        Node::Whole(Whole::Nslt(Measure::Gross)),
        Node::Whole(Whole::Nslt(Measure::Net)),
        Node::Whole(Whole::Nonlife(Measure::Gross)),
        Node::Whole(Whole::Nonlife(Measure::Net)),
    ]
}

fn requirement_nodes() -> [Node; 9]
    ensures { result ≡ requirement_nodes }
{
    [
        Node::Whole(Whole::Intangible),
        Node::Whole(Whole::Bscr(Measure::Gross)),
        Node::Whole(Whole::Bscr(Measure::Net)),
        Node::Whole(Whole::OpPart(Operational::Premiums)),
        Node::Whole(Whole::OpPart(Operational::Provisions)),
        Node::Whole(Whole::OpPart(Operational::Charge)),
        Node::Whole(Whole::Adjust(Adjustment::TechnicalProvisions)),
        Node::Whole(Whole::Adjust(Adjustment::DeferredTaxes)),
        Node::Whole(Whole::Diversification),
    ]
}
