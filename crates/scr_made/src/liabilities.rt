//! The liabilities of the made book, each with its flows at once.
ghost use Rattle.std.specs.Prelude.{◌≡◌, ◌<◌, ◌+◌, ◌*◌, ◌/◌, ◌++◌, [], OnOk, IfOk, pos, map};
ghost use Rattle.scr_made.specs.Draws.{each};
ghost use Rattle.scr_made.specs.Made as spec;
ghost use Rattle.scr_made.specs.Records.{Adds, Appends, records_text};

use crate::days::year_end;
use crate::draws::Draws;
use crate::names::{euro, liability_name};
use crate::records::push_record;
use scr_dates::Day;
use scr_sheet::{Edit, Flows, LiabilityKind, Projection};
use std::alloc::{AllocError as NoMemory, Global};

/// The projections, and by how many thousandths of the best estimate the payments of each are
/// higher.
const STRESSES: [(Projection, u16); 10] = [
    (Projection::Base, 0),
    (Projection::Mortality, 15),
    (Projection::Longevity, 20),
    (Projection::Disability, 10),
    (Projection::Expense, 25),
    (Projection::Revision, 5),
    (Projection::LapseUp, 12),
    (Projection::LapseDown, 18),
    (Projection::LapseMass, 30),
    (Projection::Catastrophe, 8),
];

/// Appends a liability and its flows under each projection.
#[tactic(auto, unfolding(crate::specs::Made::liability, crate::specs::Records::records_text))]
pub fn push_liability(
    alloc: Global,
    k: u32,
    draws: &mut Draws,
    out: &mut Vec<u8>,
) -> Result<(), NoMemory>
    ensures { OnOk result (Appends (spec.liability k) draws.old.state out.old.items
        draws.new.state out.new.items) }
{
    let best = best_payments(alloc, draws)?;
    let edit = Edit::Liability {
        name: liability_name(alloc, k)?,
        kind: liability_kind(k),
        currency: euro(),
    };
    push_record(alloc, edit, out)?;
    push_projections(alloc, k, &best, out)
}

fn liability_kind(k: u32) -> LiabilityKind
    ensures { result ≡ spec.liability_kind k }
{
    if k < 120 {
        LiabilityKind::Life
    } else if k < 160 {
        LiabilityKind::Health
    } else {
        LiabilityKind::Other
    }
}

/// The payments of a liability's best estimate, at the end of each year.
#[tactic(auto, unfolding(crate::specs::Made::best_payments))]
fn best_payments(alloc: Global, draws: &mut Draws) -> Result<Vec<(Day, u32)>, NoMemory>
    ensures { IfOk result (λ best. Adds spec.best_payments draws.old.state []
        draws.new.state best.items) }
{
    let mut best = Vec::new(alloc);
    push_best_payments(draws, &mut best)?;
    Ok(best)
}

fn push_best_payments(draws: &mut Draws, best: &mut Vec<(Day, u32)>) -> Result<(), NoMemory>
    ensures { OnOk result (Adds (each 30 spec.best_payment) draws.old.state best.old.items
        draws.new.state best.new.items) }
{
    for k in 0..30 {
        push_best_payment(k, draws, best)?;
    }
    Ok(())
}

#[tactic(auto, unfolding(crate::specs::Made::best_payment))]
fn push_best_payment(k: u8, draws: &mut Draws, best: &mut Vec<(Day, u32)>) -> Result<(), NoMemory>
    requires { k < 30 }
    ensures { OnOk result (Adds (spec.best_payment k) draws.old.state best.old.items
        draws.new.state best.new.items) }
{
    let cents = 50_000_000 + draws.draw(50_000_001);
    best.push((year_end(1 + k), cents))?;
    Ok(())
}

/// Appends the flows under each projection of a liability.
#[tactic(auto, unfolding(crate::specs::Made::projections_of, crate::specs::Records::records_text))]
fn push_projections(
    alloc: Global,
    k: u32,
    best: &[(Day, u32)],
    out: &mut Vec<u8>,
) -> Result<(), NoMemory>
    ensures { OnOk result (out.new.items ≡ out.old.items
        ++ records_text (spec.projections_of k best.now)) }
{
    for (projection, thousandths) in stresses(liability_kind(k)) {
        let flows = raised_payments(alloc, best, *thousandths)?;
        let edit = Edit::LiabilityFlows {
            liability: liability_name(alloc, k)?,
            projection: *projection,
            flows,
        };
        push_record(alloc, edit, out)?;
    }
    Ok(())
}

fn stresses(kind: LiabilityKind) -> &'static [(Projection, u16)]
    ensures { result.now ≡ spec.stresses kind }
{
    match kind {
        LiabilityKind::Life => &STRESSES,
        LiabilityKind::Health => &STRESSES[..9],
        LiabilityKind::Other => &STRESSES[..1],
    }
}

/// The payments higher by so many thousandths.
fn raised_payments(alloc: Global, best: &[(Day, u32)], thousandths: u16) -> Result<Flows, NoMemory>
    ensures { IfOk result (λ flows. flows ≡ map (spec.raised thousandths) best.now) }
{
    let mut payments = Vec::new(alloc);
    for (day, cents) in best {
        payments.push((*day, raised(*cents, thousandths)))?;
    }
    Ok(Flows::new(payments))
}

/// An amount higher by so many thousandths, rounded down.
fn raised(cents: u32, thousandths: u16) -> i64
    ensures { result ≡ pos (cents + cents * thousandths / 1000) }
{
    let cents = u64::from(cents);
    (cents + cents * u64::from(thousandths) / 1_000) as i64
}
