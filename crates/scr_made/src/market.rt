//! The reference date, the curves and the groups of the made book.
ghost use Rattle.std.specs.Prelude.{◌≡◌, ◌++◌, OnOk, IfOk};
ghost use Rattle.scr_made.specs.Made as spec;
ghost use Rattle.scr_made.specs.Records.{Appends, records_text};

use crate::days::year_end;
use crate::draws::Draws;
use crate::names::{dollar, euro, group_name, pound};
use crate::records::push_record;
use scr_profile::GroupKind;
use scr_sheet::{Edit, Rates};
use std::alloc::{AllocError as NoMemory, Global};

/// Appends the reference date and the curves.
#[tactic(auto, unfolding(crate::specs::Made::market, crate::specs::Records::records_text))]
pub fn push_market(alloc: Global, out: &mut Vec<u8>) -> Result<(), NoMemory>
    ensures { OnOk result (out.new.items ≡ out.old.items ++ records_text spec.market) }
{
    push_record(alloc, opening_date(), out)?;
    push_record(alloc, euro_curve(alloc)?, out)?;
    push_record(alloc, dollar_curve(alloc)?, out)?;
    push_record(alloc, pound_curve(alloc)?, out)
}

fn opening_date() -> Edit
    ensures { result ≡ spec.opening_date }
{
    Edit::Asof {
        date: year_end(0),
        currency: euro(),
    }
}

fn euro_curve(alloc: Global) -> Result<Edit, NoMemory>
    ensures { IfOk result (λ edit. edit ≡ spec.euro_curve) }
{
    Ok(Edit::Curve {
        currency: euro(),
        rates: rising_rates(alloc, 20_000, 300)?,
    })
}

fn dollar_curve(alloc: Global) -> Result<Edit, NoMemory>
    ensures { IfOk result (λ edit. edit ≡ spec.dollar_curve) }
{
    Ok(Edit::Curve {
        currency: dollar(),
        rates: rising_rates(alloc, 35_000, 100)?,
    })
}

/// The rates of 30 years, each higher than the one before by this step.
#[tactic(auto, using(crate::proofs::Steps::years_more), unfolding(crate::specs::Made::rising_rates))]
fn rising_rates(alloc: Global, base: u16, step: u16) -> Result<Rates, NoMemory>
    ensures { IfOk result (λ rates. rates ≡ spec.rising_rates base step) }
{
    let mut rates = Vec::new(alloc);
    for k in 0..30 {
        rates.push(rising_rate(base, step, k + 1))?;
    }
    Ok(Rates::new(rates))
}

fn rising_rate(base: u16, step: u16, year: u8) -> i64
    ensures { result ≡ spec.rising_rate base step year }
{
    i64::from(u32::from(base) + u32::from(step) * u32::from(year))
}

fn pound_curve(alloc: Global) -> Result<Edit, NoMemory>
    ensures { IfOk result (λ edit. edit ≡ spec.pound_curve) }
{
    let mut rates = Vec::new(alloc);
    rates.push(40_000)?;
    Ok(Edit::Curve {
        currency: pound(),
        rates: Rates::new(rates),
    })
}

/// Appends a group.
#[tactic(auto, unfolding(crate::specs::Made::group, crate::specs::Records::records_text))]
pub fn push_group(
    alloc: Global,
    k: u32,
    draws: &mut Draws,
    out: &mut Vec<u8>,
) -> Result<(), NoMemory>
    ensures { OnOk result (Appends (spec.group k) draws.old.state out.old.items
        draws.new.state out.new.items) }
{
    let edit = Edit::Group {
        name: group_name(alloc, k)?,
        kind: group_kind(k),
        step: Some(draws.draw(5) as u8),
    };
    push_record(alloc, edit, out)
}

fn group_kind(k: u32) -> GroupKind
    ensures { result ≡ spec.group_kind k }
{
    if k < 20 {
        GroupKind::State
    } else if k < 40 {
        GroupKind::Covered
    } else {
        GroupKind::Name
    }
}
