//! The funds of the made book, and what is held.
ghost use Rattle.std.specs.Prelude.{◌≡◌, ◌++◌, ◌<◌, OnOk};
ghost use Rattle.scr_made.specs.Draws.{each};
ghost use Rattle.scr_made.specs.Made as spec;
ghost use Rattle.scr_made.specs.Records.{Adds, Appends, records_text};

use crate::draws::Draws;
use crate::making::SECURITIES;
use crate::names::{fund_name, security_name};
use crate::records::push_record;
use scr_sheet::{Components, Edit, Name};
use std::alloc::{AllocError as NoMemory, Global};

/// Appends a fund.
#[tactic(auto, unfolding(crate::specs::Made::fund, crate::specs::Records::records_text))]
pub fn push_fund(
    alloc: Global,
    k: u32,
    draws: &mut Draws,
    out: &mut Vec<u8>,
) -> Result<(), NoMemory>
    ensures { OnOk result (Appends (spec.fund k) draws.old.state out.old.items
        draws.new.state out.new.items) }
{
    let name = fund_name(alloc, k)?;
    let mut components = Vec::new(alloc);
    push_components(alloc, k, draws, &mut components)?;
    let components = Components::new(components);
    push_record(alloc, Edit::Fund { name, components }, out)
}

/// Appends the components of a fund: securities, and one of the funds before it.
#[tactic(auto, unfolding(crate::specs::Made::components))]
fn push_components(
    alloc: Global,
    k: u32,
    draws: &mut Draws,
    list: &mut Vec<(Name, i64)>,
) -> Result<(), NoMemory>
    ensures { OnOk result (Adds (spec.components k) draws.old.state list.old.items
        draws.new.state list.new.items) }
{
    let first = draws.draw(SECURITIES);
    push_spread(alloc, first, draws, list)?;
    push_held_fund(alloc, k, draws, list)
}

/// Appends every 397th security from this one on.
fn push_spread(
    alloc: Global,
    first: u32,
    draws: &mut Draws,
    list: &mut Vec<(Name, i64)>,
) -> Result<(), NoMemory>
    requires { first < SECURITIES }
    ensures { OnOk result (Adds (each 20 (spec.spread_component first)) draws.old.state
        list.old.items draws.new.state list.new.items) }
{
    for j in 0..20 {
        let name = security_name(alloc, (first + 397 * j) % SECURITIES)?;
        push_component(name, draws, list)?;
    }
    Ok(())
}

/// Appends one of the funds before this one, if there is any.
fn push_held_fund(
    alloc: Global,
    k: u32,
    draws: &mut Draws,
    list: &mut Vec<(Name, i64)>,
) -> Result<(), NoMemory>
    ensures { OnOk result (Adds (spec.held_fund k) draws.old.state list.old.items
        draws.new.state list.new.items) }
{
    if k == 0 {
        return Ok(());
    }
    push_fund_component(alloc, k, draws, list)
}

#[tactic(auto, unfolding(crate::specs::Made::fund_component))]
fn push_fund_component(
    alloc: Global,
    k: u32,
    draws: &mut Draws,
    list: &mut Vec<(Name, i64)>,
) -> Result<(), NoMemory>
    requires { 0 < k }
    ensures { OnOk result (Adds (spec.fund_component k) draws.old.state list.old.items
        draws.new.state list.new.items) }
{
    let name = fund_name(alloc, draws.draw(k))?;
    push_component(name, draws, list)
}

/// Appends a component with its weight.
#[tactic(auto, unfolding(crate::specs::Made::component))]
fn push_component(
    name: Name,
    draws: &mut Draws,
    list: &mut Vec<(Name, i64)>,
) -> Result<(), NoMemory>
    ensures { OnOk result (Adds (spec.component name) draws.old.state list.old.items
        draws.new.state list.new.items) }
{
    let weight = i64::from(1 + draws.draw(1_000));
    list.push((name, weight))?;
    Ok(())
}

/// Appends what is held of a security.
#[tactic(auto, unfolding(crate::specs::Made::holding, crate::specs::Records::records_text))]
pub fn push_holding(
    alloc: Global,
    security: u32,
    draws: &mut Draws,
    out: &mut Vec<u8>,
) -> Result<(), NoMemory>
    ensures { OnOk result (Appends (spec.holding security) draws.old.state out.old.items
        draws.new.state out.new.items) }
{
    let edit = Edit::Hold {
        name: security_name(alloc, security)?,
        cents: i64::from(300_000_000 + draws.draw(200_000_001)),
    };
    push_record(alloc, edit, out)
}

/// Appends what is held of a fund.
#[tactic(auto, unfolding(crate::specs::Made::stake, crate::specs::Records::records_text))]
pub fn push_stake(alloc: Global, k: u32, out: &mut Vec<u8>) -> Result<(), NoMemory>
    ensures { OnOk result (out.new.items ≡ out.old.items ++ records_text (spec.stake k)) }
{
    let edit = Edit::Hold {
        name: fund_name(alloc, k)?,
        cents: 13_000_000_000,
    };
    push_record(alloc, edit, out)
}

/// Appends a new holding of some security.
#[tactic(auto, unfolding(crate::specs::Made::trade))]
pub fn push_trade(alloc: Global, draws: &mut Draws, out: &mut Vec<u8>) -> Result<(), NoMemory>
    ensures { OnOk result (Appends (spec.trade) draws.old.state out.old.items
        draws.new.state out.new.items) }
{
    let security = draws.draw(SECURITIES);
    push_holding(alloc, security, draws, out)
}
