//! The securities of the made book, each with its flows at once.
ghost use Rattle.std.specs.Prelude.{◌≡◌, OnOk, IfOk, pos};
ghost use Rattle.scr_made.specs.Made as spec;
ghost use Rattle.scr_made.specs.Records.{Appends};

use crate::days::midyear;
use crate::draws::Draws;
use crate::names::{dollar, euro, group_name, pound, security_name};
use crate::records::push_record;
use scr_dates::Day;
use scr_sheet::{Class, Edit, Flows, Name};
use std::alloc::{AllocError as NoMemory, Global};

/// Appends a security, and its flows if it promises any.
#[tactic(auto, unfolding(crate::specs::Made::security, crate::specs::Records::records_text))]
pub fn push_security(
    alloc: Global,
    k: u32,
    draws: &mut Draws,
    out: &mut Vec<u8>,
) -> Result<(), NoMemory>
    ensures { OnOk result (Appends (spec.security k) draws.old.state out.old.items
        draws.new.state out.new.items) }
{
    let class = class_drawn(draws.draw(10));
    let edit = Edit::Security {
        name: security_name(alloc, k)?,
        class,
        group: Some(group_name(alloc, draws.draw(400))?),
        currency: currency_drawn(draws.draw(10)),
        duration: i64::from(1_000 + draws.draw(14_001)),
    };
    push_record(alloc, edit, out)?;
    push_promised(alloc, k, class, draws, out)
}

fn class_drawn(number: u32) -> Class
    ensures { result ≡ spec.class_drawn number }
{
    match number {
        0 | 1 => Class::Government,
        2..=5 => Class::Bond,
        6 => Class::Type1Equity,
        7 => Class::Type2Equity,
        8 => Class::Property,
        _ => Class::Other,
    }
}

fn currency_drawn(number: u32) -> Name
    ensures { result ≡ spec.currency_drawn number }
{
    match number {
        0 => dollar(),
        1 => pound(),
        _ => euro(),
    }
}

/// Appends the flows of a security whose class promises them.
fn push_promised(
    alloc: Global,
    k: u32,
    class: Class,
    draws: &mut Draws,
    out: &mut Vec<u8>,
) -> Result<(), NoMemory>
    ensures { OnOk result (Appends (spec.promised k class) draws.old.state out.old.items
        draws.new.state out.new.items) }
{
    if promises(class) {
        push_flows(alloc, k, draws, out)
    } else {
        Ok(())
    }
}

fn promises(class: Class) -> bool
    ensures { result ≡ spec.promises class }
{
    matches!(class, Class::Government | Class::Bond)
}

#[tactic(auto, unfolding(crate::specs::Made::flows, crate::specs::Records::records_text))]
fn push_flows(alloc: Global, k: u32, draws: &mut Draws, out: &mut Vec<u8>) -> Result<(), NoMemory>
    ensures { OnOk result (Appends (spec.flows k) draws.old.state out.old.items
        draws.new.state out.new.items) }
{
    let security = security_name(alloc, k)?;
    let years = 1 + draws.draw(20) as u8;
    let flows = payments(alloc, years)?;
    push_record(alloc, Edit::Flows { security, flows }, out)
}

/// The payments of a bond of so many years.
#[tactic(auto, using(crate::proofs::Steps::years_more), unfolding(crate::specs::Made::payments))]
fn payments(alloc: Global, years: u8) -> Result<Flows, NoMemory>
    ensures { IfOk result (λ flows. flows ≡ spec.payments years) }
{
    let mut payments = Vec::new(alloc);
    for k in 0..years {
        payments.push(payment(years, k + 1))?;
    }
    Ok(Flows::new(payments))
}

fn payment(years: u8, year: u8) -> (Day, i64)
    ensures { result ≡ spec.payment years year }
{
    let amount = if year == years { 1_030_000 } else { 30_000 };
    (midyear(year), amount)
}
