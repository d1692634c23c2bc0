//! What is read of a row, if there is one.
ghost use Rattle.std.specs.Prelude.{◌≡◌};
ghost use Rattle.std.specs.Option.{option_copied};
ghost use Rattle.scr_row_change.specs.Readings.{position_held, flows_of, duration_of, stake_held, is_fund_after, held_kept, kind_of, step_of, same_step, best_estimate_of, paid_for, rates_by, keeps_rates, keeps_security, keeps_liability};

use crate::comparisons::same_rates;
use scr_dates::Day;
use scr_profile::GroupKind;
use scr_sheet::{BalanceSheet, Curve, Group, Liability, Name, Position, Projection, Stake};

/// What is held directly of a security, in cents; nothing where there is none.
pub fn position_held(position: Option<&Position>) -> u64
    ensures { result ≡ position_held (option_copied position.entry) }
{
    match position {
        Some(position) => position.held,
        None => 0,
    }
}

/// The payments of a security, none where there is none.
pub fn flows_of(position: Option<&Position>) -> &[(Day, i64)]
    ensures { result.now ≡ flows_of (option_copied position.entry) }
{
    match position {
        Some(position) => position.security.flows.as_slice(),
        None => &[],
    }
}

/// The duration of a security in thousandths of a year, 0 where there is none.
pub fn duration_of(position: Option<&Position>) -> u32
    ensures { result ≡ duration_of (option_copied position.entry) }
{
    match position {
        Some(position) => position.security.duration,
        None => 0,
    }
}

/// What is held directly of a fund, in cents; nothing where there is none.
pub fn stake_held(stake: Option<&Stake>) -> u64
    ensures { result ≡ stake_held (option_copied stake.entry) }
{
    match stake {
        Some(stake) => stake.held,
        None => 0,
    }
}

/// Whether there is a fund `x` where that of this name has become another, or came or went.
pub fn is_fund_after(sheet: &BalanceSheet, name: &Name, new: Option<&Stake>, x: &Name) -> bool
    ensures { result ≡ is_fund_after sheet.now name.now (option_copied new.entry) x.now }
{
    if x == name {
        new.is_some()
    } else {
        sheet.funds.contains(x)
    }
}

/// Whether as much is held directly of the fund `x` where that of this name becomes another.
pub fn held_kept(name: &Name, old: Option<&Stake>, new: Option<&Stake>, x: &Name) -> bool
    ensures { result ≡ held_kept name.now (option_copied old.entry) (option_copied new.entry)
        x.now }
{
    x != name || stake_held(old) == stake_held(new)
}

/// The kind of a group of counterparties, a plain one where there is none.
pub fn kind_of(group: Option<&Group>) -> GroupKind
    ensures { result ≡ kind_of (option_copied group.entry) }
{
    match group {
        Some(group) => group.kind,
        None => GroupKind::Name,
    }
}

/// Whether the group has the same credit quality step, or none, before and after.
pub fn same_step(old: Option<&Group>, new: Option<&Group>) -> bool
    ensures { result ≡ same_step (option_copied old.entry) (option_copied new.entry) }
{
    step_of(old) == step_of(new)
}

fn step_of(group: Option<&Group>) -> Option<u8>
    ensures { result ≡ step_of (option_copied group.entry) }
{
    group?.step
}

/// What is paid for a liability by the best estimate, nothing where there is none.
pub fn best_estimate_of(liability: Option<&Liability>) -> &[(Day, i64)]
    ensures { result.now ≡ best_estimate_of (option_copied liability.entry) }
{
    match liability {
        Some(liability) => liability.flows.base.as_slice(),
        None => &[],
    }
}

/// What is paid for a liability under a projection, nothing where there is none.
pub fn paid_for(projection: Projection, liability: Option<&Liability>) -> &[(Day, i64)]
    ensures { result.now ≡ paid_for projection (option_copied liability.entry) }
{
    match liability {
        Some(liability) => liability.flows.under(projection).as_slice(),
        None => &[],
    }
}

/// The rates of a curve, none where there is none.
pub fn rates_by(curve: Option<&Curve>) -> &[i64]
    ensures { result.now ≡ rates_by (option_copied curve.entry) }
{
    match curve {
        Some(curve) => curve.rates.as_slice(),
        None => &[],
    }
}

/// Whether the currency is another than that of this name, or its rates stay.
fn keeps_rates(name: &Name, old: Option<&Curve>, new: Option<&Curve>, currency: &Name) -> bool
    ensures { result ≡ keeps_rates name.now (option_copied old.entry) (option_copied new.entry)
        currency.now }
{
    currency != name || same_rates(rates_by(old), rates_by(new))
}

/// Whether the rates stay by which a security's payments are discounted, if there is one.
pub fn keeps_security(
    name: &Name,
    old: Option<&Curve>,
    new: Option<&Curve>,
    position: Option<&Position>,
) -> bool
    ensures { result ≡ keeps_security name.now (option_copied old.entry) (option_copied new.entry)
        (option_copied position.entry) }
{
    match position {
        Some(position) => keeps_rates(name, old, new, &position.security.currency),
        None => true,
    }
}

/// Whether the rates stay by which a liability's payments are discounted, if there is one.
pub fn keeps_liability(
    name: &Name,
    old: Option<&Curve>,
    new: Option<&Curve>,
    liability: Option<&Liability>,
) -> bool
    ensures { result ≡ keeps_liability name.now (option_copied old.entry) (option_copied new.entry)
        (option_copied liability.entry) }
{
    match liability {
        Some(liability) => keeps_rates(name, old, new, &liability.currency),
        None => true,
    }
}
