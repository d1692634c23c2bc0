//! What each record exchanges.
ghost use Rattle.std.specs.Prelude.{◌≡◌, None, Some, IfOk};
ghost use Rattle.std.specs.Option.{option_map_or};
ghost use Rattle.scr_tables.specs.Tables.{row_of};
ghost use Rattle.scr_sheet.specs.BalanceSheet.{position_of, stake_of, curve_name};
ghost use Rattle.scr_sheet.specs.Records.{applied, kept_flows, natural};
ghost use Rattle.scr_row_change.specs.declared.change.Change.TheVariants as changes;
ghost use Rattle.scr_sheet.specs.Faults.{fields_outside};
ghost use Rattle.scr_sheet.specs.Forms.{Formed};
ghost use Rattle.scr_sheet.specs.declared.edit.Edit.TheVariants as edits;
ghost use Rattle.scr_row_change.specs.Changes.{change_of, hold_change, absorb_change, drop_change};

use crate::change::Change;
use scr_profile::GroupKind;
use scr_sheet::{
    AbsorbKey, BalanceSheet, Bank, BoxedNumbers, Class, Components, Copied, Curve, Edit, Flows,
    Fund, Group, Liability, LiabilityFlows, LiabilityKind, Name, Position, Projection, Rates, Rein,
    Security, Stake, Table, natural,
};
use std::alloc::{AllocError as NoMemory, Global};

/// What the record exchanges. Only want of memory is refused. The cost is that of the row that the
/// record makes.
pub fn change_of(alloc: Global, sheet: &BalanceSheet, edit: &Edit) -> Result<Change, NoMemory>
    requires formed { Formed edit.now }
    requires within { fields_outside edit.now ≡ None }
    ensures { IfOk result (λ change. change ≡ change_of edit.now sheet.now) }
{
    match edit {
        Edit::Asof { date, currency } => Ok(Change::Asof(*date, *currency)),
        Edit::Curve { currency, rates } => of_curve(alloc, sheet, currency, rates),
        Edit::Group { name, kind, step } => Ok(of_group(*name, *kind, *step)),
        Edit::Security {
            name,
            class,
            group,
            currency,
            duration,
        } => of_security(alloc, sheet, name, *class, *group, currency, *duration),
        Edit::Flows { security, flows } => of_flows(alloc, sheet, security, flows),
        Edit::Fund { name, components } => of_fund(alloc, sheet, name, components),
        Edit::Hold { name, cents } => of_hold(alloc, sheet, name, natural(*cents)),
        Edit::Liability {
            name,
            kind,
            currency,
        } => of_liability(alloc, sheet, name, *kind, currency),
        Edit::LiabilityFlows {
            liability,
            projection,
            flows,
        } => of_liability_flows(alloc, sheet, liability, *projection, flows),
        Edit::Absorb { key, cents } => of_absorb(alloc, sheet, *key, natural(*cents)),
        Edit::Rein {
            name,
            group,
            recoverables,
            mitigation,
            collateral,
        } => Ok(of_rein(name, group, *recoverables, *mitigation, *collateral)),
        Edit::Bank { name, group, cents } => Ok(of_bank(name, group, *cents)),
        Edit::Remove { table, name } => Ok(of_drop(*table, name)),
        _ => of_numbers(alloc, sheet, edit),
    }
}

fn of_group(name: Name, kind: GroupKind, step: Option<u8>) -> Change
    ensures { result ≡ changes.Group name (Some (record { name = name; kind = kind; step = step })) }
{
    Change::Group(name, Some(Group { name, kind, step }))
}

fn of_rein(name: &Name, group: &Name, recoverables: i64, mitigation: i64, collateral: i64) -> Change
    ensures { result ≡ changes.Rein name.now (Some (record {
      name = name.now;
      group = group.now;
      recoverables = natural recoverables;
      mitigation = natural mitigation;
      collateral = natural collateral;
    })) }
{
    let reinsurer = Rein {
        name: *name,
        group: *group,
        recoverables: natural(recoverables),
        mitigation: natural(mitigation),
        collateral: natural(collateral),
    };
    Change::Rein(*name, Some(reinsurer))
}

fn of_bank(name: &Name, group: &Name, cents: i64) -> Change
    ensures { result ≡ changes.Bank name.now (Some (record {
      name = name.now;
      group = group.now;
      cents = natural cents;
    })) }
{
    let bank = Bank {
        name: *name,
        group: *group,
        cents: natural(cents),
    };
    Change::Bank(*name, Some(bank))
}

fn of_drop(table: Table, name: &Name) -> Change
    ensures { result ≡ drop_change table name.now }
{
    match table {
        Table::Group => Change::Group(*name, None),
        Table::Security => Change::Security(*name, None),
        Table::Fund => Change::Fund(*name, None),
        Table::Liability => Change::Liability(*name, None),
        Table::Bank => Change::Bank(*name, None),
        Table::Rein => Change::Rein(*name, None),
        Table::Curve => Change::Curve(*name, None),
    }
}

fn of_numbers(alloc: Global, sheet: &BalanceSheet, edit: &Edit) -> Result<Change, NoMemory>
    requires formed { Formed edit.now }
    requires within { fields_outside edit.now ≡ None }
    ensures { IfOk result (λ change. change ≡ changes.Numbers (applied edit.now sheet.now).numbers) }
{
    let mut numbers = sheet.numbers;
    numbers.put(edit);
    Ok(Change::Numbers(BoxedNumbers::new(alloc, &numbers)?))
}

fn of_curve(
    alloc: Global,
    sheet: &BalanceSheet,
    currency: &Name,
    rates: &Rates,
) -> Result<Change, NoMemory>
    ensures { IfOk result (λ change.
        change ≡ change_of (edits.Curve currency.now rates.now) sheet.now) }
{
    let (absorb_up, absorb_down) = absorptions(sheet, currency);
    let curve = Curve {
        currency: *currency,
        rates: rates.copy(alloc)?,
        absorb_up,
        absorb_down,
    };
    Ok(Change::Curve(*currency, Some(curve)))
}

fn absorptions(sheet: &BalanceSheet, currency: &Name) -> (u64, u64)
    ensures up { result.0
        ≡ option_map_or (λ c. c.absorb_up) (row_of curve_name currency.now sheet.now.curves) 0 }
    ensures down { result.1
        ≡ option_map_or (λ c. c.absorb_down) (row_of curve_name currency.now sheet.now.curves) 0 }
{
    match sheet.curves.get(currency) {
        Some(curve) => (curve.absorb_up, curve.absorb_down),
        None => (0, 0),
    }
}

fn of_security(
    alloc: Global,
    sheet: &BalanceSheet,
    name: &Name,
    class: Class,
    group: Option<Name>,
    currency: &Name,
    duration: i64,
) -> Result<Change, NoMemory>
    requires { fields_outside (edits.Security name.now class group currency.now duration) ≡ None }
    ensures { IfOk result (λ change.
        change ≡ change_of (edits.Security name.now class group currency.now duration) sheet.now) }
{
    let security = Security {
        name: *name,
        class,
        group,
        currency: *currency,
        duration: natural(duration) as u32,
        flows: kept_flows(alloc, sheet, name)?,
    };
    let held = sheet.security_hold(name);
    Ok(Change::Security(*name, Some(Position { security, held })))
}

fn kept_flows(alloc: Global, sheet: &BalanceSheet, name: &Name) -> Result<Flows, NoMemory>
    ensures { IfOk result (λ flows. flows ≡ kept_flows name.now sheet.now.securities) }
{
    match sheet.securities.get(name) {
        Some(position) => position.security.flows.copy(alloc),
        None => Ok(Flows::new(Vec::new(alloc))),
    }
}

fn of_flows(
    alloc: Global,
    sheet: &BalanceSheet,
    name: &Name,
    flows: &Flows,
) -> Result<Change, NoMemory>
    ensures { IfOk result (λ change.
        change ≡ change_of (edits.Flows name.now flows.now) sheet.now) }
{
    let Some(position) = sheet.securities.get(name) else {
        return Ok(Change::Security(*name, None));
    };
    let security = Security {
        name: position.security.name,
        class: position.security.class,
        group: position.security.group,
        currency: position.security.currency,
        duration: position.security.duration,
        flows: flows.copy(alloc)?,
    };
    let held = position.held;
    Ok(Change::Security(*name, Some(Position { security, held })))
}

fn of_fund(
    alloc: Global,
    sheet: &BalanceSheet,
    name: &Name,
    components: &Components,
) -> Result<Change, NoMemory>
    ensures { IfOk result (λ change.
        change ≡ change_of (edits.Fund name.now components.now) sheet.now) }
{
    let fund = Fund {
        name: *name,
        components: components.copy(alloc)?,
    };
    let held = sheet.fund_hold(name);
    Ok(Change::Fund(*name, Some(Stake { fund, held })))
}

fn of_hold(alloc: Global, sheet: &BalanceSheet, name: &Name, cents: u64) -> Result<Change, NoMemory>
    ensures { IfOk result (λ change. change ≡ hold_change name.now cents
        (position_of name.now sheet.now.securities) (stake_of name.now sheet.now.funds)) }
{
    match sheet.securities.get(name) {
        Some(position) => {
            let mut position = position.copied(alloc)?;
            position.held = cents;
            Ok(Change::Security(*name, Some(position)))
        }
        None => of_fund_hold(alloc, sheet, name, cents),
    }
}

fn of_fund_hold(
    alloc: Global,
    sheet: &BalanceSheet,
    name: &Name,
    cents: u64,
) -> Result<Change, NoMemory>
    ensures { IfOk result (λ change. change ≡ hold_change name.now cents
        None (stake_of name.now sheet.now.funds)) }
{
    match sheet.funds.get(name) {
        Some(stake) => {
            let mut stake = stake.copied(alloc)?;
            stake.held = cents;
            Ok(Change::Fund(*name, Some(stake)))
        }
        None => Ok(Change::Fund(*name, None)),
    }
}

fn of_liability(
    alloc: Global,
    sheet: &BalanceSheet,
    name: &Name,
    kind: LiabilityKind,
    currency: &Name,
) -> Result<Change, NoMemory>
    ensures { IfOk result (λ change.
        change ≡ change_of (edits.Liability name.now kind currency.now) sheet.now) }
{
    let flows = match sheet.liabilities.get(name) {
        Some(liability) => liability.flows.copied(alloc)?,
        None => LiabilityFlows::none(alloc),
    };
    let liability = Liability {
        name: *name,
        kind,
        currency: *currency,
        flows,
    };
    Ok(Change::Liability(*name, Some(liability)))
}

fn of_liability_flows(
    alloc: Global,
    sheet: &BalanceSheet,
    name: &Name,
    projection: Projection,
    flows: &Flows,
) -> Result<Change, NoMemory>
    ensures { IfOk result (λ change.
        change ≡ change_of (edits.LiabilityFlows name.now projection flows.now) sheet.now) }
{
    let Some(liability) = sheet.liabilities.get(name) else {
        return Ok(Change::Liability(*name, None));
    };
    let flows = flows.copy(alloc)?;
    let mut liability = liability.copied(alloc)?;
    liability.flows.put(projection, flows);
    Ok(Change::Liability(*name, Some(liability)))
}

fn of_absorb(
    alloc: Global,
    sheet: &BalanceSheet,
    key: AbsorbKey,
    cents: u64,
) -> Result<Change, NoMemory>
    ensures { IfOk result (λ change. change ≡ absorb_change key cents sheet.now) }
{
    match key {
        AbsorbKey::CurrencyUp(currency) => {
            let curve = match sheet.curves.get(&currency) {
                Some(curve) => {
                    let mut curve = curve.copied(alloc)?;
                    curve.absorb_up = cents;
                    Some(curve)
                }
                None => None,
            };
            Ok(Change::Curve(currency, curve))
        }
        AbsorbKey::CurrencyDown(currency) => {
            let curve = match sheet.curves.get(&currency) {
                Some(curve) => {
                    let mut curve = curve.copied(alloc)?;
                    curve.absorb_down = cents;
                    Some(curve)
                }
                None => None,
            };
            Ok(Change::Curve(currency, curve))
        }
        _ => {
            let mut numbers = sheet.numbers;
            numbers.put_absorb(key, cents);
            Ok(Change::Numbers(BoxedNumbers::new(alloc, &numbers)?))
        }
    }
}
