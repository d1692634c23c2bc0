//! Whether a record fits a balance sheet: its lists, the names that it gives, and what uses a row that it drops or changes.
ghost use Rattle.std.specs.Prelude.{◌≡◌, ◌+◌, ◌*◌, ◌<◌, ◌^◌, ◌||◌, []};
ghost use Rattle.scr_sheet.specs.BalanceSheet.{is_in};
ghost use Rattle.scr_sheet.specs.Faults.{too_long, list_fault, unknown_in_table, unknown_name, misplaced, lacking, wrong_kind, in_use, components_fault, unknown_component, misplaced_holding, misplaced_component, first_fault, Answers};

use crate::users::user_of;
use crate::{
    AbsorbKey, BalanceSheet, Edit, Fault, MAX_FLOWS, MAX_FUND_COMPONENTS, MAX_RATES, Name,
    Projection, Table, User,
};
use indexmap::IndexMap;
use std::alloc::{AllocError as NoMemory, Global};

// ---- the length of a list

/// The fault of the record's list, or none: a list that is empty where it may not be, a component that comes twice, or the
/// first member past the most that the list may have.
pub fn check_lists(alloc: Global, edit: &Edit) -> Result<(), Fault>
    ensures { Answers (list_fault edit.now) result }
{
    match edit {
        Edit::Curve { rates, .. } if rates.as_slice().is_empty() => Err(Fault::Syntax(2)),
        Edit::Curve { rates, .. } => check_length(2, 1, MAX_RATES, rates.as_slice().len()),
        Edit::Flows { flows, .. } => check_length(2, 2, MAX_FLOWS, flows.as_slice().len()),
        Edit::Fund { components, .. } => check_components(alloc, components.as_slice()),
        Edit::LiabilityFlows { flows, .. } => check_length(3, 2, MAX_FLOWS, flows.as_slice().len()),
        _ => Ok(()),
    }
}

// No component comes twice, and there are not too many.
fn check_components(alloc: Global, components: &[(Name, i64)]) -> Result<(), Fault>
    ensures { Answers (components_fault 2 MAX_FUND_COMPONENTS [] components.now) result }
{
    let most = components.len().min(MAX_FUND_COMPONENTS as usize);
    let mut met = match IndexMap::with_capacity(alloc, most) {
        Ok(met) => met,
        Err(NoMemory) => return Err(Fault::NoMemory),
    };
    let mut field = 2;
    for (name, _) in components {
        if field == 2 + 2 * MAX_FUND_COMPONENTS {
            return Err(Fault::Syntax(field));
        }
        match met.insert(*name, ()) {
            Ok(None) => {}
            Ok(Some(())) => return Err(Fault::Syntax(field)),
            Err(_) => return Err(Fault::NoMemory),
        }
        field += 2;
    }
    Ok(())
}

// The list's first field has this number, and each member has so many fields.
fn check_length(first: u32, fields: u32, most: u32, length: usize) -> Result<(), Fault>
    requires { first + fields * most < 2 ^ 32 }
    ensures { Answers (too_long first fields most length) result }
{
    if length > most as usize {
        return Err(Fault::Syntax(first + fields * most));
    }
    Ok(())
}

// ---- a name must exist

/// The first name of the record that must exist and does not, from the left; a fund's own name counts as existing.
#[tactic(auto, using(crate::proofs::Due::answers_and))]
pub fn check_names(sheet: &BalanceSheet, edit: &Edit) -> Result<(), Fault>
    ensures { Answers (unknown_name edit.now sheet.now) result }
{
    match edit {
        Edit::Asof { currency, .. } | Edit::Liability { currency, .. } => known(
            sheet,
            Table::Curve,
            currency,
        ),
        Edit::Security {
            group: Some(group),
            currency,
            ..
        } => { known(sheet, Table::Group, group).and(known(sheet, Table::Curve, currency)) }
        Edit::Security {
            group: None,
            currency,
            ..
        } => known(sheet, Table::Curve, currency),
        Edit::Flows { security: name, .. }
        | Edit::Hold { name, .. }
        | Edit::LiabilityFlows {
            liability: name,
            ..
        }
        | Edit::Rein { group: name, .. }
        | Edit::Bank { group: name, .. } => known(sheet, Table::Group, name),
        Edit::Fund { name, components } => known_components(sheet, name, components.as_slice()),
        Edit::Absorb { key, .. } => match key {
            AbsorbKey::CurrencyUp(currency) => known(sheet, Table::Curve, currency),
            AbsorbKey::CurrencyDown(currency) => known(sheet, Table::Curve, currency),
            _ => Ok(()),
        },
        Edit::Remove { table, name } => known(sheet, *table, name),
        _ => Ok(()),
    }
}

// The name stands among the currencies, or in one of the other tables, which share one set of names.
fn known(sheet: &BalanceSheet, table: Table, name: &Name) -> Result<(), Fault>
    ensures { Answers (unknown_in_table table name.now sheet.now) result }
{
    match table {
        Table::Curve if sheet.has(Table::Curve, name) => Ok(()),
        Table::Curve => Err(Fault::UnknownName(*name)),
        _ if sheet.is_named(name) => Ok(()),
        _ => Err(Fault::UnknownName(*name)),
    }
}

// A fund's own name counts as existing. Most components are securities, and one look-up tells so.
fn known_components(
    sheet: &BalanceSheet,
    fund: &Name,
    components: &[(Name, i64)],
) -> Result<(), Fault>
    ensures { Answers (first_fault (unknown_component fund.now sheet.now) components.now) result }
{
    for (name, _) in components {
        if *name != *fund && !is_a_holding(sheet, name) && !sheet.is_named(name) {
            return Err(Fault::UnknownName(*name));
        }
    }
    Ok(())
}

// ---- a name stands where its field allows

/// The first name of the record, from the left, that stands in another table than its field allows, or a liability whose kind
/// lacks the record's projection.
#[tactic(auto, using(crate::proofs::Due::answers_and, crate::proofs::Due::answers_alone))]
pub fn check_kinds(sheet: &BalanceSheet, edit: &Edit) -> Result<(), Fault>
    ensures { Answers (wrong_kind edit.now sheet.now) result }
{
    match edit {
        Edit::Group { name, .. } => only_in(sheet, Table::Group, name),
        Edit::Security {
            name,
            group: Some(group),
            ..
        } => { only_in(sheet, Table::Security, name).and(only_in(sheet, Table::Group, group)) }
        Edit::Security {
            name,
            group: None,
            ..
        } => only_in(sheet, Table::Security, name),
        Edit::Flows { security, .. } => only_in(sheet, Table::Security, security),
        Edit::Fund { name, components } => {
            let own = only_in(sheet, Table::Fund, name);
            own.and(only_holdings(sheet, name, components.as_slice()))
        }
        Edit::Hold { name, .. } => only_a_holding(sheet, name),
        Edit::Liability { name, .. } => only_in(sheet, Table::Liability, name),
        Edit::LiabilityFlows {
            liability,
            projection,
            ..
        } => {
            let own = only_in(sheet, Table::Liability, liability);
            own.and(has_projection(sheet, liability, *projection))
        }
        Edit::Rein { name, group, .. } => {
            only_in(sheet, Table::Rein, name).and(only_in(sheet, Table::Group, group))
        }
        Edit::Bank { name, group, .. } => {
            only_in(sheet, Table::Bank, name).and(only_in(sheet, Table::Group, group))
        }
        Edit::Remove { table, name } => match table {
            // Currencies are apart from all other names, so one never stands elsewhere.
            Table::Curve => Ok(()),
            _ => only_in(sheet, *table, name),
        },
        _ => Ok(()),
    }
}

// Where the name stands in a table at all, it is this one.
fn only_in(sheet: &BalanceSheet, table: Table, name: &Name) -> Result<(), Fault>
    ensures { Answers (misplaced table name.now sheet.now) result }
{
    if !sheet.has(table, name) && sheet.is_named(name) {
        return Err(Fault::WrongKind(*name));
    }
    Ok(())
}

// The name is that of a security or of a fund.
fn is_a_holding(sheet: &BalanceSheet, name: &Name) -> bool
    ensures { result ≡ (is_in (Table.Security) name.now sheet.now || is_in (Table.Fund) name.now sheet.now) }
{
    sheet.has(Table::Security, name) || sheet.has(Table::Fund, name)
}

// A security or a fund, where the name stands in a table at all.
fn only_a_holding(sheet: &BalanceSheet, name: &Name) -> Result<(), Fault>
    ensures { Answers (misplaced_holding name.now sheet.now) result }
{
    if !is_a_holding(sheet, name) && sheet.is_named(name) {
        return Err(Fault::WrongKind(*name));
    }
    Ok(())
}

// A fund's own name counts as a fund.
fn only_holdings(sheet: &BalanceSheet, fund: &Name, components: &[(Name, i64)]) -> Result<(), Fault>
    ensures { Answers (first_fault (misplaced_component fund.now sheet.now) components.now) result }
{
    for (name, _) in components {
        if *name == *fund {
            continue;
        }
        if let Err(fault) = only_a_holding(sheet, name) {
            return Err(fault);
        }
    }
    Ok(())
}

fn has_projection(
    sheet: &BalanceSheet,
    liability: &Name,
    projection: Projection,
) -> Result<(), Fault>
    ensures { Answers (lacking projection liability.now sheet.now) result }
{
    match sheet.liabilities.get(liability) {
        Some(row) if !row.kind.has(projection) => Err(Fault::WrongKind(*liability)),
        _ => Ok(()),
    }
}

// ---- nothing uses what would be dropped

/// What uses the row that the record would drop, the first in the order of users; or a liability whose new kind lacks a
/// projection under which it has flows.
pub fn check_uses(sheet: &BalanceSheet, edit: &Edit) -> Result<(), Fault>
    ensures { Answers (in_use edit.now sheet.now) result }
{
    match edit {
        // A liability keeps its flows, so its new kind has to have their projections.
        Edit::Liability { name, kind, .. } => match sheet.liabilities.get(name) {
            Some(row) if !kind.suits(&row.flows) => Err(Fault::InUse(*name, User::Lflow)),
            _ => Ok(()),
        },
        Edit::Remove { table, name } => match user_of(sheet, *table, name) {
            Some(user) => Err(Fault::InUse(*name, user)),
            None => Ok(()),
        },
        _ => Ok(()),
    }
}
