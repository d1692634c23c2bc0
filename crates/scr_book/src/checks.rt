//! Whether a record may be applied.
ghost use Rattle.std.specs.Prelude.{◌≡◌, ◌||◌, None, true, false};
ghost use Rattle.scr_sheet.specs.BalanceSheet.{is_in};
ghost use Rattle.scr_sheet.specs.Faults.{list_fault, unknown_name, wrong_kind, in_use, cycle, fault_of, Answers};
ghost use Rattle.scr_sheet.specs.Users.{user_of, absorption_of};
ghost use Rattle.scr_sheet.specs.Forms.{Formed};
ghost use Rattle.scr_sheet.specs.declared.sheet.BalanceSheet.{BalanceSheet as Sheet};
ghost use Rattle.scr_tables.specs.Names.{same_name};
ghost use Rattle.scr_book.specs.Holders.{IsGraphOf};
ghost use Rattle.scr_book.specs.Holdings.{is_component, are_components, is_apart, is_group, is_projected, are_in_order};

use crate::due::graph_of;
use crate::ranges::{check_ranges, is_within};
use crate::recent::{recent_place, recent_row};
use crate::{BalanceSheet, Book, Components, Edit, Fault, MAX_FLOWS, Name, Projection, Table};
use scr_fund_graph::{FundGraph, GraphFault};
use scr_sheet::{check_kinds, check_lists, check_names, check_uses};
use std::alloc::{AllocError as NoMemory, Global};

/// The first fault of the record in the book, or none.
pub fn check(alloc: Global, book: &Book, edit: &Edit) -> Result<(), Fault>
    requires { Formed edit.now }
    ensures { Answers (fault_of edit.now book.now.sheet) result }
{
    match checked(alloc, book, edit) {
        Ok(_) => Ok(()),
        Err(fault) => Err(fault),
    }
}

/// As `check`, and hands out the numbers that a fund's components have in the graph, which spare the put their look-ups.
pub(crate) fn checked(alloc: Global, book: &Book, edit: &Edit) -> Result<Vec<u32>, Fault>
    requires { Formed edit.now }
    ensures { Answers (fault_of edit.now book.now.sheet) result }
{
    if passes(book, edit) {
        return Ok(Vec::new(alloc));
    }
    first_fault(alloc, book, edit)
}

// The record has no fault. Of the records that come most often a few look-ups and numbers tell so; of others it is not told.
fn passes(book: &Book, edit: &Edit) -> bool
    requires { Formed edit.now }
    ensures { result ≡ true → fault_of edit.now book.now.sheet ≡ None }
{
    is_in_place(book.sheet(), edit) && is_within(&book.ledger, edit)
}

// The record is one of those that come most often, its list is as long as it may be, and each of its names is in order.
fn is_in_place(sheet: &BalanceSheet, edit: &Edit) -> bool
    ensures list { result ≡ true → list_fault edit.now ≡ None }
    ensures known { result ≡ true → unknown_name edit.now sheet.now ≡ None }
    ensures kind { result ≡ true → wrong_kind edit.now sheet.now ≡ None }
    ensures free { result ≡ true → in_use edit.now sheet.now ≡ None }
    ensures apart { result ≡ true → cycle edit.now sheet.now ≡ None }
{
    is_short(edit) && names_pass(sheet, edit)
}

// The record is one of those that come most often, and its list is as long as it may be. Nothing is dropped, and no fund is made.
fn is_short(edit: &Edit) -> bool
    ensures list { result ≡ true → list_fault edit.now ≡ None }
    ensures free { result ≡ true → (sheet : Sheet) → in_use edit.now sheet ≡ None }
    ensures apart { result ≡ true → (sheet : Sheet) → cycle edit.now sheet ≡ None }
{
    match edit {
        Edit::Security { .. } | Edit::Hold { .. } => true,
        Edit::Flows { flows, .. } | Edit::LiabilityFlows { flows, .. } => {
            flows.as_slice().len() <= MAX_FLOWS as usize
        }
        _ => false,
    }
}

// The first fault of the record in its order.
#[inline(never)]
fn first_fault(alloc: Global, book: &Book, edit: &Edit) -> Result<Vec<u32>, Fault>
    requires { Formed edit.now }
    ensures { Answers (fault_of edit.now book.now.sheet) result }
{
    if let Err(fault) = check_lists(alloc, edit) {
        return Err(fault);
    }
    if !names_pass(book.sheet(), edit) {
        if let Err(fault) = first_unknown(book.sheet(), edit) {
            return Err(fault);
        }
        if let Err(fault) = first_misplaced(book.sheet(), edit) {
            return Err(fault);
        }
    }
    if let Err(fault) = check_users(book, edit) {
        return Err(fault);
    }
    let numbers = match check_cycle(alloc, book, edit) {
        Ok(numbers) => numbers,
        Err(fault) => return Err(fault),
    };
    match check_ranges(&book.ledger, edit) {
        Ok(()) => Ok(numbers),
        Err(fault) => Err(fault),
    }
}

// ---- names, of which most are in order: few look-ups tell so

// Apart, since few records come here.
#[inline(never)]
fn first_unknown(sheet: &BalanceSheet, edit: &Edit) -> Result<(), Fault>
    ensures { Answers (unknown_name edit.now sheet.now) result }
{
    check_names(sheet, edit)
}

#[inline(never)]
fn first_misplaced(sheet: &BalanceSheet, edit: &Edit) -> Result<(), Fault>
    ensures { Answers (wrong_kind edit.now sheet.now) result }
{
    check_kinds(sheet, edit)
}

// Each name of the record exists and stands where it may. Of records that seldom come it is not told.
fn names_pass(sheet: &BalanceSheet, edit: &Edit) -> bool
    ensures told { result ≡ are_in_order edit.now sheet.now }
    ensures known { result ≡ true → unknown_name edit.now sheet.now ≡ None }
    ensures kind { result ≡ true → wrong_kind edit.now sheet.now ≡ None }
{
    are_in_order(sheet, edit)
}

fn are_in_order(sheet: &BalanceSheet, edit: &Edit) -> bool
    ensures { result ≡ are_in_order edit.now sheet.now }
{
    match edit {
        Edit::Security {
            name,
            group,
            currency,
            ..
        } => {
            is_security_apart(sheet, name)
                && is_group(sheet, group)
                && sheet.curves.contains(currency)
        }
        Edit::Flows { security, .. } => recent_place(&sheet.securities, security).is_some(),
        Edit::Hold { name, .. } => sheet.securities.contains(name) || sheet.funds.contains(name),
        Edit::LiabilityFlows {
            liability,
            projection,
            ..
        } => has_projection(sheet, liability, *projection),
        Edit::Fund { name, components } => {
            is_apart(sheet, Table::Fund, name) && are_components(sheet, name, components.as_slice())
        }
        _ => false,
    }
}

// The name stands in this table, or nowhere.
fn is_apart(sheet: &BalanceSheet, table: Table, name: &Name) -> bool
    ensures { result ≡ is_apart table name.now sheet.now }
{
    !sheet.is_named(name) || sheet.has(table, name)
}

// As `is_apart`, of a security: looked up table by table, since most tables have nothing yet where securities come.
fn is_security_apart(sheet: &BalanceSheet, name: &Name) -> bool
    ensures { result ≡ is_apart Table.Security name.now sheet.now }
{
    sheet.securities.contains(name) || !is_named_elsewhere(sheet, name)
}

// The name stands in one of the tables that share one set of names, that of securities apart.
fn is_named_elsewhere(sheet: &BalanceSheet, name: &Name) -> bool
    ensures { result ≡ (is_in Table.Group name.now sheet.now || is_in Table.Liability name.now sheet.now
        || is_in Table.Bank name.now sheet.now || is_in Table.Rein name.now sheet.now || is_in Table.Fund name.now sheet.now) }
{
    sheet.groups.contains(name)
        || sheet.liabilities.contains(name)
        || sheet.banks.contains(name)
        || sheet.reinsurers.contains(name)
        || sheet.funds.contains(name)
}

fn is_group(sheet: &BalanceSheet, group: &Option<Name>) -> bool
    ensures { result ≡ is_group group.now sheet.now }
{
    match group {
        Some(group) => sheet.groups.contains(group),
        None => true,
    }
}

// The liability is there, and its kind has the projection.
fn has_projection(sheet: &BalanceSheet, liability: &Name, projection: Projection) -> bool
    ensures { result ≡ is_projected projection liability.now sheet.now }
{
    match recent_row(&sheet.liabilities, liability) {
        Some(row) => row.kind.has(projection),
        None => false,
    }
}

fn are_components(sheet: &BalanceSheet, fund: &Name, components: &[(Name, i64)]) -> bool
    ensures { result ≡ are_components fund.now sheet.now components.now }
{
    components
        .iter()
        .all(|(name, _)| is_component(sheet, fund, name))
}

fn is_component(sheet: &BalanceSheet, fund: &Name, name: &Name) -> bool
    ensures { result ≡ is_component fund.now sheet.now name.now }
{
    sheet.securities.contains(name) || sheet.funds.contains(name) || *name == *fund
}

// ---- nothing uses what would be dropped

// Only where something may use it are the rows looked at, for the first user.
fn check_users(book: &Book, edit: &Edit) -> Result<(), Fault>
    ensures { Answers (in_use edit.now book.now.sheet) result }
{
    match edit {
        Edit::Remove { table, name } if is_idle(book, *table, name) => Ok(()),
        Edit::Remove { .. } | Edit::Liability { .. } => first_use(book.sheet(), edit),
        _ => Ok(()),
    }
}

#[inline(never)]
fn first_use(sheet: &BalanceSheet, edit: &Edit) -> Result<(), Fault>
    ensures { Answers (in_use edit.now sheet.now) result }
{
    check_uses(sheet, edit)
}

// By what the book counts, nothing uses the row.
fn is_idle(book: &Book, table: Table, name: &Name) -> bool
    ensures { result ≡ true → user_of table name.now book.now.sheet ≡ None }
{
    match table {
        Table::Group => book.users.names.is_unused(name),
        Table::Security | Table::Fund => book.users.names.is_unused(name) && book.held(name) == 0,
        Table::Curve => book.users.currencies.is_unused(name) && is_curve_idle(book, name),
        Table::Liability | Table::Bank | Table::Rein => true,
    }
}

// The currency is not the reporting one, and has no absorption.
fn is_curve_idle(book: &Book, currency: &Name) -> bool
    ensures reporting { result ≡ true → same_name currency.now book.now.sheet.numbers.currency ≡ false }
    ensures absorbing { result ≡ true → absorption_of currency.now book.now.sheet ≡ None }
{
    let (up, down) = book.ledger.absorptions(currency);
    *currency != book.numbers().currency && up == 0 && down == 0
}

// ---- no fund holds itself

fn check_cycle(alloc: Global, book: &Book, edit: &Edit) -> Result<Vec<u32>, Fault>
    requires known { unknown_name edit.now book.now.sheet ≡ None }
    requires kind { wrong_kind edit.now book.now.sheet ≡ None }
    ensures { Answers (cycle edit.now book.now.sheet) result }
{
    match edit {
        Edit::Fund { name, components } => no_cycle(alloc, book, name, components),
        _ => Ok(Vec::new(alloc)),
    }
}

#[inline(never)]
fn no_cycle(
    alloc: Global,
    book: &Book,
    name: &Name,
    components: &Components,
) -> Result<Vec<u32>, Fault>
    requires known { unknown_name (Edit.Fund name.now components.now) book.now.sheet ≡ None }
    requires kind { wrong_kind (Edit.Fund name.now components.now) book.now.sheet ≡ None }
    ensures { Answers (cycle (Edit.Fund name.now components.now) book.now.sheet) result }
{
    if !book.ledger.is_graph_due {
        return no_cycle_in(alloc, &book.ledger.graph, book.sheet(), name, components);
    }
    match graph_of(alloc, book.sheet()) {
        Ok(graph) => no_cycle_in(alloc, &graph, book.sheet(), name, components),
        Err(NoMemory) => Err(Fault::NoMemory),
    }
}

// The graph is that of the funds of the sheet.
fn no_cycle_in(
    alloc: Global,
    graph: &FundGraph,
    sheet: &BalanceSheet,
    name: &Name,
    components: &Components,
) -> Result<Vec<u32>, Fault>
    requires graph { IsGraphOf sheet.now graph.now }
    requires known { unknown_name (Edit.Fund name.now components.now) sheet.now ≡ None }
    requires kind { wrong_kind (Edit.Fund name.now components.now) sheet.now ≡ None }
    ensures { Answers (cycle (Edit.Fund name.now components.now) sheet.now) result }
{
    match graph.check(alloc, name, components.as_slice()) {
        Ok(numbers) => Ok(numbers),
        Err(GraphFault::Cycle(path)) => Err(Fault::Cycle(path)),
        Err(GraphFault::NoMemory) => Err(Fault::NoMemory),
    }
}
