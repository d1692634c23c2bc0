//! The figures that a record touches.
ghost use Rattle.std.specs.Prelude.{◌≡◌, ◌++◌, ◌||◌, None, IfOk, OnOk, filter, is_some, not};
ghost use Rattle.std.specs.Option.{option_copied};
ghost use Rattle.scr_nodes.specs.LiveNodes.{HasNoRepeats};
ghost use Rattle.scr_sheet.specs.Faults.{fields_outside, list_fault};
ghost use Rattle.scr_sheet.specs.Forms.{Formed};
ghost use Rattle.scr_sheet.specs.Validity.{Valid};
ghost use Rattle.scr_touched.specs.Candidates.{touches, candidates, first_candidates, is_of_row, later_candidates, security_before};
ghost use Rattle.scr_touched.specs.FundShares.{AreSharesOf};
ghost use Rattle.scr_touched.specs.Touched.{AreTouched};

use crate::component::Shares;
use crate::curves::{curve_nodes, curve_touches};
use crate::debts::{debt_losses, debt_touches, is_of_debtor};
use crate::funds::{component_nodes, fund_nodes, fund_touches, is_of_stake, shares};
use crate::groups::{group_nodes, group_touches, is_of_class_of, later_group_nodes};
use crate::liabilities::{is_of_liability, liability_nodes, liability_touches, owed_nodes};
use crate::reference_dates::{date_nodes, date_touches, is_of_currency, reporting_nodes};
use crate::securities::{is_of_position, row_nodes, security_nodes, security_touches};
use crate::single_numbers::{number_nodes, numbers_touch};
use scr_book::Book;
use scr_nodes::Node;
use scr_row_change::debts::{bank_debt, rein_debt};
use scr_row_change::{Change, change_of};
use scr_sheet::{BalanceSheet, Edit, Fault, Position, check_lists, fields_outside};
use std::alloc::{AllocError as NoMemory, Global};
use std::mem::drop;

/// The figures whose own data or list of sources the record changes, or which it makes or removes,
/// each once. Of a record that would be refused nothing is told but that none stands twice. Only
/// want of memory is refused. The cost is that of the row that the record makes, replaces or takes
/// out; of other rates, another reference date or a group of counterparties it is that of all
/// securities and liabilities.
pub fn touched(alloc: Global, book: &Book, edit: &Edit) -> Result<Vec<Node>, NoMemory>
    requires formed { Formed edit.now }
    ensures touched { IfOk result (λ list. AreTouched book.now.sheet edit.now list.items) }
    ensures once { IfOk result (λ list. HasNoRepeats list.items) }
{
    let faulty = is_faulty(alloc, edit)?;
    if faulty {
        return Ok(Vec::new(alloc));
    }
    touched_in(alloc, book.sheet(), edit)
}

/// A quantity of the record lies outside its limits, or its list has a fault, as a component that
/// comes twice.
fn is_faulty(alloc: Global, edit: &Edit) -> Result<bool, NoMemory>
    ensures { IfOk result (λ faulty. faulty
        ≡ (is_some (fields_outside edit.now) || is_some (list_fault edit.now))) }
{
    if fields_outside(edit).is_some() {
        return Ok(true);
    }
    match check_lists(alloc, edit) {
        Ok(()) => Ok(false),
        Err(Fault::NoMemory) => Err(NoMemory),
        Err(_) => Ok(true),
    }
}

fn touched_in(alloc: Global, sheet: &BalanceSheet, edit: &Edit) -> Result<Vec<Node>, NoMemory>
    requires formed { Formed edit.now }
    requires within { fields_outside edit.now ≡ None }
    requires listed { list_fault edit.now ≡ None }
    requires valid { Valid sheet.now }
    ensures touched { IfOk result (λ list. AreTouched sheet.now edit.now list.items) }
    ensures once { IfOk result (λ list. HasNoRepeats list.items) }
{
    let change = change_of(alloc, sheet, edit)?;
    let list = touched_by(alloc, sheet, &change);
    drop(change);
    list
}

/// The candidates that what is exchanged touches.
fn touched_by(alloc: Global, sheet: &BalanceSheet, change: &Change) -> Result<Vec<Node>, NoMemory>
    ensures { IfOk result (λ list. list.items
        ≡ filter (touches sheet.now change.now) (candidates sheet.now change.now)) }
{
    let shares = shares_of(alloc, sheet, change)?;
    let list = touched_with(alloc, sheet, change, &shares);
    drop(shares);
    list
}

fn touched_with(
    alloc: Global,
    sheet: &BalanceSheet,
    change: &Change,
    shares: &Shares,
) -> Result<Vec<Node>, NoMemory>
    requires { AreSharesOf sheet.now change.now shares.now }
    ensures { IfOk result (λ list. list.items
        ≡ filter (touches sheet.now change.now) (candidates sheet.now change.now)) }
{
    let former = security_before(sheet, change);
    let all = candidates(alloc, sheet, change, shares, former)?;
    chosen(alloc, sheet, change, shares, former, &all)
}

/// The security that is exchanged, as it was. It is asked for at each figure: one look-up serves all.
fn security_before<'a>(sheet: &'a BalanceSheet, change: &Change) -> Option<&'a Position>
    ensures { option_copied result ≡ security_before sheet.now change.now }
{
    match change {
        Change::Security(name, _) => sheet.securities.get(name),
        _ => None,
    }
}

/// Those of the figures that what is exchanged touches.
fn chosen(
    alloc: Global,
    sheet: &BalanceSheet,
    change: &Change,
    shares: &Shares,
    former: Option<&Position>,
    all: &[Node],
) -> Result<Vec<Node>, NoMemory>
    requires shares { AreSharesOf sheet.now change.now shares.now }
    requires former { option_copied former ≡ security_before sheet.now change.now }
    ensures { IfOk result (λ list. list.items ≡ filter (touches sheet.now change.now) all.now) }
{
    let mut list = Vec::with_capacity(alloc, all.len())?;
    for node in all {
        if touches(sheet, change, shares, former, node) {
            list.push(*node)?;
        }
    }
    Ok(list)
}

/// The shares in a fund that is exchanged, before and after.
fn shares_of(alloc: Global, sheet: &BalanceSheet, change: &Change) -> Result<Shares, NoMemory>
    ensures { IfOk result (λ shares. AreSharesOf sheet.now change.now shares) }
{
    match change {
        Change::Fund(name, new) => shares(alloc, sheet.funds.get(name), new.as_ref()),
        _ => shares(alloc, None, None),
    }
}

fn touches(
    sheet: &BalanceSheet,
    change: &Change,
    shares: &Shares,
    former: Option<&Position>,
    node: &Node,
) -> bool
    requires shares { AreSharesOf sheet.now change.now shares.now }
    requires former { option_copied former ≡ security_before sheet.now change.now }
    ensures { result ≡ touches sheet.now change.now node.now }
{
    match change {
        Change::Security(name, new) => security_touches(sheet, name, former, new.as_ref(), node),
        Change::Fund(name, new) => {
            fund_touches(
                sheet,
                name,
                shares,
                sheet.funds.get(name),
                new.as_ref(),
                node,
            )
        }
        Change::Group(name, new) => {
            group_touches(sheet, name, sheet.groups.get(name), new.as_ref(), node)
        }
        Change::Bank(name, new) => {
            let (old, new) = (bank_debt(sheet.banks.get(name)), bank_debt(new.as_ref()));
            debt_touches(sheet, old.as_ref(), new.as_ref(), node)
        }
        Change::Rein(name, new) => {
            let (old, new) = (
                rein_debt(sheet.reinsurers.get(name)),
                rein_debt(new.as_ref()),
            );
            debt_touches(sheet, old.as_ref(), new.as_ref(), node)
        }
        Change::Liability(name, new) => {
            liability_touches(sheet, name, sheet.liabilities.get(name), new.as_ref(), node)
        }
        Change::Curve(name, new) => {
            curve_touches(sheet, name, sheet.curves.get(name), new.as_ref(), node)
        }
        Change::Asof(date, currency) => date_touches(sheet, *date, currency, node),
        Change::Numbers(numbers) => numbers_touch(&sheet.numbers, numbers.get(), node),
    }
}

/// What may be touched, each figure once.
fn candidates(
    alloc: Global,
    sheet: &BalanceSheet,
    change: &Change,
    shares: &Shares,
    former: Option<&Position>,
) -> Result<Vec<Node>, NoMemory>
    requires shares { AreSharesOf sheet.now change.now shares.now }
    requires former { option_copied former ≡ security_before sheet.now change.now }
    ensures { IfOk result (λ list. list.items ≡ candidates sheet.now change.now) }
{
    let mut list = first_candidates(alloc, sheet, change)?;
    let later = later_candidates(alloc, sheet, change)?;
    push_others(&mut list, sheet, change, shares, former, &later)?;
    Ok(list)
}

/// Pushes those of the figures that are none of the row before.
fn push_others(
    list: &mut Vec<Node>,
    sheet: &BalanceSheet,
    change: &Change,
    shares: &Shares,
    former: Option<&Position>,
    later: &[Node],
) -> Result<(), NoMemory>
    requires shares { AreSharesOf sheet.now change.now shares.now }
    requires former { option_copied former ≡ security_before sheet.now change.now }
    ensures { OnOk result (list.new.items ≡ list.old.items
        ++ filter (λ node. not (is_of_row sheet.now change.now node)) later.now) }
{
    for node in later {
        if !is_of_row(sheet, change, shares, former, node) {
            list.push(*node)?;
        }
    }
    Ok(())
}

/// The figures of the row before, and those of which there is one for all rows.
fn first_candidates(
    alloc: Global,
    sheet: &BalanceSheet,
    change: &Change,
) -> Result<Vec<Node>, NoMemory>
    ensures { IfOk result (λ list. list.items ≡ first_candidates sheet.now change.now) }
{
    match change {
        Change::Security(name, _) => security_nodes(alloc, name, sheet.securities.get(name)),
        Change::Fund(name, _) => fund_nodes(alloc, name, sheet.funds.get(name)),
        Change::Group(name, _) => group_nodes(alloc, name, sheet.groups.get(name)),
        Change::Bank(name, _) => {
            let old = bank_debt(sheet.banks.get(name));
            debt_losses(alloc, old.as_ref())
        }
        Change::Rein(name, _) => {
            let old = rein_debt(sheet.reinsurers.get(name));
            debt_losses(alloc, old.as_ref())
        }
        Change::Liability(name, _) => liability_nodes(alloc, name, sheet.liabilities.get(name)),
        Change::Curve(name, new) => {
            curve_nodes(alloc, sheet, name, sheet.curves.get(name), new.as_ref())
        }
        Change::Asof(date, _) => date_nodes(alloc, sheet, *date),
        Change::Numbers(_) => number_nodes(alloc),
    }
}

/// Those of the row after.
fn later_candidates(
    alloc: Global,
    sheet: &BalanceSheet,
    change: &Change,
) -> Result<Vec<Node>, NoMemory>
    ensures { IfOk result (λ list. list.items ≡ later_candidates sheet.now change.now) }
{
    match change {
        Change::Security(_, new) => row_nodes(alloc, new.as_ref()),
        Change::Fund(_, new) => component_nodes(alloc, new.as_ref()),
        Change::Group(name, new) => later_group_nodes(alloc, sheet, name, new.as_ref()),
        Change::Bank(_, new) => {
            let new = bank_debt(new.as_ref());
            debt_losses(alloc, new.as_ref())
        }
        Change::Rein(_, new) => {
            let new = rein_debt(new.as_ref());
            debt_losses(alloc, new.as_ref())
        }
        Change::Liability(_, new) => owed_nodes(alloc, new.as_ref()),
        Change::Asof(_, currency) => reporting_nodes(alloc, currency),
        Change::Curve(_, _) | Change::Numbers(_) => Ok(Vec::new(alloc)),
    }
}

/// Whether a figure is one of the row before.
fn is_of_row(
    sheet: &BalanceSheet,
    change: &Change,
    shares: &Shares,
    former: Option<&Position>,
    node: &Node,
) -> bool
    requires shares { AreSharesOf sheet.now change.now shares.now }
    requires former { option_copied former ≡ security_before sheet.now change.now }
    ensures { result ≡ is_of_row sheet.now change.now node.now }
{
    match change {
        Change::Security(_, _) => is_of_position(former, node),
        Change::Fund(name, new) => {
            is_of_stake(name, shares, sheet.funds.get(name), new.as_ref(), node)
        }
        Change::Group(name, _) => is_of_class_of(sheet.groups.get(name), node),
        Change::Bank(name, _) => {
            let old = bank_debt(sheet.banks.get(name));
            is_of_debtor(old.as_ref(), node)
        }
        Change::Rein(name, _) => {
            let old = rein_debt(sheet.reinsurers.get(name));
            is_of_debtor(old.as_ref(), node)
        }
        Change::Liability(name, _) => is_of_liability(sheet.liabilities.get(name), node),
        Change::Asof(_, _) => is_of_currency(&sheet.numbers.currency, node),
        Change::Curve(_, _) | Change::Numbers(_) => false,
    }
}
