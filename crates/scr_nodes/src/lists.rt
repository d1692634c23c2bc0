//! All sources of a figure at once, and all figures that are read off a table.
ghost use Rattle.std.specs.Prelude.{◌≡◌, ◌++◌, filter, map, IfOk, OnOk};
ghost use Rattle.scr_nodes.specs.Selections.{currency_figure, fund_figure, group_figure, is_counted, is_counterparty, is_currency, is_holder, is_obligation, liability_figure, security_figure, selected};
ghost use Rattle.scr_nodes.specs.Sources.{sources_of, words_of};

use crate::nth::Nth;
use crate::nth_words::nth_word;
use crate::selections::{
    Counterparties, Currencies, Holders, Holdings, Obligations, Selection, is_counted,
    is_counterparty, is_currency, is_holder, is_obligation,
};
use crate::table::{first_of, second_of};
use crate::{Node, OfCurrency, OfFund, OfGroup, OfLiability, OfSecurity};
use scr_sheet::BalanceSheet;
use std::alloc::{AllocError as NoMemory, Global};

/// No figure is reckoned from more by name.
const MOST_WORDS: u32 = 12;

/// The figures from which a figure is reckoned, in the order in which its rule takes them. Only
/// want of memory is refused. The cost is that of one walk along the tables that the list is read
/// off.
pub fn sources(alloc: Global, sheet: &BalanceSheet, node: &Node) -> Result<Vec<Node>, NoMemory>
    ensures { IfOk result (λ list. list.items ≡ sources_of sheet.now node.now) }
{
    let mut list = Vec::new(alloc);
    push_selected(&mut list, sheet, &first_of(node))?;
    push_selected(&mut list, sheet, &second_of(node))?;
    push_words(&mut list, node)?;
    Ok(list)
}

/// Pushes the sources that no table gives.
fn push_words(list: &mut Vec<Node>, node: &Node) -> Result<(), NoMemory>
    ensures { OnOk result (list.new.items ≡ list.old.items ++ words_of node.now) }
{
    for place in 0..MOST_WORDS {
        match nth_word(node, place) {
            Nth::There(word) => list.push(word)?,
            Nth::Past(_) => return Ok(()),
        }
    }
    Ok(())
}

/// Pushes the figures that are read off a table. Only want of memory is refused. The cost is that of
/// the table.
pub fn push_selected(
    list: &mut Vec<Node>,
    sheet: &BalanceSheet,
    selection: &Selection,
) -> Result<(), NoMemory>
    ensures { OnOk result (list.new.items ≡ list.old.items ++ selected sheet.now selection.now) }
{
    match selection {
        Selection::None => Ok(()),
        Selection::Funds(holders, what) => push_of_funds(list, sheet, holders, *what),
        Selection::Securities(holdings, what) => push_of_securities(list, sheet, holdings, *what),
        Selection::Liabilities(obligations, what) => push_of_liabilities(
            list,
            sheet,
            obligations,
            *what,
        ),
        Selection::Currencies(currencies, what) => push_of_currencies(
            list,
            sheet,
            *currencies,
            *what,
        ),
        Selection::Groups(counterparties, what) => push_of_groups(
            list,
            sheet,
            *counterparties,
            *what,
        ),
    }
}

fn push_of_funds(
    list: &mut Vec<Node>,
    sheet: &BalanceSheet,
    holders: &Holders,
    what: OfFund,
) -> Result<(), NoMemory>
    ensures { OnOk result (list.new.items ≡ list.old.items
        ++ map (fund_figure what) (filter (is_holder holders.now) sheet.now.funds)) }
{
    for k in 0..sheet.funds.len() {
        let stake = sheet.funds.at(k);
        if is_holder(holders, stake) {
            list.push(Node::Fund(stake.fund.name, what))?;
        }
    }
    Ok(())
}

fn push_of_securities(
    list: &mut Vec<Node>,
    sheet: &BalanceSheet,
    holdings: &Holdings,
    what: OfSecurity,
) -> Result<(), NoMemory>
    ensures { OnOk result (list.new.items ≡ list.old.items
        ++ map (security_figure what) (filter (is_counted holdings.now) sheet.now.securities)) }
{
    for k in 0..sheet.securities.len() {
        let position = sheet.securities.at(k);
        if is_counted(holdings, position) {
            list.push(Node::Security(position.security.name, what))?;
        }
    }
    Ok(())
}

fn push_of_liabilities(
    list: &mut Vec<Node>,
    sheet: &BalanceSheet,
    obligations: &Obligations,
    what: OfLiability,
) -> Result<(), NoMemory>
    ensures { OnOk result (list.new.items ≡ list.old.items
        ++ map (liability_figure what) (filter (is_obligation obligations.now) sheet.now.liabilities)) }
{
    for k in 0..sheet.liabilities.len() {
        let liability = sheet.liabilities.at(k);
        if is_obligation(obligations, liability) {
            list.push(Node::Liability(liability.name, what))?;
        }
    }
    Ok(())
}

fn push_of_currencies(
    list: &mut Vec<Node>,
    sheet: &BalanceSheet,
    currencies: Currencies,
    what: OfCurrency,
) -> Result<(), NoMemory>
    ensures { OnOk result (list.new.items ≡ list.old.items
        ++ map (currency_figure what) (filter (is_currency sheet.now currencies) sheet.now.curves)) }
{
    for k in 0..sheet.curves.len() {
        let curve = sheet.curves.at(k);
        if is_currency(sheet, currencies, curve) {
            list.push(Node::Currency(curve.currency, what))?;
        }
    }
    Ok(())
}

fn push_of_groups(
    list: &mut Vec<Node>,
    sheet: &BalanceSheet,
    counterparties: Counterparties,
    what: OfGroup,
) -> Result<(), NoMemory>
    ensures { OnOk result (list.new.items ≡ list.old.items
        ++ map (group_figure what) (filter (is_counterparty counterparties) sheet.now.groups)) }
{
    for k in 0..sheet.groups.len() {
        let group = sheet.groups.at(k);
        if is_counterparty(counterparties, group) {
            list.push(Node::Group(group.name, what))?;
        }
    }
    Ok(())
}
