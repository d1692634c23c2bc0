//! The node at a place of a list that is read off the rows of a table, without memory.
ghost use Rattle.std.specs.Prelude.{filter, map};
ghost use Rattle.scr_nodes.specs.Nth.{IsNth};
ghost use Rattle.scr_nodes.specs.Selections.{currency_figure, fund_figure, group_figure, is_counted, is_counterparty, is_currency, is_holder, is_obligation, liability_figure, security_figure, selected};

use crate::selections::{
    Counterparties, Currencies, Holders, Holdings, Obligations, Selection, is_counted,
    is_counterparty, is_currency, is_holder, is_obligation,
};
use crate::{Node, OfCurrency, OfFund, OfGroup, OfLiability, OfSecurity};
use scr_sheet::BalanceSheet;

/// The node at a place of a list, or how far past the list's end the place lies.
pub enum Nth {
    There(Node),
    Past(u32),
}

/// In a list that is at hand.
pub(crate) fn nth_in(list: &[Node], place: u32) -> Nth
    ensures { IsNth list.now place result }
{
    match list.get(place as usize) {
        Some(node) => Nth::There(*node),
        None => Nth::Past((place as usize - list.len()) as u32),
    }
}

/// Among what is read off a table.
pub(crate) fn nth_selected(sheet: &BalanceSheet, selection: &Selection, place: u32) -> Nth
    ensures { IsNth (selected sheet.now selection.now) place result }
{
    match selection {
        Selection::None => Nth::Past(place),
        Selection::Funds(holders, what) => nth_of_funds(sheet, holders, *what, place),
        Selection::Securities(holdings, what) => nth_of_securities(sheet, holdings, *what, place),
        Selection::Liabilities(obligations, what) => nth_of_liabilities(
            sheet,
            obligations,
            *what,
            place,
        ),
        Selection::Currencies(currencies, what) => nth_of_currencies(
            sheet,
            *currencies,
            *what,
            place,
        ),
        Selection::Groups(counterparties, what) => nth_of_groups(
            sheet,
            *counterparties,
            *what,
            place,
        ),
    }
}

fn nth_of_funds(sheet: &BalanceSheet, holders: &Holders, what: OfFund, place: u32) -> Nth
    ensures { IsNth (map (fund_figure what)
        (filter (is_holder holders.now) sheet.now.funds)) place result }
{
    let mut left = place;
    for k in 0..sheet.funds.len() {
        let stake = sheet.funds.at(k);
        if is_holder(holders, stake) {
            if left == 0 {
                return Nth::There(Node::Fund(stake.fund.name, what));
            }
            left -= 1;
        }
    }
    Nth::Past(left)
}

fn nth_of_securities(sheet: &BalanceSheet, holdings: &Holdings, what: OfSecurity, place: u32) -> Nth
    ensures { IsNth (map (security_figure what)
        (filter (is_counted holdings.now) sheet.now.securities)) place result }
{
    let mut left = place;
    for k in 0..sheet.securities.len() {
        let position = sheet.securities.at(k);
        if is_counted(holdings, position) {
            if left == 0 {
                return Nth::There(Node::Security(position.security.name, what));
            }
            left -= 1;
        }
    }
    Nth::Past(left)
}

fn nth_of_liabilities(
    sheet: &BalanceSheet,
    obligations: &Obligations,
    what: OfLiability,
    place: u32,
) -> Nth
    ensures { IsNth (map (liability_figure what)
        (filter (is_obligation obligations.now) sheet.now.liabilities)) place result }
{
    let mut left = place;
    for k in 0..sheet.liabilities.len() {
        let liability = sheet.liabilities.at(k);
        if is_obligation(obligations, liability) {
            if left == 0 {
                return Nth::There(Node::Liability(liability.name, what));
            }
            left -= 1;
        }
    }
    Nth::Past(left)
}

fn nth_of_currencies(
    sheet: &BalanceSheet,
    currencies: Currencies,
    what: OfCurrency,
    place: u32,
) -> Nth
    ensures { IsNth (map (currency_figure what)
        (filter (is_currency sheet.now currencies) sheet.now.curves)) place result }
{
    let mut left = place;
    for k in 0..sheet.curves.len() {
        let curve = sheet.curves.at(k);
        if is_currency(sheet, currencies, curve) {
            if left == 0 {
                return Nth::There(Node::Currency(curve.currency, what));
            }
            left -= 1;
        }
    }
    Nth::Past(left)
}

fn nth_of_groups(
    sheet: &BalanceSheet,
    counterparties: Counterparties,
    what: OfGroup,
    place: u32,
) -> Nth
    ensures { IsNth (map (group_figure what)
        (filter (is_counterparty counterparties) sheet.now.groups)) place result }
{
    let mut left = place;
    for k in 0..sheet.groups.len() {
        let group = sheet.groups.at(k);
        if is_counterparty(counterparties, group) {
            if left == 0 {
                return Nth::There(Node::Group(group.name, what));
            }
            left -= 1;
        }
    }
    Nth::Past(left)
}
