//! The ids of a figure's sources, from gathered lists or by walks along the tables.
ghost use Rattle.std.specs.Prelude.{◌≡◌, ◌+◌, ◌<◌, ◌≤◌, ◌++◌, true, IfSome, OnOk, Some, map, slice_get};
ghost use Rattle.std.specs.List.{AllByRecursion};
ghost use Rattle.scr_ids.specs.Ranges.{count, stride};
ghost use Rattle.scr_ids.specs.declared.table.Table.TheVariants as tables;
ghost use Rattle.scr_sheet.specs.BalanceSheet.{position_name};
ghost use Rattle.scr_sheet.specs.Validity.{Valid};
ghost use Rattle.scr_nodes.specs.Live.{is_live};
ghost use Rattle.scr_nodes.specs.Selections.{is_counted, is_counterparty, is_currency, is_holder, is_obligation};
ghost use Rattle.scr_nodes.specs.Sources.{words_of};
ghost use Rattle.scr_nodes.specs.Table.{first_of, second_of};
ghost use Rattle.scr_nodes.specs.declared.node.Node.TheVariants as nodes;
ghost use Rattle.scr_figure_ids.specs.Families.{name_of, table_of};
ghost use Rattle.scr_figure_ids.specs.Numbers.{IsNumbered, StandsAt, names_in};
ghost use Rattle.scr_figure_ids.specs.Gathered.{AreMembersOf};
ghost use Rattle.scr_figure_ids.specs.Places.{places_where};
ghost use Rattle.scr_figure_ids.specs.SourceNumbers.{AreAllPushed, ArePushed, are_live, is_total, numbers_at, selected_family, selected_numbers, selected_rows, selected_table};

use crate::families::{currency_family, family, group_family, liability_family, security_family};
use crate::finding::find;
use crate::gathered::Members;
use scr_ids::{Places, Table};
use scr_nodes::selections::{
    Counterparties, Currencies, Holders, Holdings, Obligations, Selection, is_counted,
    is_counterparty, is_currency, is_holder, is_obligation,
};
use scr_nodes::{Node, Nth, OfFund, OfSecurity, first_of, nth_word, second_of};
use scr_sheet::BalanceSheet;
use scr_tables::Name;
use std::alloc::AllocError as NoMemory;

/// The largest number of sources that a figure has by name.
const MOST_WORDS: u32 = 12;

/// A balance sheet with the ids of its figures.
#[derive(Clone, Copy)]
pub struct View<'a> {
    pub sheet: &'a BalanceSheet,
    pub places: &'a Places,
}

/// A balance sheet with its gathered lists, and the index of a figure's row.
#[derive(Clone, Copy)]
struct Rows<'a> {
    sheet: &'a BalanceSheet,
    members: &'a Members,
    row: usize,
}

/// Appends the ids of all sources of a figure of row `row`, in the order of `scr_nodes::sources`. The lists are the sheet's own.
/// `NoMemory` if they don't fit. Totals of funds, losses of a class of groups, and sources given by name cost one step each. For
/// others it costs each row of their table.
pub fn push_gathered(
    list: &mut Vec<u32>,
    view: View<'_>,
    members: &Members,
    node: &Node,
    row: usize,
) -> Result<(), NoMemory>
    requires valid { Valid view.sheet.now }
    requires numbered { IsNumbered view.sheet.now view.places.now }
    requires members { AreMembersOf view.sheet.now members.now }
    requires live { is_live view.sheet.now node.now ≡ true }
    requires row { slice_get (names_in view.sheet.now (table_of node.now)) row ≡ Some (name_of node.now) }
    ensures { OnOk result (ArePushed view.entry.sheet.now view.entry.places.now node.now list.old.items list.new.items) }
{
    let from = Rows {
        sheet: view.sheet,
        members,
        row,
    };
    let first = first_of(node);
    push_places(list, view, first_rows(from, node), &first)?;
    let second = second_of(node);
    push_places(list, view, gathered_rows(from, &second), &second)?;
    push_words(list, view, node)
}

/// Appends the ids of all sources of any figure of the sheet, by walks along the tables, without gathered lists. `NoMemory` if
/// they don't fit. It costs each row of a table that sources are read off.
pub fn push_walked(list: &mut Vec<u32>, view: View<'_>, node: &Node) -> Result<(), NoMemory>
    requires valid { Valid view.sheet.now }
    requires numbered { IsNumbered view.sheet.now view.places.now }
    requires live { is_live view.sheet.now node.now ≡ true }
    ensures { OnOk result (ArePushed view.entry.sheet.now view.entry.places.now node.now list.old.items list.new.items) }
{
    push_selected(list, view, &first_of(node))?;
    push_selected(list, view, &second_of(node))?;
    push_words(list, view, node)
}

/// The id of a figure that the sheet has.
fn number_of(view: View<'_>, node: &Node) -> u32
    requires numbered { IsNumbered view.sheet.now view.places.now }
    requires live { is_live view.sheet.now node.now ≡ true }
    ensures { StandsAt view.entry.sheet.now view.entry.places.now node.now result }
{
    if let Node::Whole(_) = node {
        return family(node);
    }
    match find(view.places, view.sheet, node) {
        Some(number) => number,
        None => unreachable!(),
    }
}

/// Appends the ids of the sources that are given by name.
fn push_words(list: &mut Vec<u32>, view: View<'_>, node: &Node) -> Result<(), NoMemory>
    requires numbered { IsNumbered view.sheet.now view.places.now }
    requires live { are_live view.sheet.now (words_of node.now) }
    ensures { OnOk result (AreAllPushed view.entry.sheet.now view.entry.places.now (words_of node.now) list.old.items
        list.new.items) }
{
    if is_total(node) {
        return Ok(());
    }
    for place in 0..MOST_WORDS {
        match nth_word(node, place) {
            Nth::There(word) => list.push(number_of(view, &word))?,
            Nth::Past(_) => return Ok(()),
        }
    }
    Ok(())
}

/// Whether the figure is the total of a fund or a security, which has no source by name.
fn is_total(node: &Node) -> bool
    ensures { result ≡ is_total node.now }
{
    matches!(
        node,
        Node::Fund(_, _) | Node::Security(_, OfSecurity::Total)
    )
}

/// The gathered indexes of the rows that a figure reads first; `None` if they aren't gathered.
fn first_rows<'a>(from: Rows<'a>, node: &Node) -> Option<&'a [u32]>
    requires members { AreMembersOf from.sheet.now from.members.now }
    requires row { slice_get (names_in from.sheet.now (table_of node.now)) from.row ≡ Some (name_of node.now) }
    ensures { IfSome result (λ rows. rows.now ≡ selected_rows from.entry.sheet.now (first_of node.now)) }
{
    match node {
        Node::Fund(_, _) => Some(from.members.funds.holding_funds.at(from.row)),
        Node::Security(name, what) => holding_rows(from, name, *what),
        _ => gathered_rows(from, &first_of(node)),
    }
}

/// The indexes of the funds that hold the security, for its total; `None` for its other figures.
fn holding_rows<'a>(from: Rows<'a>, name: &Name, what: OfSecurity) -> Option<&'a [u32]>
    requires members { AreMembersOf from.sheet.now from.members.now }
    requires row { slice_get (map position_name from.sheet.now.securities) from.row ≡ Some name.now }
    ensures { IfSome result (λ rows. rows.now ≡ selected_rows from.entry.sheet.now (first_of (nodes.Security name.now what))) }
{
    match what {
        OfSecurity::Total => Some(from.members.funds.holding_securities.at(from.row)),
        _ => None,
    }
}

/// The gathered indexes of the rows of a selection; `None` if they aren't gathered.
fn gathered_rows<'a>(from: Rows<'a>, selection: &Selection) -> Option<&'a [u32]>
    requires { AreMembersOf from.sheet.now from.members.now }
    ensures { IfSome result (λ rows. rows.now ≡ selected_rows from.entry.sheet.now selection.now) }
{
    match selection {
        Selection::Groups(counterparties, _) => group_rows(from, *counterparties),
        _ => None,
    }
}

fn group_rows<'a>(from: Rows<'a>, counterparties: Counterparties) -> Option<&'a [u32]>
    requires { AreMembersOf from.sheet.now from.members.now }
    ensures { IfSome result (λ rows. rows.now ≡ places_where (is_counterparty counterparties) 0 from.entry.sheet.now.groups) }
{
    match counterparties {
        Counterparties::OfClass(class) => Some(from.members.groups.at(class.first_step() as usize)),
        Counterparties::All => None,
    }
}

/// Appends the ids of a selection, from the row indexes `rows` or else by a walk along the table.
fn push_places(
    list: &mut Vec<u32>,
    view: View<'_>,
    rows: Option<&[u32]>,
    selection: &Selection,
) -> Result<(), NoMemory>
    requires numbered { IsNumbered view.sheet.now view.places.now }
    requires rows { IfSome rows (λ found. found.now ≡ selected_rows view.sheet.now selection.now) }
    ensures { OnOk result (list.new.items ≡ list.old.items
        ++ selected_numbers view.entry.sheet.now view.entry.places.now selection.now) }
{
    match rows {
        Some(found) => {
            let table = selected_table(selection);
            push_rows(list, view.places, table, found, selected_family(selection))
        }
        None => push_selected(list, view, selection),
    }
}

/// The table that a selection reads.
fn selected_table(selection: &Selection) -> Table
    ensures { result ≡ selected_table selection.now }
{
    match selection {
        Selection::Funds(_, _) => Table::Fund,
        Selection::Securities(_, _) => Table::Security,
        Selection::Liabilities(_, _) => Table::Liability,
        Selection::Currencies(_, _) => Table::Currency,
        Selection::Groups(_, _) => Table::Group,
        Selection::None => Table::Whole,
    }
}

/// The family of the figures that a selection reads.
fn selected_family(selection: &Selection) -> u32
    ensures { result ≡ selected_family selection.now }
{
    match selection {
        Selection::Funds(_, OfFund::Total) => 0,
        Selection::Securities(_, what) => security_family(*what),
        Selection::Liabilities(_, what) => liability_family(*what),
        Selection::Currencies(_, what) => currency_family(*what),
        Selection::Groups(_, what) => group_family(*what),
        Selection::None => 0,
    }
}

/// Appends the ids of figure `own` of the rows at these indexes.
fn push_rows(
    list: &mut Vec<u32>,
    places: &Places,
    table: Table,
    rows: &[u32],
    own: u32,
) -> Result<(), NoMemory>
    requires rows { AllByRecursion (λ row. row < count places.now table) rows.now }
    requires own { own ≤ stride table }
    ensures { OnOk result (list.new.items ≡ list.old.items ++ numbers_at places.now table own rows.now) }
{
    for row in rows {
        list.push(places.first(table, *row as usize) + own)?;
    }
    Ok(())
}

/// Appends the ids of a selection, by a walk along its table.
fn push_selected(list: &mut Vec<u32>, view: View<'_>, selection: &Selection) -> Result<(), NoMemory>
    requires { IsNumbered view.sheet.now view.places.now }
    ensures { OnOk result (list.new.items ≡ list.old.items
        ++ selected_numbers view.entry.sheet.now view.entry.places.now selection.now) }
{
    match selection {
        Selection::None => Ok(()),
        Selection::Funds(holders, _) => push_of_funds(list, view, holders),
        Selection::Securities(holdings, what) => {
            push_of_securities(list, view, holdings, security_family(*what))
        }
        Selection::Liabilities(obligations, what) => {
            push_of_liabilities(list, view, obligations, liability_family(*what))
        }
        Selection::Currencies(currencies, what) => {
            push_of_currencies(list, view, *currencies, currency_family(*what))
        }
        Selection::Groups(counterparties, what) => {
            push_of_groups(list, view, *counterparties, group_family(*what))
        }
    }
}

fn push_of_funds(list: &mut Vec<u32>, view: View<'_>, holders: &Holders) -> Result<(), NoMemory>
    requires numbered { IsNumbered view.sheet.now view.places.now }
    ensures { OnOk result (list.new.items ≡ list.old.items ++ numbers_at view.entry.places.now tables.Fund 0
        (places_where (is_holder holders.now) 0 view.entry.sheet.now.funds)) }
{
    for k in 0..view.sheet.funds.len() {
        let stake = view.sheet.funds.at(k);
        if is_holder(holders, stake) {
            list.push(view.places.first(Table::Fund, k))?;
        }
    }
    Ok(())
}

fn push_of_securities(
    list: &mut Vec<u32>,
    view: View<'_>,
    holdings: &Holdings,
    own: u32,
) -> Result<(), NoMemory>
    requires numbered { IsNumbered view.sheet.now view.places.now }
    requires own { own ≤ stride tables.Security }
    ensures { OnOk result (list.new.items ≡ list.old.items ++ numbers_at view.entry.places.now tables.Security own
        (places_where (is_counted holdings.now) 0 view.entry.sheet.now.securities)) }
{
    for k in 0..view.sheet.securities.len() {
        let position = view.sheet.securities.at(k);
        if is_counted(holdings, position) {
            list.push(view.places.first(Table::Security, k) + own)?;
        }
    }
    Ok(())
}

fn push_of_liabilities(
    list: &mut Vec<u32>,
    view: View<'_>,
    obligations: &Obligations,
    own: u32,
) -> Result<(), NoMemory>
    requires numbered { IsNumbered view.sheet.now view.places.now }
    requires own { own ≤ stride tables.Liability }
    ensures { OnOk result (list.new.items ≡ list.old.items ++ numbers_at view.entry.places.now tables.Liability own
        (places_where (is_obligation obligations.now) 0 view.entry.sheet.now.liabilities)) }
{
    for k in 0..view.sheet.liabilities.len() {
        let liability = view.sheet.liabilities.at(k);
        if is_obligation(obligations, liability) {
            list.push(view.places.first(Table::Liability, k) + own)?;
        }
    }
    Ok(())
}

fn push_of_currencies(
    list: &mut Vec<u32>,
    view: View<'_>,
    currencies: Currencies,
    own: u32,
) -> Result<(), NoMemory>
    requires numbered { IsNumbered view.sheet.now view.places.now }
    requires own { own ≤ stride tables.Currency }
    ensures { OnOk result (list.new.items ≡ list.old.items ++ numbers_at view.entry.places.now tables.Currency own
        (places_where (is_currency view.entry.sheet.now currencies) 0 view.entry.sheet.now.curves)) }
{
    for k in 0..view.sheet.curves.len() {
        let curve = view.sheet.curves.at(k);
        if is_currency(view.sheet, currencies, curve) {
            list.push(view.places.first(Table::Currency, k) + own)?;
        }
    }
    Ok(())
}

fn push_of_groups(
    list: &mut Vec<u32>,
    view: View<'_>,
    counterparties: Counterparties,
    own: u32,
) -> Result<(), NoMemory>
    requires numbered { IsNumbered view.sheet.now view.places.now }
    requires own { own ≤ stride tables.Group }
    ensures { OnOk result (list.new.items ≡ list.old.items ++ numbers_at view.entry.places.now tables.Group own
        (places_where (is_counterparty counterparties) 0 view.entry.sheet.now.groups)) }
{
    for k in 0..view.sheet.groups.len() {
        let group = view.sheet.groups.at(k);
        if is_counterparty(counterparties, group) {
            list.push(view.places.first(Table::Group, k) + own)?;
        }
    }
    Ok(())
}
