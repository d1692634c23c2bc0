//! The links between the numbers of figures, but for those that rows and lists give.
ghost use Rattle.std.specs.Prelude.{◌≡◌, ◌+◌, ◌<◌, ◌≤◌, [], true, Some, length, slice_get, IfOk, OnOk};
ghost use Rattle.std.specs.List.{list_any};
ghost use Rattle.scr_figure_ids.specs.Families.{name_of, table_of};
ghost use Rattle.scr_figure_ids.specs.Numbers.{names_in};
ghost use Rattle.scr_nodes.specs.Live.{is_live};
ghost use Rattle.scr_nodes.specs.Rows.{holds};
ghost use Rattle.scr_sheet.specs.declared.rows.Position.{Position};
ghost use Rattle.scr_tree.specs.First.{AreLinkedTo, IsLinkGround, IsLinkedNext};
ghost use Rattle.scr_tree.specs.Points.{is_linked};
ghost use Rattle.scr_tree.specs.Turns.{next, turn, turn_of};

use crate::graph::is_linked;
use crate::making::{LinkGround, gather_linked, make_room, number_at};
use scr_figure_ids::{currency_at, whole_at};
use scr_links::Links;
use scr_nodes::{Node, OfFund, OfSecurity, is_live};
use scr_reachability::link;
use scr_sheet::BalanceSheet;
use std::alloc::{AllocError as NoMemory, Global};

/// The number of the assets of which concentrations are measured.
pub(crate) const ASSETS: u32 = 153;

/// How many figures a currency has.
pub(crate) const OF_CURRENCY: u32 = 9;

/// How many figures of the whole sheet come after all rows: all but the assets of which concentrations are measured.
pub(crate) const WHOLES: u32 = 153;

/// How many links figures of the whole sheet have to others of it, or some more.
const OF_WHOLES: usize = 320;

/// All links but those that rows and lists give.
pub(crate) fn all_links(ground: LinkGround<'_>) -> Result<Links, NoMemory>
    requires { IsLinkGround ground }
    ensures { IfOk result (λ links. AreLinkedTo ground.entry links (turn 7 0 153)) }
{
    let mut links = links_of_totals(ground)?;
    let mut sources = Vec::new(ground.alloc);
    link_currencies(ground, &mut links, &mut sources)?;
    link_wholes(ground, &mut links, &mut sources)?;
    Ok(links)
}

/// The links between the totals of all funds and securities, with room for all that are expected.
fn links_of_totals(ground: LinkGround<'_>) -> Result<Links, NoMemory>
    requires { IsLinkGround ground }
    ensures { IfOk result (λ links. AreLinkedTo ground.entry links (turn 2 0 0)) }
{
    let mut links = no_links(ground)?;
    let mut sources = Vec::new(ground.alloc);
    link_funds(ground, &mut links, &mut sources)?;
    link_securities(ground, &mut links, &mut sources)?;
    Ok(links)
}

/// No link, with room for those that are expected, between any numbers.
fn no_links(ground: LinkGround<'_>) -> Result<Links, NoMemory>
    ensures links { IfOk result (λ links. links.edges ≡ []) }
    ensures size { IfOk result (λ links. links.size ≤ ground.entry.places.now.size) }
{
    let count = expected_links(ground.book.sheet());
    let mut links = Links::new(ground.alloc)?;
    links.reserve(ground.alloc, count, ground.places.len())?;
    Ok(links)
}

/// For how many links there is room at first: of funds as many as they have components, of a currency twenty, of the whole sheet
/// `OF_WHOLES`, and of a group two. Where there are more, more room is made.
fn expected_links(sheet: &BalanceSheet) -> u32 {
    let mut count = sheet
        .groups
        .len()
        .saturating_mul(2)
        .saturating_add(sheet.curves.len().saturating_mul(20))
        .saturating_add(OF_WHOLES);
    for k in 0..sheet.funds.len() {
        count = count.saturating_add(sheet.funds.at(k).fund.components.as_slice().len());
    }
    match u32::try_from(count) {
        Ok(count) => count,
        Err(_) => u32::MAX,
    }
}

/// Links to the total of each fund those of the funds that hold it.
fn link_funds(
    ground: LinkGround<'_>,
    links: &mut Links,
    sources: &mut Vec<u32>,
) -> Result<(), NoMemory>
    requires ground { IsLinkGround ground }
    requires linked { AreLinkedTo ground links.old (turn 0 0 0) }
    ensures { OnOk result (AreLinkedTo ground.entry links.new (turn 1 0 0)) }
{
    let sheet = ground.book.sheet();
    for k in 0..sheet.funds.len() {
        let node = Node::Fund(sheet.funds.at(k).fund.name, OfFund::Total);
        link_gathered(ground, links, sources, &node, k)?;
    }
    Ok(())
}

/// Links to the total of each security those of the funds that hold it.
fn link_securities(
    ground: LinkGround<'_>,
    links: &mut Links,
    sources: &mut Vec<u32>,
) -> Result<(), NoMemory>
    requires ground { IsLinkGround ground }
    requires linked { AreLinkedTo ground links.old (turn 1 0 0) }
    ensures { OnOk result (AreLinkedTo ground.entry links.new (turn 2 0 0)) }
{
    let sheet = ground.book.sheet();
    for k in 0..sheet.securities.len() {
        if is_held(ground, k) {
            let node = Node::Security(sheet.securities.at(k).security.name, OfSecurity::Total);
            link_gathered(ground, links, sources, &node, k)?;
        }
    }
    Ok(())
}

/// Whether a fund holds the security at a place.
fn is_held(ground: LinkGround<'_>, k: usize) -> bool
    requires ground { IsLinkGround ground }
    requires row { k < length ground.book.now.sheet.securities }
    ensures { (position : Position) → slice_get ground.entry.book.now.sheet.securities k ≡ Some position
        → result ≡ list_any (holds position.security.name) ground.entry.book.now.sheet.funds }
{
    let holders = ground.members.funds.holding_securities.at(k);
    !holders.is_empty()
}

/// Links to the figures of all currencies their sources, but to those that are reckoned from a large sum.
fn link_currencies(
    ground: LinkGround<'_>,
    links: &mut Links,
    sources: &mut Vec<u32>,
) -> Result<(), NoMemory>
    requires ground { IsLinkGround ground }
    requires linked { AreLinkedTo ground links.old (turn 6 0 0) }
    ensures { OnOk result (AreLinkedTo ground.entry links.new (turn 7 0 0)) }
{
    for k in 0..ground.book.sheet().curves.len() {
        link_currency(ground, links, sources, k)?;
    }
    Ok(())
}

/// The same of the currency at a place.
fn link_currency(
    ground: LinkGround<'_>,
    links: &mut Links,
    sources: &mut Vec<u32>,
    k: usize,
) -> Result<(), NoMemory>
    requires ground { IsLinkGround ground }
    requires row { k < length ground.book.now.sheet.curves }
    requires linked { AreLinkedTo ground links.old (turn 6 k 0) }
    ensures { OnOk result (AreLinkedTo ground.entry links.new (turn 6 (k + 1) 0)) }
{
    let name = ground.book.sheet().curves.at(k).currency;
    for family in 0..OF_CURRENCY {
        let what = currency_at(family);
        let node = Node::Currency(name, what);
        link_if_there(ground, links, sources, &node, k)?;
    }
    Ok(())
}

/// Links to all figures of the whole sheet their sources, but to those that are reckoned from a large sum.
fn link_wholes(
    ground: LinkGround<'_>,
    links: &mut Links,
    sources: &mut Vec<u32>,
) -> Result<(), NoMemory>
    requires ground { IsLinkGround ground }
    requires linked { AreLinkedTo ground links.old (turn 7 0 0) }
    ensures { OnOk result (AreLinkedTo ground.entry links.new (turn 7 0 153)) }
{
    for number in 0..WHOLES {
        let node = Node::Whole(whole_at(number));
        link_if_there(ground, links, sources, &node, 0)?;
    }
    Ok(())
}

/// The same of a figure, if the balance sheet has it and no large sum gives it.
fn link_if_there(
    ground: LinkGround<'_>,
    links: &mut Links,
    sources: &mut Vec<u32>,
    node: &Node,
    row: usize,
) -> Result<(), NoMemory>
    requires ground { IsLinkGround ground }
    requires row { slice_get (names_in ground.book.now.sheet (table_of node.now)) row ≡ Some (name_of node.now) }
    requires linked { AreLinkedTo ground links.old (turn_of node.now row) }
    ensures { OnOk result (AreLinkedTo ground.entry links.new (next (turn_of node.now row))) }
{
    if !is_linked(node) || !is_live(ground.book.sheet(), node) {
        return Ok(());
    }
    link_gathered(ground, links, sources, node, row)
}

/// Links to a figure that the balance sheet has, of the row at a place, all of its sources.
fn link_gathered(
    ground: LinkGround<'_>,
    links: &mut Links,
    sources: &mut Vec<u32>,
    node: &Node,
    row: usize,
) -> Result<(), NoMemory>
    requires ground { IsLinkGround ground }
    requires live { is_live ground.book.now.sheet node.now ≡ true }
    requires linked_node { is_linked node.now ≡ true }
    requires row { slice_get (names_in ground.book.now.sheet (table_of node.now)) row ≡ Some (name_of node.now) }
    requires linked { AreLinkedTo ground links.old (turn_of node.now row) }
    ensures { OnOk result (AreLinkedTo ground.entry links.new (next (turn_of node.now row))) }
{
    gather_linked(ground, sources, node, row)?;
    let number = number_at(ground.places, node, row);
    link_next(ground.alloc, links, number, sources.as_slice())
}

/// Links these sources to a number.
fn link_next(alloc: Global, links: &mut Links, number: u32, sources: &[u32]) -> Result<(), NoMemory>
    ensures { OnOk result (IsLinkedNext number sources.now links.old links.new) }
{
    make_room(alloc, links, number, sources)?;
    link(links, number, sources);
    Ok(())
}
