//! Which figures an exchanged fund touches.
ghost use Rattle.std.specs.Prelude.{◌≡◌, ◌++◌, IfOk, OnOk};
ghost use Rattle.std.specs.List.{flat_map};
ghost use Rattle.std.specs.Option.{option_copied};
ghost use Rattle.scr_nodes.specs.Rows.{is_closed};
ghost use Rattle.scr_row_change.specs.Comparisons.{passes};
ghost use Rattle.scr_touched.specs.FundShares.{AreBothShares};
ghost use Rattle.scr_row_change.specs.Readings.{held_kept, is_fund_after};
ghost use Rattle.scr_touched.specs.Funds.{fund_touched, holding_touched, fund_touches, totals_of, component_nodes, fund_nodes, is_of_stake};

use crate::comparisons::is_touched;
use crate::component::Shares;
use crate::weighed::{is_held, kept, weighed};
use scr_nodes::rows::is_closed;
use scr_nodes::{Node, OfFund, OfSecurity, Whole};
use scr_row_change::readings::{held_kept, is_fund_after};
use scr_sheet::{BalanceSheet, Class, Name, Stake};
use std::alloc::{AllocError as NoMemory, Global};
use std::mem::drop;

/// The shares in the fund before and after it is exchanged, in the time of its components.
pub(crate) fn shares(
    alloc: Global,
    old: Option<&Stake>,
    new: Option<&Stake>,
) -> Result<Shares, NoMemory>
    ensures { IfOk result (λ shares. AreBothShares shares (option_copied old.entry)
        (option_copied new.entry)) }
{
    let old = weighed(alloc, old)?;
    match weighed(alloc, new) {
        Ok(new) => Ok(Shares { old, new }),
        Err(NoMemory) => {
            drop(old);
            Err(NoMemory)
        }
    }
}

/// Whether a figure is touched where the fund of this name becomes another, or comes or goes.
pub(crate) fn fund_touches(
    sheet: &BalanceSheet,
    name: &Name,
    shares: &Shares,
    old: Option<&Stake>,
    new: Option<&Stake>,
    node: &Node,
) -> bool
    requires { AreBothShares shares.now (option_copied old) (option_copied new) }
    ensures { result ≡ fund_touches sheet.now name.now (option_copied old.entry)
        (option_copied new.entry) node.now }
{
    match node {
        Node::Fund(x, OfFund::Total) => fund_touched(sheet, name, shares, old, new, x),
        Node::Security(x, OfSecurity::Total) => holding_touched(sheet, shares, old, new, x),
        Node::Whole(Whole::ClassSum(Class::Type2Equity)) => closed(old) != closed(new),
        _ => false,
    }
}

/// What is held of a fund.
fn fund_touched(
    sheet: &BalanceSheet,
    name: &Name,
    shares: &Shares,
    old: Option<&Stake>,
    new: Option<&Stake>,
    x: &Name,
) -> bool
    requires { AreBothShares shares.now (option_copied old) (option_copied new) }
    ensures { result ≡ fund_touched sheet.now name.now (option_copied old.entry)
        (option_copied new.entry) x.now }
{
    let before = sheet.funds.contains(x);
    let after = is_fund_after(sheet, name, new, x);
    let held = held_kept(name, old, new, x);
    let (share, holder) = kept(x, &shares.old, &shares.new, old, new);
    is_touched(before, after, held && share, holder)
}

/// What is held of a security.
fn holding_touched(
    sheet: &BalanceSheet,
    shares: &Shares,
    old: Option<&Stake>,
    new: Option<&Stake>,
    x: &Name,
) -> bool
    requires { AreBothShares shares.now (option_copied old) (option_copied new) }
    ensures { result ≡ holding_touched sheet.now (option_copied old.entry)
        (option_copied new.entry) x.now }
{
    let has = sheet.securities.contains(x);
    let (share, holder) = kept(x, &shares.old, &shares.new, old, new);
    is_touched(has, has, share, holder)
}

fn closed(stake: Option<&Stake>) -> bool
    ensures { result ≡ passes is_closed (option_copied stake.entry) }
{
    match stake {
        Some(stake) => is_closed(stake),
        None => false,
    }
}

/// The figures that an exchanged fund may touch, and those of its components before.
pub(crate) fn fund_nodes(
    alloc: Global,
    name: &Name,
    old: Option<&Stake>,
) -> Result<Vec<Node>, NoMemory>
    ensures { IfOk result (λ list. list.items ≡ fund_nodes name.now (option_copied old.entry)) }
{
    let mut list = vec![in alloc;
        Node::Fund(*name, OfFund::Total),
        Node::Whole(Whole::ClassSum(Class::Type2Equity)),
    ]?;
    push_components(&mut list, old)?;
    Ok(list)
}

/// The totals of the components of a fund.
pub(crate) fn component_nodes(alloc: Global, stake: Option<&Stake>) -> Result<Vec<Node>, NoMemory>
    ensures { IfOk result (λ list. list.items ≡ component_nodes (option_copied stake.entry)) }
{
    let mut list = Vec::new(alloc);
    push_components(&mut list, stake)?;
    Ok(list)
}

/// Whether a figure is the total of the fund, or of a component before.
pub(crate) fn is_of_stake(
    name: &Name,
    shares: &Shares,
    _old: Option<&Stake>,
    _new: Option<&Stake>,
    node: &Node,
) -> bool
    requires { AreBothShares shares.now (option_copied _old) (option_copied _new) }
    ensures { result ≡ is_of_stake name.now (option_copied _old.entry) node.now }
{
    match node {
        Node::Fund(x, OfFund::Total) => x == name || is_held(x, &shares.old, _old),
        Node::Security(x, OfSecurity::Total) => is_held(x, &shares.old, _old),
        _ => false,
    }
}

fn push_components(list: &mut Vec<Node>, stake: Option<&Stake>) -> Result<(), NoMemory>
    ensures { OnOk result (list.new.items
        ≡ list.old.items ++ component_nodes (option_copied stake.entry)) }
{
    match stake {
        Some(stake) => push_totals(list, stake),
        None => Ok(()),
    }
}

fn push_totals(list: &mut Vec<Node>, stake: &Stake) -> Result<(), NoMemory>
    ensures { OnOk result (list.new.items
        ≡ list.old.items ++ flat_map (λ c. totals_of c.0) stake.now.fund.components) }
{
    for (name, _) in stake.fund.components.as_slice() {
        list.extend_from_slice(&[
            Node::Fund(*name, OfFund::Total),
            Node::Security(*name, OfSecurity::Total),
        ])?;
    }
    Ok(())
}
