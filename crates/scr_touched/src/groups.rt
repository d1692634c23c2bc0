//! Which figures an exchanged group of counterparties touches.
ghost use Rattle.std.specs.Prelude.{◌≡◌, ◌++◌, IfOk, OnOk};
ghost use Rattle.std.specs.Option.{option_copied};
ghost use Rattle.scr_nodes.specs.Live.{is_bond};
ghost use Rattle.scr_nodes.specs.Rows.{is_of_default_class, is_of_group};
ghost use Rattle.scr_row_change.specs.Comparisons.{passes};
ghost use Rattle.scr_row_change.specs.Readings.{same_step, kind_of};
ghost use Rattle.scr_touched.specs.Groups.{group_touches, group_nodes, later_group_nodes, is_of_class_of, is_moved, square_touched, class_touched, step_touched, counts_in, class_nodes, spread_nodes};

use crate::comparisons::is_touched;
use scr_nodes::live::is_bond;
use scr_nodes::rows::{is_of_default_class, is_of_group};
use scr_nodes::{Node, OfGroup, OfSecurity, Whole};
use scr_profile::DefaultClass;
use scr_row_change::readings::{kind_of, same_step};
use scr_sheet::{BalanceSheet, Group, Name};
use std::alloc::{AllocError as NoMemory, Global};

/// Whether a figure is touched where the group of counterparties of this name becomes another, or
/// comes or goes.
pub(crate) fn group_touches(
    sheet: &BalanceSheet,
    name: &Name,
    old: Option<&Group>,
    new: Option<&Group>,
    node: &Node,
) -> bool
    ensures { result ≡ group_touches sheet.now name.now (option_copied old.entry)
        (option_copied new.entry) node.now }
{
    match node {
        Node::Security(x, OfSecurity::Spread) => step_touched(sheet, name, old, new, x),
        Node::Group(x, OfGroup::Total) => x == name && is_moved(old, new),
        Node::Group(x, OfGroup::ConcentrationSquare) => x == name && square_touched(old, new),
        Node::Whole(Whole::Concentration) => old.is_some() != new.is_some(),
        Node::Group(x, OfGroup::Loss) => x == name && is_moved(old, new),
        Node::Whole(Whole::ClassLoss(class)) => class_touched(old, new, *class),
        Node::Whole(Whole::ClassSquare(class)) => class_touched(old, new, *class),
        _ => false,
    }
}

/// It comes or goes.
fn is_moved(old: Option<&Group>, new: Option<&Group>) -> bool
    ensures { result ≡ is_moved (option_copied old.entry) (option_copied new.entry) }
{
    is_touched(old.is_some(), new.is_some(), true, true)
}

/// Its kind or its credit quality step changes, or it comes or goes.
fn square_touched(old: Option<&Group>, new: Option<&Group>) -> bool
    ensures { result ≡ square_touched (option_copied old.entry) (option_copied new.entry) }
{
    let own = kind_of(old) == kind_of(new) && same_step(old, new);
    is_touched(old.is_some(), new.is_some(), own, true)
}

/// It begins or ends to be of the class.
fn class_touched(old: Option<&Group>, new: Option<&Group>, class: DefaultClass) -> bool
    ensures { result ≡ class_touched (option_copied old.entry) (option_copied new.entry) class }
{
    is_of_class(class, old) != is_of_class(class, new)
}

/// The security is a bond of the group, whose credit quality step changes.
fn step_touched(
    sheet: &BalanceSheet,
    name: &Name,
    old: Option<&Group>,
    new: Option<&Group>,
    security: &Name,
) -> bool
    ensures { result ≡ step_touched sheet.now name.now (option_copied old.entry)
        (option_copied new.entry) security.now }
{
    let has = is_bond(sheet, security);
    let own = !counts_in(sheet, name, security) || same_step(old, new);
    is_touched(has, has, own, true)
}

/// The security is of the group.
fn counts_in(sheet: &BalanceSheet, group: &Name, security: &Name) -> bool
    ensures { result ≡ counts_in sheet.now group.now security.now }
{
    match sheet.securities.get(security) {
        Some(position) => is_of_group(group, position),
        None => false,
    }
}

fn is_of_class(class: DefaultClass, group: Option<&Group>) -> bool
    ensures { result ≡ passes (is_of_default_class class) (option_copied group.entry) }
{
    match group {
        Some(group) => is_of_default_class(class, group),
        None => false,
    }
}

/// The figures that an exchanged group may touch: its own, those of its class before and after, and
/// those of its securities.
pub(crate) fn group_nodes(
    alloc: Global,
    name: &Name,
    old: Option<&Group>,
) -> Result<Vec<Node>, NoMemory>
    ensures { IfOk result (λ list. list.items ≡ group_nodes name.now (option_copied old.entry)) }
{
    let mut list = vec![in alloc;
        Node::Group(*name, OfGroup::Total),
        Node::Group(*name, OfGroup::ConcentrationSquare),
        Node::Group(*name, OfGroup::Loss),
        Node::Whole(Whole::Concentration),
    ]?;
    push_class(&mut list, old)?;
    Ok(list)
}

/// The figures of its class of probabilities of default afterwards, and those of its bonds.
pub(crate) fn later_group_nodes(
    alloc: Global,
    sheet: &BalanceSheet,
    name: &Name,
    new: Option<&Group>,
) -> Result<Vec<Node>, NoMemory>
    ensures { IfOk result (λ list. list.items ≡ later_group_nodes sheet.now name.now
        (option_copied new.entry)) }
{
    let mut list = Vec::new(alloc);
    push_class(&mut list, new)?;
    push_spreads(&mut list, sheet, name)?;
    Ok(list)
}

/// Whether a figure is one of the class of a group.
pub(crate) fn is_of_class_of(group: Option<&Group>, node: &Node) -> bool
    ensures { result ≡ is_of_class_of (option_copied group.entry) node.now }
{
    match node {
        Node::Whole(Whole::ClassLoss(class)) | Node::Whole(Whole::ClassSquare(class)) =>
            is_of_class(*class, group),
        _ => false,
    }
}

fn push_class(list: &mut Vec<Node>, group: Option<&Group>) -> Result<(), NoMemory>
    ensures { OnOk result (list.new.items
        ≡ list.old.items ++ class_nodes (option_copied group.entry)) }
{
    let Some(group) = group else {
        return Ok(());
    };
    let class = DefaultClass::of_step(group.step);
    list.extend_from_slice(&[
        Node::Whole(Whole::ClassLoss(class)),
        Node::Whole(Whole::ClassSquare(class)),
    ])?;
    Ok(())
}

/// What the bonds of the group lose.
fn push_spreads(list: &mut Vec<Node>, sheet: &BalanceSheet, name: &Name) -> Result<(), NoMemory>
    ensures { OnOk result (list.new.items ≡ list.old.items ++ spread_nodes sheet.now name.now) }
{
    for k in 0..sheet.securities.len() {
        let position = sheet.securities.at(k);
        if is_of_group(name, position) {
            list.push(Node::Security(position.security.name, OfSecurity::Spread))?;
        }
    }
    Ok(())
}
