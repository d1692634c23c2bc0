//! Which figures an exchanged security touches.
ghost use Rattle.std.specs.Prelude.{◌≡◌, ◌++◌, IfOk, OnOk};
ghost use Rattle.std.specs.Option.{option_copied};
ghost use Rattle.scr_nodes.specs.Rows.{is_paying, is_paying_in};
ghost use Rattle.scr_nodes.specs.Selections.{is_counted};
ghost use Rattle.scr_sheet.specs.declared.rows.Class.TheVariants as classes;
ghost use Rattle.scr_row_change.specs.Comparisons.{is_kept, passes};
ghost use Rattle.scr_row_change.specs.Readings.{flows_of, duration_of, position_held};
ghost use Rattle.scr_touched.specs.Securities.{rates_for, step_for, total_touched, unit_touched, spread_touched, security_touches, own_nodes, row_nodes, security_nodes, is_of_position};

use crate::comparisons::is_touched;
use crate::lookups::{rates_of, step_of};
use scr_nodes::live::is_foreign_currency;
use scr_nodes::rows::{has_class, is_paying, is_paying_in};
use scr_nodes::selections::{Holdings, is_counted};
use scr_nodes::{Direction, Measure, Node, OfCurrency, OfGroup, OfSecurity, Whole};
use scr_row_change::comparisons::{same_payments, same_rates};
use scr_row_change::readings::{duration_of, flows_of, position_held};
use scr_sheet::{BalanceSheet, Class, Name, Position};
use std::alloc::{AllocError as NoMemory, Global};

/// Whether a figure is touched where the security of this name becomes another, or comes or goes.
pub(crate) fn security_touches(
    sheet: &BalanceSheet,
    name: &Name,
    old: Option<&Position>,
    new: Option<&Position>,
    node: &Node,
) -> bool
    ensures { result ≡ security_touches sheet.now name.now (option_copied old.entry)
        (option_copied new.entry) node.now }
{
    match node {
        Node::Security(x, OfSecurity::Total) => x == name && total_touched(old, new),
        Node::Security(x, OfSecurity::UnitLoss(_)) => x == name && unit_touched(sheet, old, new),
        Node::Security(x, OfSecurity::Rate(_)) => x == name
            && is_touched(pays(old), pays(new), true, true),
        Node::Currency(currency, OfCurrency::Loss(_)) => {
            let has = sheet.curves.contains(currency);
            let kept = pays_in(currency, old) == pays_in(currency, new);
            is_touched(has, has, true, kept)
        }
        Node::Currency(currency, OfCurrency::Scenario(_, Measure::Gross)) => {
            let foreign = is_foreign_currency(sheet, currency);
            let kept = is_kept(&Holdings::In(*currency), old, new);
            is_touched(foreign, foreign, kept, kept)
        }
        Node::Whole(Whole::ClassSum(class)) => !is_kept(&Holdings::OfClass(*class), old, new),
        Node::Security(x, OfSecurity::Spread) => x == name && spread_touched(sheet, old, new),
        Node::Whole(Whole::Spread) => !is_kept(&Holdings::OfClass(Class::Bond), old, new),
        Node::Group(group, OfGroup::Total) => {
            let has = sheet.groups.contains(group);
            let kept = is_kept(&Holdings::OfGroup(*group), old, new);
            is_touched(has, has, true, kept)
        }
        Node::Whole(Whole::Assets) => !is_kept(&Holdings::Grouped, old, new),
        _ => false,
    }
}

/// What is held of the security changes, or it comes or goes.
fn total_touched(old: Option<&Position>, new: Option<&Position>) -> bool
    ensures { result ≡ total_touched (option_copied old.entry) (option_copied new.entry) }
{
    let held = position_held(old) == position_held(new);
    is_touched(old.is_some(), new.is_some(), held, true)
}

/// Its payments change, or the rates by which they are discounted.
fn unit_touched(sheet: &BalanceSheet, old: Option<&Position>, new: Option<&Position>) -> bool
    ensures { result ≡ unit_touched sheet.now (option_copied old.entry) (option_copied new.entry) }
{
    let own = same_payments(flows_of(old), flows_of(new))
        && same_rates(rates_for(sheet, old), rates_for(sheet, new));
    is_touched(pays(old), pays(new), own, true)
}

/// The credit quality step or the duration of the bond changes, or it comes or goes as a bond.
fn spread_touched(sheet: &BalanceSheet, old: Option<&Position>, new: Option<&Position>) -> bool
    ensures { result ≡ spread_touched sheet.now (option_copied old.entry)
        (option_copied new.entry) }
{
    let own = step_for(sheet, old) == step_for(sheet, new) && duration_of(old) == duration_of(new);
    let bonds = Holdings::OfClass(Class::Bond);
    let (before, after) = (is_counted_of(&bonds, old), is_counted_of(&bonds, new));
    is_touched(before, after, own, true)
}

pub(crate) fn pays(position: Option<&Position>) -> bool
    ensures { result ≡ passes is_paying (option_copied position.entry) }
{
    match position {
        Some(position) => is_paying(position),
        None => false,
    }
}

fn is_counted_of(holdings: &Holdings, position: Option<&Position>) -> bool
    ensures { result ≡ passes (is_counted holdings.now) (option_copied position.entry) }
{
    match position {
        Some(position) => is_counted(holdings, position),
        None => false,
    }
}

/// The security is one of them before as it is after.
fn is_kept(holdings: &Holdings, old: Option<&Position>, new: Option<&Position>) -> bool
    ensures { result ≡ is_kept (is_counted holdings.now) (option_copied old.entry)
        (option_copied new.entry) }
{
    is_counted_of(holdings, old) == is_counted_of(holdings, new)
}

fn pays_in(currency: &Name, position: Option<&Position>) -> bool
    ensures { result ≡ passes (is_paying_in currency.now) (option_copied position.entry) }
{
    match position {
        Some(position) => is_paying_in(currency, position),
        None => false,
    }
}

fn rates_for<'a>(sheet: &'a BalanceSheet, position: Option<&Position>) -> &'a [i64]
    ensures { result.now ≡ rates_for sheet.now (option_copied position.entry) }
{
    match position {
        Some(position) => rates_of(sheet, &position.security.currency),
        None => &[],
    }
}

fn step_for(sheet: &BalanceSheet, position: Option<&Position>) -> Option<u8>
    ensures { result ≡ step_for sheet.now (option_copied position.entry) }
{
    match position {
        Some(position) => step_of(sheet, position.security.group),
        None => None,
    }
}

/// The figures that an exchanged security may touch: its own, and those of its currency, class and
/// group before.
pub(crate) fn security_nodes(
    alloc: Global,
    name: &Name,
    old: Option<&Position>,
) -> Result<Vec<Node>, NoMemory>
    ensures { IfOk result (λ list. list.items ≡ security_nodes name.now (option_copied old.entry)) }
{
    let mut list = own_nodes(alloc, name)?;
    push_row(&mut list, old)?;
    Ok(list)
}

/// As many figures as the currency, the class and the group of a security have.
const ROW: usize = 6;

/// The figures of the currency, the class and the group of a security.
pub(crate) fn row_nodes(alloc: Global, position: Option<&Position>) -> Result<Vec<Node>, NoMemory>
    ensures { IfOk result (λ list. list.items ≡ row_nodes (option_copied position.entry)) }
{
    let mut list = Vec::with_capacity(alloc, ROW)?;
    push_row(&mut list, position)?;
    Ok(list)
}

/// Whether a figure is one of these.
pub(crate) fn is_of_position(position: Option<&Position>, node: &Node) -> bool
    ensures { result ≡ is_of_position (option_copied position.entry) node.now }
{
    match node {
        Node::Currency(currency, OfCurrency::Loss(_))
        | Node::Currency(currency, OfCurrency::Scenario(_, Measure::Gross)) => {
            is_counted_of(&Holdings::In(*currency), position)
        }
        Node::Whole(Whole::ClassSum(class)) => is_counted_of(&Holdings::OfClass(*class), position),
        Node::Group(group, OfGroup::Total) => is_counted_of(&Holdings::OfGroup(*group), position),
        _ => false,
    }
}

fn own_nodes(alloc: Global, name: &Name) -> Result<Vec<Node>, NoMemory>
    ensures { IfOk result (λ list. list.items ≡ own_nodes name.now) }
{
    let list = vec![in alloc;
        Node::Security(*name, OfSecurity::Total),
        Node::Security(*name, OfSecurity::UnitLoss(Direction::Up)),
        Node::Security(*name, OfSecurity::UnitLoss(Direction::Down)),
        Node::Security(*name, OfSecurity::Rate(Direction::Up)),
        Node::Security(*name, OfSecurity::Rate(Direction::Down)),
        Node::Security(*name, OfSecurity::Spread),
        Node::Whole(Whole::Spread),
        Node::Whole(Whole::Assets),
    ]?;
    Ok(list)
}

fn push_row(list: &mut Vec<Node>, position: Option<&Position>) -> Result<(), NoMemory>
    ensures { OnOk result (list.new.items
        ≡ list.old.items ++ row_nodes (option_copied position.entry)) }
{
    let Some(position) = position else {
        return Ok(());
    };
    let currency = position.security.currency;
    list.extend_from_slice(&[
        Node::Currency(currency, OfCurrency::Loss(Direction::Up)),
        Node::Currency(currency, OfCurrency::Loss(Direction::Down)),
        Node::Currency(
            currency,
            OfCurrency::Scenario(Direction::Up, Measure::Gross),
        ),
        Node::Currency(
            currency,
            OfCurrency::Scenario(Direction::Down, Measure::Gross),
        ),
        Node::Whole(Whole::ClassSum(position.security.class)),
    ])?;
    if let Some(group) = position.security.group {
        list.push(Node::Group(group, OfGroup::Total))?;
    }
    Ok(())
}
