//! Which figures an exchanged curve touches.
ghost use Rattle.std.specs.Prelude.{◌≡◌, ◌++◌, IfOk, OnOk};
ghost use Rattle.std.specs.Option.{option_copied};
ghost use Rattle.scr_nodes.specs.Rows.{is_foreign};
ghost use Rattle.scr_row_change.specs.Comparisons.{passes};
ghost use Rattle.scr_row_change.specs.Readings.{rates_by, keeps_security, keeps_liability};
ghost use Rattle.scr_touched.specs.Curves.{absorption_by, unit_moved, value_moved, loss_moved, foreign_touched, net_touched, curve_touches, currency_nodes, foreign_nodes, moved_nodes, curve_nodes};

use crate::comparisons::is_touched;
use crate::liabilities::is_under;
use crate::payments::payment_figures;
use crate::securities::pays;
use scr_nodes::rows::{is_foreign, is_paying};
use scr_nodes::{Direction, Measure, Node, OfCurrency, OfLiability, OfSecurity, Whole};
use scr_row_change::comparisons::same_rates;
use scr_row_change::readings::{keeps_liability, keeps_security, rates_by};
use scr_sheet::{BalanceSheet, Curve, Liability, Name, Position, Projection};
use std::alloc::{AllocError as NoMemory, Global};

/// Whether a figure is touched where the curve of this name becomes another, or comes or goes.
pub(crate) fn curve_touches(
    sheet: &BalanceSheet,
    name: &Name,
    old: Option<&Curve>,
    new: Option<&Curve>,
    node: &Node,
) -> bool
    ensures { result ≡ curve_touches sheet.now name.now (option_copied old.entry)
        (option_copied new.entry) node.now }
{
    match node {
        Node::Security(x, OfSecurity::UnitLoss(_)) => unit_moved(
            name,
            old,
            new,
            sheet.securities.get(x),
        ),
        Node::Liability(x, OfLiability::Rate(_)) => value_moved(
            name,
            old,
            new,
            sheet.liabilities.get(x),
        ),
        Node::Liability(x, OfLiability::Present) => value_moved(
            name,
            old,
            new,
            sheet.liabilities.get(x),
        ),
        Node::Liability(x, OfLiability::Loss(projection)) => {
            loss_moved(name, old, new, *projection, sheet.liabilities.get(x))
        }
        Node::Currency(x, OfCurrency::Loss(_)) => {
            x == name && is_touched(old.is_some(), new.is_some(), true, true)
        }
        Node::Whole(Whole::InterestScenario(_, Measure::Gross)) => old.is_some() != new.is_some(),
        Node::Currency(x, OfCurrency::Scenario(_, Measure::Gross)) => {
            x == name && foreign_touched(sheet, old, new)
        }
        Node::Currency(x, OfCurrency::Scenario(direction, Measure::Net)) => {
            x == name && net_touched(sheet, *direction, old, new)
        }
        Node::Currency(x, OfCurrency::Choice) => x == name && foreign_touched(sheet, old, new),
        Node::Currency(x, OfCurrency::Picked(_)) => x == name && foreign_touched(sheet, old, new),
        Node::Whole(Whole::Currency(_)) => is_other(sheet, old) != is_other(sheet, new),
        _ => false,
    }
}

/// A security of the currency pays, and the rates change by which its payments are discounted.
fn unit_moved(
    name: &Name,
    old: Option<&Curve>,
    new: Option<&Curve>,
    position: Option<&Position>,
) -> bool
    ensures { result ≡ unit_moved name.now (option_copied old.entry) (option_copied new.entry)
        (option_copied position.entry) }
{
    let pays = pays(position);
    is_touched(pays, pays, keeps_security(name, old, new, position), true)
}

/// The rates change by which a liability's best estimate is discounted.
fn value_moved(
    name: &Name,
    old: Option<&Curve>,
    new: Option<&Curve>,
    liability: Option<&Liability>,
) -> bool
    ensures { result ≡ value_moved name.now (option_copied old.entry) (option_copied new.entry)
        (option_copied liability.entry) }
{
    let has = liability.is_some();
    is_touched(has, has, keeps_liability(name, old, new, liability), true)
}

/// The rates change by which a liability's payments under a stress are discounted.
fn loss_moved(
    name: &Name,
    old: Option<&Curve>,
    new: Option<&Curve>,
    projection: Projection,
    liability: Option<&Liability>,
) -> bool
    ensures { result ≡ loss_moved name.now (option_copied old.entry) (option_copied new.entry)
        projection (option_copied liability.entry) }
{
    let under = is_under(projection, liability);
    is_touched(
        under,
        under,
        keeps_liability(name, old, new, liability),
        true,
    )
}

/// The currency comes or goes as a foreign one.
fn foreign_touched(sheet: &BalanceSheet, old: Option<&Curve>, new: Option<&Curve>) -> bool
    ensures { result ≡ foreign_touched sheet.now (option_copied old.entry)
        (option_copied new.entry) }
{
    is_touched(is_other(sheet, old), is_other(sheet, new), true, true)
}

/// What is absorbed of a change of the foreign currency changes, or it comes or goes as one.
fn net_touched(
    sheet: &BalanceSheet,
    direction: Direction,
    old: Option<&Curve>,
    new: Option<&Curve>,
) -> bool
    ensures { result ≡ net_touched sheet.now direction (option_copied old.entry)
        (option_copied new.entry) }
{
    let own = absorption_by(direction, old) == absorption_by(direction, new);
    is_touched(is_other(sheet, old), is_other(sheet, new), own, true)
}

fn absorption_by(direction: Direction, curve: Option<&Curve>) -> u64
    ensures { result ≡ absorption_by direction (option_copied curve.entry) }
{
    let Some(curve) = curve else {
        return 0;
    };
    match direction {
        Direction::Up => curve.absorb_up,
        Direction::Down => curve.absorb_down,
    }
}

/// The curve is that of a foreign currency.
fn is_other(sheet: &BalanceSheet, curve: Option<&Curve>) -> bool
    ensures { result ≡ passes (is_foreign sheet.now) (option_copied curve.entry) }
{
    match curve {
        Some(curve) => is_foreign(sheet, curve),
        None => false,
    }
}

/// The figures that an exchanged curve may touch: those of payments, unless the rates stay, and
/// those of the currency. The cost is that of all securities and liabilities, unless the rates
/// stay.
pub(crate) fn curve_nodes(
    alloc: Global,
    sheet: &BalanceSheet,
    name: &Name,
    old: Option<&Curve>,
    new: Option<&Curve>,
) -> Result<Vec<Node>, NoMemory>
    ensures { IfOk result (λ list. list.items ≡ curve_nodes sheet.now name.now
        (option_copied old.entry) (option_copied new.entry)) }
{
    let mut list = moved_nodes(alloc, sheet, same_rates(rates_by(old), rates_by(new)))?;
    push_currency(&mut list, name)?;
    Ok(list)
}

/// The figures of payments, unless what they are discounted by is the same.
pub(crate) fn moved_nodes(
    alloc: Global,
    sheet: &BalanceSheet,
    same: bool,
) -> Result<Vec<Node>, NoMemory>
    ensures { IfOk result (λ list. list.items ≡ moved_nodes sheet.now same) }
{
    if same {
        return Ok(Vec::new(alloc));
    }
    payment_figures(alloc, sheet)
}

fn push_currency(list: &mut Vec<Node>, name: &Name) -> Result<(), NoMemory>
    ensures { OnOk result (list.new.items ≡ list.old.items ++ currency_nodes name.now) }
{
    list.extend_from_slice(&[
        Node::Currency(*name, OfCurrency::Loss(Direction::Up)),
        Node::Currency(*name, OfCurrency::Loss(Direction::Down)),
        Node::Whole(Whole::InterestScenario(Direction::Up, Measure::Gross)),
        Node::Whole(Whole::InterestScenario(Direction::Down, Measure::Gross)),
        Node::Whole(Whole::Currency(Measure::Gross)),
        Node::Whole(Whole::Currency(Measure::Net)),
    ])?;
    push_foreign(list, name)
}

/// The figures of a foreign currency.
pub(crate) fn push_foreign(list: &mut Vec<Node>, name: &Name) -> Result<(), NoMemory>
    ensures { OnOk result (list.new.items ≡ list.old.items ++ foreign_nodes name.now) }
{
    list.extend_from_slice(&[
        Node::Currency(*name, OfCurrency::Scenario(Direction::Up, Measure::Gross)),
        Node::Currency(*name, OfCurrency::Scenario(Direction::Up, Measure::Net)),
        Node::Currency(*name, OfCurrency::Scenario(Direction::Down, Measure::Gross)),
        Node::Currency(*name, OfCurrency::Scenario(Direction::Down, Measure::Net)),
        Node::Currency(*name, OfCurrency::Choice),
        Node::Currency(*name, OfCurrency::Picked(Measure::Gross)),
        Node::Currency(*name, OfCurrency::Picked(Measure::Net)),
    ])
}
