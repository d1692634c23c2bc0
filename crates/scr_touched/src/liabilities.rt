//! Which figures an exchanged liability touches.
ghost use Rattle.std.specs.Prelude.{◌≡◌, ◌++◌, IfOk, OnOk};
ghost use Rattle.std.specs.Option.{option_copied};
ghost use Rattle.scr_nodes.specs.Rows.{has_stress, is_owed_in, is_stress, is_stressed};
ghost use Rattle.scr_row_change.specs.Comparisons.{is_kept, passes};
ghost use Rattle.scr_row_change.specs.Readings.{best_estimate_of, paid_for};
ghost use Rattle.scr_touched.specs.Liabilities.{rates_for, is_under, same_value, value_touched, loss_touched, liability_touches, stress_nodes, owed_nodes, liability_nodes, is_of_liability};

use crate::comparisons::is_touched;
use crate::lookups::rates_of;
use crate::payments::{push_losses, push_values};
use scr_nodes::live::{has_stress, is_foreign_currency, is_stress};
use scr_nodes::rows::{has_flows, is_owed_in, is_stressed};
use scr_nodes::{Biometric, Direction, Measure, Node, OfCurrency, OfLiability, Whole};
use scr_row_change::comparisons::{same_payments, same_rates};
use scr_row_change::readings::{best_estimate_of, paid_for};
use scr_sheet::{BalanceSheet, Liability, Name, Projection};
use std::alloc::{AllocError as NoMemory, Global};

/// Whether a figure is touched where the liability of this name becomes another, or comes or goes.
pub(crate) fn liability_touches(
    sheet: &BalanceSheet,
    name: &Name,
    old: Option<&Liability>,
    new: Option<&Liability>,
    node: &Node,
) -> bool
    ensures { result ≡ liability_touches sheet.now name.now (option_copied old.entry)
        (option_copied new.entry) node.now }
{
    match node {
        Node::Liability(x, OfLiability::Rate(_)) => x == name && value_touched(sheet, old, new),
        Node::Liability(x, OfLiability::Present) => x == name && value_touched(sheet, old, new),
        Node::Liability(x, OfLiability::Loss(projection)) => {
            x == name && loss_touched(sheet, *projection, old, new)
        }
        Node::Currency(currency, OfCurrency::Loss(_)) => {
            let has = sheet.curves.contains(currency);
            is_touched(has, has, true, is_kept_owed(currency, old, new))
        }
        Node::Currency(currency, OfCurrency::Scenario(_, Measure::Gross)) => {
            let foreign = is_foreign_currency(sheet, currency);
            is_touched(foreign, foreign, true, is_kept_owed(currency, old, new))
        }
        Node::Whole(Whole::BioScenario(biometric, projection, Measure::Gross)) => {
            let has = has_stress(*biometric, *projection);
            let before = suffers(*biometric, *projection, old);
            let after = suffers(*biometric, *projection, new);
            is_touched(has, has, true, before == after)
        }
        _ => false,
    }
}

/// What is paid by the best estimate changes, or the rates by which it is discounted, or the
/// liability comes or goes.
fn value_touched(sheet: &BalanceSheet, old: Option<&Liability>, new: Option<&Liability>) -> bool
    ensures { result ≡ value_touched sheet.now (option_copied old.entry) (option_copied new.entry) }
{
    let own = same_value(sheet, old, new);
    is_touched(old.is_some(), new.is_some(), own, true)
}

/// Whether the loss of a liability under a stress changes. It does if payments of the best estimate or under
/// the stress change, or the rates that discount them. It does too if flows under the stress begin or cease.
fn loss_touched(
    sheet: &BalanceSheet,
    projection: Projection,
    old: Option<&Liability>,
    new: Option<&Liability>,
) -> bool
    ensures { result ≡ loss_touched sheet.now projection (option_copied old.entry)
        (option_copied new.entry) }
{
    let own = same_value(sheet, old, new)
        && same_payments(paid_for(projection, old), paid_for(projection, new));
    is_touched(
        is_under(projection, old),
        is_under(projection, new),
        own,
        true,
    )
}

fn same_value(sheet: &BalanceSheet, old: Option<&Liability>, new: Option<&Liability>) -> bool
    ensures { result ≡ same_value sheet.now (option_copied old.entry) (option_copied new.entry) }
{
    same_payments(best_estimate_of(old), best_estimate_of(new))
        && same_rates(rates_for(sheet, old), rates_for(sheet, new))
}

fn rates_for<'a>(sheet: &'a BalanceSheet, liability: Option<&Liability>) -> &'a [i64]
    ensures { result.now ≡ rates_for sheet.now (option_copied liability.entry) }
{
    match liability {
        Some(liability) => rates_of(sheet, &liability.currency),
        None => &[],
    }
}

/// The projection is a stress, and the liability has flows under it.
pub(crate) fn is_under(projection: Projection, liability: Option<&Liability>) -> bool
    ensures { result ≡ is_under projection (option_copied liability.entry) }
{
    match liability {
        Some(liability) => is_stress(projection) && has_flows(projection, liability),
        None => false,
    }
}

fn is_owed(currency: &Name, liability: Option<&Liability>) -> bool
    ensures { result ≡ passes (is_owed_in currency.now) (option_copied liability.entry) }
{
    match liability {
        Some(liability) => is_owed_in(currency, liability),
        None => false,
    }
}

fn is_kept_owed(currency: &Name, old: Option<&Liability>, new: Option<&Liability>) -> bool
    ensures { result ≡ is_kept (is_owed_in currency.now) (option_copied old.entry)
        (option_copied new.entry) }
{
    is_owed(currency, old) == is_owed(currency, new)
}

fn suffers(biometric: Biometric, projection: Projection, liability: Option<&Liability>) -> bool
    ensures { result ≡ passes (is_stressed biometric projection) (option_copied liability.entry) }
{
    match liability {
        Some(liability) => is_stressed(biometric, projection, liability),
        None => false,
    }
}

/// The figures that an exchanged liability may touch: its own, the stresses, and those of its
/// currency before.
pub(crate) fn liability_nodes(
    alloc: Global,
    name: &Name,
    old: Option<&Liability>,
) -> Result<Vec<Node>, NoMemory>
    ensures { IfOk result (λ list. list.items ≡ liability_nodes name.now
        (option_copied old.entry)) }
{
    let mut list = Vec::new(alloc);
    push_values(&mut list, name)?;
    push_losses(&mut list, name)?;
    push_stresses(&mut list, Biometric::Life)?;
    push_stresses(&mut list, Biometric::Health)?;
    push_owed(&mut list, old)?;
    Ok(list)
}

/// The figures of the currency of a liability.
pub(crate) fn owed_nodes(
    alloc: Global,
    liability: Option<&Liability>,
) -> Result<Vec<Node>, NoMemory>
    ensures { IfOk result (λ list. list.items ≡ owed_nodes (option_copied liability.entry)) }
{
    let mut list = Vec::new(alloc);
    push_owed(&mut list, liability)?;
    Ok(list)
}

/// Whether a figure is one of these.
pub(crate) fn is_of_liability(liability: Option<&Liability>, node: &Node) -> bool
    ensures { result ≡ is_of_liability (option_copied liability.entry) node.now }
{
    match node {
        Node::Currency(currency, OfCurrency::Loss(_))
        | Node::Currency(currency, OfCurrency::Scenario(_, Measure::Gross)) => {
            is_owed(currency, liability)
        }
        _ => false,
    }
}

fn push_stresses(list: &mut Vec<Node>, biometric: Biometric) -> Result<(), NoMemory>
    ensures { OnOk result (list.new.items ≡ list.old.items ++ stress_nodes biometric) }
{
    list.extend_from_slice(&[
        Node::Whole(Whole::BioScenario(biometric, Projection::Mortality, Measure::Gross)),
        Node::Whole(Whole::BioScenario(biometric, Projection::Longevity, Measure::Gross)),
        Node::Whole(Whole::BioScenario(biometric, Projection::Disability, Measure::Gross)),
        Node::Whole(Whole::BioScenario(biometric, Projection::Expense, Measure::Gross)),
        Node::Whole(Whole::BioScenario(biometric, Projection::Revision, Measure::Gross)),
        Node::Whole(Whole::BioScenario(biometric, Projection::LapseUp, Measure::Gross)),
        Node::Whole(Whole::BioScenario(biometric, Projection::LapseDown, Measure::Gross)),
        Node::Whole(Whole::BioScenario(biometric, Projection::LapseMass, Measure::Gross)),
        Node::Whole(Whole::BioScenario(biometric, Projection::Catastrophe, Measure::Gross)),
    ])
}

fn push_owed(list: &mut Vec<Node>, liability: Option<&Liability>) -> Result<(), NoMemory>
    ensures { OnOk result (list.new.items
        ≡ list.old.items ++ owed_nodes (option_copied liability.entry)) }
{
    let Some(liability) = liability else {
        return Ok(());
    };
    let currency = liability.currency;
    list.extend_from_slice(&[
        Node::Currency(currency, OfCurrency::Loss(Direction::Up)),
        Node::Currency(currency, OfCurrency::Loss(Direction::Down)),
        Node::Currency(
            currency,
            OfCurrency::Scenario(Direction::Up, Measure::Gross),
        ),
        Node::Currency(
            currency,
            OfCurrency::Scenario(Direction::Down, Measure::Gross),
        ),
    ])
}
