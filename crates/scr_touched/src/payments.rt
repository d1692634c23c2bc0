//! The figures that are reckoned from payments.
ghost use Rattle.std.specs.Prelude.{◌≡◌, ◌++◌, flat_map, IfOk, OnOk};
ghost use Rattle.scr_touched.specs.Payments.{security_figures, value_figures, loss_figures, liability_figures, payment_figures};

use scr_nodes::{Direction, Node, OfLiability, OfSecurity};
use scr_sheet::{BalanceSheet, Liability, Name, Projection};
use std::alloc::{AllocError as NoMemory, Global};

/// The figures of payments of all securities and liabilities.
pub(crate) fn payment_figures(alloc: Global, sheet: &BalanceSheet) -> Result<Vec<Node>, NoMemory>
    ensures { IfOk result (λ list. list.items ≡ payment_figures sheet.now) }
{
    let mut list = Vec::new(alloc);
    push_securities(&mut list, sheet)?;
    push_liabilities(&mut list, sheet)?;
    Ok(list)
}

fn push_securities(list: &mut Vec<Node>, sheet: &BalanceSheet) -> Result<(), NoMemory>
    ensures { OnOk result (list.new.items
        ≡ list.old.items ++ flat_map security_figures sheet.now.securities) }
{
    for k in 0..sheet.securities.len() {
        let position = sheet.securities.at(k);
        let name = position.security.name;
        list.extend_from_slice(&[
            Node::Security(name, OfSecurity::UnitLoss(Direction::Up)),
            Node::Security(name, OfSecurity::UnitLoss(Direction::Down)),
        ])?;
    }
    Ok(())
}

fn push_liabilities(list: &mut Vec<Node>, sheet: &BalanceSheet) -> Result<(), NoMemory>
    ensures { OnOk result (list.new.items
        ≡ list.old.items ++ flat_map liability_figures sheet.now.liabilities) }
{
    for k in 0..sheet.liabilities.len() {
        let liability = sheet.liabilities.at(k);
        push_liability(list, liability)?;
    }
    Ok(())
}

fn push_liability(list: &mut Vec<Node>, liability: &Liability) -> Result<(), NoMemory>
    ensures { OnOk result (list.new.items ≡ list.old.items ++ liability_figures liability.now) }
{
    push_values(list, &liability.name)?;
    push_losses(list, &liability.name)
}

/// The figures of a liability by the best estimate.
pub(crate) fn push_values(list: &mut Vec<Node>, name: &Name) -> Result<(), NoMemory>
    ensures { OnOk result (list.new.items ≡ list.old.items ++ value_figures name.now) }
{
    list.extend_from_slice(&[
        Node::Liability(*name, OfLiability::Rate(Direction::Up)),
        Node::Liability(*name, OfLiability::Rate(Direction::Down)),
        Node::Liability(*name, OfLiability::Present),
    ])
}

/// The figures of a liability under each stress.
pub(crate) fn push_losses(list: &mut Vec<Node>, name: &Name) -> Result<(), NoMemory>
    ensures { OnOk result (list.new.items ≡ list.old.items ++ loss_figures name.now) }
{
    let name = *name;
    list.extend_from_slice(&[
        Node::Liability(name, OfLiability::Loss(Projection::Mortality)),
        Node::Liability(name, OfLiability::Loss(Projection::Longevity)),
        Node::Liability(name, OfLiability::Loss(Projection::Disability)),
        Node::Liability(name, OfLiability::Loss(Projection::Expense)),
        Node::Liability(name, OfLiability::Loss(Projection::Revision)),
        Node::Liability(name, OfLiability::Loss(Projection::LapseUp)),
        Node::Liability(name, OfLiability::Loss(Projection::LapseDown)),
        Node::Liability(name, OfLiability::Loss(Projection::LapseMass)),
        Node::Liability(name, OfLiability::Loss(Projection::Catastrophe)),
    ])
}
