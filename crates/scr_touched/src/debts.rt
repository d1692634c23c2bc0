//! Which figures an exchanged bank or reinsurance arrangement touches.
ghost use Rattle.std.specs.Prelude.{◌≡◌, IfOk};
ghost use Rattle.std.specs.Option.{option_copied};
ghost use Rattle.scr_touched.specs.Debts.{debt_touches, debt_losses, is_of_debtor};

use crate::comparisons::is_touched;
use scr_nodes::{Node, OfGroup};
use scr_row_change::debts::{Debt, owes_same};
use scr_sheet::BalanceSheet;
use std::alloc::{AllocError as NoMemory, Global};

/// Whether a figure is touched where what a bank or a reinsurer owes becomes another debt, or comes
/// or goes.
pub(crate) fn debt_touches(
    sheet: &BalanceSheet,
    old: Option<&Debt>,
    new: Option<&Debt>,
    node: &Node,
) -> bool
    ensures { result ≡ debt_touches sheet.now (option_copied old.entry)
        (option_copied new.entry) node.now }
{
    match node {
        Node::Group(group, OfGroup::Loss) => {
            let has = sheet.groups.contains(group);
            is_touched(has, has, owes_same(group, old, new), true)
        }
        _ => false,
    }
}

/// The figure that it may touch: what the group loses that owes it.
pub(crate) fn debt_losses(alloc: Global, debt: Option<&Debt>) -> Result<Vec<Node>, NoMemory>
    ensures { IfOk result (λ list. list.items ≡ debt_losses (option_copied debt.entry)) }
{
    let mut list = Vec::new(alloc);
    if let Some(debt) = debt {
        list.push(Node::Group(debt.group, OfGroup::Loss))?;
    }
    Ok(list)
}

/// Whether a figure is that one.
pub(crate) fn is_of_debtor(debt: Option<&Debt>, node: &Node) -> bool
    ensures { result ≡ is_of_debtor (option_copied debt.entry) node.now }
{
    match (node, debt) {
        (Node::Group(group, OfGroup::Loss), Some(debt)) => *group == debt.group,
        _ => false,
    }
}
