//! What is lost where each group of counterparties defaults, found in one pass.
ghost use Rattle.std.specs.Prelude.{◌≡◌, ◌+◌, ◌^◌, ◌<◌, Some, [], length, slice_get, slice_index_or, IfOk};
ghost use Rattle.scr_sheet.specs.Validity.{Valid};
ghost use Rattle.scr_num.specs.Rounding.{ends};
ghost use Rattle.scr_factors.specs.Values.{FactorValues};
ghost use Rattle.scr_sheet.specs.declared.rows.Group.{Group};
ghost use Rattle.scr_nodes.specs.declared.node.Node.TheVariants as nodes;
ghost use Rattle.scr_nodes.specs.declared.node.OfGroup.TheVariants as of_groups;
ghost use Rattle.scr_rules.specs.ByRow.{by_rule};
ghost use Rattle.scr_rules.specs.GroupLosses.{AreLossesOf, first_losses, with_loss};

use crate::default_rules::grains;
use scr_book::{BalanceSheet, Book};
use scr_default::{lgd_bank, lgd_rein};
use scr_num::Span;
use std::alloc::{AllocError as NoMemory, Global};
use std::marker::Model;

/// What is lost where each group defaults, in grains (Delegated Regulation (EU) 2015/35, Article 192).
/// Contracts see the list of the losses, in the order of the groups.
#[derive(Drop)]
pub struct GroupLosses {
    sums: Vec<u64>,
}

impl Model for GroupLosses {
    ghost use Rattle.std.specs.Prelude.{ℕ, List};

    ghost Value = { List ℕ };

    ghost view = { λ losses. losses.sums.items };
}

impl GroupLosses {
    /// The loss of the group at a place.
    pub(crate) fn at(&self, place: usize) -> u64
        requires { place < length self.now }
        ensures { slice_get self.now place ≡ Some result }
    {
        self.sums[place]
    }
}

/// The losses of all groups of a book. Only want of memory keeps them back. The cost is that of all
/// groups, banks and reinsurers.
pub fn group_losses(alloc: Global, book: &Book) -> Result<GroupLosses, NoMemory>
    ensures { IfOk result (λ losses. AreLossesOf book.now.sheet losses) }
{
    let sheet = book.sheet();
    let mut sums = no_losses(alloc, sheet)?;
    for k in 0..sheet.banks.len() {
        enter_bank(&mut sums, sheet, k);
    }
    for k in 0..sheet.reinsurers.len() {
        enter_reinsurer(&mut sums, sheet, k);
    }
    Ok(GroupLosses { sums })
}

/// The loss of the group at a place, known exactly.
pub fn group_loss(book: &Book, losses: &GroupLosses, place: usize) -> Span
    requires losses { AreLossesOf book.now.sheet losses.now }
    requires place { place < length book.now.sheet.groups }
    ensures { (factors : FactorValues) (group : Group) → slice_get book.now.sheet.groups place ≡ Some group
        → ends result ≡ by_rule factors book.now.sheet [] (nodes.Group group.name of_groups.Loss) [] }
{
    book.sheet();
    grains(losses.at(place))
}

/// No loss of any group.
fn no_losses(alloc: Global, sheet: &BalanceSheet) -> Result<Vec<u64>, NoMemory>
    ensures { IfOk result (λ sums. sums.items ≡ first_losses sheet.now 0 0) }
{
    let sums = vec![in alloc; 0; sheet.groups.len()]?;
    Ok(sums)
}

/// Adds the loss by the bank at place `k` to that of its group, after those before it.
fn enter_bank(sums: &mut Vec<u64>, sheet: &BalanceSheet, k: usize)
    requires valid { Valid sheet.now }
    requires place { k < length sheet.now.banks }
    requires before { sums.old.items ≡ first_losses sheet.now k 0 }
    ensures { sums.new.items ≡ first_losses sheet.now (k + 1) 0 }
{
    let bank = sheet.banks.at(k);
    let loss = lgd_bank(bank.cents);
    if let Some(place) = sheet.groups.place(&bank.group) {
        add_at(sums, place, loss);
    }
}

/// Adds the loss by the reinsurer at place `k` to that of its group, after all banks and the
/// reinsurers before it.
fn enter_reinsurer(sums: &mut Vec<u64>, sheet: &BalanceSheet, k: usize)
    requires valid { Valid sheet.now }
    requires place { k < length sheet.now.reinsurers }
    requires before { sums.old.items ≡ first_losses sheet.now (length sheet.now.banks) k }
    ensures { sums.new.items ≡ first_losses sheet.now (length sheet.now.banks) (k + 1) }
{
    let reinsurer = sheet.reinsurers.at(k);
    let loss = lgd_rein(
        reinsurer.recoverables,
        reinsurer.mitigation,
        reinsurer.collateral,
    );
    if let Some(place) = sheet.groups.place(&reinsurer.group) {
        add_at(sums, place, loss);
    }
}

/// Adds a loss to the sum at the place.
fn add_at(sums: &mut Vec<u64>, place: usize, loss: u64)
    requires place { place < length sums.old.items }
    requires small { slice_index_or sums.old.items place 0 + loss < 2 ^ 64 }
    ensures { sums.new.items ≡ with_loss place loss sums.old.items }
{
    sums[place] += loss;
}
