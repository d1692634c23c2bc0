//! What banks and reinsurers owe, in one form.
ghost use Rattle.std.specs.Prelude.{◌≡◌};
ghost use Rattle.std.specs.Option.{option_copied};
ghost use Rattle.scr_row_change.specs.Debts.{bank_debt, is_owed_by, rein_debt, same_debt};
ghost use Rattle.scr_row_change.specs.Parts.{gives_same};

use scr_sheet::{Bank, Name, Rein};

/// What a counterparty owes, in cents.
#[derive(Clone, Copy)]
pub struct Debt {
    /// Its group of counterparties.
    pub group: Name,
    /// The cash at a bank, or the recoverables from a reinsurer.
    pub owed: u64,
    /// The risk-mitigating effect of reinsurance.
    pub mitigation: u64,
    /// What is held as collateral.
    pub collateral: u64,
}

/// What a bank owes, if there is one.
pub fn bank_debt(bank: Option<&Bank>) -> Option<Debt>
    ensures { result ≡ bank_debt (option_copied bank.entry) }
{
    let bank = bank?;
    Some(Debt {
        group: bank.group,
        owed: bank.cents,
        mitigation: 0,
        collateral: 0,
    })
}

/// What a reinsurer owes, if there is one.
pub fn rein_debt(reinsurer: Option<&Rein>) -> Option<Debt>
    ensures { result ≡ rein_debt (option_copied reinsurer.entry) }
{
    let reinsurer = reinsurer?;
    Some(Debt {
        group: reinsurer.group,
        owed: reinsurer.recoverables,
        mitigation: reinsurer.mitigation,
        collateral: reinsurer.collateral,
    })
}

/// Whether one counterparty of the group owes the same before and after, and saves the same in risk.
pub fn owes_same(group: &Name, old: Option<&Debt>, new: Option<&Debt>) -> bool
    ensures { result ≡ gives_same (is_owed_by group.now) same_debt (option_copied old.entry)
        (option_copied new.entry) }
{
    match (old, new) {
        (None, None) => true,
        (None, Some(new)) => *group != new.group,
        (Some(old), None) => *group != old.group,
        (Some(old), Some(new)) if *group == old.group => {
            *group == new.group && same_debt(old, new)
        }
        (Some(_), Some(new)) => *group != new.group,
    }
}

fn same_debt(a: &Debt, b: &Debt) -> bool
    ensures { result ≡ same_debt a.now b.now }
{
    a.owed == b.owed && a.mitigation == b.mitigation && a.collateral == b.collateral
}
