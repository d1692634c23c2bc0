//! What stood in a balance sheet before a record, kept so that it can be put back without memory.
ghost use Rattle.std.specs.Prelude.{◌≡◌, ℤ, true, IfOk};
ghost use Rattle.scr_sheet.specs.Earlier.{with_earlier, FitsIn, LeadsBack};
ghost use Rattle.scr_sheet.specs.Verbs.{changes_numbers_alone};
ghost use Rattle.scr_sheet.specs.Validity.{Valid};

use crate::{
    AbsorbKey, BalanceSheet, Bank, BoxedNumbers, Curve, Edit, Group, Liability, Name, Past,
    Position, Rein, Stake, Table,
};
use std::alloc::{AllocError as NoMemory, Global};

/// What a record changes in a balance sheet, as it was before: what stood in one table, or the single numbers.
#[derive(Drop)]
pub enum Earlier {
    Groups(Past<Group>),
    Securities(Past<Position>),
    Funds(Past<Stake>),
    Liabilities(Past<Liability>),
    Banks(Past<Bank>),
    Reinsurers(Past<Rein>),
    Curves(Past<Curve>),
    Numbers(BoxedNumbers),
}

impl BalanceSheet {
    /// Puts back what stood in the sheet, without memory.
    pub fn put_back(&mut self, earlier: Earlier)
        requires { FitsIn earlier self.old }
        ensures { self.new ≡ with_earlier earlier self.old }
    {
        match earlier {
            Earlier::Groups(past) => self.groups.put_back(past),
            Earlier::Securities(past) => self.securities.put_back(past),
            Earlier::Funds(past) => self.funds.put_back(past),
            Earlier::Liabilities(past) => self.liabilities.put_back(past),
            Earlier::Banks(past) => self.banks.put_back(past),
            Earlier::Reinsurers(past) => self.reinsurers.put_back(past),
            Earlier::Curves(past) => self.curves.put_back(past),
            Earlier::Numbers(numbers) => self.numbers = numbers.into_inner(),
        }
    }

    /// What the record is about to change, as it is.
    pub fn before(&self, alloc: Global, edit: &Edit) -> Result<Earlier, NoMemory>
        requires { Valid self.now }
        ensures { IfOk result (λ earlier. LeadsBack earlier edit.now self.now) }
    {
        match edit {
            Edit::Curve { currency, .. } => {
                Ok(Earlier::Curves(self.curves.before_put(alloc, currency)?))
            }
            Edit::Group { name, .. } => Ok(Earlier::Groups(self.groups.before_put(alloc, name)?)),
            Edit::Fund { name, .. } => Ok(Earlier::Funds(self.funds.before_put(alloc, name)?)),
            Edit::Rein { name, .. } => {
                Ok(Earlier::Reinsurers(self.reinsurers.before_put(alloc, name)?))
            }
            Edit::Bank { name, .. } => Ok(Earlier::Banks(self.banks.before_put(alloc, name)?)),
            Edit::Security { name, .. } => {
                Ok(Earlier::Securities(self.securities.before_put(alloc, name)?))
            }
            Edit::Flows { security, .. } => {
                Ok(Earlier::Securities(self.securities.before_put(alloc, security)?))
            }
            Edit::Liability { name, .. } => {
                Ok(Earlier::Liabilities(self.liabilities.before_put(alloc, name)?))
            }
            Edit::LiabilityFlows { liability, .. } => {
                Ok(Earlier::Liabilities(self.liabilities.before_put(alloc, liability)?))
            }
            Edit::Hold { name, .. } => self.before_hold(alloc, name),
            Edit::Absorb { key, .. } => self.before_absorb(alloc, *key),
            Edit::Remove { table, name } => self.before_remove(alloc, *table, name),
            _ => self.before_numbers(alloc, edit),
        }
    }

    // What is held of a fund stands with the fund, and of a security with the security.
    fn before_hold(&self, alloc: Global, name: &Name) -> Result<Earlier, NoMemory>
        requires { Valid self.now }
        ensures { IfOk result (λ earlier. (cents : ℤ) → LeadsBack earlier (Edit.Hold name.now cents) self.now) }
    {
        if self.funds.contains(name) {
            Ok(Earlier::Funds(self.funds.before_put(alloc, name)?))
        } else {
            Ok(Earlier::Securities(self.securities.before_put(alloc, name)?))
        }
    }

    fn before_absorb(&self, alloc: Global, key: AbsorbKey) -> Result<Earlier, NoMemory>
        ensures { IfOk result (λ earlier. (cents : ℤ) → LeadsBack earlier (Edit.Absorb key cents) self.now) }
    {
        match key {
            AbsorbKey::CurrencyUp(currency) => {
                Ok(Earlier::Curves(self.curves.before_put(alloc, &currency)?))
            }
            AbsorbKey::CurrencyDown(currency) => {
                Ok(Earlier::Curves(self.curves.before_put(alloc, &currency)?))
            }
            _ => Ok(Earlier::Numbers(BoxedNumbers::new(alloc, &self.numbers)?)),
        }
    }

    fn before_numbers(&self, alloc: Global, edit: &Edit) -> Result<Earlier, NoMemory>
        requires { changes_numbers_alone edit.now ≡ true }
        ensures { IfOk result (λ earlier. LeadsBack earlier edit.now self.now) }
    {
        Ok(Earlier::Numbers(BoxedNumbers::new(alloc, &self.numbers)?))
    }

    fn before_remove(&self, alloc: Global, table: Table, name: &Name) -> Result<Earlier, NoMemory>
        ensures { IfOk result (λ earlier. LeadsBack earlier (Edit.Remove table name.now) self.now) }
    {
        Ok(match table {
            Table::Group => Earlier::Groups(self.groups.before_remove(alloc, name)?),
            Table::Security => Earlier::Securities(self.securities.before_remove(alloc, name)?),
            Table::Fund => Earlier::Funds(self.funds.before_remove(alloc, name)?),
            Table::Liability => Earlier::Liabilities(self.liabilities.before_remove(alloc, name)?),
            Table::Bank => Earlier::Banks(self.banks.before_remove(alloc, name)?),
            Table::Rein => Earlier::Reinsurers(self.reinsurers.before_remove(alloc, name)?),
            Table::Curve => Earlier::Curves(self.curves.before_remove(alloc, name)?),
        })
    }
}
