//! The balance sheet as its tables of rows and its numbers.
ghost use Rattle.std.specs.Prelude.{◌≡◌, IfOk};
ghost use Rattle.std.specs.Option.{option_map_or};
ghost use Rattle.scr_sheet.specs.BalanceSheet.{opening, is_in, is_named, position_of, stake_of};

use crate::{
    Bank, Curve, Group, Liability, Name, Numbers, Position, Rates, Rein, Rows, Stake, Table,
    opening,
};
use std::alloc::{AllocError as NoMemory, Global};

/// An insurer's balance sheet (Article 75 of Directive 2009/138/EC is its valuation): each table with its rows in the order
/// in which their names first came, and the numbers that stand in no row.
#[derive(Drop)]
pub struct BalanceSheet {
    pub groups: Rows<Group>,
    pub securities: Rows<Position>,
    pub funds: Rows<Stake>,
    pub liabilities: Rows<Liability>,
    pub banks: Rows<Bank>,
    pub reinsurers: Rows<Rein>,
    pub curves: Rows<Curve>,
    pub numbers: Numbers,
}

impl BalanceSheet {
    /// The sheet before the first record: the euro's curve with the single rate 0, and nothing else.
    pub fn opening(alloc: Global) -> Result<BalanceSheet, NoMemory>
        ensures { IfOk result (λ sheet. sheet ≡ opening) }
    {
        let mut curves = Rows::new(alloc);
        curves.put(
            alloc,
            Curve {
                currency: opening::euro(),
                rates: Rates::new(vec![in alloc; 0]?),
                absorb_up: 0,
                absorb_down: 0,
            },
        )?;
        Ok(BalanceSheet {
            groups: Rows::new(alloc),
            securities: Rows::new(alloc),
            funds: Rows::new(alloc),
            liabilities: Rows::new(alloc),
            banks: Rows::new(alloc),
            reinsurers: Rows::new(alloc),
            curves,
            numbers: opening::numbers(),
        })
    }

    /// The name stands in this table.
    pub fn has(&self, table: Table, name: &Name) -> bool
        ensures { result ≡ is_in table name.now self.now }
    {
        match table {
            Table::Group => self.groups.contains(name),
            Table::Security => self.securities.contains(name),
            Table::Fund => self.funds.contains(name),
            Table::Liability => self.liabilities.contains(name),
            Table::Bank => self.banks.contains(name),
            Table::Rein => self.reinsurers.contains(name),
            Table::Curve => self.curves.contains(name),
        }
    }

    /// The name stands in one of the tables that share one set of names; currencies are apart.
    pub fn is_named(&self, name: &Name) -> bool
        ensures { result ≡ is_named name.now self.now }
    {
        self.has(Table::Security, name)
            || self.has(Table::Group, name)
            || self.has(Table::Liability, name)
            || self.has(Table::Bank, name)
            || self.has(Table::Rein, name)
            || self.has(Table::Fund, name)
    }

    /// The cents held directly of the security of this name, 0 where there is none.
    pub fn security_hold(&self, name: &Name) -> u64
        ensures { result ≡ option_map_or (λ p. p.held) (position_of name.now self.now.securities) 0 }
    {
        match self.securities.get(name) {
            Some(position) => position.held,
            None => 0,
        }
    }

    /// The cents held directly of the fund of this name, 0 where there is none.
    pub fn fund_hold(&self, name: &Name) -> u64
        ensures { result ≡ option_map_or (λ s. s.held) (stake_of name.now self.now.funds) 0 }
    {
        match self.funds.get(name) {
            Some(stake) => stake.held,
            None => 0,
        }
    }
}
