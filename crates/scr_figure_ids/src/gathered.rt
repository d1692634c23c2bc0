//! Row indexes for the sources of figures, gathered in one pass over each table.
ghost use Rattle.std.specs.Prelude.{◌≡◌, ◌+◌, ◌<◌, IfOk, OnOk, length, map, take};
ghost use Rattle.std.specs.List.{IsDistinct};
ghost use Rattle.scr_tables.specs.Names.{same_name};
ghost use Rattle.scr_sheet.specs.BalanceSheet.{position_name, stake_name};
ghost use Rattle.scr_sheet.specs.Validity.{Valid};
ghost use Rattle.scr_profile.specs.DefaultClasses.{default_classes};
ghost use Rattle.scr_nodes.specs.Rows.{holds, is_of_default_class};
ghost use Rattle.scr_figure_ids.specs.Gathered.{AreFundLists, AreMembersOf};
ghost use Rattle.scr_figure_ids.specs.Places.{entered_where, places_by};

use crate::lists::{Entries, Lists};
use scr_profile::DefaultClass;
use scr_sheet::{BalanceSheet, Stake};
use std::alloc::{AllocError as NoMemory, Global};

/// Funds and groups, listed as sources of figures of a balance sheet. Members of large sums are not among them.
#[derive(Drop)]
pub struct Members {
    pub funds: FundLists,
    /// The groups of each class of probabilities of default (Article 199(2)).
    pub groups: Lists,
}

/// Indexes of funds, listed by the rows that they hold.
#[derive(Drop)]
pub struct FundLists {
    /// The funds that hold a security, by the security's index (Article 84).
    pub holding_securities: Lists,
    /// The funds that hold a fund, by the held fund's index (Article 84).
    pub holding_funds: Lists,
}

/// The lists of a balance sheet. `NoMemory` if they don't fit, or a table has more rows than 32 bits count. It costs all
/// components of funds and all groups, and an offset for each fund and security.
pub fn members_of(alloc: Global, sheet: &BalanceSheet) -> Result<Members, NoMemory>
    requires { Valid sheet.now }
    ensures { IfOk result (λ members. AreMembersOf sheet.now members) }
{
    Ok(Members {
        funds: fund_lists(alloc, sheet)?,
        groups: group_lists(alloc, sheet)?,
    })
}

fn fund_lists(alloc: Global, sheet: &BalanceSheet) -> Result<FundLists, NoMemory>
    requires { Valid sheet.now }
    ensures { IfOk result (λ lists. AreFundLists sheet.now sheet.now.funds lists) }
{
    let mut securities = Entries::new(alloc, sheet.securities.len(), 0)?;
    let mut funds = Entries::new(alloc, sheet.funds.len(), 0)?;
    for k in 0..sheet.funds.len() {
        enter_fund(&mut securities, &mut funds, sheet, k)?;
    }
    let holding_securities = securities.lists(alloc)?;
    let holding_funds = funds.lists(alloc)?;
    Ok(FundLists {
        holding_securities,
        holding_funds,
    })
}

/// Enters fund `k` after the funds before it.
fn enter_fund(
    securities: &mut Entries,
    funds: &mut Entries,
    sheet: &BalanceSheet,
    k: usize,
) -> Result<(), NoMemory>
    requires valid { Valid sheet.now }
    requires place { k < length sheet.now.funds }
    requires securities { securities.old ≡ places_by holds (map position_name sheet.now.securities) (take k sheet.now.funds) }
    requires funds { funds.old ≡ places_by holds (map stake_name sheet.now.funds) (take k sheet.now.funds) }
    ensures securities { OnOk result (securities.new
        ≡ places_by holds (map position_name sheet.now.securities) (take (k + 1) sheet.now.funds)) }
    ensures funds { OnOk result (funds.new ≡ places_by holds (map stake_name sheet.now.funds) (take (k + 1) sheet.now.funds)) }
{
    let stake = sheet.funds.at(k);
    enter_holder(securities, funds, sheet, stake, k)
}

/// Enters a fund under each security and each fund that it holds as a component.
fn enter_holder(
    securities: &mut Entries,
    funds: &mut Entries,
    sheet: &BalanceSheet,
    stake: &Stake,
    k: usize,
) -> Result<(), NoMemory>
    requires securities { length securities.old ≡ length sheet.now.securities }
    requires funds { length funds.old ≡ length sheet.now.funds }
    requires once { IsDistinct same_name (map (λ c. c.0) stake.now.fund.components) }
    ensures securities { OnOk result (securities.new
        ≡ entered_where (λ name. holds name stake.now) (map position_name sheet.now.securities) k securities.old) }
    ensures funds { OnOk result (funds.new
        ≡ entered_where (λ name. holds name stake.now) (map stake_name sheet.now.funds) k funds.old) }
{
    // Brings the invariant into sight: no two rows of a table share a name.
    let _securities = sheet.securities.len();
    let _funds = sheet.funds.len();
    for component in stake.fund.components.as_slice() {
        let security = sheet.securities.place(&component.0);
        let fund = sheet.funds.place(&component.0);
        securities.enter(security, k)?;
        funds.enter(fund, k)?;
    }
    Ok(())
}

fn group_lists(alloc: Global, sheet: &BalanceSheet) -> Result<Lists, NoMemory>
    ensures { IfOk result (λ lists. lists ≡ places_by is_of_default_class default_classes sheet.now.groups) }
{
    let mut entries = Entries::new(alloc, 6, sheet.groups.len())?;
    for k in 0..sheet.groups.len() {
        let class = DefaultClass::of_step(sheet.groups.at(k).step);
        entries.enter(Some(class.first_step() as usize), k)?;
    }
    let lists = entries.lists(alloc)?;
    Ok(lists)
}
