//! The graph of the funds: made anew from the rows, and moved back.
ghost use Rattle.std.specs.Prelude.{◌≡◌, ◌||◌, ℕ, [], List, map, true, false, not, IfOk, OnOk, OnErr};
ghost use Rattle.std.specs.List.{IsDistinct};
ghost use Rattle.scr_funds.specs.Chains.{IsAcyclic, LeadsTo};
ghost use Rattle.scr_tables.specs.Names.{same_name};
ghost use Rattle.scr_fund_graph.specs.Graph.{components_under, components_after};
ghost use Rattle.scr_fund_graph.specs.KeptNumbers.{stands_for};
ghost use Rattle.scr_sheet.specs.BalanceSheet.{stake_name, components_of};
ghost use Rattle.scr_sheet.specs.Earlier.{with_earlier, FitsIn};
ghost use Rattle.scr_sheet.specs.Validity.{Valid};
ghost use Rattle.scr_book.specs.Holders.{IsGraphOf};
ghost use Rattle.scr_book.specs.HoldersBack.{IsKeptOf, moves_back};
ghost use Rattle.scr_book.specs.Pasts.{name_in, components_in};

use crate::pasts::{name_in, row_in};
use crate::{BalanceSheet, Stake};
use scr_fund_graph::{FundGraph, KeptComponents};
use scr_sheet::{Earlier, Past, Rows};
use std::alloc::{AllocError as NoMemory, Global};

/// The graph of the funds of a sheet.
pub(crate) fn graph_of(alloc: Global, sheet: &BalanceSheet) -> Result<FundGraph, NoMemory>
    requires { Valid sheet.now }
    ensures { IfOk result (IsGraphOf sheet.now) }
{
    let mut graph = FundGraph::new(alloc)?;
    put(&mut graph, alloc, &sheet.funds)?;
    Ok(graph)
}

/// Makes the graph anew where it is due.
pub(crate) fn refresh(
    graph: &mut FundGraph,
    is_due: bool,
    alloc: Global,
    sheet: &BalanceSheet,
) -> Result<(), NoMemory>
    requires valid { Valid sheet.now }
    requires kept { is_due ≡ false → IsGraphOf sheet.now graph.old }
    ensures ok { OnOk result (IsGraphOf sheet.now graph.new) }
    ensures err { OnErr result (graph.new ≡ graph.old) }
{
    if is_due {
        *graph = graph_of(alloc, sheet)?;
    }
    Ok(())
}

/// What the graph has of a fund whose row is kept, so that it can be put back without memory.
pub(crate) fn keep(
    graph: &FundGraph,
    alloc: Global,
    earlier: &Earlier,
) -> Result<Option<KeptComponents>, NoMemory>
    ensures { IfOk result (λ kept. IsKeptOf earlier.now kept graph.now) }
{
    match earlier {
        Earlier::Funds(past) => Ok(Some(graph.keep(alloc, &name_in(past))?)),
        _ => Ok(None),
    }
}

/// Moves the graph back, without memory, where what stood before is put back into the sheet, and answers whether it is due then.
/// It is where it was before, or cannot be moved back.
pub(crate) fn put_back(
    graph: &mut FundGraph,
    is_due: bool,
    sheet: &BalanceSheet,
    earlier: &Earlier,
    kept: Option<KeptComponents>,
) -> bool
    requires valid { Valid sheet.now }
    requires back { Valid (with_earlier earlier.now sheet.now) }
    requires place { FitsIn earlier.now sheet.now }
    requires graph { is_due ≡ false → IsGraphOf sheet.now graph.old }
    ensures told { result ≡ (is_due || not (moves_back earlier.now kept graph.old)) }
    ensures back { result ≡ false → IsGraphOf (with_earlier earlier.now sheet.now) graph.new }
{
    if is_due {
        return true;
    }
    !move_back(graph, sheet, earlier, kept)
}

// Moves the graph back and answers whether it is that of the sheet then. It is, unless what was kept of a fund are not the
// numbers of its components any more.
fn move_back(
    graph: &mut FundGraph,
    sheet: &BalanceSheet,
    earlier: &Earlier,
    kept: Option<KeptComponents>,
) -> bool
    requires valid { Valid sheet.now }
    requires back { Valid (with_earlier earlier.now sheet.now) }
    requires place { FitsIn earlier.now sheet.now }
    requires graph { IsGraphOf sheet.now graph.old }
    ensures told { result ≡ moves_back earlier.now kept graph.old }
    ensures back { result ≡ true → IsGraphOf (with_earlier earlier.now sheet.now) graph.new }
{
    match earlier {
        Earlier::Funds(past) => match kept {
            Some(kept) => put_fund_back(graph, past, kept),
            None => false,
        },
        _ => true,
    }
}

// The components of the fund that comes back, none where there was no fund.
fn put_fund_back(graph: &mut FundGraph, past: &Past<Stake>, kept: KeptComponents) -> bool
    requires apart { let name = name_in stake_name past.now in
        ¬ LeadsTo (components_after name (components_in past.now) graph.old) name name }
    ensures told { result ≡ stands_for kept (name_in stake_name past.now) (components_in past.now) graph.old }
    ensures back { result ≡ true → components_under graph.new
        ≡ components_after (name_in stake_name past.now) (components_in past.now) graph.old }
{
    let components = match row_in(past) {
        Some(stake) => stake.fund.components.as_slice(),
        None => &[],
    };
    graph.put_back(&name_in(past), components, kept)
}

// Gives each fund its components.
fn put(graph: &mut FundGraph, alloc: Global, funds: &Rows<Stake>) -> Result<(), NoMemory>
    requires none { (x : List ℕ) → components_under graph.old x ≡ [] }
    requires acyclic { IsAcyclic (components_of funds.now) }
    requires apart { IsDistinct same_name (map stake_name funds.now) }
    ensures { OnOk result (components_under graph.new ≡ components_of funds.now) }
{
    for stake in funds.iter() {
        graph.put(
            alloc,
            &stake.fund.name,
            stake.fund.components.as_slice(),
            &[],
        )?;
    }
    Ok(())
}
