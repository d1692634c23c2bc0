//! Which funds hold which, with a rank for each fund, so that the rank of every component is lower.
ghost use Rattle.std.specs.Prelude.{◌≡◌, ℕ, ◌≤◌, ◌<◌, [], All, Contains, IfOk, OnOk, OnErr};
ghost use Rattle.std.specs.Prelude.{MatchOption, false, length};
ghost use Rattle.scr_funds.specs.Answers.{Answers};
ghost use Rattle.scr_funds.specs.Chains.{IsAcyclic, IsFirstShortest, LeadsTo};
ghost use Rattle.scr_funds.specs.Components.{AreBelow, IsOrder, components_of, components_with};
ghost use Rattle.scr_funds.specs.Components.{grown, size_of, with_components, with_edges};
ghost use Rattle.scr_funds.specs.Marks.{KeepsMarks, with_marks};
ghost use Rattle.scr_funds.specs.Search.{rows_of};

use crate::edges::{Edges, row_of};
use crate::lowering::new_ranks;
use crate::ranks::{grow_ranks, is_above, keep_or_settle, renew};
use crate::search::{first_chain, number_above};
use crate::{Kept, OrderFault, Places};
use std::alloc::{AllocError as NoMemory, Global};
use std::marker::Model;
use std::mem;

/// Which funds hold which, by numbers, in an order in which nothing holds itself. Contracts see for
/// each fund the list of its components in the order of its record; their number is the size.
#[derive(Drop)]
pub struct FundOrder {
    rows: Vec<Vec<u32>>,
    /// By number, what was ever a component. Marks are not taken off, so that taking edges off
    /// costs no search.
    marks: Vec<bool>,
    /// By number, the rank of each fund.
    ranks: Vec<u64>,
    /// A rank falls along each edge. Where it does not, chains are searched without ranks.
    are_ranked: bool,
}

impl Model for FundOrder {
    ghost use Rattle.scr_funds.specs.Components.{Components};

    ghost Value = { Components };

    ghost use Rattle.scr_funds.specs.Inside.{components_in, IsInOrder};

    ghost view = { components_in };

    ghost invariant = { IsInOrder };
}

impl FundOrder {
    /// No fund has a component.
    pub fn new(alloc: Global) -> Result<FundOrder, NoMemory>
        ensures { IfOk result (λ order. order ≡ []) }
    {
        Ok(FundOrder {
            rows: Vec::new(alloc),
            marks: Vec::new(alloc),
            ranks: Vec::new(alloc),
            are_ranked: true,
        })
    }

    /// Makes `to` the components of a fund that has none. `Cycle` comes exactly where one of them
    /// is the fund itself or leads back to it, and tells the first shortest chain by which the fund
    /// would hold itself. After a refusal all is as before.
    pub fn add_edges(&mut self, alloc: Global, from: u32, to: &[u32]) -> Result<(), OrderFault>
        requires { components_of self.old from ≡ [] }
        ensures answer { Answers (components_of (with_edges from to.now self.old)) from result }
        ensures ok { OnOk result (self.new ≡ with_edges from to.now self.old) }
        ensures err { OnErr result (self.new ≡ self.old) }
        ensures order { IsOrder self.new }
    {
        self.check_edges(alloc, from, to)?;
        let components = Vec::from_slice(alloc, to)?;
        self.replace(alloc, from, components)?;
        Ok(())
    }

    /// Makes `to` the components of a fund in the place of its own, by which it must not come to
    /// lead to itself: nothing is searched. Where memory is refused, all is as before.
    pub fn replace(&mut self, alloc: Global, from: u32, to: Vec<u32>) -> Result<(), NoMemory>
        requires apart { ¬ LeadsTo (components_with from to.items self.old) from from }
        ensures ok { OnOk result (self.new ≡ with_edges from to.items self.old) }
        ensures err { OnErr result (self.new ≡ self.old) }
        ensures order { IsOrder self.new }
    {
        let was_component = self.was_component(from);
        let size = number_above(from, &to);
        grow_marks(&mut self.marks, size)?;
        grow_ranks(&mut self.ranks, size)?;
        let edges = Edges {
            rows: &self.rows,
            ranks: &self.ranks,
            are_ranked: self.are_ranked,
            from,
            members: &to,
        };
        let fresh = new_ranks(alloc, &edges, was_component)?;
        grow(&mut self.rows, alloc, size)?;
        mark(&mut self.marks, &to);
        self.rows[from as usize] = to;
        self.are_ranked = renew(&mut self.ranks, &self.rows, fresh);
        Ok(())
    }

    /// Whether a fund could have the components `to` in the place of its own; nothing changes.
    /// `Cycle` comes exactly where it would then hold itself, and tells the first shortest chain by
    /// which it would.
    pub fn check_edges(&self, alloc: Global, from: u32, to: &[u32]) -> Result<(), OrderFault>
        ensures answer { Answers (components_with from to.now self.now) from result }
        ensures order { IsOrder self.now }
    {
        if !self.was_component(from) && !to.contains(&from) {
            return Ok(());
        }
        let edges = Edges {
            rows: &self.rows,
            ranks: &self.ranks,
            are_ranked: self.are_ranked,
            from,
            members: to,
        };
        match first_chain(alloc, &edges, from)? {
            Some(path) => Err(OrderFault::Cycle(Places::new(path))),
            None => Ok(()),
        }
    }

    /// Takes off all edges from a fund and hands them out, without memory.
    pub fn remove(&mut self, from: u32) -> Kept
        ensures kept { result ≡ record { from = from; edges = components_of self.old from } }
        ensures after { self.new ≡ with_components from [] self.old }
        ensures none { components_of self.new from ≡ [] }
        ensures back { with_components result.from result.edges self.new ≡ self.old }
        ensures order { IsOrder self.old }
    {
        let none = Vec::new(*self.rows.allocator());
        let edges = exchange(&mut self.rows, from, none);
        Kept { from, edges }
    }

    /// Makes the components of a fund that has none those that were kept, without memory. They
    /// would close no cycle, and their ends are below the size: right after `remove` they always
    /// may be put back.
    pub fn put_back(&mut self, kept: Kept)
        requires none { components_of self.old kept.from ≡ [] }
        requires below { AreBelow (size_of self.old) kept.from kept.edges }
        requires acyclic { IsAcyclic
            (components_of (with_components kept.from kept.edges self.old)) }
        ensures edges { components_of self.new kept.from ≡ kept.edges }
        ensures after { self.new ≡ with_components kept.from kept.edges self.old }
        ensures order { IsOrder self.new }
    {
        let Kept { from, edges } = kept;
        mark(&mut self.marks, &edges);
        let is_kept = self.are_ranked && is_above(&self.ranks, from as usize, &edges);
        let _ = exchange(&mut self.rows, from, edges);
        self.are_ranked = keep_or_settle(&mut self.ranks, &self.rows, is_kept);
    }

    /// The first shortest chain from a fund to what `to` names, with both its ends: no chain is
    /// shorter, and of those that are as short it is the first, comparing step by step the place of
    /// each component in its fund's record. None exactly where there is no chain.
    pub fn path(&self, alloc: Global, from: u32, to: u32) -> Result<Option<Vec<u32>>, NoMemory>
        ensures { IfOk result (λ found. MatchOption found
            (¬ LeadsTo (components_of self.now) from to)
            (λ path. IsFirstShortest (components_of self.now) from to path.items)) }
    {
        let edges = Edges {
            rows: &self.rows,
            ranks: &self.ranks,
            are_ranked: self.are_ranked,
            from,
            members: row_of(&self.rows, from),
        };
        first_chain(alloc, &edges, to)
    }

    /// The components of a fund, in the order of its record.
    pub fn components(&self, fund: u32) -> &[u32]
        ensures { result.now ≡ components_of self.now fund }
    {
        row_of(&self.rows, fund)
    }

    /// The number above all funds and components that were ever named.
    pub fn size(&self) -> usize
        ensures { result ≡ size_of self.now }
    {
        self.rows.len()
    }

    /// Whether a fund was ever a component: what never was is none now.
    fn was_component(&self, fund: u32) -> bool
        ensures order { IsOrder self.now }
        ensures none { result ≡ false → (holder : ℕ)
            → ¬ Contains (components_of self.now holder) fund }
    {
        match self.marks.get(fund as usize) {
            Some(mark) => *mark,
            None => false,
        }
    }
}

/// Puts a row in the place of that of a fund, which it gives back. A fund past the end has no row,
/// and the new one comes back.
fn exchange(rows: &mut Vec<Vec<u32>>, from: u32, row: Vec<u32>) -> Vec<u32>
    ensures old { from < size_of (rows_of rows.old.items)
        → result.items ≡ components_of (rows_of rows.old.items) from }
    ensures past { size_of (rows_of rows.old.items) ≤ from → result.items ≡ row.items }
    ensures after { rows_of rows.new.items
        ≡ with_components from row.items (rows_of rows.old.items) }
{
    let place = from as usize;
    if place >= rows.len() {
        return row;
    }
    mem::replace(&mut rows[place], row)
}

/// Rows without components, up to that many in all.
fn grow(rows: &mut Vec<Vec<u32>>, alloc: Global, size: usize) -> Result<(), NoMemory>
    ensures ok { OnOk result (rows_of rows.new.items ≡ grown size (rows_of rows.old.items)) }
    ensures err { OnErr result (rows.new.items ≡ rows.old.items) }
{
    let missing = size.saturating_sub(rows.len());
    rows.reserve(missing)?;
    for _ in 0..missing {
        rows.push(Vec::new(alloc)).unwrap();
    }
    Ok(())
}

/// Marks that are not set, up to that many in all.
fn grow_marks(marks: &mut Vec<bool>, size: usize) -> Result<(), NoMemory>
    ensures long { OnOk result (size ≤ length marks.new.items) }
    ensures longer { length marks.old.items ≤ length marks.new.items }
    ensures keeps { KeepsMarks marks.old.items marks.new.items }
{
    if marks.len() < size {
        marks.resize(size, false)?;
    }
    Ok(())
}

/// Marks these numbers.
fn mark(marks: &mut Vec<bool>, numbers: &[u32])
    requires { All (λ number. number < length marks.old.items) numbers.now }
    ensures { marks.new.items ≡ with_marks numbers.now marks.old.items }
{
    for number in numbers {
        marks[*number as usize] = true;
    }
}
