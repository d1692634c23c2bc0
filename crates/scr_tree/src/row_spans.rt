//! The figures of rows, each row by itself: of a security, a liability or a group of counterparties.
ghost use Rattle.std.specs.Prelude.{◌≡◌, ◌||◌, ◌+◌, ◌<◌, ◌^◌, not, ℕ, List, true, Some, pos, length, slice_get, slice_index_or, sum_by, OnOk};
ghost use Rattle.std.specs.List.{AllByRecursion};
ghost use Rattle.scr_num.specs.Rounding.{ends, exact_ends};
ghost use Rattle.scr_sheet.specs.BalanceSheet.{position_of};
ghost use Rattle.scr_sheet.specs.declared.{rows.Group.Group, rows.Liability.Liability};
ghost use Rattle.scr_sheet.specs.declared.rows.Class.TheVariants as classes;
ghost use Rattle.scr_nodes.specs.Rows.{has_class, has_flows, is_paying, is_stress};
ghost use Rattle.scr_nodes.specs.Sources.{concentration_square, group_total, liability_loss, security_spread, security_total};
ghost use Rattle.scr_parallel.specs.Rows.{IsPushed};
ghost use Rattle.scr_parallel.specs.declared.rows.Sort.TheVariants as sorts;
ghost use Rattle.scr_rules.specs.Worked.{worked};
ghost use Rattle.scr_tree.specs.First.{IsEstimated, IsGround};
ghost use Rattle.scr_tree.specs.RowSpans.{AreLosses, BeginAt, BeginsAt, IsEstimateAt, IsRowGround, IsRowOf};

use crate::making::{Ground, number_at};
use scr_ids::{Places, Table};
use scr_io::{Gate, Steps};
use scr_nodes::rows::{has_class, has_flows, is_paying};
use scr_nodes::{Node, OfGroup, OfLiability};
use scr_num::{Span, exact};
use scr_parallel::{RowPlan, Sort};
use scr_rules::{
    Estimate, SecurityLosses, bond_spread, evaluate_by, group_loss, liability_estimate,
    liability_loss, security_losses,
};
use scr_sheet::{Class, Position, Projection, Roll};
use std::alloc::AllocError as NoMemory;
use std::marker::Brand;
use std::sync::ledger::{Blank, Ledger};

/// What stands at the place of a figure that the balance sheet does not have.
const NOTHING: Span = Span { low: 0, high: 0 };

/// The same of the losses of a security.
const NO_LOSSES: SecurityLosses = SecurityLosses {
    unit_up: NOTHING,
    unit_down: NOTHING,
    rate_up: NOTHING,
    rate_down: NOTHING,
};

/// What the figures of rows are reckoned from where the totals of all securities, in cents, and the assets of which concentrations
/// are measured are known.
#[derive(Clone, Copy)]
pub(crate) struct RowGround<'a> {
    pub(crate) ground: Ground<'a>,
    pub(crate) totals: &'a [u64],
    pub(crate) assets: Span,
}

impl<'a> RowPlan for RowGround<'a> {
    ghost use Rattle.scr_tree.specs.RowSpans.{IsRowGround, IsRowOf, row_count};

    ghost count = { λ b sort. row_count b.ground.inputs.book.now.sheet sort };

    ghost is_row = { λ b sort place row. IsRowOf b.ground.inputs.factors.now b.ground.inputs.book.now.sheet sort place row };

    ghost is_plan = { λ b. IsRowGround b };

    fn rows(&self, sort: Sort) -> usize {
        let sheet = self.ground.inputs.book.sheet();
        match sort {
            Sort::Liability => sheet.liabilities.len(),
            Sort::Security => sheet.securities.len(),
            Sort::Group => sheet.groups.len(),
        }
    }

    fn reckon<G: Gate>(
        &self,
        sort: Sort,
        place: usize,
        spans: &mut Vec<Span>,
        gate: &G,
    ) -> Result<(), NoMemory> {
        match sort {
            Sort::Liability => push_liability(self.ground, place, spans, gate),
            Sort::Security => self.push_security(place, spans, gate),
            Sort::Group => self.push_group(place, spans, gate),
        }
    }
}

impl<'a> RowGround<'a> {
    /// The figures of a security.
    fn push_security<G: Gate>(
        &self,
        k: usize,
        spans: &mut Vec<Span>,
        gate: &G,
    ) -> Result<(), NoMemory>
        requires ground { IsRowGround self.now }
        requires row { k < length self.now.ground.inputs.book.now.sheet.securities }
        ensures { OnOk result (IsPushed
            (IsRowOf self.now.ground.inputs.factors.now self.now.ground.inputs.book.now.sheet sorts.Security k)
            spans.old.items spans.new.items) }
    {
        let ground = self.ground;
        let position = ground.inputs.book.sheet().securities.at(k);
        let first = ground.places.first(Table::Security, k);
        let total = amount(self.totals[k]);
        pass_total(position, first, gate);
        let losses = losses_of(ground, position, first, total, gate);
        let spread = spread_of(ground, position, first, total, gate);
        spans.push(total)?;
        spans.push(losses.unit_up)?;
        spans.push(losses.unit_down)?;
        spans.push(losses.rate_up)?;
        spans.push(losses.rate_down)?;
        spans.push(spread)?;
        Ok(())
    }

    /// The figures of a group of counterparties.
    fn push_group<G: Gate>(&self, k: usize, spans: &mut Vec<Span>, gate: &G) -> Result<(), NoMemory>
        requires ground { IsRowGround self.now }
        requires row { k < length self.now.ground.inputs.book.now.sheet.groups }
        ensures { OnOk result (IsPushed
            (IsRowOf self.now.ground.inputs.factors.now self.now.ground.inputs.book.now.sheet sorts.Group k)
            spans.old.items spans.new.items) }
    {
        let ground = self.ground;
        let first = ground.places.first(Table::Group, k);
        pass_each(gate, first, first + 3);
        let total = self.group_total(k);
        let square = self.square::<Brand>(k, total, Blank::new(1));
        let loss = group_loss(ground.inputs.book, ground.losses, k);
        spans.push(total)?;
        spans.push(square)?;
        spans.push(loss)?;
        Ok(())
    }

    /// What is held of the securities of a group.
    fn group_total(&self, k: usize) -> Span
        requires ground { IsRowGround self.now }
        requires row { k < length self.now.ground.inputs.book.now.sheet.groups }
        ensures { (group : Group) → slice_get self.now.ground.inputs.book.now.sheet.groups k ≡ Some group
            → ends result ≡ worked self.now.ground.inputs.factors.now self.now.ground.inputs.book.now.sheet (group_total group) }
    {
        let ground = self.ground;
        let group = ground.inputs.book.sheet().groups.at(k).name;
        let firsts = ground.lists.members(ground.inputs.book, Roll::Group(group));
        exact(sum_of(ground.places, self.totals, firsts))
    }

    /// The square of the concentration of a group that has this total.
    fn square<L: Ledger>(&self, k: usize, total: Span, blank: Blank) -> Span
        requires name { blank.name ≡ L.name }
        requires parts { blank.parts ≡ L.parts }
        requires some { 0 < blank.parts }
        requires ground { IsRowGround self.now }
        requires row { k < length self.now.ground.inputs.book.now.sheet.groups }
        requires total { (group : Group) → slice_get self.now.ground.inputs.book.now.sheet.groups k ≡ Some group
            → ends total ≡ worked self.now.ground.inputs.factors.now self.now.ground.inputs.book.now.sheet (group_total group) }
        ensures { (group : Group) → slice_get self.now.ground.inputs.book.now.sheet.groups k ≡ Some group
            → ends result ≡ worked self.now.ground.inputs.factors.now self.now.ground.inputs.book.now.sheet (concentration_square group) }
    {
        let mut steps = Steps::<L>::new(blank);
        let inputs = self.ground.inputs;
        let name = inputs.book.sheet().groups.at(k).name;
        evaluate_by(
            inputs.factors,
            inputs.book,
            inputs.rates,
            Node::Group(name, OfGroup::ConcentrationSquare),
            &[self.assets, total],
            &mut steps,
        )
    }
}

/// A security has no figure but its total.
pub(crate) fn stands_alone(position: &Position) -> bool
    ensures { result ≡ not (is_paying position.now || has_class classes.Bond position.now) }
{
    !(is_paying(position) || has_class(Class::Bond, position))
}

/// Passes the gate before the total of a security that has other figures. All other totals pass by themselves.
fn pass_total<G: Gate>(position: &Position, number: u32, gate: &G) {
    if !stands_alone(position) {
        gate.pass(number);
    }
}

/// What a security that has payments loses where rates rise and where they fall. The row is that of its name, and its numbers are
/// those from the first on.
fn losses_of<G: Gate>(
    ground: Ground<'_>,
    position: &Position,
    first: u32,
    total: Span,
    gate: &G,
) -> SecurityLosses
    requires ground { IsGround ground }
    requires row { position_of position.now.security.name ground.inputs.book.now.sheet.securities ≡ Some position.now }
    requires numbers { first + 6 < 2 ^ 32 }
    requires total { ends total ≡ worked ground.inputs.factors.now ground.inputs.book.now.sheet (security_total position.now) }
    ensures { is_paying position.now ≡ true
        → AreLosses ground.entry.inputs.factors.now ground.entry.inputs.book.now.sheet position.now result }
{
    if !is_paying(position) {
        return NO_LOSSES;
    }
    pass_each(gate, first + 1, first + 5);
    security_losses(ground.inputs.book, ground.inputs.rates, position, total)
}

/// What a bond loses where spreads widen. The row is that of its name, and its numbers are those from the first on.
fn spread_of<G: Gate>(
    ground: Ground<'_>,
    position: &Position,
    first: u32,
    total: Span,
    gate: &G,
) -> Span
    requires ground { IsGround ground }
    requires row { position_of position.now.security.name ground.inputs.book.now.sheet.securities ≡ Some position.now }
    requires numbers { first + 6 < 2 ^ 32 }
    requires total { ends total ≡ worked ground.inputs.factors.now ground.inputs.book.now.sheet (security_total position.now) }
    ensures { has_class classes.Bond position.now ≡ true
        → ends result ≡ worked ground.entry.inputs.factors.now ground.entry.inputs.book.now.sheet (security_spread position.now) }
{
    if !has_class(Class::Bond, position) {
        return NOTHING;
    }
    gate.pass(first + 5);
    bond_spread(ground.inputs.factors, ground.inputs.book, position, total)
}

/// The figures of a liability.
fn push_liability<G: Gate>(
    ground: Ground<'_>,
    k: usize,
    spans: &mut Vec<Span>,
    gate: &G,
) -> Result<(), NoMemory>
    requires ground { IsGround ground }
    requires row { k < length ground.inputs.book.now.sheet.liabilities }
    ensures { OnOk result (IsPushed
        (IsRowOf ground.entry.inputs.factors.now ground.entry.inputs.book.now.sheet sorts.Liability k)
        spans.old.items spans.new.items) }
{
    let estimate = estimate_of(ground, k, gate);
    spans.push(estimate.rate_up)?;
    spans.push(estimate.rate_down)?;
    spans.push(estimate.present)?;
    spans.push(stress_of(ground, k, &estimate, Projection::Mortality, gate))?;
    spans.push(stress_of(ground, k, &estimate, Projection::Longevity, gate))?;
    spans.push(stress_of(ground, k, &estimate, Projection::Disability, gate))?;
    spans.push(stress_of(ground, k, &estimate, Projection::Expense, gate))?;
    spans.push(stress_of(ground, k, &estimate, Projection::Revision, gate))?;
    spans.push(stress_of(ground, k, &estimate, Projection::LapseUp, gate))?;
    spans.push(stress_of(ground, k, &estimate, Projection::LapseDown, gate))?;
    spans.push(stress_of(ground, k, &estimate, Projection::LapseMass, gate))?;
    spans.push(stress_of(ground, k, &estimate, Projection::Catastrophe, gate))?;
    Ok(())
}

/// What a liability costs more where rates rise and where they fall, and what it is worth.
fn estimate_of<G: Gate>(ground: Ground<'_>, k: usize, gate: &G) -> Estimate
    requires ground { IsGround ground }
    requires row { k < length ground.inputs.book.now.sheet.liabilities }
    ensures figures { IsEstimateAt ground.entry k result }
    ensures kept { IsEstimated ground.entry.inputs.book.now.sheet k result }
{
    let liability = ground.inputs.book.sheet().liabilities.at(k);
    let first = ground.places.first(Table::Liability, k);
    pass_each(gate, first, first + 3);
    liability_estimate(ground.inputs.book, ground.inputs.rates, liability)
}

/// What a liability with payments under a stress loses by it.
fn stress_of<G: Gate>(
    ground: Ground<'_>,
    k: usize,
    estimate: &Estimate,
    projection: Projection,
    gate: &G,
) -> Span
    requires ground { IsGround ground }
    requires row { k < length ground.inputs.book.now.sheet.liabilities }
    requires estimate { IsEstimated ground.inputs.book.now.sheet k estimate.now }
    requires stress { is_stress projection ≡ true }
    ensures { (l : Liability) → slice_get ground.entry.inputs.book.now.sheet.liabilities k ≡ Some l → has_flows projection l ≡ true
        → ends result ≡ worked ground.entry.inputs.factors.now ground.entry.inputs.book.now.sheet (liability_loss projection l) }
{
    let liability = ground.inputs.book.sheet().liabilities.at(k);
    if !has_flows(projection, liability) {
        return NOTHING;
    }
    let node = Node::Liability(liability.name, OfLiability::Loss(projection));
    gate.pass(number_at(ground.places, &node, k));
    liability_loss(
        ground.inputs.book,
        ground.inputs.rates,
        liability,
        estimate,
        projection,
    )
}

/// So many cents, known exactly.
fn amount(cents: u64) -> Span
    ensures { ends result ≡ exact_ends (pos cents) }
{
    exact(i128::from(cents))
}

/// What is held of the securities whose numbers begin with these, in all.
fn sum_of(places: &Places, cents: &[u64], firsts: &[u32]) -> i128
    requires { (rows : List ℕ) × BeginAt places.now firsts.now rows × AllByRecursion (λ row. row < length cents.now) rows }
    ensures { (rows : List ℕ) → BeginAt places.now firsts.now rows → result ≡ pos (sum_by (λ row. slice_index_or cents.now row 0) rows) }
{
    let mut sum: i128 = 0;
    for first in firsts {
        sum += i128::from(cents_of(places, cents, *first));
    }
    sum
}

/// What is held of the security whose numbers begin with this one.
fn cents_of(places: &Places, cents: &[u64], first: u32) -> u64
    requires { (row : ℕ) × BeginsAt places.now first row × (row < length cents.now) }
    ensures { (row : ℕ) → BeginsAt places.now first row → result ≡ slice_index_or cents.now row 0 }
{
    // No number is of two rows.
    let _numbers = places.len();
    match places.at(first) {
        Some(place) => cents[place.row],
        None => unreachable!(),
    }
}

/// Passes the gate before the figures with these numbers are evaluated.
fn pass_each<G: Gate>(gate: &G, first: u32, end: u32) {
    for number in first..end {
        gate.pass(number);
    }
}
