//! The totals of all funds and securities, found at once.
ghost use Rattle.std.specs.Prelude.{◌≡◌, ◌<◌, ℕ, pos, map, Some, length, slice_get};
ghost use Rattle.std.specs.Option.{option_map};
ghost use Rattle.scr_num.specs.Rounding.{ends, exact_ends};
ghost use Rattle.scr_sheet.specs.BalanceSheet.{position_name, stake_name};
ghost use Rattle.scr_sheet.specs.Totals.{total_of};
ghost use Rattle.scr_tree.specs.Figures.{total_worth, worth_of};
ghost use Rattle.scr_tree.specs.First.{AreReckonedTo, IsGround, totals_of};
ghost use Rattle.scr_tree.specs.Turns.{turn};

use crate::figures::{Figure, Figures};
use crate::making::Ground;
use crate::row_spans::stands_alone;
use scr_ids::Table;
use scr_io::Gate;
use scr_num::{Span, exact};

/// The totals. The gate is passed before each but those of securities that have other figures: these pass it in their rows.
pub(crate) fn enter_totals<G: Gate>(
    ground: Ground<'_>,
    totals: &[u64],
    figures: &mut Figures,
    gate: &G,
)
    requires ground { IsGround ground }
    requires totals { totals.now ≡ totals_of ground.inputs.book.now.sheet }
    requires nothing { AreReckonedTo ground figures.old (turn 0 0 0) }
    ensures { AreReckonedTo ground.entry figures.new (turn 2 0 0) }
{
    let funds = ground.inputs.book.sheet().funds.len();
    put_funds(ground, figures, &totals[..funds], gate);
    put_securities(ground, figures, &totals[funds..], gate);
}

fn put_funds<G: Gate>(ground: Ground<'_>, figures: &mut Figures, totals: &[u64], gate: &G)
    requires ground { IsGround ground }
    requires totals { totals.now ≡ map (λ s. total_of ground.inputs.book.now.sheet (stake_name s)) ground.inputs.book.now.sheet.funds }
    requires nothing { AreReckonedTo ground figures.old (turn 0 0 0) }
    ensures { AreReckonedTo ground.entry figures.new (turn 1 0 0) }
{
    for k in 0..ground.inputs.book.sheet().funds.len() {
        let number = ground.places.first(Table::Fund, k);
        gate.pass(number);
        write_total(figures, number, totals[k]);
    }
}

/// Puts those of the securities, where those of the funds are there.
fn put_securities<G: Gate>(ground: Ground<'_>, figures: &mut Figures, totals: &[u64], gate: &G)
    requires ground { IsGround ground }
    requires totals { totals.now
        ≡ map (λ p. total_of ground.inputs.book.now.sheet (position_name p)) ground.inputs.book.now.sheet.securities }
    requires funds { AreReckonedTo ground figures.old (turn 1 0 0) }
    ensures { AreReckonedTo ground.entry figures.new (turn 2 0 0) }
{
    for k in 0..ground.inputs.book.sheet().securities.len() {
        let number = ground.places.first(Table::Security, k);
        pass_alone(ground, k, number, gate);
        write_total(figures, number, totals[k]);
    }
}

/// Passes the gate for all totals but those of securities that have other figures.
pub(crate) fn pass_totals<G: Gate>(ground: Ground<'_>, gate: &G)
    requires { IsGround ground }
{
    let sheet = ground.inputs.book.sheet();
    for k in 0..sheet.funds.len() {
        gate.pass(ground.places.first(Table::Fund, k));
    }
    for k in 0..sheet.securities.len() {
        pass_alone(ground, k, ground.places.first(Table::Security, k), gate);
    }
}

/// Passes the gate before the total of a security that has no other figure. All others pass in their rows.
fn pass_alone<G: Gate>(ground: Ground<'_>, k: usize, number: u32, gate: &G)
    requires { k < length ground.inputs.book.now.sheet.securities }
{
    if stands_alone(ground.inputs.book.sheet().securities.at(k)) {
        gate.pass(number);
    }
}

/// Writes a total of so many cents, which rests on no choice.
fn write_total(figures: &mut Figures, number: u32, cents: u64)
    requires { number < length figures.old }
    ensures count { length figures.new ≡ length figures.old }
    ensures there { option_map worth_of (slice_get figures.new number) ≡ Some (total_worth cents) }
    ensures others { (other : ℕ) → (other ≡ number → ⊥)
        → slice_get figures.new other ≡ slice_get figures.old other }
{
    figures.set(
        number as usize,
        Figure {
            span: amount(cents),
            close: false,
        },
    );
}

fn amount(cents: u64) -> Span
    ensures { ends result ≡ exact_ends (pos cents) }
{
    exact(i128::from(cents))
}
