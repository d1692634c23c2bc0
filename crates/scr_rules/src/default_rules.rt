//! The rules of counterparty default risk.
ghost use Rattle.std.specs.Prelude.{◌≡◌, ◌*◌, ◌^◌, ◌<◌, ◌≤◌, pos, filter, map};
ghost use Rattle.scr_num.specs.Amounts.{IsAmount};
ghost use Rattle.scr_num.specs.Rounding.{ends, exact_ends};
ghost use Rattle.scr_default.specs.DefaultEnds.{type2_ends, default_ends};
ghost use Rattle.scr_default.specs.declared.TheConstants.{MAX_LOSS};
ghost use Rattle.scr_sheet.specs.Validity.{Valid};
ghost use Rattle.scr_nodes.specs.OwnOf.{reinsured};
ghost use Rattle.scr_nodes.specs.Rows.{is_bank_of, is_reinsurer_of};
ghost use Rattle.scr_rules.specs.DefaultGrains.{total_where, bank_grains, reinsurer_grains, overdue_cents, other_due_cents};
ghost use Rattle.scr_rules.specs.DefaultFits.{FitsLosses, FitsSquares, FitsVariance, FitsBand, FitsDue};
ghost use Rattle.scr_rules.specs.DefaultRules.{losses_grains, squares_total, variance_from, loss_total, bands_from, banded_from};
ghost use Rattle.scr_rules.specs.Figures.{figure_at, amount_of};
ghost use Rattle.scr_rules.specs.RootFits.{FitsRoot};

use crate::spans::at;
use scr_book::{BalanceSheet, Name};
use scr_default::{lgd_bank, lgd_rein, type1, type2};
use scr_num::{Span, exact};

/// What is lost where a group defaults, in grains (Delegated Regulation (EU) 2015/35, Article 192).
pub(crate) fn losses(sheet: &BalanceSheet, name: &Name) -> Span
    requires valid { Valid sheet.now }
    requires fits { FitsLosses (map (λ b. b.cents) (filter (is_bank_of name.now) sheet.now.banks))
        (map reinsured (filter (is_reinsurer_of name.now) sheet.now.reinsurers)) }
    ensures { ends result ≡ exact_ends (pos (losses_grains
        (map (λ b. b.cents) (filter (is_bank_of name.now) sheet.now.banks))
        (map reinsured (filter (is_reinsurer_of name.now) sheet.now.reinsurers)))) }
{
    grains(group_losses(sheet, name))
}

/// A loss in grains, known exactly.
pub(crate) fn grains(loss: u64) -> Span
    ensures { ends result ≡ exact_ends (pos loss) }
{
    exact(i128::from(loss))
}

fn group_losses(sheet: &BalanceSheet, name: &Name) -> u64
    requires valid { Valid sheet.now }
    requires fits { FitsLosses (map (λ b. b.cents) (filter (is_bank_of name.now) sheet.now.banks))
        (map reinsured (filter (is_reinsurer_of name.now) sheet.now.reinsurers)) }
    ensures value { result ≡ losses_grains
        (map (λ b. b.cents) (filter (is_bank_of name.now) sheet.now.banks))
        (map reinsured (filter (is_reinsurer_of name.now) sheet.now.reinsurers)) }
{
    bank_losses(sheet, name) + reinsurer_losses(sheet, name)
}

/// By all banks of the group.
fn bank_losses(sheet: &BalanceSheet, name: &Name) -> u64
    requires valid { Valid sheet.now }
    requires small { total_where (is_bank_of name.now) bank_grains sheet.now.banks ≤ MAX_LOSS }
    ensures value { result ≡ total_where (is_bank_of name.now) bank_grains sheet.now.banks }
{
    let mut sum = 0;
    for k in 0..sheet.banks.len() {
        let bank = sheet.banks.at(k);
        if *name == bank.group {
            sum += lgd_bank(bank.cents);
        }
    }
    sum
}

/// By all reinsurers of the group.
fn reinsurer_losses(sheet: &BalanceSheet, name: &Name) -> u64
    requires valid { Valid sheet.now }
    requires small { total_where (is_reinsurer_of name.now) reinsurer_grains sheet.now.reinsurers ≤ MAX_LOSS }
    ensures value { result ≡ total_where (is_reinsurer_of name.now) reinsurer_grains sheet.now.reinsurers }
{
    let mut sum = 0;
    for k in 0..sheet.reinsurers.len() {
        let reinsurer = sheet.reinsurers.at(k);
        if *name == reinsurer.group {
            sum += lgd_rein(
                reinsurer.recoverables,
                reinsurer.mitigation,
                reinsurer.collateral,
            );
        }
    }
    sum
}

/// The squares of the losses of a class, summed.
pub(crate) fn squares(spans: &[Span]) -> Span
    requires { FitsSquares (map ends spans.now) }
    ensures { ends result ≡ exact_ends (pos (squares_total (map ends spans.now))) }
{
    number(square_sum(spans))
}

fn square_sum(spans: &[Span]) -> u128
    requires { FitsSquares (map ends spans.now) }
    ensures value { result ≡ squares_total (map ends spans.now) }
    ensures small { result ≤ 10 ^ 32 }
{
    let mut sum: u128 = 0;
    for span in spans {
        let amount = u128::from(loss(*span));
        sum += amount * amount;
    }
    sum
}

/// The variance of the losses, by the losses of the six classes and their sums of squares (Article 201).
pub(crate) fn variance(spans: &[Span]) -> Span
    requires { FitsVariance (map ends spans.now) }
    ensures { ends result ≡ variance_from (map ends spans.now) }
{
    let losses = [
        loss(at(spans, 0)),
        loss(at(spans, 1)),
        loss(at(spans, 2)),
        loss(at(spans, 3)),
        loss(at(spans, 4)),
        loss(at(spans, 5)),
    ];
    let squares = [
        square(at(spans, 6)),
        square(at(spans, 7)),
        square(at(spans, 8)),
        square(at(spans, 9)),
        square(at(spans, 10)),
        square(at(spans, 11)),
    ];
    scr_default::variance(&losses, &squares)
}

/// Which bands of the standard deviation may be the one that decides, one bit for each (Article 200).
pub(crate) fn bands(spans: &[Span]) -> Span
    requires { FitsBand (map ends spans.now) }
    ensures { ends result ≡ exact_ends (pos (bands_from (map ends spans.now))) }
{
    exact(i128::from(type1(all_losses(spans), at(spans, 6)).mask))
}

/// What the band that decides charges.
pub(crate) fn banded(spans: &[Span]) -> Span
    requires { FitsBand (map ends spans.now) }
    ensures { ends result ≡ banded_from (map ends spans.now) }
{
    type1(all_losses(spans), at(spans, 6)).charge
}

/// The losses of the six classes together.
fn all_losses(spans: &[Span]) -> u64
    requires { FitsBand (map ends spans.now) }
    ensures value { result ≡ loss_total (map ends spans.now) }
    ensures small { result ≤ MAX_LOSS }
{
    loss(at(spans, 0))
        + loss(at(spans, 1))
        + loss(at(spans, 2))
        + loss(at(spans, 3))
        + loss(at(spans, 4))
        + loss(at(spans, 5))
}

/// The requirement for type 2 exposures (Article 202).
pub(crate) fn due(sheet: &BalanceSheet) -> Span
    requires { FitsDue (overdue_cents sheet.now) (other_due_cents sheet.now) }
    ensures { ends result ≡ type2_ends (overdue_cents sheet.now) (other_due_cents sheet.now) }
{
    let [overdue, other] = sheet.numbers.due;
    type2(overdue, other)
}

/// The root over type 1 and type 2 exposures (Article 189(1)).
pub(crate) fn default(spans: &[Span]) -> Span
    requires { FitsRoot 2 (map ends spans.now) }
    ensures { ends result ≡ default_ends (figure_at (map ends spans.now) 0) (figure_at (map ends spans.now) 1) }
{
    scr_default::default(at(spans, 0), at(spans, 1))
}

/// A loss that is a whole number of grains.
fn loss(span: Span) -> u64
    requires { IsAmount MAX_LOSS (ends span) }
    ensures value { result ≡ amount_of (ends span) }
    ensures small { result ≤ MAX_LOSS }
{
    span.low as u64
}

/// A sum of squares of losses.
fn square(span: Span) -> u128
    requires { IsAmount (MAX_LOSS * MAX_LOSS) (ends span) }
    ensures value { result ≡ amount_of (ends span) }
{
    span.low as u128
}

/// So many units, known exactly.
fn number(v: u128) -> Span
    requires { v < 2 ^ 127 }
    ensures { ends result ≡ exact_ends (pos v) }
{
    exact(v as i128)
}
