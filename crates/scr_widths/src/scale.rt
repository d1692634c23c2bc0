//! What the widths of a book's cells depend on.
ghost use Rattle.std.specs.Prelude.{◌≡◌, ◌+◌, ◌*◌, ◌≤◌, count_by, length, sum_by};
ghost use Rattle.scr_profile.specs.declared.limits.TheConstants.{MAX_CURRENCIES, MAX_HELD, MAX_LIABILITY_FLOWS};
ghost use Rattle.scr_sheet.specs.BalanceSheet.{greatest, held_total, liability_flows_total};
ghost use Rattle.scr_sheet.specs.CashFlows.{all_projections};
ghost use Rattle.scr_sheet.specs.Validity.{Valid};
ghost use Rattle.scr_nodes.specs.Rows.{is_foreign};
ghost use Rattle.scr_widths.specs.Scales.{IsScale};
ghost use Rattle.scr_widths.specs.Widths.{load, scale_of};

use scr_book::Book;
use scr_nodes::rows::is_foreign;
use scr_sheet::{BalanceSheet, PROJECTIONS, Projection};

/// What the widths of a book's cells depend on.
#[derive(Clone, Copy)]
pub(crate) struct Scale {
    /// One, and one more for each 10^13 cents of what is discounted at most.
    pub(crate) multiple: u64,
    /// The currencies other than the reporting one.
    pub(crate) foreign: u64,
    /// The rate of the adjustment for deferred taxes, in millionths.
    pub(crate) tax: u64,
}

/// That of a book.
pub(crate) fn scale_of(book: &Book) -> Scale
    ensures value { result ≡ scale_of book.now.sheet }
    ensures small { IsScale result }
{
    let sheet = book.sheet();
    Scale {
        multiple: 1 + load(sheet) / 10_000_000_000_000,
        foreign: foreign(sheet),
        tax: u64::from(sheet.numbers.tax),
    }
}

/// What is discounted at most, in cents.
fn load(sheet: &BalanceSheet) -> u64
    requires { Valid sheet.now }
    ensures value { result ≡ load sheet.now }
    ensures small { result ≤ 5 * MAX_HELD + MAX_LIABILITY_FLOWS }
{
    5 * (securities_held(sheet) + funds_held(sheet)) + greatest_flows(sheet)
}

fn securities_held(sheet: &BalanceSheet) -> u64
    requires { held_total sheet.now ≤ MAX_HELD }
    ensures { result ≡ sum_by (λ p. p.held) sheet.now.securities }
{
    let mut held = 0;
    for k in 0..sheet.securities.len() {
        held += sheet.securities.at(k).held;
    }
    held
}

fn funds_held(sheet: &BalanceSheet) -> u64
    requires { held_total sheet.now ≤ MAX_HELD }
    ensures { result ≡ sum_by (λ s. s.held) sheet.now.funds }
{
    let mut held = 0;
    for k in 0..sheet.funds.len() {
        held += sheet.funds.at(k).held;
    }
    held
}

/// The absolute flows of all liabilities under the projection that has the greatest.
fn greatest_flows(sheet: &BalanceSheet) -> u64
    requires { Valid sheet.now }
    ensures value { result
        ≡ greatest (λ projection. liability_flows_total projection sheet.now) all_projections }
    ensures small { result ≤ MAX_LIABILITY_FLOWS }
{
    let mut greatest = 0;
    for projection in &PROJECTIONS {
        greatest = flows_under(sheet, *projection).max(greatest);
    }
    greatest
}

/// The absolute flows of all liabilities under a projection.
fn flows_under(sheet: &BalanceSheet, projection: Projection) -> u64
    requires { liability_flows_total projection sheet.now ≤ MAX_LIABILITY_FLOWS }
    ensures value { result ≡ liability_flows_total projection sheet.now }
    ensures small { result ≤ MAX_LIABILITY_FLOWS }
{
    let mut flows = 0;
    for k in 0..sheet.liabilities.len() {
        flows += sheet.liabilities.at(k).flows.under(projection).total() as u64;
    }
    flows
}

/// How many currencies there are other than the reporting one.
fn foreign(sheet: &BalanceSheet) -> u64
    requires { length sheet.now.curves ≤ MAX_CURRENCIES }
    ensures { result ≡ count_by (is_foreign sheet.now) sheet.now.curves }
{
    let mut count = 0;
    for k in 0..sheet.curves.len() {
        if is_foreign(sheet, sheet.curves.at(k)) {
            count += 1;
        }
    }
    count
}
