//! The quantities of the whole sheet, as a record would leave it. Each kind of record stands apart from the others, so that none
//! pays for their frames.
ghost use Rattle.std.specs.Prelude.{◌≡◌, ◌^◌, ◌+◌, ◌-◌, ◌<◌, ◌≤◌, ◌↔◌, [], IsTrue, None, pos, true, if◌then◌else◌, length, max};
ghost use Rattle.std.specs.Option.{option_or, option_map_or};
ghost use Rattle.scr_dates.specs.Civil.{IsDay};
ghost use Rattle.scr_tables.specs.Tables.{row_of, rows_with};
ghost use Rattle.scr_sheet.specs.CashFlows as cash;
ghost use Rattle.scr_sheet.specs.CashFlows.{greatest_years, flows_under};
ghost use Rattle.scr_sheet.specs.BalanceSheet.{liability_name, bank_name, rein_name, held_of, held_total, liability_flows_total, volumes_total, defaults_total, components_total, stake_name, greatest, security_years, liability_years};
ghost use Rattle.scr_sheet.specs.Faults.{Answers, list_fault, unknown_name, wrong_kind, in_use, out_of_range, fields_outside, outside, sheet_outside, above};
ghost use Rattle.scr_sheet.specs.Forms.{Formed, AreOnDays};
ghost use Rattle.scr_sheet.specs.Records.{applied, natural};
ghost use Rattle.scr_book.specs.Verbs.{is_liability_flows, is_segment};

use crate::ledger::Ledger;
use crate::{
    Components, Edit, Fault, Flows, MAX_AMOUNT, MAX_COMPONENTS, MAX_CURRENCIES, MAX_DURATION,
    MAX_EXPOSURES, MAX_FUNDS, MAX_GROUPS, MAX_HELD, MAX_LIABILITIES, MAX_LIABILITY_FLOWS,
    MAX_PROMISED, MAX_SECURITIES, MAX_YEARS, Name, Projection, Quantity, Table,
};
use scr_dates::{Day, Maturity, maturity};
use scr_profile::Set;
use scr_sheet::{Row, Rows, above, fields_outside, first_of, natural};

/// The first quantity that lies outside its limits in the sheet as the record would leave it. Sums are those that the
/// ledger keeps, so a record costs its own length, that of the flows that it replaces and some look-ups.
pub(crate) fn check_ranges(ledger: &Ledger, edit: &Edit) -> Result<(), Fault>
    requires formed { Formed edit.now }
    requires list { list_fault edit.now ≡ None }
    requires known { unknown_name edit.now ledger.now ≡ None }
    requires kind { wrong_kind edit.now ledger.now ≡ None }
    requires free { in_use edit.now ledger.now ≡ None }
    ensures { Answers (out_of_range edit.now ledger.now) result }
{
    let own = fields_outside(edit);
    match first_of(own, sheet_outside(ledger, edit)) {
        Some(fault) => Err(fault),
        None => Ok(()),
    }
}

/// The quantities of the record and of the whole sheet are within their limits: of the records that come most often few numbers
/// tell so. Of others it is not told.
pub(crate) fn is_within(ledger: &Ledger, edit: &Edit) -> bool
    requires formed { Formed edit.now }
    requires known { unknown_name edit.now ledger.now ≡ None }
    requires kind { wrong_kind edit.now ledger.now ≡ None }
    ensures { result ≡ true → out_of_range edit.now ledger.now ≡ None }
{
    gives_within(edit) && sheet_outside(ledger, edit).is_none()
}

// What the record gives itself is within its limits.
#[tactic(auto, using(crate::proofs::NoFault::outside_between, crate::proofs::NoFault::not_below_zero))]
fn gives_within(edit: &Edit) -> bool
    ensures { result ≡ true → fields_outside edit.now ≡ None }
{
    match edit {
        Edit::Security { duration, .. } => 0 <= *duration && *duration <= MAX_DURATION,
        Edit::Hold { cents, .. } => 0 <= *cents,
        Edit::Flows { flows, .. } => are_promised(flows),
        Edit::LiabilityFlows { .. } => true,
        _ => false,
    }
}

fn are_promised(flows: &Flows) -> bool
    ensures { result ≡ true → fields_outside (Edit.Flows [] flows.now) ≡ None }
{
    for flow in flows.as_slice() {
        if !is_promised(flow.1) {
            return false;
        }
    }
    above(Quantity::SecFlows, flows.total(), MAX_PROMISED).is_none()
}

// A payment is not below 0, nor above what all payments may come to.
#[tactic(auto, using(crate::proofs::NoFault::outside_between))]
fn is_promised(amount: i64) -> bool
    ensures { result ≡ true → outside Quantity.Flow (pos 0) (pos MAX_PROMISED) amount ≡ None }
{
    0 <= amount && amount <= MAX_PROMISED as i64
}

// The first quantity of the whole sheet outside its limits, of the few that the record can take there.
#[inline(always)]
fn sheet_outside(ledger: &Ledger, edit: &Edit) -> Option<Fault>
    requires formed { Formed edit.now }
    requires known { unknown_name edit.now ledger.now ≡ None }
    requires kind { wrong_kind edit.now ledger.now ≡ None }
    ensures { result ≡ sheet_outside edit.now (applied edit.now ledger.now) }
{
    let sheet = ledger.sheet();
    let asof = sheet.numbers.asof;
    match edit {
        Edit::Asof { date, .. } => outside_years(years_at(ledger, *date)),
        Edit::Curve { currency, .. } => outside_rows(
            Quantity::Currencies,
            &sheet.curves,
            currency,
            MAX_CURRENCIES,
        ),
        Edit::Group { name, .. } => {
            outside_rows(Quantity::Groups, &sheet.groups, name, MAX_GROUPS)
        }
        Edit::Security { name, .. } => outside_rows(
            Quantity::Securities,
            &sheet.securities,
            name,
            MAX_SECURITIES,
        ),
        Edit::Fund { name, components } => outside_funds(ledger, name, components),
        Edit::Liability { name, .. } => outside_rows(
            Quantity::Liabilities,
            &sheet.liabilities,
            name,
            MAX_LIABILITIES,
        ),
        Edit::Flows { flows, .. } => outside_years(years(asof, flows)),
        Edit::Hold { name, cents } => outside_held(ledger, name, *cents),
        Edit::LiabilityFlows { .. } => outside_projection(ledger, edit),
        Edit::Segment { .. } => outside_segment(ledger, edit),
        Edit::Rein {
            name,
            recoverables,
            mitigation,
            ..
        } => outside_rein(ledger, name, (natural(*recoverables), natural(*mitigation))),
        Edit::Bank { name, cents, .. } => outside_bank(ledger, name, natural(*cents)),
        Edit::Absorb { .. }
        | Edit::Cat { .. }
        | Edit::Lapse { .. }
        | Edit::Due { .. }
        | Edit::Op { .. }
        | Edit::Sym { .. }
        | Edit::Tax { .. }
        | Edit::Fdb { .. }
        | Edit::Intangible { .. }
        | Edit::Remove { .. } => None,
    }
}

// Where both the flows of all liabilities and the years are outside, the flows are told.
#[inline(never)]
fn outside_projection(ledger: &Ledger, edit: &Edit) -> Option<Fault>
    requires liability_flows { is_liability_flows edit.now ≡ true }
    requires formed { Formed edit.now }
    requires known { unknown_name edit.now ledger.now ≡ None }
    requires kind { wrong_kind edit.now ledger.now ≡ None }
    ensures { result ≡ sheet_outside edit.now (applied edit.now ledger.now) }
{
    match *edit {
        Edit::LiabilityFlows {
            liability,
            projection,
            ref flows,
        } => {
            let asof = ledger.sheet().numbers.asof;
            let total = outside_liability_flows(ledger, &liability, projection, flows);
            first_of(total, outside_years(years(asof, flows)))
        }
        _ => None,
    }
}

#[inline(never)]
fn outside_segment(ledger: &Ledger, edit: &Edit) -> Option<Fault>
    requires segment { is_segment edit.now ≡ true }
    requires formed { Formed edit.now }
    ensures { result ≡ sheet_outside edit.now (applied edit.now ledger.now) }
{
    match *edit {
        Edit::Segment {
            set,
            number,
            region,
            premium,
            reserve,
        } => {
            let old = ledger.sheet().numbers.volumes(set, number, region);
            outside_volumes(ledger, set, old, (natural(premium), natural(reserve)))
        }
        _ => None,
    }
}

// ---- numbers of rows, each a row more, unless there is one of the name

#[inline(never)]
fn outside_rows<R: Row>(
    quantity: Quantity,
    rows: &Rows<R>,
    name: &Name,
    limit: u32,
) -> Option<Fault>
    ensures { result ≡ above quantity (rows_with R.name_of name.now rows.now) limit }
{
    // Where there is room for a row more, the name is not looked up.
    if rows.len() < limit as usize {
        return None;
    }
    outside_count(quantity, rows.len() as u128, rows.contains(name), limit)
}

fn outside_count(quantity: Quantity, rows: u128, is_there: bool, limit: u32) -> Option<Fault>
    requires fits { rows < 2 ^ 65 }
    ensures { result ≡ above quantity (if is_there then rows else rows + 1) limit }
{
    let new = if is_there { 0 } else { 1 };
    above(quantity, rows + new, u64::from(limit))
}

#[inline(never)]
fn outside_funds(ledger: &Ledger, name: &Name, components: &Components) -> Option<Fault>
    ensures { result ≡ option_or
        (above Quantity.Funds (rows_with stake_name name.now ledger.now.funds) MAX_FUNDS)
        (above Quantity.Components
        (components_total ledger.now
        - option_map_or (λ s. length s.fund.components) (row_of stake_name name.now ledger.now.funds) 0
        + length components.now) MAX_COMPONENTS) }
{
    let funds = outside_rows(Quantity::Funds, &ledger.sheet().funds, name, MAX_FUNDS);
    let others = ledger.components_total() - ledger.component_count(name);
    let total = u128::from(others) + components.as_slice().len() as u128;
    first_of(
        funds,
        above(Quantity::Components, total, u64::from(MAX_COMPONENTS)),
    )
}

// ---- sums, each with what the record gives in place of what stood for it

// The sum with what the record gives is within the limit, even if nothing goes out.
fn fits_beside(total: u64, new: u128, limit: u64) -> bool
    requires { new < 2 ^ 127 }
    ensures { IsTrue result ↔ (total + new ≤ limit) }
{
    u128::from(total) + new <= u128::from(limit)
}

#[inline(never)]
fn outside_held(ledger: &Ledger, name: &Name, cents: i64) -> Option<Fault>
    ensures { result ≡ above Quantity.Held
        (held_total ledger.now - held_of ledger.now name.now + natural cents) MAX_HELD }
{
    let new = natural(cents);
    // Where there is room for it beside what was held of the name, that is not looked up.
    if fits_beside(ledger.held_total(), u128::from(new), MAX_HELD) {
        return None;
    }
    let others = ledger.held_total() - ledger.held(name);
    above(
        Quantity::Held,
        u128::from(others) + u128::from(new),
        MAX_HELD,
    )
}

fn outside_liability_flows(
    ledger: &Ledger,
    liability: &Name,
    projection: Projection,
    flows: &Flows,
) -> Option<Fault>
    ensures { result ≡ above Quantity.LiabilityFlows
        (liability_flows_total projection ledger.now
        - option_map_or (λ l. cash.total (flows_under projection l.flows)) (row_of liability_name liability.now ledger.now.liabilities) 0
        + cash.total flows.now) MAX_LIABILITY_FLOWS }
{
    let all = ledger.liability_flows_total(projection);
    if fits_beside(all, flows.total(), MAX_LIABILITY_FLOWS) {
        return None;
    }
    let others = all - ledger.liability_total(liability, projection);
    above(
        Quantity::LiabilityFlows,
        u128::from(others) + flows.total(),
        MAX_LIABILITY_FLOWS,
    )
}

fn outside_volumes(ledger: &Ledger, set: Set, old: (u64, u64), new: (u64, u64)) -> Option<Fault>
    requires { old.0 + old.1 ≤ volumes_total set ledger.now }
    ensures { result ≡ above Quantity.Volumes
        (volumes_total set ledger.now - (old.0 + old.1) + (new.0 + new.1)) MAX_AMOUNT }
{
    let others = ledger.volumes_total(set) - (old.0 + old.1);
    above(Quantity::Volumes, u128::from(others) + sum(new), MAX_AMOUNT)
}

// ---- exposures: their sum, and a row more, unless there is one of the name

#[inline(never)]
fn outside_rein(ledger: &Ledger, name: &Name, new: (u64, u64)) -> Option<Fault>
    ensures { result ≡ option_or
        (above Quantity.Defaults
        (defaults_total ledger.now
        - option_map_or (λ r. r.recoverables + r.mitigation) (row_of rein_name name.now ledger.now.reinsurers) 0
        + (new.0 + new.1)) MAX_AMOUNT)
        (above Quantity.Exposures
        (length ledger.now.banks + rows_with rein_name name.now ledger.now.reinsurers) MAX_EXPOSURES) }
{
    let is_there = ledger.sheet().has(Table::Rein, name);
    outside_exposures(ledger, ledger.rein_total(name), sum(new), is_there)
}

#[inline(never)]
fn outside_bank(ledger: &Ledger, name: &Name, cents: u64) -> Option<Fault>
    ensures { result ≡ option_or
        (above Quantity.Defaults
        (defaults_total ledger.now - option_map_or (λ b. b.cents) (row_of bank_name name.now ledger.now.banks) 0
        + cents) MAX_AMOUNT)
        (above Quantity.Exposures
        (rows_with bank_name name.now ledger.now.banks + length ledger.now.reinsurers) MAX_EXPOSURES) }
{
    let is_there = ledger.sheet().has(Table::Bank, name);
    outside_exposures(ledger, ledger.bank_total(name), u128::from(cents), is_there)
}

fn outside_exposures(ledger: &Ledger, old: u64, new: u128, is_there: bool) -> Option<Fault>
    requires part { old ≤ defaults_total ledger.now }
    requires fits { new < 2 ^ 65 }
    ensures { let rows = length ledger.now.banks + length ledger.now.reinsurers in
        result ≡ option_or (above Quantity.Defaults (defaults_total ledger.now - old + new) MAX_AMOUNT)
        (above Quantity.Exposures (if is_there then rows else rows + 1) MAX_EXPOSURES) }
{
    let total = u128::from(ledger.defaults_total() - old) + new;
    let sheet = ledger.sheet();
    let rows = sheet.banks.len() as u128 + sheet.reinsurers.len() as u128;
    let outside = above(Quantity::Defaults, total, MAX_AMOUNT);
    first_of(
        outside,
        outside_count(Quantity::Exposures, rows, is_there, MAX_EXPOSURES),
    )
}

fn sum(amounts: (u64, u64)) -> u128
    ensures value { result ≡ amounts.0 + amounts.1 }
    ensures fits { result < 2 ^ 65 }
{
    u128::from(amounts.0) + u128::from(amounts.1)
}

// ---- years

fn outside_years(years: u16) -> Option<Fault>
    ensures { result ≡ above Quantity.Years years MAX_YEARS }
{
    above(Quantity::Years, u128::from(years), u64::from(MAX_YEARS))
}

// The greatest number of years from the date to a payment of the ledger, that of the last one.
fn years_at(ledger: &Ledger, asof: Day) -> u16
    requires { IsDay asof.number }
    ensures { result ≡ max (greatest (security_years asof.number) ledger.now.securities)
        (greatest (liability_years asof.number) ledger.now.liabilities) }
{
    match ledger.days.last() {
        Some(last) => years_of(maturity(asof, last)),
        None => 0,
    }
}

// The greatest number of years to a payment, that of the last one; none where it is past.
fn years(asof: Day, flows: &Flows) -> u16
    requires asof_in { IsDay asof.number }
    requires on_days { AreOnDays flows.now }
    ensures { result ≡ greatest_years asof.number flows.now }
{
    match flows.last_day() {
        Some(last) => years_of(maturity(asof, last)),
        None => 0,
    }
}

fn years_of(maturity: Maturity) -> u16
    ensures { result ≡ cash.years_of maturity }
{
    match maturity {
        Maturity::Past => 0,
        Maturity::Years(years) => u16::from(years),
        Maturity::TooFar(years) => years,
    }
}
