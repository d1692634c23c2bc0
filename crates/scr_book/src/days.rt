//! The last days of all lists of payments, counted.
ghost use Rattle.std.specs.Prelude.{◌≡◌, ℤ, ◌+◌, ◌<◌, ◌≤◌, ◌^◌, IfSome};
ghost use Rattle.std.specs.Option.{option_copied, option_map_or};
ghost use Rattle.scr_dates.specs.Civil.{IsDay};
ghost use Rattle.scr_counters.specs.Days.{count_of};
ghost use Rattle.scr_sheet.specs.CashFlows.{flows_under};
ghost use Rattle.scr_sheet.specs.Earlier.{with_earlier, FitsIn};
ghost use Rattle.scr_sheet.specs.Validity.{Valid, IsSecurity, IsLiability, IsProjected};
ghost use Rattle.scr_book.specs.LastDays.{AreDaysOf, security_ends, projections_ending, liability_ends};

use crate::pasts::{name_in, row_in};
use crate::{BalanceSheet, Liability, LiabilityFlows, Position, Projection};
use scr_counters::DayTally;
use scr_sheet::{Earlier, PROJECTIONS};

/// Takes away the lists of the row that goes out where what stood before comes back, and counts those of the one that comes back,
/// without memory.
pub(crate) fn put_back(days: &mut DayTally, sheet: &BalanceSheet, earlier: &Earlier)
    requires valid { Valid sheet.now }
    requires back { Valid (with_earlier earlier.now sheet.now) }
    requires place { FitsIn earlier.now sheet.now }
    requires days { AreDaysOf sheet.now days.old }
    ensures { AreDaysOf (with_earlier earlier.now sheet.now) days.new }
{
    match earlier {
        Earlier::Securities(past) => {
            take_security(days, sheet.securities.get(&name_in(past)));
            add_security(days, row_in(past));
        }
        Earlier::Liabilities(past) => {
            take_liability(days, sheet.liabilities.get(&name_in(past)));
            add_liability(days, row_in(past));
        }
        _ => (),
    }
}

// Takes away what the security pays, if there is one.
fn take_security(days: &mut DayTally, position: Option<&Position>)
    requires formed { IfSome (option_copied position) IsSecurity }
    requires counted { (day : ℤ) → IsDay day
        → option_map_or (security_ends day) (option_copied position) 0 ≤ count_of day days.old }
    ensures { (day : ℤ) → IsDay day
        → count_of day days.new + option_map_or (security_ends day) (option_copied position.entry) 0 ≡ count_of day days.old }
{
    if let Some(position) = position {
        days.take(position.security.flows.last_day());
    }
}

// Counts what the security pays, if there is one.
fn add_security(days: &mut DayTally, position: Option<&Position>)
    requires formed { IfSome (option_copied position) IsSecurity }
    requires fits { (day : ℤ) → IsDay day
        → count_of day days.old + option_map_or (security_ends day) (option_copied position) 0 < 2 ^ 32 }
    ensures { (day : ℤ) → IsDay day
        → count_of day days.new ≡ count_of day days.old + option_map_or (security_ends day) (option_copied position.entry) 0 }
{
    if let Some(position) = position {
        days.add(position.security.flows.last_day());
    }
}

// Takes away what the liability pays, if there is one.
fn take_liability(days: &mut DayTally, liability: Option<&Liability>)
    requires formed { IfSome (option_copied liability) IsLiability }
    requires counted { (day : ℤ) → IsDay day
        → option_map_or (liability_ends day) (option_copied liability) 0 ≤ count_of day days.old }
    ensures { (day : ℤ) → IsDay day
        → count_of day days.new + option_map_or (liability_ends day) (option_copied liability.entry) 0 ≡ count_of day days.old }
{
    if let Some(liability) = liability {
        take_projected(days, &liability.flows, &PROJECTIONS);
    }
}

// Counts what the liability pays, if there is one.
fn add_liability(days: &mut DayTally, liability: Option<&Liability>)
    requires formed { IfSome (option_copied liability) IsLiability }
    requires fits { (day : ℤ) → IsDay day
        → count_of day days.old + option_map_or (liability_ends day) (option_copied liability) 0 < 2 ^ 32 }
    ensures { (day : ℤ) → IsDay day
        → count_of day days.new ≡ count_of day days.old + option_map_or (liability_ends day) (option_copied liability.entry) 0 }
{
    if let Some(liability) = liability {
        add_projected(days, &liability.flows, &PROJECTIONS);
    }
}

/// Takes away what a liability pays under these projections.
pub(crate) fn take_projected(
    days: &mut DayTally,
    flows: &LiabilityFlows,
    projections: &[Projection],
)
    requires on_days { (projection : Projection) → IsProjected (flows_under projection flows.now) }
    requires counted { (day : ℤ) → IsDay day
        → projections_ending day flows.now projections.now ≤ count_of day days.old }
    ensures { (day : ℤ) → IsDay day
        → count_of day days.new + projections_ending day flows.now projections.now ≡ count_of day days.old }
{
    for projection in projections {
        days.take(flows.under(*projection).last_day());
    }
}

// Counts what a liability pays under these projections.
fn add_projected(days: &mut DayTally, flows: &LiabilityFlows, projections: &[Projection])
    requires on_days { (projection : Projection) → IsProjected (flows_under projection flows.now) }
    requires fits { (day : ℤ) → IsDay day
        → count_of day days.old + projections_ending day flows.now projections.now < 2 ^ 32 }
    ensures { (day : ℤ) → IsDay day
        → count_of day days.new ≡ count_of day days.old + projections_ending day flows.now projections.now }
{
    for projection in projections {
        days.add(flows.under(*projection).last_day());
    }
}
