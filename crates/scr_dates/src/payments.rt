//! Lists of payments, each with its day.
ghost use Rattle.std.specs.Prelude.{◌≡◌, ◌+◌, ◌^◌, ◌≤◌, IfOk};
ghost use Rattle.scr_dates.specs.Payments.{total, last_day, later};

use crate::Day;
use std::alloc::{AllocError as NoMemory, Global};
use std::marker::Model;

/// Payments, each with its day. The unit of an amount is the owner's. Beside them stand their sum
/// and their last day, so that neither is reckoned anew. Contracts see the list of the payments.
#[derive(Drop)]
pub struct Flows {
    pairs: Vec<(Day, i64)>,
    sum: u128,
    last: Option<Day>,
}

impl Model for Flows {
    ghost use Rattle.std.specs.Prelude.{◌≡◌, ◌+◌, ◌^◌, ◌≤◌, List, ℤ};
    ghost use Rattle.scr_dates.specs.declared.day.Day.{Day};
    ghost use Rattle.scr_dates.specs.Payments.{total, last_day};

    ghost Value = { List (Day × ℤ) };

    ghost view = { λ list. list.pairs.items };

    ghost invariant = { λ list. (list.sum ≡ total list.pairs.items) × (list.sum + 2 ^ 63 ≤ 2 ^ 127)
        × (list.last ≡ last_day list.pairs.items) };
}

impl Flows {
    /// These payments.
    pub fn new(pairs: Vec<(Day, i64)>) -> Flows
        ensures { result ≡ pairs.items }
    {
        Flows {
            sum: total(&pairs),
            last: last_day(&pairs),
            pairs,
        }
    }

    /// The payments in the order in which they were given.
    pub fn as_slice(&self) -> &[(Day, i64)]
        ensures { result.now ≡ self.now }
    {
        &self.pairs
    }

    /// The absolute amounts, summed.
    pub fn total(&self) -> u128
        ensures sum { result ≡ total self.now }
        ensures fits { result + 2 ^ 63 ≤ 2 ^ 127 }
    {
        self.sum
    }

    /// The last day of a payment.
    pub fn last_day(&self) -> Option<Day>
        ensures { result ≡ last_day self.now }
    {
        self.last
    }

    /// The payments, given back without memory.
    pub fn into_vec(self) -> Vec<(Day, i64)>
        ensures { result.items ≡ self }
    {
        self.pairs
    }

    /// The same payments once more.
    pub fn copy(&self, alloc: Global) -> Result<Flows, NoMemory>
        ensures { IfOk result (λ copy. copy ≡ self.now) }
    {
        Ok(Flows {
            pairs: self.pairs.iter().copied().collect(alloc)?,
            sum: self.sum,
            last: self.last,
        })
    }
}

fn total(pairs: &[(Day, i64)]) -> u128
    ensures sum { result ≡ total pairs.now }
    ensures fits { result + 2 ^ 63 ≤ 2 ^ 127 }
{
    let mut sum = 0;
    for (_, amount) in pairs {
        sum += u128::from(amount.unsigned_abs());
    }
    sum
}

fn last_day(pairs: &[(Day, i64)]) -> Option<Day>
    ensures { result ≡ last_day pairs.now }
{
    let mut last = None;
    for (day, _) in pairs {
        last = Some(later(last, *day));
    }
    last
}

// The later of two days, of which the first may be missing.
fn later(last: Option<Day>, day: Day) -> Day
    ensures { result ≡ later last day }
{
    match last {
        Some(last) => { if last.number < day.number { day } else { last } }
        None => day,
    }
}
