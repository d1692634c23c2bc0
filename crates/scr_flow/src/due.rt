//! Payments by maturity.

ghost use Rattle.std.specs.Prelude.{◌≡◌, ◌≤◌, All, sum_by, unsigned_abs};
ghost use Rattle.scr_dates.specs.Civil.{IsDay};
ghost use Rattle.scr_dates.specs.Payments.{total};
ghost use Rattle.scr_flow.specs.Due.{dues, AreNear};

use scr_dates::{Day, Years};

/// The sum of the amounts that fall due at each maturity of 1 to 100 years; a payment on or before the reference date
/// counts nowhere. All days lie in the years 1900 to 2200, no payment lies further ahead than 100 years, and the
/// absolute amounts sum to 5·10^13 at most.
pub fn bucket(asof: Day, pairs: &[(Day, i64)]) -> [i64; 100]
    requires asof_in { IsDay asof.number }
    requires days_in { All (λ pair. IsDay pair.0.number) pairs.now }
    requires near { AreNear asof.number pairs.now }
    requires small { total pairs.now ≤ 50_000_000_000_000 }
    ensures value { result ≡ dues asof.number pairs.now }
    ensures no_larger { sum_by unsigned_abs result ≤ total pairs.now }
{
    bucket_by(&Years::new(asof), pairs)
}

/// The same by the anniversaries that are kept of the reference date.
pub fn bucket_by(years: &Years, pairs: &[(Day, i64)]) -> [i64; 100]
    requires days_in { All (λ pair. IsDay pair.0.number) pairs.now }
    requires near { AreNear years.now pairs.now }
    requires small { total pairs.now ≤ 50_000_000_000_000 }
    ensures value { result ≡ dues years.now pairs.now }
    ensures no_larger { sum_by unsigned_abs result ≤ total pairs.now }
{
    let mut flows = [0; 100];
    let mut last = 0;
    for (day, amount) in pairs {
        let maturity = usize::from(years.until_after(last, *day));
        last = maturity;
        if maturity > 0 {
            flows[maturity - 1] += *amount;
        }
    }
    flows
}
