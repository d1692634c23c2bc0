//! The days on which the made book pays.
ghost use Rattle.std.specs.Prelude.{◌≡◌, ◌+◌};
ghost use Rattle.scr_made.specs.Days as spec;

use jiff::civil::date;
use scr_dates::Day;

/// 30 June of this many years after 2024.
#[tactic(auto, unfolding(crate::specs::Days::day_on))]
pub fn midyear(years: u8) -> Day
    ensures { result ≡ spec.midyear (2024 + years) }
{
    Day {
        number: date(2024 + i16::from(years), 6, 30)
            .to_plain()
            .to_unix_epoch_day(),
    }
}

/// 31 December of this many years after 2024.
#[tactic(auto, unfolding(crate::specs::Days::day_on))]
pub fn year_end(years: u8) -> Day
    ensures { result ≡ spec.year_end (2024 + years) }
{
    Day {
        number: date(2024 + i16::from(years), 12, 31)
            .to_plain()
            .to_unix_epoch_day(),
    }
}
