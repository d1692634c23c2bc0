//! The classes of counterparties that share a probability of default.

ghost use Rattle.std.specs.Prelude.{◌≡◌, ◌*◌, ◌-◌, ◌<◌, ◌≤◌};
ghost use Rattle.scr_default.specs.VarianceEnds as worked;

use scr_profile::PD;

// The probability of a class in hundred-thousandths. Classes are numbered by their first steps here, as the totals are.
pub(crate) fn probability(class: usize) -> u128
    requires { class < 6 }
    ensures value { result ≡ worked.probability class }
    ensures size { result ≤ 4200 }
{
    u128::from(PD[class])
}

// Its product with what it leaves of 1.
pub(crate) fn dispersion(class: usize) -> u128
    requires { class < 6 }
    ensures value { result ≡ worked.dispersion_units class }
    ensures size { result ≤ 420_000_000 }
{
    let probability = probability(class);
    probability * (100_000 - probability)
}
