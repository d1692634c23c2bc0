//! The scenarios of the interest rate risk sub-module.

ghost use Rattle.std.specs.Prelude.{◌≡◌, ◌^◌, ◌≤◌, All, pos, ◌≤ℤ◌};
ghost use Rattle.scr_num.specs.Rounding.{ends};
ghost use Rattle.scr_agg.specs.Correlated.{all_ends};
ghost use Rattle.scr_agg.specs.Unbeaten.{alternative};
ghost use Rattle.scr_num.specs.Sums.{sum_ends};
ghost use Rattle.scr_rate.specs.InterestEnds.{gross_ends, scenario_ends, IsCost};
ghost use Rattle.scr_num.specs.Sizes.{IsWithin, AreTogether};

use scr_agg::{Picked, Scenario, net};
use scr_num::{Span, add, exact, scale};

/// The capital requirement for interest rate risk in grains, thousandths of a cent.
#[derive(Clone, Copy, Debug, PartialEq, Eq)]
pub struct Interest {
    /// Where interest rates rise.
    pub up: Scenario,
    /// Where they fall.
    pub down: Scenario,
    /// The one that decides: place 0 is the rise and place 1 the fall.
    pub picked: Picked,
}

/// What a rise or a fall of interest rates costs before and after absorption, in grains, from the losses per currency in
/// 10^-18 cents, in which a gain counts as nil (Delegated Regulation (EU) 2015/35, Articles 165 and 206(2)). The
/// absorption is in cents.
pub fn scenario(losses: &[Span], absorb: u64) -> Scenario
    requires together { AreTogether (10 ^ 33) (all_ends losses.now) }
    requires absorbed { absorb ≤ 10_000_000_000_000 }
    ensures value { alternative result ≡ scenario_ends (all_ends losses.now) absorb }
    ensures size { IsCost (10 ^ 18) (alternative result) }
    ensures gross_low { All (λ loss. pos 0 ≤ℤ loss.low) losses.now → pos 0 ≤ℤ result.gross.low }
{
    let gross = gross(losses);
    Scenario {
        gross,
        net: net(gross, absorb),
    }
}

/// The same before absorption.
pub fn gross(losses: &[Span]) -> Span
    requires together { AreTogether (10 ^ 33) (all_ends losses.now) }
    ensures value { ends result ≡ gross_ends (all_ends losses.now) }
    ensures size { IsWithin (10 ^ 18) (ends result) }
    ensures low { All (λ loss. pos 0 ≤ℤ loss.low) losses.now → pos 0 ≤ℤ result.low }
{
    scale(total(losses), 1, 1_000_000_000_000_000)
}

/// The sum of all numbers, in their unit.
pub fn total(numbers: &[Span]) -> Span
    requires together { AreTogether (10 ^ 33) (all_ends numbers.now) }
    ensures value { ends result ≡ sum_ends (all_ends numbers.now) }
    ensures size { IsWithin (10 ^ 33) (ends result) }
{
    let mut sum = exact(0);
    for number in numbers {
        sum = add(sum, *number);
    }
    sum
}
