//! The interest rate risk sub-module of the standard formula.
#![tactic(auto)]

ghost use Rattle.std.specs.Prelude.{◌≡◌, ◌↔◌, ℕ, ◌^◌, ◌≤◌, All, pos, ◌≤ℤ◌, List, [], ◌∷◌, length, sum_by, unsigned_abs, IsBitSet, IsTrue};
ghost use Rattle.scr_num.specs.Fraction.{Fraction};
ghost use Rattle.scr_num.specs.Figure.{Frac};
ghost use Rattle.scr_num.specs.Enclosure.{Encloses};
ghost use Rattle.scr_num.specs.Rounding.{ends};
ghost use Rattle.scr_agg.specs.Choice.{chosen};
ghost use Rattle.scr_agg.specs.Correlated.{all_ends};
ghost use Rattle.scr_agg.specs.Unbeaten.{alternative, unbeaten, mask_of, chosen_gross, chosen_net};
ghost use Rattle.scr_rate.specs.Interest.{gross_exact, scenario_outcome, interest_outcomes, interest_outcome};
ghost use Rattle.scr_rate.specs.InterestEnds.{scenario_ends, interest_ends, EncloseLosses, IsCost};

mod interest_risk;
pub mod laws;

pub use interest_risk::{Interest, gross, scenario, total};
use scr_agg::pick;
use scr_num::Span;

/// The capital requirement for interest rate risk: Delegated Regulation (EU) 2015/35, Articles 165 and 206(2). A rise
/// and a fall of interest rates each cost the sum of the losses in all currencies, less an absorption; the one with the
/// greatest net requirement decides, then the one with the greatest gross requirement, then the rise.
///
/// `up` and `down` have one loss for each currency in 10^-18 cents, in which a gain counts as nil. The absorptions are
/// in cents, and the requirements in grains, thousandths of a cent.
pub fn interest(up: &[Span], down: &[Span], absorb_up: u64, absorb_down: u64) -> Interest
    requires currencies { length up.now ≡ length down.now }
    requires few { length up.now ≤ 32 }
    requires up_lows { sum_by (λ loss. unsigned_abs loss.low) up.now ≤ 10 ^ 33 }
    requires up_highs { sum_by (λ loss. unsigned_abs loss.high) up.now ≤ 10 ^ 33 }
    requires down_lows { sum_by (λ loss. unsigned_abs loss.low) down.now ≤ 10 ^ 33 }
    requires down_highs { sum_by (λ loss. unsigned_abs loss.high) down.now ≤ 10 ^ 33 }
    requires absorbed_up { absorb_up ≤ 10_000_000_000_000 }
    requires absorbed_down { absorb_down ≤ 10_000_000_000_000 }
    ensures up { alternative result.up ≡ scenario_ends (all_ends up.now) absorb_up }
    ensures down { alternative result.down ≡ scenario_ends (all_ends down.now) absorb_down }
    ensures gross { ends result.picked.gross
        ≡ chosen_gross (interest_ends (all_ends up.now) (all_ends down.now) absorb_up absorb_down) }
    ensures net { ends result.picked.net
        ≡ chosen_net (interest_ends (all_ends up.now) (all_ends down.now) absorb_up absorb_down) }
    ensures mask { result.picked.mask
        ≡ mask_of (interest_ends (all_ends up.now) (all_ends down.now) absorb_up absorb_down) }
    ensures close { IsTrue result.picked.close
        ↔ (2 ≤ length (unbeaten (interest_ends (all_ends up.now) (all_ends down.now) absorb_up absorb_down))) }
    ensures one_or_both { (1 ≤ result.picked.mask) × (result.picked.mask ≤ 3) }

    ensures up_size { IsCost (10 ^ 18) (alternative result.up) }
    ensures down_size { IsCost (10 ^ 18) (alternative result.down) }
    ensures picked_size { IsCost (10 ^ 18) (record { gross = ends result.picked.gross; net = ends result.picked.net }) }
    ensures gross_lows { All (λ loss. pos 0 ≤ℤ loss.low) up.now → All (λ loss. pos 0 ≤ℤ loss.low) down.now
        → (pos 0 ≤ℤ result.up.gross.low) × (pos 0 ≤ℤ result.down.gross.low) × (pos 0 ≤ℤ result.picked.gross.low) }

    ensures up_encloses { (losses : List Fraction) → EncloseLosses (all_ends up.now) losses
        → Encloses 1000 result.up.gross.low result.up.gross.high (Frac (gross_exact losses)) }
    ensures down_encloses { (losses : List Fraction) → EncloseLosses (all_ends down.now) losses
        → Encloses 1000 result.down.gross.low result.down.gross.high (Frac (gross_exact losses)) }
    ensures up_net_encloses { (losses : List Fraction) → EncloseLosses (all_ends up.now) losses
        → Encloses 1000 result.up.net.low result.up.net.high (Frac (scenario_outcome losses absorb_up).net) }
    ensures down_net_encloses { (losses : List Fraction) → EncloseLosses (all_ends down.now) losses
        → Encloses 1000 result.down.net.low result.down.net.high (Frac (scenario_outcome losses absorb_down).net) }
    ensures chosen { (ups downs : List Fraction)
        → EncloseLosses (all_ends up.now) ups → EncloseLosses (all_ends down.now) downs
        → let decisive = interest_outcome ups downs absorb_up absorb_down in
        IsBitSet result.picked.mask (chosen (interest_outcomes ups downs absorb_up absorb_down))
        × Encloses 1000 result.picked.gross.low result.picked.gross.high (Frac decisive.gross)
        × Encloses 1000 result.picked.net.low result.picked.net.high (Frac decisive.net) }
{
    let up = scenario(up, absorb_up);
    let down = scenario(down, absorb_down);
    let picked = pick(&[up, down]);
    Interest { up, down, picked }
}
