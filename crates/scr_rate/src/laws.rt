//! Laws of interest rate risk over any ends, whatever a program does. Each is a function that does nothing, whose
//! contract is the law.

ghost use Rattle.std.specs.Prelude.{ℕ, ◌^◌, ◌≤◌, pos, ◌≤ℤ◌, List};
ghost use Rattle.std.specs.List.{AllByRecursion};
ghost use Rattle.scr_num.specs.Figure.{Frac};
ghost use Rattle.scr_num.specs.Enclosure.{Encloses};
ghost use Rattle.scr_num.specs.Fraction.{Fraction};
ghost use Rattle.scr_num.specs.Rounding.{Ends};
ghost use Rattle.scr_agg.specs.Absorbed.{net_ends};
ghost use Rattle.scr_agg.specs.Unbeaten.{EncloseOutcome, EncloseOutcomes};
ghost use Rattle.scr_rate.specs.Interest.{gross_exact, scenario_outcome, interest_outcomes};
ghost use Rattle.scr_num.specs.Sums.{sum_ends};
ghost use Rattle.scr_rate.specs.InterestEnds.{gross_ends, scenario_ends, interest_ends, EncloseLosses, IsCost};
ghost use Rattle.scr_num.specs.Sizes.{IsWithin, AreTogether};

/// Where the ends of each currency enclose what counts of its loss, the ends of the rise and of the fall enclose what
/// they cost before and after absorption.
pub fn interest_enclosure()
    ensures gross { (losses : List Ends) (exact : List Fraction) → EncloseLosses losses exact
        → Encloses 1000 (gross_ends losses).low (gross_ends losses).high (Frac (gross_exact exact)) }
    ensures scenario { (losses : List Ends) (exact : List Fraction) (absorb : ℕ) → EncloseLosses losses exact
        → EncloseOutcome 1000 (scenario_ends losses absorb) (scenario_outcome exact absorb) }
    ensures encloses { (up down : List Ends) (ups downs : List Fraction) (absorb_up absorb_down : ℕ)
        → EncloseLosses up ups → EncloseLosses down downs
        → EncloseOutcomes 1000 (interest_ends up down absorb_up absorb_down)
        (interest_outcomes ups downs absorb_up absorb_down) }
{}

/// How large the requirements are, where the losses of all currencies sum to at most 10^33 of 10^-18 cents. They are not
/// negative where the losses are not.
pub fn sizes()
    ensures sum { (most : ℕ) (list : List Ends) → AreTogether most list → IsWithin most (sum_ends list) }
    ensures sum_low { (list : List Ends) → AllByRecursion (λ e. pos 0 ≤ℤ e.low) list → pos 0 ≤ℤ (sum_ends list).low }
    ensures gross { (losses : List Ends) → AreTogether (10 ^ 33) losses → IsWithin (10 ^ 18) (gross_ends losses) }
    ensures gross_low { (losses : List Ends) → AllByRecursion (λ e. pos 0 ≤ℤ e.low) losses → pos 0 ≤ℤ (gross_ends losses).low }
    ensures net { (most : ℕ) (gross : Ends) (absorb : ℕ) → IsWithin most gross → IsWithin most (net_ends gross absorb) }
    ensures net_low { (gross : Ends) (absorb : ℕ) → pos 0 ≤ℤ (net_ends gross absorb).low }
    ensures scenario { (losses : List Ends) (absorb : ℕ) → AreTogether (10 ^ 33) losses → IsCost (10 ^ 18) (scenario_ends losses absorb) }
{}
