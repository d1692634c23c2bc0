//! Laws of exact amounts, net amounts, roots and the choice among scenarios, whatever a program
//! does. Each is a function that does nothing, whose contract is the law.

ghost use Rattle.std.specs.Prelude.{◌≡◌, ◌↔◌, ℕ, ℤ, ◌+◌, ◌*◌, pos, ◌<◌, ◌≤◌, ◌<ℤ◌, ◌≤ℤ◌};
ghost use Rattle.std.specs.Prelude.{false, length};
ghost use Rattle.std.specs.Prelude.{sum_by, List, IsBitSet};
ghost use Rattle.std.specs.List.{AllByRecursion};
ghost use Rattle.scr_num.specs.Fraction.{Fraction, zero_fraction, plus, minus, greater};
ghost use Rattle.scr_num.specs.Figure.{Figure, Frac, Sum, Diff, Max};
ghost use Rattle.scr_num.specs.Enclosure.{Encloses};
ghost use Rattle.scr_num.specs.Rounding.{Ends, exact_ends, max_ends, quad_ends};
ghost use Rattle.scr_num.specs.Amounts.{IsAmount, AreAmounts};
ghost use Rattle.scr_num.specs.Narrow.{IsNarrow};
ghost use Rattle.scr_num.specs.Table.{IsSquare};
ghost use Rattle.scr_profile.specs.declared.correlations.TheConstants.{BSCR, MARKET_0};
ghost use Rattle.scr_profile.specs.declared.correlations.TheConstants.{MARKET_HALF, LIFE, SLT};
ghost use Rattle.scr_profile.specs.declared.correlations.TheConstants.{HEALTH, NONLIFE, NSLT};
ghost use Rattle.scr_profile.specs.declared.correlations.TheConstants.{EQUITY, DEFAULT};
ghost use Rattle.scr_profile.specs.declared.matrix.Matrix.{Matrix};
ghost use Rattle.scr_profile.specs.Matrix.{entry, IsCorrelation};
ghost use Rattle.scr_agg.specs.Correlated.{table_of, CellsWithin, SpreadsBy};
ghost use Rattle.scr_agg.specs.Absorbed.{net_figure, net_ends, net_exact};
ghost use Rattle.scr_agg.specs.Choice.{Outcome, IsChosen, chosen, outcome_at};
ghost use Rattle.scr_agg.specs.Unbeaten.{Alternative, Covers, EncloseOutcomes, HasSeveral, unbeaten};
ghost use Rattle.scr_agg.specs.Unbeaten.{alternative_at, is_beaten, mask_of, chosen_gross};
ghost use Rattle.scr_agg.specs.Unbeaten.{chosen_net};
ghost use Rattle.scr_agg.specs.Nearness.{HasOpen};

/// The net ends of ends that enclose a gross figure enclose its net figure, and those of an amount
/// are an amount.
pub fn absorption()
    ensures encloses { (gross : Ends) (absorb : ℕ) (figure : Figure)
        → Encloses 1000 gross.low gross.high figure
        → Encloses 1000 (net_ends gross absorb).low (net_ends gross absorb).high
        (net_figure figure absorb) }
    ensures fraction { (gross : Ends) (absorb : ℕ) (amount : Fraction)
        → Encloses 1000 gross.low gross.high (Frac amount)
        → Encloses 1000 (net_ends gross absorb).low (net_ends gross absorb).high
        (Frac (net_exact amount absorb)) }
    ensures size { (most : ℕ) (gross : Ends) (absorb : ℕ) → gross.low ≤ℤ gross.high
        → gross.high ≤ℤ pos most
        → IsAmount most (net_ends gross absorb) }
{}

/// A root over the table of a matrix of correlations, between -1 and 1, is at most the sum of its
/// parts.
pub fn roots()
    ensures size { (m : Matrix) (mosts : List ℕ) (parts : List Ends) → pos 0 <ℤ m.den
        → CellsWithin m
        → length parts ≡ m.n → AreAmounts mosts parts
        → IsAmount (sum_by (λ most. most) mosts) (quad_ends parts (table_of m)) }
    ensures square { (m : Matrix) → IsSquare m.n (table_of m) }
{}

/// How far apart the ends of a root over correlated parts can be, whatever the amounts are: at most
/// one more than `k` times the widths of its parts together, where no correlation is below 0 and
/// there are at most `k * k` parts, and one more than seven times them for the roots of life
/// (Delegated Regulation (EU) 2015/35, Article 136) and of SLT health (Article 151), where the
/// correlation of mortality and longevity is below 0.
pub fn roots_spread()
    ensures table { (m : Matrix) (k : ℕ) → IsCorrelation m
        → ((i j : ℕ) → i < m.n → j < m.n → pos 0 ≤ℤ entry m i j) → 0 < k → m.n ≤ k * k
        → SpreadsBy k m }
    ensures life { SpreadsBy 7 LIFE }
    ensures slt { SpreadsBy 7 SLT }
    ensures bscr { SpreadsBy 3 BSCR }
    ensures market_0 { SpreadsBy 3 MARKET_0 }
    ensures market_half { SpreadsBy 3 MARKET_HALF }
    ensures health { SpreadsBy 2 HEALTH }
    ensures nonlife { SpreadsBy 2 NONLIFE }
    ensures nslt { SpreadsBy 2 NSLT }
    ensures equity { SpreadsBy 2 EQUITY }
    ensures default { SpreadsBy 2 DEFAULT }
{}

/// Ends that enclose a sum, a difference or the greater of two fractions, or what an absorption
/// leaves of one, enclose the fraction that it comes to.
pub fn exact_amounts()
    ensures sum { (unit : ℕ) (low high : ℤ) (p q : Fraction)
        → Encloses unit low high (Sum (Frac p) (Frac q))
        → Encloses unit low high (Frac (plus p q)) }
    ensures difference { (unit : ℕ) (low high : ℤ) (p q : Fraction)
        → Encloses unit low high (Diff (Frac p) (Frac q))
        → Encloses unit low high (Frac (minus p q)) }
    ensures greater { (unit : ℕ) (low high : ℤ) (p q : Fraction)
        → Encloses unit low high (Max (Frac p) (Frac q))
        → Encloses unit low high (Frac (greater p q)) }
    ensures net { (unit : ℕ) (low high : ℤ) (gross : Fraction) (absorb : ℕ)
        → Encloses unit low high (net_figure (Frac gross) absorb)
        → Encloses unit low high (Frac (net_exact gross absorb)) }
    ensures counted { (unit : ℕ) (e : Ends) (amount : Fraction)
        → Encloses unit e.low e.high (Frac amount)
        → let cut = max_ends e (exact_ends (pos 0)) in
        Encloses unit cut.low cut.high (Frac (greater amount zero_fraction)) }
{}

/// Of any outcomes one is chosen, and only one.
pub fn choice_of_outcomes()
    ensures one { (outcomes : List Outcome) → 0 < length outcomes
        → IsChosen outcomes (chosen outcomes) }
    ensures only_one { (outcomes : List Outcome) (i j : ℕ) → IsChosen outcomes i
        → IsChosen outcomes j → i ≡ j }
{}

/// Of alternatives whose ends enclose their outcomes nothing beats the one chosen, and the ends
/// answered enclose its outcome. A bit of the mask is set exactly where nothing beats the
/// alternative at its place, and several are where nothing beats several.
pub fn choice_within_ends()
    ensures unbeaten { (unit : ℕ) (list : List Alternative) (outcomes : List Outcome) (place : ℕ)
        → EncloseOutcomes unit list outcomes → IsChosen outcomes place
        → is_beaten list place ≡ false }
    ensures gross { (unit : ℕ) (list : List Alternative) (outcomes : List Outcome) (place : ℕ)
        → EncloseOutcomes unit list outcomes → IsChosen outcomes place
        → Encloses unit (chosen_gross list).low (chosen_gross list).high
        (Frac (outcome_at outcomes place).gross) }
    ensures net { (unit : ℕ) (list : List Alternative) (outcomes : List Outcome) (place : ℕ)
        → EncloseOutcomes unit list outcomes → IsChosen outcomes place
        → Encloses unit (chosen_net list).low (chosen_net list).high
        (Frac (outcome_at outcomes place).net) }
    ensures bits { (list : List Alternative) (place : ℕ) → place < length list
        → IsBitSet (mask_of list) place ↔ (is_beaten list place ≡ false) }
    ensures several { (list : List Alternative)
        → HasSeveral (mask_of list) ↔ (2 ≤ length (unbeaten list)) }
{}

/// Where the ends of every gross or net requirement lie between two numbers that 0 lies between, so
/// do those chosen.
pub fn choice_stays_within()
    ensures gross { (wide : Ends) (list : List Alternative) → Covers wide (exact_ends (pos 0))
        → ((k : ℕ) → k < length list → Covers wide (alternative_at list k).gross)
        → Covers wide (chosen_gross list) }
    ensures net { (wide : Ends) (list : List Alternative) → Covers wide (exact_ends (pos 0))
        → ((k : ℕ) → k < length list → Covers wide (alternative_at list k).net)
        → Covers wide (chosen_net list) }
    ensures gross_size { (most : ℕ) (list : List Alternative)
        → AllByRecursion (λ a. IsAmount most a.gross) list
        → IsAmount most (chosen_gross list) }
    ensures net_size { (most : ℕ) (list : List Alternative)
        → AllByRecursion (λ a. IsAmount most a.net) list
        → IsAmount most (chosen_net list) }
{}

/// How far apart the ends of what is chosen can be, where those of each scenario are at most `w`
/// apart: no further, but for the gross requirement where several scenarios may decide. Then two
/// of these have exact net requirements at most twice `w` apart, and gross ones too where the net
/// ones are known and equal: a choice stays open only between scenarios that cost nearly the same.
pub fn choices_spread()
    ensures net { (w : ℕ) (list : List Alternative) → AllByRecursion (λ a. IsNarrow w a.net) list
        → IsNarrow w (chosen_net list) }
    ensures gross { (w : ℕ) (list : List Alternative)
        → AllByRecursion (λ a. IsNarrow w a.gross) list
        → (HasSeveral (mask_of list) → ⊥) → IsNarrow w (chosen_gross list) }
    ensures gap { (unit w : ℕ) (list : List Alternative) (outcomes : List Outcome)
        → EncloseOutcomes unit list outcomes → AllByRecursion (λ a. IsNarrow w a.gross) list
        → AllByRecursion (λ a. IsNarrow w a.net) list → 2 ≤ length (unbeaten list)
        → HasOpen unit (w + w) list outcomes }
{}
