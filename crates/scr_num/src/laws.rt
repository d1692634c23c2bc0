//! Laws of exact figures and of the numbers that enclose them. Each is a function that does
//! nothing, whose contract is the law; a proof above cites it from here.

ghost use Rattle.std.specs.Prelude.{◌≡◌, ℕ, ◌+◌, ◌*◌, ◌<◌, ◌≤◌, ℤ, pos, ◌+ℤ◌, ◌-ℤ◌, ◌*ℤ◌, ◌≤ℤ◌};
ghost use Rattle.std.specs.Prelude.{◌<ℤ◌, List, ◌++◌, length, map, sum_by};
ghost use Rattle.std.specs.List.{AllByRecursion, flat_map};
ghost use Rattle.scr_num.specs.Fraction.{Fraction, Share, ◌≼◌, zero_fraction, over, minus};
ghost use Rattle.scr_num.specs.Table.{Table, IsSquare};
ghost use Rattle.scr_num.specs.Figure.{Figure, Figures, Frac, Max, Times, Root, AtMost, AtLeast};
ghost use Rattle.scr_num.specs.Rounding.{Ends, exact_ends, add_ends, sub_ends, max_ends, min_ends};
ghost use Rattle.scr_num.specs.Rounding.{hull_ends, scale_ends, root_ends, quad_ends};
ghost use Rattle.scr_num.specs.Rounding.{floor_div, ceil_div, floor_root, ceil_root};
ghost use Rattle.scr_num.specs.Narrow.{IsNarrow, AreNarrow};
ghost use Rattle.scr_num.specs.Amounts.{IsAmount, AreAmounts};
ghost use Rattle.scr_num.specs.Sizes.{IsWithin, AreTogether};
ghost use Rattle.scr_num.specs.Enclosure.{Encloses, EncloseAll};
ghost use Rattle.scr_num.specs.Cents.{cents_figure, cents_ends};
ghost use Rattle.scr_num.specs.Ratio.{ratio_unit, ratio_ends, fraction_of, IsAtMostShare};
ghost use Rattle.scr_num.specs.Ratio.{product_ends};
ghost use Rattle.scr_num.specs.Sums.{Equals, EncloseEach, parts_of, sum_ends, sum_figure};
ghost use Rattle.scr_num.specs.Sums.{sum_fraction, weighted_sum};

use crate::Span;

/// What the roundings are: the floor and the ceiling of a quotient lie less than one away from it,
/// the floor root is the greatest number whose square is at most `n`, and the ceiling root the
/// least whose square is at least `n`.
pub fn roundings()
    ensures floor_below { (z : ℤ) (d : ℕ) → 0 < d → (floor_div z d *ℤ pos d) ≤ℤ z }
    ensures floor_greatest { (z : ℤ) (d : ℕ) → 0 < d → z <ℤ (floor_div z d *ℤ pos d +ℤ pos d) }
    ensures ceil_above { (z : ℤ) (d : ℕ) → 0 < d → z ≤ℤ (ceil_div z d *ℤ pos d) }
    ensures ceil_least { (z : ℤ) (d : ℕ) → 0 < d → (ceil_div z d *ℤ pos d) <ℤ (z +ℤ pos d) }
    ensures floor_root_below { (n : ℕ) → floor_root n * floor_root n ≤ n }
    ensures floor_root_greatest { (n k : ℕ) → k * k ≤ n → k ≤ floor_root n }
    ensures ceil_root_above { (n : ℕ) → n ≤ ceil_root n * ceil_root n }
    ensures ceil_root_least { (n k : ℕ) → n ≤ k * k → ceil_root n ≤ k }
{}

/// What is at most a figure is never above what is at least it. Below a lower witness lies another,
/// and above an upper one.
pub fn witnesses()
    ensures in_order { (f : Figure) (q r : Fraction) → AtMost q f → AtLeast r f → q ≼ r }
    ensures lower_goes_down { (f : Figure) (p q : Fraction) → p ≼ q → AtMost q f → AtMost p f }
    ensures upper_goes_up { (f : Figure) (p q : Fraction) → p ≼ q → AtLeast p f → AtLeast q f }
{}

/// Two pairs of ends that enclose one figure overlap, so the ends of one pair are in order. Whole
/// cents are enclosed. A figure stays enclosed where its ends move apart, and where they are
/// rounded outward to a unit `k` times as coarse.
pub fn enclosures()
    ensures overlap { (unit unit' : ℕ) (low high low' high' : ℤ) (f : Figure)
        → Encloses unit low high f
        → Encloses unit' low' high' f → (low *ℤ pos unit') ≤ℤ (high' *ℤ pos unit) }
    ensures in_order { (unit : ℕ) (low high : ℤ) (f : Figure) → Encloses unit low high f
        → low ≤ℤ high }
    ensures cents { (cents : ℕ) → Encloses 1000 (cents_ends cents).low (cents_ends cents).high
        (cents_figure cents) }
    ensures wider { (unit : ℕ) (low low' high high' : ℤ) (f : Figure) → low' ≤ℤ low → high ≤ℤ high'
        → Encloses unit low high f → Encloses unit low' high' f }
    ensures coarser { (unit k : ℕ) (low high : ℤ) (f : Figure) → 0 < k
        → Encloses (unit * k) low high f
        → Encloses unit (floor_div low k) (ceil_div high k) f }
{}

/// The ends of a root over a table of correlations enclose the root of the figures that the parts
/// enclose, for any number of parts, with a row and a column for each, and correlations of either
/// sign.
pub fn root_over_table()
    ensures encloses { (unit : ℕ) → 0 < unit
        → (parts : List Ends) (figures : Figures) (table : Table) → 0 < table.den
        → IsSquare (length parts) table → EncloseAll unit parts figures
        → Encloses unit (quad_ends parts table).low (quad_ends parts table).high
        (Root figures table) }
{}

/// The sum of the ends of any number of figures encloses the sum of the figures. Figures that lie
/// within ends that are not negative can be the parts of a root.
pub fn sums()
    ensures figures { (unit : ℕ) → 0 < unit → (all : List Ends) (figures : List Figure)
        → EncloseEach unit all figures
        → Encloses unit (sum_ends all).low (sum_ends all).high (sum_figure figures) }
    ensures fractions { (unit : ℕ) → 0 < unit → (all : List Ends) (fractions : List Fraction)
        → EncloseEach unit all (map Frac fractions)
        → Encloses unit (sum_ends all).low (sum_ends all).high (Frac (sum_fraction fractions)) }
    ensures parts { (unit : ℕ) (all : List Ends) (figures : List Figure)
        → AllByRecursion (λ e. pos 0 ≤ℤ e.low) all → EncloseEach unit all figures
        → EncloseAll unit all (parts_of figures) }
{}

/// A sum of ends does not depend on how they are grouped, nor on which group comes first.
pub fn groupings()
    ensures pair { (first second : List Ends)
        → sum_ends (first ++ second) ≡ add_ends (sum_ends first) (sum_ends second) }
    ensures groups { (groups : List (List Ends))
        → sum_ends (flat_map (λ group. group) groups) ≡ sum_ends (map sum_ends groups) }
    ensures order { (first second : List Ends)
        → sum_ends (first ++ second) ≡ sum_ends (second ++ first) }
{}

/// A sum of amounts times differences of worth, or of differences of amounts times a worth, is the
/// difference of the two sums. What encloses a number encloses it in every form.
pub fn weighted_sums()
    ensures worths { (before after : ℕ → Fraction) (place : ℕ) (amounts : List ℤ)
        → Equals (weighted_sum (λ k. minus (before k) (after k)) place amounts)
        (minus (weighted_sum before place amounts) (weighted_sum after place amounts)) }
    ensures amounts { (worth : ℕ → Fraction) (first second : ℕ → ℤ) (place : ℕ) (ks : List ℕ)
        → Equals (weighted_sum worth place (map (λ k. first k -ℤ second k) ks))
        (minus (weighted_sum worth place (map first ks))
        (weighted_sum worth place (map second ks))) }
    ensures equal { (unit : ℕ) (low high : ℤ) (p q : Fraction) → Equals p q
        → Encloses unit low high (Frac p)
        → Encloses unit low high (Frac q) }
{}

/// Where a gain counts as nil, the greater of 0 and the ends encloses the greater of 0 and the
/// figure.
pub fn gains_count_as_nil()
    ensures zero_first { (unit : ℕ) (e : Ends) (f : Figure) → Encloses unit e.low e.high f
        → let cut = max_ends (exact_ends (pos 0)) e in
        Encloses unit cut.low cut.high (Max (Frac zero_fraction) f) }
    ensures zero_last { (unit : ℕ) (e : Ends) (f : Figure) → Encloses unit e.low e.high f
        → let cut = max_ends e (exact_ends (pos 0)) in
        Encloses unit cut.low cut.high (Max f (Frac zero_fraction)) }
{}

/// Sums, shares and hulls of the ends of amounts are ends of amounts, and so are ends that are cut
/// off at 0. Ends of either sign that sum to no more than a number without their signs sum to no
/// more with them.
pub fn amounts()
    ensures wider { (most more : ℕ) (e : Ends) → most ≤ more → IsAmount most e → IsAmount more e }
    ensures exact { (most cents : ℕ) → cents ≤ most → IsAmount most (exact_ends (pos cents)) }
    ensures sum { (a b : ℕ) (e f : Ends) → IsAmount a e → IsAmount b f
        → IsAmount (a + b) (add_ends e f) }
    ensures sums { (most : ℕ) (all : List Ends) → AllByRecursion (IsAmount most) all
        → IsAmount (length all * most) (sum_ends all) }
    ensures total { (mosts : List ℕ) (all : List Ends) → AreAmounts mosts all
        → IsAmount (sum_by (λ most. most) mosts) (sum_ends all) }
    ensures together { (most : ℕ) (all : List Ends) → AreTogether most all
        → IsWithin most (sum_ends all) }
    ensures greater { (most : ℕ) (e f : Ends) → IsAmount most e → IsAmount most f
        → IsAmount most (max_ends e f) }
    ensures share { (a b num den : ℕ) (e : Ends) → 0 < den → a * num ≤ b * den → IsAmount a e
        → IsAmount b (scale_ends e num den) }
    ensures hull { (most : ℕ) (e f : Ends) → IsAmount most e → IsAmount most f
        → IsAmount most (hull_ends e f) }
    ensures cut { (most : ℕ) (e : Ends) → e.low ≤ℤ e.high → e.high ≤ℤ pos most
        → IsAmount most (max_ends (exact_ends (pos 0)) e) }
{}

/// A figure of at least 0 times a share grows with the share: what is at most it at one share is at
/// most it at any greater one, and what is at least it at a share is at least it at any smaller
/// one.
pub fn share_grows()
    ensures lower { (f : Figure) (p q : Share) (x : Fraction) → AtMost zero_fraction f
        → IsAtMostShare p q
        → AtMost x (Times f p) → AtMost x (Times f q) }
    ensures upper { (f : Figure) (p q : Share) (x : Fraction) → AtMost zero_fraction f
        → IsAtMostShare p q
        → AtLeast x (Times f q) → AtLeast x (Times f p) }
{}

/// The ends of a quotient enclose it. Ends of at least 0 that enclose a figure, times ends of at
/// least 0 that enclose a share, enclose that share of the figure, in any unit to which `den` leads
/// from the two units.
pub fn figure_times_share()
    ensures ratio { (num den : ℕ) (positive : 0 < den)
        → Encloses ratio_unit (ratio_ends num den).low (ratio_ends num den).high
        (Frac (over (pos num) den positive)) }
    ensures product { (old unit new den : ℕ) (a shares : Ends) (f : Figure) (share : Share)
        → 0 < den → 0 < new
        → den * new ≡ old * unit → pos 0 ≤ℤ a.low → pos 0 ≤ℤ shares.low
        → Encloses old a.low a.high f
        → Encloses unit shares.low shares.high (Frac (fraction_of share))
        → Encloses new (product_ends a shares den).low (product_ends a shares den).high
        (Times f share) }
{}

/// How far each operator spreads: where the ends handed in are within given widths, those answered
/// are within a width that follows from them, whatever the numbers are. A sum or a difference adds
/// the widths, the greater and the smaller of two keep the larger one, a share of `num / den`
/// takes the width times the share, rounded up, and one more for its two roundings, and a whole
/// multiple nothing more. A root of at least 0 takes the root of the width. A product takes each
/// width times the other side, and one more. So no figure is known less well than its formula and
/// the widths of its sources say.
pub fn spreads()
    ensures wider { (width more : ℕ) (e : Ends) → width ≤ more → IsNarrow width e
        → IsNarrow more e }
    ensures exact { (v : ℤ) → IsNarrow 0 (exact_ends v) }
    ensures sum { (v w : ℕ) (a b : Ends) → IsNarrow v a → IsNarrow w b
        → IsNarrow (v + w) (add_ends a b) }
    ensures difference { (v w : ℕ) (a b : Ends) → IsNarrow v a → IsNarrow w b
        → IsNarrow (v + w) (sub_ends a b) }
    ensures sums { (w : ℕ) (all : List Ends) → AllByRecursion (IsNarrow w) all
        → IsNarrow (length all * w) (sum_ends all) }
    ensures total { (widths : List ℕ) (all : List Ends) → AreNarrow widths all
        → IsNarrow (sum_by (λ w. w) widths) (sum_ends all) }
    ensures greater { (w : ℕ) (a b : Ends) → IsNarrow w a → IsNarrow w b
        → IsNarrow w (max_ends a b) }
    ensures smaller { (w : ℕ) (a b : Ends) → IsNarrow w a → IsNarrow w b
        → IsNarrow w (min_ends a b) }
    ensures quotient { (low high : ℤ) (k den : ℕ) → 0 < den → high ≤ℤ (low +ℤ pos (k * den))
        → IsNarrow (k + 1) (record { low = floor_div low den; high = ceil_div high den }) }
    ensures share { (w k num den : ℕ) (a : Ends) → 0 < den → w * num ≤ k * den → IsNarrow w a
        → IsNarrow (k + 1) (scale_ends a num den) }
    ensures ratio { (num den : ℕ) → 0 < den → IsNarrow 1 (ratio_ends num den) }
    ensures multiple { (w num : ℕ) (a : Ends) → IsNarrow w a
        → IsNarrow (w * num) (scale_ends a num 1) }
    ensures product { (v w p q k den : ℕ) (a shares : Ends) → 0 < den → pos 0 ≤ℤ a.low
        → pos 0 ≤ℤ shares.low
        → a.low ≤ℤ a.high → shares.low ≤ℤ shares.high → a.high ≤ℤ pos p → shares.low ≤ℤ pos q
        → p * w + q * v ≤ k * den → IsNarrow v a → IsNarrow w shares
        → IsNarrow (k + 1) (product_ends a shares den) }
    ensures root { (w s : ℕ) (a : Ends) → pos 0 ≤ℤ a.low → 0 < s → w ≤ s * s → IsNarrow w a
        → IsNarrow s (root_ends a) }
{}

/// Compiles only where threads may share a `T` and hand it on.
fn shared<T: Send + Sync>() {}

/// Threads may share spans, and hand them on.
pub fn sharing() {
    shared::<Span>();
}
