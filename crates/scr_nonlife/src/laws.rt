//! Laws of the non-life underwriting risk module, whatever a program does. Each is a function that
//! does nothing, whose contract is the law.

ghost use Rattle.std.specs.Prelude.{◌≡◌, ℕ, ◌+◌, ◌*◌, ◌<◌, ◌≤◌, pos, ◌<ℤ◌, ◌≤ℤ◌, List, length, sum_by};
ghost use Rattle.scr_num.specs.Figure.{Figure, Figures, Frac};
ghost use Rattle.scr_num.specs.Table.{Table, IsSquare};
ghost use Rattle.scr_num.specs.Enclosure.{Encloses, EncloseAll};
ghost use Rattle.scr_num.specs.Rounding.{Ends};
ghost use Rattle.scr_num.specs.Ratio.{ratio_unit, fraction_of};
ghost use Rattle.scr_num.specs.Amounts.{IsAmount, AreAmounts};
ghost use Rattle.scr_agg.specs.Correlated.{table_of, uncorrelated, CellsWithin};
ghost use Rattle.scr_profile.specs.declared.matrix.Matrix.{Matrix};
ghost use Rattle.scr_profile.specs.declared.correlations.TheConstants.{NONLIFE, NSLT};
ghost use Rattle.scr_nonlife.specs.declared.catastrophes.TheConstants.{NATURAL, MANMADE, CATASTROPHES};
ghost use Rattle.scr_nonlife.specs.Segment.{total_volume, diversification, segment_figure};
ghost use Rattle.scr_nonlife.specs.SegmentEnds.{diversification_ends, segment_ends};
ghost use Rattle.scr_nonlife.specs.Nonlife.{premium_reserve_figure, nat_figure, manmade_figure, cat_figure, nonlife_figure, nonlife_correlations, nslt_correlations};
ghost use Rattle.scr_nonlife.specs.NonlifeEnds.{premium_reserve_ends, nat_ends, manmade_ends, cat_ends, nonlife_ends};

/// The tables that the roots are taken over are those of the Regulation.
pub fn tables()
    ensures nonlife { table_of NONLIFE ≡ nonlife_correlations }
    ensures nslt { table_of NSLT ≡ nslt_correlations }
    ensures natural { table_of NATURAL ≡ uncorrelated 5 }
    ensures manmade { table_of MANMADE ≡ uncorrelated 6 }
    ensures catastrophes { table_of CATASTROPHES ≡ uncorrelated 3 }
{}

/// For all volumes and standard deviations the ends of a segment and of its diversification enclose
/// the exact figures. The diversification is at most 1, and with standard deviations of at most 1
/// the segment at most its volume.
pub fn segments()
    ensures diversification { (volumes : List (ℕ × ℕ))
        → Encloses ratio_unit (diversification_ends volumes).low
        (diversification_ends volumes).high (Frac (fraction_of (diversification volumes))) }
    ensures diversification_size { (volumes : List (ℕ × ℕ))
        → IsAmount ratio_unit (diversification_ends volumes) }
    ensures encloses { (volumes : List (ℕ × ℕ)) (premium reserve : ℕ)
        → Encloses 1000 (segment_ends volumes premium reserve).low
        (segment_ends volumes premium reserve).high
        (segment_figure volumes premium reserve) }
    ensures not_negative { (volumes : List (ℕ × ℕ)) (premium reserve : ℕ)
        → pos 0 ≤ℤ (segment_ends volumes premium reserve).low }
    ensures size { (volumes : List (ℕ × ℕ)) (premium reserve : ℕ) → premium ≤ 1_000_000
        → reserve ≤ 1_000_000
        → IsAmount (1000 * total_volume volumes) (segment_ends volumes premium reserve) }
{}

/// For any number of segments and any correlations the ends of premium and reserve risk enclose the
/// exact figure, and are at most three times the sum of the segments.
pub fn premium_and_reserve()
    ensures encloses { (segments : List Ends) (figures : Figures) (table : Table) → 0 < table.den
        → IsSquare (length segments) table → EncloseAll 1000 segments figures
        → Encloses 1000 (premium_reserve_ends segments table).low
        (premium_reserve_ends segments table).high
        (premium_reserve_figure figures table) }
    ensures size { (m : Matrix) (mosts : List ℕ) (segments : List Ends) → pos 0 <ℤ m.den
        → CellsWithin m
        → length segments ≡ m.n → AreAmounts mosts segments
        → IsAmount (3 * sum_by (λ most. most) mosts) (premium_reserve_ends segments (table_of m)) }
{}

/// Ends of at least 0 that enclose the five natural and the six man-made perils give ends that
/// enclose natural and man-made catastrophes, and are at most the sum of all.
pub fn perils()
    ensures nat { (perils : List Ends) (figures : Figures) → length perils ≡ 5
        → EncloseAll 1000 perils figures
        → Encloses 1000 (nat_ends perils).low (nat_ends perils).high (nat_figure figures) }
    ensures manmade { (perils : List Ends) (figures : Figures) → length perils ≡ 6
        → EncloseAll 1000 perils figures
        → Encloses 1000 (manmade_ends perils).low (manmade_ends perils).high
        (manmade_figure figures) }
    ensures nat_size { (mosts : List ℕ) (perils : List Ends) → length perils ≡ 5
        → AreAmounts mosts perils
        → IsAmount (sum_by (λ most. most) mosts) (nat_ends perils) }
    ensures manmade_size { (mosts : List ℕ) (perils : List Ends) → length perils ≡ 6
        → AreAmounts mosts perils
        → IsAmount (sum_by (λ most. most) mosts) (manmade_ends perils) }
{}

/// Ends of at least 0 that enclose natural and man-made catastrophes and both charges give ends
/// that enclose all catastrophes, and are at most the sum of all.
pub fn all_catastrophes()
    ensures encloses { (nat manmade property other : Ends) (f g h k : Figure) → pos 0 ≤ℤ nat.low
        → pos 0 ≤ℤ manmade.low → pos 0 ≤ℤ property.low → pos 0 ≤ℤ other.low
        → Encloses 1000 nat.low nat.high f → Encloses 1000 manmade.low manmade.high g
        → Encloses 1000 property.low property.high h → Encloses 1000 other.low other.high k
        → Encloses 1000 (cat_ends nat manmade property other).low
        (cat_ends nat manmade property other).high (cat_figure f g h k) }
    ensures size { (a b c d : ℕ) (nat manmade property other : Ends) → IsAmount a nat
        → IsAmount b manmade → IsAmount c property → IsAmount d other
        → IsAmount (a + b + c + d) (cat_ends nat manmade property other) }
{}

/// Ends of at least 0 that enclose premium and reserve and catastrophe risk give ends that enclose
/// the module, and are at most the sum of all.
pub fn whole_module()
    ensures encloses { (pr cat : Ends) (f g : Figure) (lapse : ℕ) → pos 0 ≤ℤ pr.low
        → pos 0 ≤ℤ cat.low
        → Encloses 1000 pr.low pr.high f → Encloses 1000 cat.low cat.high g
        → Encloses 1000 (nonlife_ends pr cat lapse).low (nonlife_ends pr cat lapse).high
        (nonlife_figure f g lapse) }
    ensures size { (a b : ℕ) (pr cat : Ends) (lapse : ℕ) → IsAmount a pr → IsAmount b cat
        → IsAmount (a + b + 1000 * lapse) (nonlife_ends pr cat lapse) }
{}
