//! Laws of the counterparty default risk module, whatever a program does. Each is a function that does nothing, whose
//! contract is the law.

ghost use Rattle.std.specs.Prelude.{◌≡◌, ◌↔◌, ℕ, ◌+◌, ◌*◌, ◌^◌, ◌<◌, ◌≤◌, ℤ, pos, ◌+ℤ◌, ◌≤ℤ◌, List, length, Some, None, true, IsBitSet, slice_index, sum, sum_by};
ghost use Rattle.scr_num.specs.Fraction.{Fraction, is_less};
ghost use Rattle.scr_num.specs.Figure.{Figure, Frac};
ghost use Rattle.scr_num.specs.Enclosure.{Encloses, Measures};
ghost use Rattle.scr_num.specs.Rounding.{Ends, root_ends};
ghost use Rattle.scr_agg.specs.Unbeaten.{HasSeveral};
ghost use Rattle.scr_profile.specs.DefaultClasses.{class_of_step, first_step};
ghost use Rattle.scr_profile.specs.declared.tables.TheConstants.{PD};
ghost use Rattle.scr_default.specs.Probabilities.{probability_of_step, probability_of_class};
ghost use Rattle.scr_default.specs.Losses.{grains, lgd_bank_exact, lgd_rein_exact};
ghost use Rattle.scr_default.specs.LossesEnds.{lgd_bank_grains, lgd_rein_grains, totals_in, squares_in};
ghost use Rattle.scr_default.specs.Variance.{variance_exact};
ghost use Rattle.scr_default.specs.VarianceEnds.{variance_ends};
ghost use Rattle.scr_default.specs.Type1.{band_of, type1_figure};
ghost use Rattle.scr_default.specs.Type1Ends.{possible_bands, type1_ends, type1_mask};
ghost use Rattle.scr_agg.specs.Correlated.{table_of};
ghost use Rattle.scr_profile.specs.declared.correlations.TheConstants.{DEFAULT};
ghost use Rattle.scr_default.specs.Default.{type2_figure, default_correlations, default_figure};
ghost use Rattle.scr_default.specs.DefaultEnds.{type2_ends, default_ends};
ghost use Rattle.scr_num.specs.Amounts.{IsAmount};
ghost use Rattle.scr_num.specs.Narrow.{IsNarrow};
ghost use Rattle.scr_default.specs.Bands.{IsNearBand};
ghost use Rattle.scr_default.specs.declared.TheConstants.{MAX_LOSS};

/// The table that the root over type 1 and type 2 exposures is taken over is that of Delegated Regulation (EU) 2015/35,
/// Article 189(1).
pub fn table()
    ensures default { table_of DEFAULT ≡ default_correlations }
{}

/// The table in hundred-thousandths has the probabilities of Delegated Regulation (EU) 2015/35, Article 199. The steps
/// of one class share one probability, a group without a step has that of step 5, and a later class has a greater one.
pub fn probabilities()
    ensures table { (step : ℕ) → step < 7
        → Measures 100_000 (pos (slice_index PD step)) (probability_of_step step) }
    ensures shared { (step : ℕ) → step < 7
        → probability_of_step step ≡ probability_of_class (first_step (class_of_step (Some step))) }
    ensures no_step { class_of_step None ≡ class_of_step (Some 5) }
    ensures apart { (j k : ℕ) → j < k → k < 6
        → is_less (probability_of_class j) (probability_of_class k) ≡ true }
{}

/// Each loss given default as worked out is exactly that of the article. A sum of squared losses is at most the square
/// of their sum.
pub fn losses()
    ensures bank { (owed : ℕ) → Measures 1000 (pos (lgd_bank_grains owed)) (lgd_bank_exact owed) }
    ensures reinsurance { (recov rm coll : ℕ)
        → Measures 1000 (pos (lgd_rein_grains recov rm coll)) (lgd_rein_exact recov rm coll) }
    ensures reinsurance_size { (recov rm coll : ℕ)
        → lgd_rein_grains recov rm coll ≤ 1000 * (recov + rm) }
    ensures squares { (losses : List ℕ)
        → sum_by (λ loss. loss * loss) losses ≤ sum losses * sum losses }
{}

/// For all totals and squares the ends of the variance enclose the exact one.
pub fn variance_enclosure()
    ensures encloses { (totals squares : List ℕ) → let worked = variance_ends totals squares in
        Encloses 1_000_000 worked.low worked.high (Frac (variance_exact (totals_in totals) (squares_in squares))) }
    ensures size { (totals squares : List ℕ) → ((k : ℕ) → k < 6 → slice_index totals k ≤ MAX_LOSS)
        → ((k : ℕ) → k < 6 → slice_index squares k ≤ slice_index totals k * slice_index totals k)
        → IsAmount (105 * 10 ^ 30) (variance_ends totals squares) }
{}

/// The charge over ends that enclose a variance encloses the capital requirement for type 1 exposures, so it does over
/// the ends of any losses. The band of the exact variance has its bit in the mask, which has several bits where
/// several bands are possible.
pub fn type1_enclosure()
    ensures encloses { (total : ℕ) (variance : Ends) (exact : Fraction)
        → Encloses 1_000_000 variance.low variance.high (Frac exact)
        → let worked = type1_ends total variance in
        Encloses 1000 worked.low worked.high (type1_figure (grains total) exact) }
    ensures over_losses { (total : ℕ) (totals squares : List ℕ)
        → let worked = type1_ends total (variance_ends totals squares) in
        Encloses 1000 worked.low worked.high
        (type1_figure (grains total) (variance_exact (totals_in totals) (squares_in squares))) }
    ensures band { (total : ℕ) (variance : Ends) (exact : Fraction)
        → Encloses 1_000_000 variance.low variance.high (Frac exact)
        → IsBitSet (type1_mask total variance) (band_of (grains total) exact) }
    ensures some_band { (total : ℕ) (variance : Ends) → variance.low ≤ℤ variance.high
        → 1 ≤ type1_mask total variance }
    ensures several { (total : ℕ) (variance : Ends) → HasSeveral (type1_mask total variance)
        ↔ (2 ≤ length (possible_bands (root_ends variance) total)) }
    ensures no_other_bits { (total : ℕ) (variance : Ends) → type1_mask total variance < 8 }
    ensures size { (total : ℕ) (variance : Ends) → total ≤ MAX_LOSS → IsAmount (10 ^ 33) variance
        → IsAmount (16 * 10 ^ 16) (type1_ends total variance) }
{}

/// The capital requirement for type 2 exposures is exact, and the root over both types encloses that of the module and
/// is at most the sum of both.
pub fn default_enclosure()
    ensures type2 { (overdue other : ℕ) → let worked = type2_ends overdue other in
        Encloses 1000 worked.low worked.high (type2_figure overdue other) }
    ensures type2_size { (overdue other : ℕ)
        → IsAmount (900 * overdue + 150 * other) (type2_ends overdue other) }
    ensures encloses { (unit : ℕ) (s1 s2 : Ends) (type1 type2 : Figure) → 0 < unit
        → pos 0 ≤ℤ s1.low → pos 0 ≤ℤ s2.low
        → Encloses unit s1.low s1.high type1 → Encloses unit s2.low s2.high type2
        → let worked = default_ends s1 s2 in
        Encloses unit worked.low worked.high (default_figure type1 type2) }
    ensures size { (m n : ℕ) (s1 s2 : Ends) → IsAmount m s1 → IsAmount n s2
        → IsAmount (m + n) (default_ends s1 s2) }
{}

/// How far apart the ends of the variance and of the charge for type 1 exposures can be, whatever the losses are: 42
/// square grains, and 35 grains where one band alone is possible. Several are possible only where 7 or 20 percent of the
/// total lie between two ends of the standard deviation at most 7 grains apart.
pub fn type1_spreads()
    ensures variance { (totals squares : List ℕ) → IsNarrow 42 (variance_ends totals squares) }
    ensures charge { (total : ℕ) (variance : Ends) → pos 0 ≤ℤ variance.low → IsNarrow 42 variance
        → (HasSeveral (type1_mask total variance) → ⊥) → IsNarrow 35 (type1_ends total variance) }
    ensures gap { (total : ℕ) (variance : Ends) → pos 0 ≤ℤ variance.low → IsNarrow 42 variance
        → HasSeveral (type1_mask total variance)
        → IsNearBand (root_ends variance) total × IsNarrow 7 (root_ends variance) }
{}
