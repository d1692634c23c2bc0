//! Laws of market risk concentrations, whatever a program does. Each is a function that does nothing, whose contract is
//! the law.

ghost use Rattle.std.specs.Prelude.{◌≡◌, ℕ, ◌*◌, ◌^◌, ◌<◌, ◌≤◌, pos, List, Option, slice_index, sum_by};
ghost use Rattle.scr_num.specs.Fraction.{Fraction, whole, square};
ghost use Rattle.scr_num.specs.Figure.{Figure, Frac, RootOf};
ghost use Rattle.scr_num.specs.Amounts.{IsAmount};
ghost use Rattle.scr_num.specs.Enclosure.{Encloses, Measures};
ghost use Rattle.scr_profile.specs.declared.group_kind.GroupKind.{GroupKind};
ghost use Rattle.scr_profile.specs.declared.tables.TheConstants.{CT, G};
ghost use Rattle.scr_profile.specs.declared.limits.TheConstants.{MAX_HELD};
ghost use Rattle.scr_conc.specs.Thresholds.{threshold_of_step, factor_of_step, threshold_exact, factor_exact, threshold_units, factor_units};
ghost use Rattle.scr_conc.specs.Concentration.{Exposure, requirement_exact, squares_exact, concentration_figure};
ghost use Rattle.scr_conc.specs.ConcentrationEnds.{square_units, exposure_square_units, squares_units, concentration_ends};
ghost use Rattle.scr_conc.specs.declared.TheConstants.{MAX_SQUARES};

/// The tables in thousandths and hundredths have the thresholds and factors of Delegated Regulation (EU) 2015/35,
/// Articles 185 and 186, and what is worked with has those of every kind and step, after Article 187.
pub fn thresholds_and_factors()
    ensures thresholds { (step : ℕ)
        → Measures 1000 (pos (slice_index CT step)) (threshold_of_step step) }
    ensures factors { (step : ℕ)
        → Measures 100 (pos (slice_index G step)) (factor_of_step step) }
    ensures threshold { (kind : GroupKind) (step : Option ℕ)
        → Measures 1000 (pos (threshold_units kind step)) (threshold_exact kind step) }
    ensures factor { (kind : GroupKind) (step : Option ℕ)
        → Measures 100 (pos (factor_units kind step)) (factor_exact kind step) }
    ensures most { (kind : GroupKind) (step : Option ℕ) → factor_units kind step ≤ 73 }
{}

/// The square of the requirement of one exposure is exact. Where nothing is exposed it is 0.
pub fn squares()
    ensures exact { (base exposure ct g : ℕ) (threshold factor : Fraction)
        → Measures 1000 (pos ct) threshold → Measures 100 (pos g) factor
        → Measures 10_000_000_000 (pos (square_units base exposure ct g))
        (square (requirement_exact (whole (pos base)) (whole (pos exposure)) threshold factor)) }
    ensures none { (base ct g : ℕ) → square_units base 0 ct g ≡ 0 }
    ensures size { (base exposure ct g : ℕ) → g ≤ 73
        → square_units base exposure ct g ≤ (73_000 * exposure) * (73_000 * exposure) }
{}

/// The sum of the squares of any exposures is exact, and the ends of its root enclose the capital requirement.
/// Exposures that are together at most what may be held have a sum of squares of which a root can be taken.
pub fn concentration_enclosure()
    ensures sum { (base : ℕ) (exposures : List Exposure) → let sum = squares_units base exposures in
        Encloses 10_000_000_000 (pos sum) (pos sum) (Frac (squares_exact base exposures)) }
    ensures root { (sum : ℕ) (figure : Figure) → Encloses 10_000_000_000 (pos sum) (pos sum) figure
        → Encloses 1000 (concentration_ends sum).low (concentration_ends sum).high (RootOf figure) }
    ensures encloses { (base : ℕ) (exposures : List Exposure)
        → let worked = concentration_ends (squares_units base exposures) in
        Encloses 1000 worked.low worked.high (concentration_figure base exposures) }
    ensures sum_size { (base : ℕ) (exposures : List Exposure)
        → sum_by (λ (e : Exposure). e.cents) exposures ≤ MAX_HELD
        → squares_units base exposures ≤ MAX_SQUARES }
    ensures root_size { (sum : ℕ) → sum ≤ MAX_SQUARES
        → IsAmount (38 * 10 ^ 15) (concentration_ends sum) }
{}
