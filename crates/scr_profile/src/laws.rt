//! What the tables of the standard formula come to. Each law is a function that does nothing, whose
//! contract is the law.

ghost use Rattle.std.specs.Prelude.{◌≡◌, ◌*◌, ◌-◌, ◌<◌, ℕ, Some, length, map, pos, slice_get, slice_index};
ghost use Rattle.std.specs.List.{range_with_len};
ghost use Rattle.scr_profile.specs.DefaultClasses.{class_of_step, default_classes, first_step};
ghost use Rattle.scr_profile.specs.Interest.{fall, rise, stress};
ghost use Rattle.scr_profile.specs.Matrix.{IsCorrelation};
ghost use Rattle.scr_profile.specs.declared.correlations.TheConstants.{BSCR, DEFAULT, EQUITY};
ghost use Rattle.scr_profile.specs.declared.correlations.TheConstants.{HEALTH, LIFE, MARKET_0};
ghost use Rattle.scr_profile.specs.declared.correlations.TheConstants.{MARKET_HALF, NONLIFE, NSLT};
ghost use Rattle.scr_profile.specs.declared.correlations.TheConstants.{SLT};
ghost use Rattle.scr_profile.specs.declared.tables.TheConstants.{CT, G, INTEREST_DOWN, INTEREST_UP};
ghost use Rattle.scr_profile.specs.declared.tables.TheConstants.{PD};
ghost use Rattle.scr_profile.specs.CorrelationTables as printed;
ghost use Rattle.scr_profile.specs.CorrelationTables.{IsPrinted};
ghost use Rattle.scr_profile.specs.Segments.{number_of, segments, segments_in, set_of};
ghost use Rattle.scr_profile.specs.StepTables.{thresholds, risk_factors, probabilities};
ghost use Rattle.scr_profile.specs.declared.default_class.DefaultClass.{DefaultClass};
ghost use Rattle.scr_profile.specs.declared.segment.Segment.{Segment};
ghost use Rattle.scr_profile.specs.declared.set.Set.{Set};

/// Each table of correlations is the same in both directions, has 1 on the diagonal, and no
/// coefficient beyond 1.
pub fn correlations_of_the_formula()
    ensures bscr { IsCorrelation BSCR }
    ensures market_0 { IsCorrelation MARKET_0 }
    ensures market_half { IsCorrelation MARKET_HALF }
    ensures life { IsCorrelation LIFE }
    ensures slt { IsCorrelation SLT }
    ensures health { IsCorrelation HEALTH }
    ensures nonlife { IsCorrelation NONLIFE }
    ensures nslt { IsCorrelation NSLT }
    ensures equity { IsCorrelation EQUITY }
    ensures default { IsCorrelation DEFAULT }
{}

/// The stresses of interest rates by maturities of 1 to 100 years are the percentages of 1 to 20
/// years, 20 % from 90 years on, and on a straight line between (Delegated Regulation (EU) 2015/35,
/// Articles 166 and 167).
pub fn interest_rate_stresses()
    ensures up { INTEREST_UP ≡ map (stress rise) (range_with_len 1 100) }
    ensures down { INTEREST_DOWN ≡ map (stress fall) (range_with_len 1 100) }
{}

/// Each table of correlations is the one that the Regulation prints.
pub fn printed_correlations()
    ensures bscr { IsPrinted 5 printed.bscr BSCR }
    ensures market_0 { IsPrinted 6 (printed.market (pos 0)) MARKET_0 }
    ensures market_half { IsPrinted 6 (printed.market (pos 50)) MARKET_HALF }
    ensures life { IsPrinted 7 printed.life LIFE }
    ensures slt { IsPrinted 6 printed.slt SLT }
    ensures health { IsPrinted 3 printed.health HEALTH }
    ensures nonlife { IsPrinted 3 printed.nonlife NONLIFE }
    ensures nslt { IsPrinted 4 printed.nslt NSLT }
    ensures equity { IsPrinted 2 printed.equity EQUITY }
    ensures default { IsPrinted 2 printed.default DEFAULT }
{}

/// The thresholds in thousandths, the risk factors in hundredths and the probabilities of default
/// in hundred-thousandths are the percentages that the Regulation prints.
pub fn printed_steps()
    ensures thresholds { map (λ n. 100 * n) CT ≡ thresholds }
    ensures risk_factors { map (λ n. 1000 * n) G ≡ risk_factors }
    ensures probabilities { PD ≡ probabilities }
{}

/// The steps of one class share one probability of default, and each class is that of its first
/// step, at which it stands in their list.
pub fn classes_of_default()
    ensures shared { (step : ℕ) → step < 7
        → slice_index PD (first_step (class_of_step (Some step))) ≡ slice_index PD step }
    ensures first { (class : DefaultClass) → class_of_step (Some (first_step class)) ≡ class }
    ensures listed { (class : DefaultClass) → slice_get default_classes (first_step class) ≡ Some class }
{}

/// Each segment stands in the list of its set by its number, and the lists have no others.
pub fn segments_by_number()
    ensures listed { (segment : Segment)
        → slice_get (segments_in (set_of segment)) (number_of segment - 1) ≡ Some segment }
    ensures count { (set : Set) → length (segments_in set) ≡ segments set }
{}
