//! Laws of the life and health underwriting risk modules, whatever a program does. Each is a
//! function that does nothing, whose contract is the law.

ghost use Rattle.std.specs.Prelude.{◌≡◌, ℕ, ◌+◌, ◌*◌, pos, ◌≤ℤ◌, List, length, sum_by};
ghost use Rattle.scr_num.specs.Figure.{Figure, Figures};
ghost use Rattle.scr_num.specs.Amounts.{IsAmount, AreAmounts};
ghost use Rattle.scr_num.specs.Enclosure.{Encloses, EncloseAll};
ghost use Rattle.scr_num.specs.Rounding.{Ends};
ghost use Rattle.scr_agg.specs.Correlated.{table_of, uncorrelated};
ghost use Rattle.scr_profile.specs.declared.correlations.TheConstants.{LIFE, SLT, HEALTH};
ghost use Rattle.scr_bio.specs.declared.uncorrelated.TheConstants.{TWO, THREE};
ghost use Rattle.scr_bio.specs.Biometric.{life_correlations, slt_correlations, health_correlations, life_figure, slt_figure, nslt_figure, health_cat_figure, health_figure};
ghost use Rattle.scr_bio.specs.BiometricEnds.{units_of_a_grain, loss_ends, life_ends, slt_ends, nslt_ends, health_cat_ends, health_ends};

/// The tables that the roots are taken over are those of the Regulation.
pub fn tables()
    ensures life { table_of LIFE ≡ life_correlations }
    ensures slt { table_of SLT ≡ slt_correlations }
    ensures health { table_of HEALTH ≡ health_correlations }
    ensures two { table_of TWO ≡ uncorrelated 2 }
    ensures three { table_of THREE ≡ uncorrelated 3 }
{}

/// Ends in 10^-18 cents that enclose losses enclose them in grains, rounded outward.
pub fn losses()
    ensures encloses { (sum : Ends) (f : Figure)
        → Encloses 1_000_000_000_000_000_000 sum.low sum.high f
        → Encloses 1000 (loss_ends sum).low (loss_ends sum).high f }
    ensures not_negative { (sum : Ends) → pos 0 ≤ℤ sum.low → pos 0 ≤ℤ (loss_ends sum).low }
    ensures size { (most : ℕ) (sum : Ends) → IsAmount (most * units_of_a_grain) sum
        → IsAmount most (loss_ends sum) }
{}

/// Ends of at least 0 that enclose the seven risks of life give ends that enclose the module, and
/// are at most the sum of all.
pub fn life()
    ensures encloses { (parts : List Ends) (figures : Figures) → length parts ≡ 7
        → EncloseAll 1000 parts figures
        → Encloses 1000 (life_ends parts).low (life_ends parts).high (life_figure figures) }
    ensures size { (mosts : List ℕ) (parts : List Ends) → length parts ≡ 7 → AreAmounts mosts parts
        → IsAmount (sum_by (λ most. most) mosts) (life_ends parts) }
{}

/// Ends of at least 0 that enclose the six risks of SLT health give ends that enclose it, and are
/// at most the sum of all.
pub fn slt()
    ensures encloses { (parts : List Ends) (figures : Figures) → length parts ≡ 6
        → EncloseAll 1000 parts figures
        → Encloses 1000 (slt_ends parts).low (slt_ends parts).high (slt_figure figures) }
    ensures size { (mosts : List ℕ) (parts : List Ends) → length parts ≡ 6 → AreAmounts mosts parts
        → IsAmount (sum_by (λ most. most) mosts) (slt_ends parts) }
{}

/// Ends of at least 0 that enclose premium and reserve risk give ends that enclose NSLT health, and
/// are at most the sum of both risks.
pub fn nslt()
    ensures encloses { (pr : Ends) (f : Figure) (lapse : ℕ) → pos 0 ≤ℤ pr.low
        → Encloses 1000 pr.low pr.high f
        → Encloses 1000 (nslt_ends pr lapse).low (nslt_ends pr lapse).high (nslt_figure f lapse) }
    ensures size { (most : ℕ) (pr : Ends) (lapse : ℕ) → IsAmount most pr
        → IsAmount (most + 1000 * lapse) (nslt_ends pr lapse) }
{}

/// Ends of at least 0 that enclose the three charges of health catastrophes give ends that enclose
/// the requirement, and are at most the sum of all.
pub fn health_cat()
    ensures encloses { (parts : List Ends) (figures : Figures) → length parts ≡ 3
        → EncloseAll 1000 parts figures
        → Encloses 1000 (health_cat_ends parts).low (health_cat_ends parts).high
        (health_cat_figure figures) }
    ensures size { (mosts : List ℕ) (parts : List Ends) → length parts ≡ 3 → AreAmounts mosts parts
        → IsAmount (sum_by (λ most. most) mosts) (health_cat_ends parts) }
{}

/// Ends of at least 0 that enclose the three parts of health give ends that enclose the module, and
/// are at most the sum of all.
pub fn health()
    ensures encloses { (slt nslt cat : Ends) (f g h : Figure) → pos 0 ≤ℤ slt.low
        → pos 0 ≤ℤ nslt.low → pos 0 ≤ℤ cat.low
        → Encloses 1000 slt.low slt.high f → Encloses 1000 nslt.low nslt.high g
        → Encloses 1000 cat.low cat.high h
        → Encloses 1000 (health_ends slt nslt cat).low (health_ends slt nslt cat).high
        (health_figure f g h) }
    ensures size { (a b c : ℕ) (slt nslt cat : Ends) → IsAmount a slt → IsAmount b nslt
        → IsAmount c cat
        → IsAmount (a + b + c) (health_ends slt nslt cat) }
{}
