//! Laws of the Basic Solvency Capital Requirement, operational risk, the adjustments and the
//! Solvency Capital Requirement, whatever a program does. Each is a function that does nothing,
//! whose contract is the law.

ghost use Rattle.std.specs.Prelude.{◌≡◌, ℕ, ◌+◌, ◌*◌, ◌≤◌, pos, ◌+ℤ◌, ◌≤ℤ◌, List, length, sum_by};
ghost use Rattle.scr_num.specs.Figure.{Figure};
ghost use Rattle.scr_num.specs.Amounts.{IsAmount, AreAmounts};
ghost use Rattle.scr_num.specs.Enclosure.{Encloses};
ghost use Rattle.scr_num.specs.Rounding.{Ends, add_ends, sub_ends};
ghost use Rattle.scr_num.specs.Sums.{EncloseEach};
ghost use Rattle.scr_agg.specs.Correlated.{table_of};
ghost use Rattle.scr_profile.specs.declared.correlations.TheConstants.{BSCR};
ghost use Rattle.scr_profile.specs.declared.operational.OpInput.{OpInput};
ghost use Rattle.scr_loss.specs.Bscr.{bscr_correlations, intangible_figure, bscr_figure, diversification_figure};
ghost use Rattle.scr_loss.specs.BscrEnds.{LowsNotNegative, modules_ends, intangible_ends, bscr_ends, diversification_ends, known_diversification_ends};
ghost use Rattle.scr_loss.specs.Operational.{IsWithinLimits, prem_figure, prov_figure, cap_figure, op_figure};
ghost use Rattle.scr_loss.specs.OperationalEnds.{prem_ends, prov_ends, cap_ends, op_ends};
ghost use Rattle.scr_loss.specs.Absorption.{adj_tp_figure, adj_dt_figure, scr_figure};
ghost use Rattle.scr_loss.specs.AbsorptionEnds.{IsNegativeAmount, adj_tp_ends, adj_dt_ends, scr_ends};

/// The table that the root over the modules is taken over is that of the Directive.
pub fn table()
    ensures bscr { table_of BSCR ≡ bscr_correlations }
{}

/// Ends of at least 0 that enclose the five modules give ends that enclose the Basic Solvency
/// Capital Requirement, which is at most the sum of all.
pub fn basic()
    ensures encloses { (modules : List Ends) (figures : List Figure) (intangible : ℕ)
        → length modules ≡ 5
        → LowsNotNegative modules → EncloseEach 1000 modules figures
        → Encloses 1000 (bscr_ends modules intangible).low (bscr_ends modules intangible).high
        (bscr_figure figures intangible) }
    ensures intangible { (cents : ℕ)
        → Encloses 1000 (intangible_ends cents).low (intangible_ends cents).high
        (intangible_figure cents) }
    ensures size { (mosts : List ℕ) (modules : List Ends) (intangible : ℕ) → length modules ≡ 5
        → AreAmounts mosts modules
        → IsAmount (sum_by (λ most. most) mosts + 800 * intangible) (bscr_ends modules intangible) }
{}

/// They also give ends that enclose the diversification, neither of which is beyond the sum of the
/// modules. The Basic Solvency Capital Requirement without intangible assets is the root over the
/// modules, end by end; so by that requirement the ends are the same.
pub fn diversified()
    ensures root { (modules : List Ends) (intangible : ℕ)
        → sub_ends (bscr_ends modules intangible) (intangible_ends intangible)
        ≡ modules_ends modules }
    ensures known { (modules : List Ends) (intangible : ℕ)
        → known_diversification_ends modules (bscr_ends modules intangible) intangible
        ≡ diversification_ends modules }
    ensures encloses { (modules : List Ends) (figures : List Figure) → length modules ≡ 5
        → LowsNotNegative modules
        → EncloseEach 1000 modules figures
        → Encloses 1000 (diversification_ends modules).low (diversification_ends modules).high
        (diversification_figure figures) }
    ensures size { (mosts : List ℕ) (modules : List Ends) → length modules ≡ 5
        → AreAmounts mosts modules
        → (pos 0 ≤ℤ ((diversification_ends modules).low +ℤ pos (sum_by (λ most. most) mosts)))
        × ((diversification_ends modules).high ≤ℤ pos (sum_by (λ most. most) mosts)) }
{}

/// For all premiums and provisions the ends of operational risk by premiums and by provisions
/// enclose the exact figures; so do its cap and all of it, where ends enclose what they are made
/// of. It is not negative, and at most its cap and a quarter of the expenses.
pub fn operational_charges()
    ensures prem { (op : OpInput)
        → Encloses 1000 (prem_ends op).low (prem_ends op).high (prem_figure op) }
    ensures prov { (op : OpInput)
        → Encloses 1000 (prov_ends op).low (prov_ends op).high (prov_figure op) }
    ensures prov_size { (op : OpInput) → IsWithinLimits op
        → IsAmount 390_000_000_000_000 (prov_ends op) }
    ensures cap { (bscr : Ends) (f : Figure) → Encloses 1000 bscr.low bscr.high f
        → Encloses 1000 (cap_ends bscr).low (cap_ends bscr).high (cap_figure f) }
    ensures cap_size { (a b : ℕ) (bscr : Ends) → 3 * a ≤ 10 * b → IsAmount a bscr
        → IsAmount b (cap_ends bscr) }
    ensures op { (cap prem prov : Ends) (f g h : Figure) (expul : ℕ)
        → Encloses 1000 cap.low cap.high f
        → Encloses 1000 prem.low prem.high g → Encloses 1000 prov.low prov.high h
        → Encloses 1000 (op_ends cap prem prov expul).low (op_ends cap prem prov expul).high
        (op_figure f g h expul) }
    ensures op_size { (a b : ℕ) (cap prem prov : Ends) (expul : ℕ) → IsAmount a cap
        → prem.low ≤ℤ prem.high
        → IsAmount b prov → IsAmount (a + 250 * expul) (op_ends cap prem prov expul) }
{}

/// Ends that enclose what the adjustments are made of give ends that enclose them. They are not
/// above 0; that for technical provisions is no more than future discretionary benefits, and that
/// for deferred taxes no more than its cap.
pub fn adjustments()
    ensures tp { (bscr net : Ends) (f g : Figure) (fdb : ℕ) → Encloses 1000 bscr.low bscr.high f
        → Encloses 1000 net.low net.high g
        → Encloses 1000 (adj_tp_ends bscr net fdb).low (adj_tp_ends bscr net fdb).high
        (adj_tp_figure f g fdb) }
    ensures tp_size { (bscr net : Ends) (fdb : ℕ) → bscr.low ≤ℤ bscr.high → net.low ≤ℤ net.high
        → IsNegativeAmount (1000 * fdb) (adj_tp_ends bscr net fdb) }
    ensures dt { (bscr tp op : Ends) (f g h : Figure) (rate cap : ℕ)
        → Encloses 1000 bscr.low bscr.high f
        → Encloses 1000 tp.low tp.high g → Encloses 1000 op.low op.high h
        → Encloses 1000 (adj_dt_ends bscr tp op rate cap).low (adj_dt_ends bscr tp op rate cap).high
        (adj_dt_figure f g h rate cap) }
    ensures dt_size { (most : ℕ) (bscr tp op : Ends) (rate cap : ℕ) → rate ≤ 1_000_000
        → let all = add_ends (add_ends bscr tp) op in all.low ≤ℤ all.high → all.high ≤ℤ pos most
        → IsNegativeAmount (1000 * cap) (adj_dt_ends bscr tp op rate cap) }
{}

/// Ends that enclose what the Solvency Capital Requirement is made of give ends that enclose it.
pub fn requirement()
    ensures encloses { (bscr tp dt op : Ends) (f g h i : Figure)
        → Encloses 1000 bscr.low bscr.high f
        → Encloses 1000 tp.low tp.high g → Encloses 1000 dt.low dt.high h
        → Encloses 1000 op.low op.high i
        → Encloses 1000 (scr_ends bscr tp dt op).low (scr_ends bscr tp dt op).high
        (scr_figure f g h i) }
{}
