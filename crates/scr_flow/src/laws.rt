//! Laws of payments, whatever a program does. Each is a function that does nothing, whose contract is the law.

ghost use Rattle.std.specs.Prelude.{◌≡◌, ℕ, ◌+◌, ◌*◌, ◌≤◌, ℤ, All, List, length, sum_by, unsigned_abs};
ghost use Rattle.scr_num.specs.Fraction.{Fraction};
ghost use Rattle.scr_num.specs.Figure.{Frac};
ghost use Rattle.scr_num.specs.Rounding.{Ends};
ghost use Rattle.scr_num.specs.Enclosure.{Encloses};
ghost use Rattle.scr_dates.specs.declared.day.Day.{Day};
ghost use Rattle.scr_num.specs.Sums.{Equals, weighted_sum};
ghost use Rattle.scr_yield_curve.specs.Parts.{AreRates};
ghost use Rattle.scr_yield_curve.specs.DiscountEnds.{one, IsDiscount, EncloseDiscounts};
ghost use Rattle.scr_yield_curve.specs.declared.table.TheConstants.{MAX_DISCOUNT};
ghost use Rattle.scr_dates.specs.Payments.{total};
ghost use Rattle.scr_flow.specs.Due.{dues, AreNear};
ghost use Rattle.scr_flow.specs.Loss.{loss_exact};
ghost use Rattle.scr_flow.specs.LossEnds.{present_ends, loss_ends, scaled_ends};
ghost use Rattle.scr_flow.specs.Payments.{payments_exact, payments_loss_exact};
ghost use Rattle.scr_num.specs.Sizes.{IsWithin};
ghost use Rattle.scr_num.specs.Narrow.{IsNarrow};

/// What falls due in each of 100 years is at most what is paid. Payments that are summed by maturity are worth what they
/// are worth one by one, each at its own maturity.
pub fn amounts_due()
    ensures count { (asof : ℤ) (payments : List (Day × ℤ)) → length (dues asof payments) ≡ 100 }
    ensures size { (asof : ℤ) (payments : List (Day × ℤ)) → sum_by unsigned_abs (dues asof payments) ≤ total payments }
    ensures by_maturity { (worth : ℕ → Fraction) (asof : ℤ) (payments : List (Day × ℤ)) → AreNear asof payments
        → Equals (weighted_sum worth 1 (dues asof payments)) (payments_exact worth asof payments) }
{}

/// How large present values and losses are: no payment counts for more than the most that one is worth.
pub fn sizes()
    ensures present { (flows : List ℤ) (table : List Ends) → All IsDiscount table
        → IsWithin (MAX_DISCOUNT * sum_by unsigned_abs flows) (present_ends flows table) }
    ensures loss { (flows base stressed : List ℤ) (from to : List Ends) → All IsDiscount from → All IsDiscount to
        → IsWithin (MAX_DISCOUNT * sum_by unsigned_abs flows) (loss_ends flows base from stressed to) }
    ensures scaled { (unit : Ends) (cents : ℕ) → IsWithin 13_700_000_000_000_000_000_000_000 unit
        → IsWithin (13_700_000_000_000_000_000 * cents) (scaled_ends unit cents) }
{}

/// How far apart the ends of a present value and of a loss can be, where those of each discount are at most `w` apart: the
/// absolute payments times that width, and twice that width where the rates change. A loss of so many cents, taken from
/// that of a million, has its share of the width and one more.
pub fn sums_spread()
    ensures present { (w : ℕ) (flows : List ℤ) (table : List Ends) → All (IsNarrow w) table
        → IsNarrow (w * sum_by unsigned_abs flows) (present_ends flows table) }
    ensures loss { (w : ℕ) (flows base stressed : List ℤ) (from to : List Ends) → All (IsNarrow w) from → All (IsNarrow w) to
        → IsNarrow ((w + w) * sum_by unsigned_abs flows) (loss_ends flows base from stressed to) }
    ensures scaled { (w k : ℕ) (unit : Ends) (cents : ℕ) → w * cents ≤ k * 1_000_000 → IsNarrow w unit
        → IsNarrow (k + 1) (scaled_ends unit cents) }
{}

/// Where the discounts of two curves are enclosed, so is what payments lose from the one to the other: summed by
/// maturity, and one by one.
pub fn losses_enclosed()
    ensures yearly { (flows base stressed : List ℤ) (from to : List Ends) (before after : ℕ → Fraction)
        → length from ≡ length base → length stressed ≡ length base → length to ≡ length base → length flows ≡ length base
        → AreRates base before → AreRates stressed after → EncloseDiscounts before from → EncloseDiscounts after to
        → Encloses one (loss_ends flows base from stressed to).low (loss_ends flows base from stressed to).high
        (Frac (loss_exact flows before after)) }
    ensures one_by_one { (asof : ℤ) (payments : List (Day × ℤ)) (base stressed : List ℤ) (from to : List Ends)
        (before after : ℕ → Fraction) → AreNear asof payments
        → length base ≡ 100 → length from ≡ 100 → length stressed ≡ 100 → length to ≡ 100
        → AreRates base before → AreRates stressed after → EncloseDiscounts before from → EncloseDiscounts after to
        → Encloses one (loss_ends (dues asof payments) base from stressed to).low
        (loss_ends (dues asof payments) base from stressed to).high
        (Frac (payments_loss_exact asof payments before after)) }
{}
