//! Laws of the market risk module, whatever a program does. Each is a function that does nothing,
//! whose contract is the law.

ghost use Rattle.std.specs.Prelude.{◌≡◌, ℕ, ◌+◌, ◌≤◌, ℤ, pos, negsuc, ◌≤ℤ◌, ◌*◌, ◌<◌, All, List};
ghost use Rattle.std.specs.Prelude.{length, slice_index, sum_by, unsigned_abs, IsBitSet};
ghost use Rattle.scr_num.specs.Rounding.{Ends};
ghost use Rattle.scr_num.specs.Fraction.{Fraction};
ghost use Rattle.scr_num.specs.Figure.{Figure, Figures, Frac};
ghost use Rattle.scr_num.specs.Amounts.{IsAmount, AreAmounts};
ghost use Rattle.scr_num.specs.Enclosure.{Encloses, EncloseAll, Measures};
ghost use Rattle.scr_profile.specs.declared.limits.TheConstants.{MAX_HELD};
ghost use Rattle.scr_market.specs.declared.equity_parts.TheConstants.{MAX_EQUITY, MAX_EQUITY_PART};
ghost use Rattle.scr_market.specs.Equity.{type1_figure, type2_figure, infra_figure};
ghost use Rattle.scr_market.specs.Equity.{infracorp_figure, equity_root_figure};
ghost use Rattle.scr_market.specs.EquityEnds.{type1_ends, type2_ends, infra_ends, infracorp_ends};
ghost use Rattle.scr_market.specs.EquityEnds.{equity_root_ends, equity_ends, EncloseEquity};
ghost use Rattle.scr_factors.specs.Values.{FactorValues};
ghost use Rattle.scr_market.specs.declared.property_risk.TheConstants.{MAX_PROPERTY};
ghost use Rattle.scr_market.specs.Property.{property_figure};
ghost use Rattle.scr_market.specs.PropertyEnds.{property_ends};
ghost use Rattle.scr_market.specs.Spread.{stress_exact, bond_loss_exact};
ghost use Rattle.scr_market.specs.SpreadEnds.{stress_units, bond_loss_ends, spread_ends};
ghost use Rattle.scr_market.specs.Currency.{currency_rise_exact, currency_fall_exact};
ghost use Rattle.scr_market.specs.CurrencyEnds.{currency_rise_ends, currency_fall_ends};
ghost use Rattle.scr_agg.specs.Correlated.{table_of};
ghost use Rattle.scr_profile.specs.declared.correlations.TheConstants.{EQUITY, MARKET_0, MARKET_HALF};
ghost use Rattle.scr_market.specs.Equity.{equity_correlations};
ghost use Rattle.scr_market.specs.Market.{market_correlations, market_figure};
ghost use Rattle.scr_market.specs.MarketEnds.{market_ends};

/// The tables that the roots are taken over are those of the Regulation: of equity risk, and of
/// market risk where the rise of interest rates decides and where their fall does.
pub fn tables()
    ensures equity { table_of EQUITY ≡ equity_correlations }
    ensures rise { table_of MARKET_0 ≡ market_correlations 0 }
    ensures fall { table_of MARKET_HALF ≡ market_correlations 1 }
{}

/// The ends of each part of equity risk, as worked out, enclose its exact figure, whatever is held
/// and adjusted; those of the root enclose the root of what the ends of type 1 equities and of all
/// others enclose.
pub fn equity_enclosure()
    ensures type1 { (cents strategic : ℕ) (sym : ℤ) → let e = type1_ends cents strategic sym in
        Encloses 1000 e.low e.high (type1_figure cents strategic sym) }
    ensures type2 { (cents strategic : ℕ) (sym : ℤ) → let e = type2_ends cents strategic sym in
        Encloses 1000 e.low e.high (type2_figure cents strategic sym) }
    ensures infra { (cents : ℕ) (sym : ℤ) → let e = infra_ends cents sym in
        Encloses 1000 e.low e.high (infra_figure cents sym) }
    ensures infracorp { (cents : ℕ) (sym : ℤ) → let e = infracorp_ends cents sym in
        Encloses 1000 e.low e.high (infracorp_figure cents sym) }
    ensures root { (type1 others : Ends) (f g : Figure) → pos 0 ≤ℤ type1.low → pos 0 ≤ℤ others.low
        → Encloses 1000 type1.low type1.high f → Encloses 1000 others.low others.high g
        → let e = equity_root_ends type1 others in
        Encloses 1000 e.low e.high (equity_root_figure f g) }
    ensures all { (sums : List ℕ) (sym : ℤ) → negsuc 99_999 ≤ℤ sym
        → EncloseEquity (type1_ends (slice_index sums 0) (slice_index sums 1) sym)
        (type2_ends (slice_index sums 2) (slice_index sums 3) sym)
        (infra_ends (slice_index sums 4) sym)
        (infracorp_ends (slice_index sums 5) sym) (equity_ends sums sym) sums sym }
{}

/// Of what may be held, at an adjustment of at most 10 percent up or down, each part of equity risk
/// is at most 5·10^16 grains and all together 2·10^17, and nothing is negative. The root is at most
/// the sum of its two parts.
pub fn equity_size()
    ensures type1 { (cents strategic : ℕ) (sym : ℤ) → cents ≤ MAX_HELD → strategic ≤ MAX_HELD
        → negsuc 99_999 ≤ℤ sym → sym ≤ℤ pos 100_000
        → IsAmount MAX_EQUITY_PART (type1_ends cents strategic sym) }
    ensures type2 { (cents strategic : ℕ) (sym : ℤ) → cents ≤ MAX_HELD → strategic ≤ MAX_HELD
        → negsuc 99_999 ≤ℤ sym → sym ≤ℤ pos 100_000
        → IsAmount MAX_EQUITY_PART (type2_ends cents strategic sym) }
    ensures infra { (cents : ℕ) (sym : ℤ) → cents ≤ MAX_HELD → negsuc 99_999 ≤ℤ sym
        → sym ≤ℤ pos 100_000
        → IsAmount MAX_EQUITY_PART (infra_ends cents sym) }
    ensures infracorp { (cents : ℕ) (sym : ℤ) → cents ≤ MAX_HELD → negsuc 99_999 ≤ℤ sym
        → sym ≤ℤ pos 100_000
        → IsAmount MAX_EQUITY_PART (infracorp_ends cents sym) }
    ensures root { (a b : ℕ) (type1 others : Ends) → IsAmount a type1 → IsAmount b others
        → IsAmount (a + b) (equity_root_ends type1 others) }
    ensures all { (sums : List ℕ) (sym : ℤ) → length sums ≡ 6 → All (λ cents. cents ≤ MAX_HELD) sums
        → negsuc 99_999 ≤ℤ sym → sym ≤ℤ pos 100_000 → IsAmount MAX_EQUITY (equity_ends sums sym) }
{}

/// Property risk as worked out is exactly what Article 174 says, and of what may be held at most
/// 1.25·10^16 grains.
pub fn property_risk()
    ensures encloses { (cents : ℕ) → let e = property_ends cents in
        Encloses 1000 e.low e.high (property_figure cents) }
    ensures size { (cents : ℕ) → cents ≤ MAX_HELD → IsAmount MAX_PROPERTY (property_ends cents) }
{}

/// The stress of a bond and what it loses are worked out exactly; a bond loses no more than all
/// that is held of it. The sum over all bonds in grains encloses the sum that its ends in 10^-9
/// cents enclose.
pub fn spread_risk()
    ensures stress { (factors : FactorValues) (row duration : ℕ)
        → Measures 1_000_000_000 (pos (stress_units factors row duration))
        (stress_exact factors row duration) }
    ensures bond { (factors : FactorValues) (cents row duration : ℕ)
        → let e = bond_loss_ends factors cents row duration in
        Encloses 1_000_000_000 e.low e.high (Frac (bond_loss_exact factors cents row duration)) }
    ensures bond_size { (factors : FactorValues) (cents row duration : ℕ)
        → IsAmount (cents * 1_000_000_000) (bond_loss_ends factors cents row duration) }
    ensures sum { (sum : Ends) (f : Figure) → Encloses 1_000_000_000 sum.low sum.high f
        → let e = spread_ends sum in Encloses 1000 e.low e.high f }
    ensures sum_size { (most : ℕ) (sum : Ends) → IsAmount (most * 1_000_000) sum
        → IsAmount most (spread_ends sum) }
{}

/// The ends of currency risk enclose what the rise and the fall of a currency cost, where the ends
/// of the liabilities enclose these. A requirement is at most a quarter of what is held and owed in
/// the currency together.
pub fn currency_risk()
    ensures rise { (assets : ℕ) (l : Ends) (liabilities : Fraction)
        → Encloses 1_000_000_000_000_000_000 l.low l.high (Frac liabilities)
        → let e = currency_rise_ends assets l in
        Encloses 1000 e.low e.high (Frac (currency_rise_exact assets liabilities)) }
    ensures fall { (assets : ℕ) (l : Ends) (liabilities : Fraction)
        → Encloses 1_000_000_000_000_000_000 l.low l.high (Frac liabilities)
        → let e = currency_fall_ends assets l in
        Encloses 1000 e.low e.high (Frac (currency_fall_exact assets liabilities)) }
    ensures rise_size { (assets most : ℕ) (l : Ends) → l.low ≤ℤ l.high
        → unsigned_abs l.low + 1_000_000_000_000_000_000 * assets ≤ most * 4_000_000_000_000_000
        → unsigned_abs l.high + 1_000_000_000_000_000_000 * assets ≤ most * 4_000_000_000_000_000
        → IsAmount most (currency_rise_ends assets l) }
    ensures fall_size { (assets most : ℕ) (l : Ends) → l.low ≤ℤ l.high
        → unsigned_abs l.low + 1_000_000_000_000_000_000 * assets ≤ most * 4_000_000_000_000_000
        → unsigned_abs l.high + 1_000_000_000_000_000_000 * assets ≤ most * 4_000_000_000_000_000
        → IsAmount most (currency_fall_ends assets l) }
{}

/// The ends of market risk enclose the root with the correlation A of the interest rate scenario
/// that decides, for each scenario that the mask lets decide. The root is at most the sum of its
/// six parts.
pub fn market_root()
    ensures encloses { (parts : List Ends) (figures : Figures) (mask decisive : ℕ)
        → length parts ≡ 6
        → EncloseAll 1000 parts figures → 1 ≤ mask → mask ≤ 3 → decisive < 2
        → IsBitSet mask decisive
        → let e = market_ends parts mask in Encloses 1000 e.low e.high
        (market_figure decisive figures) }
    ensures size { (mosts : List ℕ) (parts : List Ends) (mask : ℕ) → length parts ≡ 6
        → AreAmounts mosts parts
        → IsAmount (sum_by (λ most. most) mosts) (market_ends parts mask) }
{}
