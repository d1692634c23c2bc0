//! The market risk concentrations sub-module of the standard formula.
#![tactic(auto)]

ghost use Rattle.std.specs.Prelude.{◌≡◌, ◌+◌, ◌-◌, ◌*◌, ◌^◌, ◌<◌, ◌≤◌, pos};
ghost use Rattle.scr_num.specs.Fraction.{Fraction, whole, square as squared};
ghost use Rattle.scr_num.specs.Figure.{Figure, RootOf};
ghost use Rattle.scr_num.specs.Amounts.{IsAmount};
ghost use Rattle.scr_num.specs.Enclosure.{Encloses, Measures};
ghost use Rattle.scr_num.specs.Rounding.{ends, exact_ends};
ghost use Rattle.scr_profile.specs.declared.limits.TheConstants.{MAX_HELD};
ghost use Rattle.scr_conc.specs.Thresholds as table;
ghost use Rattle.scr_conc.specs.Thresholds.{step_of, threshold_exact, factor_exact};
ghost use Rattle.scr_conc.specs.Concentration.{requirement_exact};
ghost use Rattle.scr_conc.specs.ConcentrationEnds.{requirement_units, square_units, concentration_ends};

pub mod laws;
mod scale;

pub use scale::Scale;
use scr_num::{Span, exact, root_of, scale};
use scr_profile::{CT, G, GroupKind};

/// The greatest sum of squares, in square hundred-thousandths of a cent.
pub const MAX_SQUARES: u128 = 14_000_000_000_000_000_000_000_000_000_000_000_000;

/// The relative excess exposure threshold of a group, in thousandths: Delegated Regulation (EU) 2015/35, Articles 185
/// and 187. A group without a credit quality step has that of step 5.
pub fn threshold_of(kind: GroupKind, step: Option<u8>) -> u32
    requires { step_of step ≤ 6 }
    ensures value { result ≡ table.threshold_units kind step }
    ensures exact { Measures 1000 (pos result) (threshold_exact kind step) }
    ensures size { result ≤ 150 }
{
    let step = step_or_default(step);
    match kind {
        GroupKind::Covered if step < 2 => 150,
        GroupKind::Property => 100,
        _ => CT[step],
    }
}

/// The risk factor of a group, in hundredths: Articles 186 and 187.
pub fn charge_of(kind: GroupKind, step: Option<u8>) -> u32
    requires { step_of step ≤ 6 }
    ensures value { result ≡ table.factor_units kind step }
    ensures exact { Measures 100 (pos result) (factor_exact kind step) }
    ensures size { result ≤ 73 }
{
    match kind {
        GroupKind::Property => 12,
        GroupKind::State => 0,
        _ => G[step_or_default(step)],
    }
}

fn step_or_default(step: Option<u8>) -> usize
    ensures { result ≡ step_of step }
{
    match step {
        Some(step) => usize::from(step),
        None => 5,
    }
}

/// The square of the capital requirement of one exposure, in square hundred-thousandths of a cent: Articles 183(2) and
/// 184(1). `base` are the assets and `exposure` is what is exposed, in cents; `ct` is the threshold in thousandths and
/// `g` the risk factor in hundredths.
pub fn square(base: u64, exposure: u64, ct: u32, g: u32) -> u128
    requires part { exposure ≤ base }
    requires held { base ≤ MAX_HELD }
    requires threshold { ct ≤ 150 }
    requires factor { g ≤ 73 }
    ensures value { result ≡ square_units base exposure ct g }
    ensures exact { (threshold factor : Fraction)
        → Measures 1000 (pos ct) threshold → Measures 100 (pos g) factor
        → Measures 10_000_000_000 (pos result)
        (squared (requirement_exact (whole (pos base)) (whole (pos exposure)) threshold factor)) }
    ensures size { result ≤ (73_000 * exposure) * (73_000 * exposure) }
{
    let required = u128::from(requirement(base, exposure, ct, g));
    required * required
}

// In hundred-thousandths of a cent.
fn requirement(base: u64, exposure: u64, ct: u32, g: u32) -> u64
    requires exposed { exposure ≤ MAX_HELD }
    requires held { base ≤ MAX_HELD }
    requires threshold { ct ≤ 150 }
    requires factor { g ≤ 73 }
    ensures value { result ≡ requirement_units base exposure ct g }
    ensures size { result ≤ 73_000 * exposure }
{
    excess_charge(exposure, u64::from(ct) * base, u64::from(g))
}

/// The charge on what an exposure, in cents, has above a share of the assets, in thousandths of a cent: in hundred-thousandths of one.
pub(crate) fn excess_charge(exposure: u64, share: u64, g: u64) -> u64
    requires exposed { exposure ≤ MAX_HELD }
    requires factor { g ≤ 73 }
    ensures value { result ≡ (1000 * exposure - share) * g }
    ensures size { result ≤ 73_000 * exposure }
{
    (1000 * exposure).saturating_sub(share) * g
}

/// The capital requirement for market risk concentrations in grains, thousandths of a cent: Article 183(1), over
/// the sum of the squares of all exposures.
pub fn root(sum: u128) -> Span
    requires { sum ≤ MAX_SQUARES }
    ensures ends { ends result ≡ concentration_ends sum }
    ensures encloses { (figure : Figure) → Encloses 10_000_000_000 (pos sum) (pos sum) figure
        → Encloses 1000 result.low result.high (RootOf figure) }
    ensures size { IsAmount (38 * 10 ^ 15) (ends result) }
{
    scale(root_of(number(sum)), 1, 100)
}

fn number(v: u128) -> Span
    requires { v < 2 ^ 127 }
    ensures low { result.low ≡ pos v }
    ensures high { result.high ≡ pos v }
    ensures ends { ends result ≡ exact_ends (pos v) }
{
    exact(v as i128)
}
