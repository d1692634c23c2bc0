//! The catastrophe risk sub-module.

ghost use Rattle.std.specs.Prelude.{◌≡◌, ◌≤◌, All, ℕ, pos, ◌≤ℤ◌, [], ◌∷◌};
ghost use Rattle.scr_num.specs.Figure.{Figure, Figures};
ghost use Rattle.scr_num.specs.Enclosure.{Encloses, EncloseAll};
ghost use Rattle.scr_num.specs.Rounding.{ends};
ghost use Rattle.scr_agg.specs.Correlated.{NotNegative, total_high, all_ends};
ghost use Rattle.scr_profile.specs.declared.limits.TheConstants.{MAX_AMOUNT};
ghost use Rattle.scr_nonlife.specs.Nonlife.{nat_figure, manmade_figure, cat_figure, natural_figure, man_made_figure, catastrophes_figure};
ghost use Rattle.scr_nonlife.specs.NonlifeEnds.{nat_ends, manmade_ends, cat_ends, natural_perils, man_made_perils, catastrophes_ends};

use scr_agg::quad;
use scr_num::{Span, add, cents};
use scr_profile::Matrix;

// No two different parts are correlated.
const UNCORRELATED: [[i16; 16]; 16] = [
    [1, 0, 0, 0, 0, 0, 0, 0, 0, 0, 0, 0, 0, 0, 0, 0],
    [0, 1, 0, 0, 0, 0, 0, 0, 0, 0, 0, 0, 0, 0, 0, 0],
    [0, 0, 1, 0, 0, 0, 0, 0, 0, 0, 0, 0, 0, 0, 0, 0],
    [0, 0, 0, 1, 0, 0, 0, 0, 0, 0, 0, 0, 0, 0, 0, 0],
    [0, 0, 0, 0, 1, 0, 0, 0, 0, 0, 0, 0, 0, 0, 0, 0],
    [0, 0, 0, 0, 0, 1, 0, 0, 0, 0, 0, 0, 0, 0, 0, 0],
    [0; 16],
    [0; 16],
    [0; 16],
    [0; 16],
    [0; 16],
    [0; 16],
    [0; 16],
    [0; 16],
    [0; 16],
    [0; 16],
];

/// Five natural perils.
const NATURAL: Matrix = Matrix {
    n: 5,
    den: 1,
    cells: UNCORRELATED,
};

/// Six man-made perils.
const MANMADE: Matrix = Matrix {
    n: 6,
    den: 1,
    cells: UNCORRELATED,
};

/// Three kinds of catastrophe.
const CATASTROPHES: Matrix = Matrix {
    n: 3,
    den: 1,
    cells: UNCORRELATED,
};

/// The capital requirement for non-life catastrophe risk and two of its parts, in grains:
/// thousandths of a cent.
#[derive(Clone, Copy, Debug, PartialEq, Eq)]
pub struct NlCat {
    /// Natural catastrophes.
    pub nat: Span,
    /// Man-made catastrophes.
    pub manmade: Span,
    /// All together, with non-proportional property reinsurance and other catastrophes.
    pub all: Span,
}

/// The capital requirement for non-life catastrophe risk: Delegated Regulation (EU) 2015/35,
/// Articles 119, 120 and 128.
///
/// `charges` are in cents: windstorm, earthquake, flood, hail, subsidence, non-proportional
/// property reinsurance, motor, marine, aviation, fire, liability, credit and suretyship, and other
/// catastrophes.
pub fn cat(charges: &[u64; 13]) -> NlCat
    requires { All (λ cents. cents ≤ MAX_AMOUNT) charges.now }
    ensures nat { ends result.nat ≡ nat_ends (natural_perils charges.now) }
    ensures manmade { ends result.manmade ≡ manmade_ends (man_made_perils charges.now) }
    ensures all { ends result.all ≡ catastrophes_ends charges.now }
    ensures nat_within { Encloses 1000 result.nat.low result.nat.high (natural_figure charges.now) }
    ensures manmade_within { Encloses 1000 result.manmade.low result.manmade.high
        (man_made_figure charges.now) }
    ensures all_within { Encloses 1000 result.all.low result.all.high
        (catastrophes_figure charges.now) }
    ensures not_negative { pos 0 ≤ℤ result.all.low }
    ensures size { result.all.high ≤ℤ pos 130_000_000_000_000_000 }
{
    let nat = natural(charges);
    let manmade = man_made(charges);
    NlCat {
        nat,
        manmade,
        all: cat_all(nat, manmade, cents(charges[5]), cents(charges[12])),
    }
}

// Natural catastrophes, from the charges of `cat`.
fn natural(charges: &[u64; 13]) -> Span
    requires { All (λ cents. cents ≤ MAX_AMOUNT) charges.now }
    ensures ends { ends result ≡ nat_ends (natural_perils charges.now) }
    ensures encloses { Encloses 1000 result.low result.high (natural_figure charges.now) }
    ensures not_negative { pos 0 ≤ℤ result.low }
    ensures size { result.high ≤ℤ pos 50_000_000_000_000_000 }
{
    nat(&[
        cents(charges[0]),
        cents(charges[1]),
        cents(charges[2]),
        cents(charges[3]),
        cents(charges[4]),
    ])
}

// Man-made catastrophes, from the charges of `cat`.
fn man_made(charges: &[u64; 13]) -> Span
    requires { All (λ cents. cents ≤ MAX_AMOUNT) charges.now }
    ensures ends { ends result ≡ manmade_ends (man_made_perils charges.now) }
    ensures encloses { Encloses 1000 result.low result.high (man_made_figure charges.now) }
    ensures not_negative { pos 0 ≤ℤ result.low }
    ensures size { result.high ≤ℤ pos 60_000_000_000_000_000 }
{
    manmade(&[
        cents(charges[6]),
        cents(charges[7]),
        cents(charges[8]),
        cents(charges[9]),
        cents(charges[10]),
        cents(charges[11]),
    ])
}

/// The capital requirement for natural catastrophes, in grains, of the charges for windstorm,
/// earthquake, flood, hail and subsidence in grains (Article 120).
pub fn nat(perils: &[Span; 5]) -> Span
    requires lows { NotNegative perils.now }
    requires highs { total_high perils.now ≤ 6_000_000_000_000_000_000 }
    ensures ends { ends result ≡ nat_ends (all_ends perils.now) }
    ensures encloses { (figures : Figures) → EncloseAll 1000 (all_ends perils.now) figures
        → Encloses 1000 result.low result.high (nat_figure figures) }
    ensures not_negative { pos 0 ≤ℤ result.low }
    ensures at_most_the_sum { result.high ≤ℤ pos (total_high perils.now) }
{
    quad(perils, &NATURAL)
}

/// The capital requirement for man-made catastrophes, in grains, of the charges for motor, marine,
/// aviation, fire, liability, and credit and suretyship in grains (Article 128).
pub fn manmade(perils: &[Span; 6]) -> Span
    requires lows { NotNegative perils.now }
    requires highs { total_high perils.now ≤ 6_000_000_000_000_000_000 }
    ensures ends { ends result ≡ manmade_ends (all_ends perils.now) }
    ensures encloses { (figures : Figures) → EncloseAll 1000 (all_ends perils.now) figures
        → Encloses 1000 result.low result.high (manmade_figure figures) }
    ensures not_negative { pos 0 ≤ℤ result.low }
    ensures at_most_the_sum { result.high ≤ℤ pos (total_high perils.now) }
{
    quad(perils, &MANMADE)
}

/// The capital requirement for all catastrophes, in grains, of those for natural and for man-made
/// ones and of the charges for non-proportional property reinsurance and for other catastrophes,
/// all in grains (Article 119).
pub fn cat_all(nat: Span, manmade: Span, property: Span, other: Span) -> Span
    requires lows { NotNegative (nat ∷ manmade ∷ property ∷ other ∷ []) }
    requires highs { total_high (nat ∷ manmade ∷ property ∷ other ∷ [])
        ≤ 6_000_000_000_000_000_000 }
    ensures ends { ends result ≡ cat_ends (ends nat) (ends manmade) (ends property) (ends other) }
    ensures encloses { (f g h k : Figure) → Encloses 1000 nat.low nat.high f
        → Encloses 1000 manmade.low manmade.high g → Encloses 1000 property.low property.high h
        → Encloses 1000 other.low other.high k
        → Encloses 1000 result.low result.high (cat_figure f g h k) }
    ensures not_negative { pos 0 ≤ℤ result.low }
    ensures at_most_the_sum { result.high
        ≤ℤ pos (total_high (nat ∷ manmade ∷ property ∷ other ∷ [])) }
{
    let natural = add(nat, property);
    quad(&[natural, manmade, other], &CATASTROPHES)
}
