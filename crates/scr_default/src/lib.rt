//! The counterparty default risk module of the standard formula.
#![tactic(auto)]

ghost use Rattle.std.specs.Prelude.{◌≡◌, ℕ, ◌+◌, ◌<◌, pos, ◌+ℤ◌, ◌≤ℤ◌};
ghost use Rattle.scr_num.specs.Figure.{Figure};
ghost use Rattle.scr_num.specs.Amounts.{IsAmount};
ghost use Rattle.scr_num.specs.Enclosure.{Encloses};
ghost use Rattle.scr_num.specs.Rounding.{ends};
ghost use Rattle.scr_default.specs.Default.{default_figure};
ghost use Rattle.scr_default.specs.DefaultEnds.{default_ends};

mod banded;
mod classes;
pub mod laws;
mod losses;
mod numbers;
mod quotients;
mod terms;

pub use banded::{Banded, type1};
pub use losses::{lgd_bank, lgd_rein, type2};
use scr_agg::quad;
use scr_num::Span;
use scr_profile::DEFAULT;
pub use terms::variance;

/// The most that is lost by all defaults together, in grains: thousandths of a cent.
pub const MAX_LOSS: u64 = 10_000_000_000_000_000;

/// The capital requirement for counterparty default risk in grains: Delegated Regulation (EU) 2015/35, Article 189(1),
/// over those for type 1 and for type 2 exposures.
pub fn default(s1: Span, s2: Span) -> Span
    requires type1_low { pos 0 ≤ℤ s1.low }
    requires type2_low { pos 0 ≤ℤ s2.low }
    requires highs { (s1.high +ℤ s2.high) ≤ℤ pos 6_000_000_000_000_000_000 }
    ensures ends { ends result ≡ default_ends (ends s1) (ends s2) }
    ensures encloses { (unit : ℕ) → 0 < unit → (type1 type2 : Figure)
        → Encloses unit s1.low s1.high type1 → Encloses unit s2.low s2.high type2
        → Encloses unit result.low result.high (default_figure type1 type2) }
    ensures not_negative { pos 0 ≤ℤ result.low }
    ensures size { (m n : ℕ) → IsAmount m (ends s1) → IsAmount n (ends s2)
        → IsAmount (m + n) (ends result) }
    ensures at_most_the_sum { result.high ≤ℤ (s1.high +ℤ s2.high) }
{
    quad(&[s1, s2], &DEFAULT)
}
