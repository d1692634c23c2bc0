//! The property risk sub-module.

ghost use Rattle.std.specs.Prelude.{◌≡◌, ◌≤◌};
ghost use Rattle.scr_num.specs.Rounding.{ends};
ghost use Rattle.scr_num.specs.Amounts.{IsAmount};
ghost use Rattle.scr_num.specs.Enclosure.{Encloses};
ghost use Rattle.scr_profile.specs.declared.limits.TheConstants.{MAX_HELD};
ghost use Rattle.scr_market.specs.Property.{property_figure};
ghost use Rattle.scr_market.specs.PropertyEnds.{property_ends};

use scr_num::{Span, exact};

/// The most grains of property risk.
pub const MAX_PROPERTY: u128 = 12_500_000_000_000_000;

/// The capital requirement for property risk in grains, thousandths of a cent, from the cents held
/// in immovable property: Delegated Regulation (EU) 2015/35, Article 174.
pub fn property(sum: u64) -> Span
    requires held { sum ≤ MAX_HELD }
    ensures ends { ends result ≡ property_ends sum }
    ensures encloses { Encloses 1000 result.low result.high (property_figure sum) }
    ensures size { IsAmount MAX_PROPERTY (ends result) }
{
    exact(250 * i128::from(sum))
}
