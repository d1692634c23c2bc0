//! The figures of a node's sources, by their places.
ghost use Rattle.std.specs.Prelude.{◌≡◌, ◌≤◌, map};
ghost use Rattle.scr_num.specs.Amounts.{IsAmount};
ghost use Rattle.scr_num.specs.Rounding.{ends};
ghost use Rattle.scr_profile.specs.declared.limits.TheConstants.{MAX_HELD};
ghost use Rattle.scr_rules.specs.Rules.{figure_at, amount_of};

use scr_num::{Span, exact};

/// The figure at a place, 0 where a source is missing.
pub(crate) fn at(spans: &[Span], place: usize) -> Span
    ensures { ends result ≡ figure_at (map ends spans.now) place }
{
    match spans.get(place) {
        Some(span) => *span,
        None => exact(0),
    }
}

/// A figure that is a whole number of cents.
pub(crate) fn amount(span: Span) -> u64
    requires { IsAmount MAX_HELD (ends span) }
    ensures value { result ≡ amount_of (ends span) }
    ensures small { result ≤ MAX_HELD }
{
    span.low as u64
}
