//! The rules of charges that are handed in, of segments, of catastrophes, and of the non-life and health modules.
ghost use Rattle.std.specs.Prelude.{◌≡◌, map};
ghost use Rattle.scr_num.specs.Rounding.{ends};
ghost use Rattle.scr_nonlife.specs.SegmentEnds.{segment_ends};
ghost use Rattle.scr_nodes.specs.OwnOf.{volumes_in_regions, deviations_of, segment_correlations};
ghost use Rattle.scr_rules.specs.RootFits.{FitsRoot};
ghost use Rattle.scr_rules.specs.NonlifeFits.{FitsCharged, FitsSegment, FitsPremiumReserve, FitsNonlife, FitsNslt};
ghost use Rattle.scr_rules.specs.NonlifeRules.{charged_ends, premium_reserve_from, natural_from, man_made_from, catastrophes_from, health_catastrophe_from, nonlife_from, nslt_from, health_from};

use crate::spans::at;
use scr_factors::{Factors, NSLT, Set};
use scr_nodes::single_numbers::volumes_in_regions;
use scr_num::{Span, exact};
use scr_profile::Segment;
use scr_sheet::Numbers;

/// So many grains for each of so many cents.
pub(crate) fn charged(times: u64, cents: u64) -> Span
    requires { FitsCharged times cents }
    ensures { ends result ≡ charged_ends times cents }
{
    exact(i128::from(times * cents))
}

/// The standard deviation of a segment times its volume.
pub(crate) fn segment_deviation(factors: &Factors, numbers: &Numbers, segment: Segment) -> Span
    requires { FitsSegment (volumes_in_regions segment numbers.now) (deviations_of factors.now segment).0
        (deviations_of factors.now segment).1 }
    ensures { ends result ≡ segment_ends (volumes_in_regions segment numbers.now) (deviations_of factors.now segment).0
        (deviations_of factors.now segment).1 }
{
    let (premium, reserve) = factors.sigma(segment.set(), segment.number());
    scr_nonlife::segment(volumes_in_regions(numbers, segment), premium, reserve)
}

/// Three times the root over the segments of a set.
pub(crate) fn premium_reserve(factors: &Factors, spans: &[Span], set: Set) -> Span
    requires { FitsPremiumReserve (segment_correlations factors.now set) (map ends spans.now) }
    ensures { ends result ≡ premium_reserve_from (segment_correlations factors.now set) (map ends spans.now) }
{
    match set {
        Set::Nl => scr_nonlife::premium_reserve(spans, factors.corr()),
        Set::Nslt => scr_nonlife::premium_reserve(spans, &NSLT),
    }
}

/// Natural catastrophes, from five perils.
pub(crate) fn natural(spans: &[Span]) -> Span
    requires { FitsRoot 5 (map ends spans.now) }
    ensures { ends result ≡ natural_from (map ends spans.now) }
{
    scr_nonlife::nat(&[
        at(spans, 0),
        at(spans, 1),
        at(spans, 2),
        at(spans, 3),
        at(spans, 4),
    ])
}

/// Man-made catastrophes, from six perils.
pub(crate) fn man_made(spans: &[Span]) -> Span
    requires { FitsRoot 6 (map ends spans.now) }
    ensures { ends result ≡ man_made_from (map ends spans.now) }
{
    scr_nonlife::manmade(&[
        at(spans, 0),
        at(spans, 1),
        at(spans, 2),
        at(spans, 3),
        at(spans, 4),
        at(spans, 5),
    ])
}

/// All catastrophes of non-life.
pub(crate) fn catastrophes(spans: &[Span]) -> Span
    requires { FitsRoot 4 (map ends spans.now) }
    ensures { ends result ≡ catastrophes_from (map ends spans.now) }
{
    scr_nonlife::cat_all(at(spans, 0), at(spans, 1), at(spans, 2), at(spans, 3))
}

/// Catastrophes of health.
pub(crate) fn health_catastrophe(spans: &[Span]) -> Span
    requires { FitsRoot 3 (map ends spans.now) }
    ensures { ends result ≡ health_catastrophe_from (map ends spans.now) }
{
    scr_bio::health_catastrophe(&[at(spans, 0), at(spans, 1), at(spans, 2)])
}

/// Non-life, of which the charge for lapse risk is handed in.
pub(crate) fn nonlife(spans: &[Span], lapse: u64) -> Span
    requires { FitsNonlife lapse (map ends spans.now) }
    ensures { ends result ≡ nonlife_from lapse (map ends spans.now) }
{
    scr_nonlife::nonlife(at(spans, 0), at(spans, 1), lapse)
}

/// Health that is not similar to life, of which the charge for lapse risk is handed in.
pub(crate) fn nslt(spans: &[Span], lapse: u64) -> Span
    requires { FitsNslt lapse (map ends spans.now) }
    ensures { ends result ≡ nslt_from lapse (map ends spans.now) }
{
    scr_bio::nslt(at(spans, 0), lapse)
}

/// Health.
pub(crate) fn health(spans: &[Span]) -> Span
    requires { FitsRoot 3 (map ends spans.now) }
    ensures { ends result ≡ health_from (map ends spans.now) }
{
    scr_bio::health(at(spans, 0), at(spans, 1), at(spans, 2))
}
