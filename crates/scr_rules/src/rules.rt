//! The rules of figures that are reckoned from their sources alone.
ghost use Rattle.std.specs.Prelude.{◌≡◌, ◌^◌, ◌<◌, pos, map};
ghost use Rattle.scr_num.specs.Rounding.{ends, exact_ends, max_ends};
ghost use Rattle.scr_num.specs.Sizes.{AreTogether};
ghost use Rattle.scr_num.specs.Sums.{sum_ends};
ghost use Rattle.scr_agg.specs.Absorbed.{net_ends};
ghost use Rattle.scr_agg.specs.Unbeaten.{alternative, mask_of, chosen_gross, chosen_net};
ghost use Rattle.scr_flow.specs.LossEnds.{scaled_ends};
ghost use Rattle.scr_rate.specs.InterestEnds.{gross_ends};
ghost use Rattle.scr_rules.specs.Fits.{FitsScaled, FitsNet, FitsChoice, FitsFall};
ghost use Rattle.scr_rules.specs.RootFits.{FitsRoot};
ghost use Rattle.scr_rules.specs.Rules.{figure_at, amount_at, alternative_from, alternatives_from, chosen_from, fall_of, equities_ends};

use crate::spans::{amount, at};
use scr_agg::{Picked, Scenario, pick};
use scr_flow::per_million;
use scr_market::{equity_root, infra, infracorp, type1, type2};
use scr_nodes::{Equities, Measure};
use scr_num::{Span, add, exact, max};

/// So many cents of a unit that loses so much per 1,000,000.
pub(crate) fn scaled(spans: &[Span]) -> Span
    requires { FitsScaled (map ends spans.now) }
    ensures { ends result ≡ scaled_ends (figure_at (map ends spans.now) 1) (amount_at (map ends spans.now) 0) }
{
    per_million(at(spans, 1), amount(at(spans, 0)))
}

/// A sum in which a gain counts as nil.
pub(crate) fn lost(spans: &[Span]) -> Span
    requires { AreTogether (10 ^ 33) (map ends spans.now) }
    ensures { ends result ≡ max_ends (exact_ends (pos 0)) (sum_ends (map ends spans.now)) }
{
    max(exact(0), scr_rate::total(spans))
}

/// What an absorption of so many cents leaves.
pub(crate) fn net(spans: &[Span], absorb: u64) -> Span
    requires { FitsNet absorb (map ends spans.now) }
    ensures { ends result ≡ net_ends (figure_at (map ends spans.now) 0) absorb }
{
    scr_agg::net(at(spans, 0), absorb)
}

/// Which of the alternatives may be the one that decides, one bit for each.
pub(crate) fn choice(spans: &[Span]) -> Span
    requires { FitsChoice (map ends spans.now) }
    ensures { ends result ≡ exact_ends (pos (mask_of (alternatives_from (map ends spans.now)))) }
{
    exact(i128::from(decided(spans).mask))
}

/// What the one that decides comes to.
pub(crate) fn picked(spans: &[Span], measure: Measure) -> Span
    requires { FitsChoice (map ends spans.now) }
    ensures { ends result ≡ chosen_from measure (alternatives_from (map ends spans.now)) }
{
    let decided = decided(spans);
    match measure {
        Measure::Gross => decided.gross,
        Measure::Net => decided.net,
    }
}

fn decided(spans: &[Span]) -> Picked
    requires { FitsChoice (map ends spans.now) }
    ensures mask { result.mask ≡ mask_of (alternatives_from (map ends spans.now)) }
    ensures gross { ends result.gross ≡ chosen_gross (alternatives_from (map ends spans.now)) }
    ensures net { ends result.net ≡ chosen_net (alternatives_from (map ends spans.now)) }
{
    let count = spans.len() / 2;
    let mut list = [alternative(spans, 0); 8];
    for k in 0..count {
        list[k] = alternative(spans, k);
    }
    pick(&list[..count])
}

/// The gross and the net figure of the alternative at a place.
fn alternative(spans: &[Span], place: usize) -> Scenario
    requires { place < 8 }
    ensures { alternative result ≡ alternative_from (map ends spans.now) place }
{
    Scenario {
        gross: at(spans, 2 * place),
        net: at(spans, 2 * place + 1),
    }
}

/// The fall of one kind of equities, by the symmetric adjustment in millionths.
pub(crate) fn fall(spans: &[Span], kind: Equities, sym: i32) -> Span
    requires { FitsFall sym (map ends spans.now) }
    ensures { ends result ≡ fall_of kind sym (map ends spans.now) }
{
    let cents = amount(at(spans, 0));
    let strategic = amount(at(spans, 1));
    match kind {
        Equities::Type1 => type1(cents, strategic, sym),
        Equities::Type2 => type2(cents, strategic, sym),
        Equities::Infrastructure => infra(cents, sym),
        Equities::InfrastructureCorporate => infracorp(cents, sym),
    }
}

/// The root over type 1 equities and the sum of all others.
pub(crate) fn equities(spans: &[Span]) -> Span
    requires { FitsRoot 4 (map ends spans.now) }
    ensures { ends result ≡ equities_ends (map ends spans.now) }
{
    let others = add(add(at(spans, 1), at(spans, 2)), at(spans, 3));
    equity_root(at(spans, 0), others)
}
