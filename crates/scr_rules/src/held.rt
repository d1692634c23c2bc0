//! What is held of a fund or a security, from the totals of the funds that hold it.
ghost use Rattle.std.specs.Prelude.{◌≡◌, ◌+◌, ◌*◌, ◌/◌, ◌^◌, ◌<◌, ◌≤◌, pos, true, false, MatchOption, map, sum_by};
ghost use Rattle.std.specs.List.{list_any};
ghost use Rattle.scr_num.specs.Rounding.{ends, exact_ends};
ghost use Rattle.scr_sheet.specs.Records.{natural};
ghost use Rattle.scr_sheet.specs.Validity.{Valid, IsStake};
ghost use Rattle.scr_nodes.specs.Rows.{holds, holders, share_in, is_component, weights_before, weights_through};
ghost use Rattle.scr_rules.specs.Fits.{FitsHeld, IsShare};
ghost use Rattle.scr_rules.specs.Rules.{part_of, parts_held};
ghost use Rattle.scr_rules.specs.Weights.{AreWeights, shown};
ghost use Rattle.scr_profile.specs.declared.limits.TheConstants.{MAX_HELD};

use crate::by_weight::ByWeight;
use crate::spans::{amount, at};
use scr_book::{BalanceSheet, Name, Stake};
use scr_num::{Span, exact};

/// So many cents, and the parts in all funds that hold what has this name, whose totals are those of the spans (Article 84 of
/// Delegated Regulation (EU) 2015/35). The cost is that of a walk along the funds and their components up to the last fund
/// that holds it; of what no fund holds none is looked at.
pub(crate) fn held(sheet: &BalanceSheet, name: &Name, cents: u64, spans: &[Span]) -> Span
    requires valid { Valid sheet.now }
    requires fits { FitsHeld cents (map (share_in name.now) (holders name.now sheet.now)) (map ends spans.now) }
    ensures { ends result
        ≡ exact_ends (pos (cents + parts_held (map (share_in name.now) (holders name.now sheet.now)) (map ends spans.now))) }
{
    let mut sum = cents;
    let mut next = 0;
    for k in 0..sheet.funds.len() {
        if next == spans.len() {
            break;
        }
        let stake = sheet.funds.at(k);
        match share_of(name, stake) {
            Some(share) => {
                sum += part(amount(at(spans, next)), share);
                next += 1;
            }
            None => {}
        }
    }
    exact(i128::from(sum))
}

/// The share of what has this name in a fund, if the fund holds it.
fn share_of(name: &Name, stake: &Stake) -> Option<ByWeight>
    requires { IsStake stake.now }
    ensures { MatchOption result (holds name.now stake.now ≡ false)
        (λ share. (holds name.now stake.now ≡ true) × (shown share ≡ share_in name.now stake.now)) }
{
    let components = stake.fund.components.as_slice();
    let (before, weight) = weights(name, components)?;
    Some(ByWeight {
        before,
        through: before + weight,
        all: all_weights(components),
    })
}

/// The weights before the first component of this name, and its own.
fn weights(name: &Name, components: &[(Name, i64)]) -> Option<(u64, u64)>
    requires { AreWeights components.now }
    ensures { MatchOption result (list_any (is_component name.now) components.now ≡ false)
        (λ found. (list_any (is_component name.now) components.now ≡ true) × (found.0 ≡ weights_before name.now components.now)
        × (found.0 + found.1 ≡ weights_through name.now components.now)) }
{
    let mut before = 0;
    for (component, weight) in components {
        if *component == *name {
            return Some((before, weight.unsigned_abs()));
        }
        before += weight.unsigned_abs();
    }
    None
}

fn all_weights(components: &[(Name, i64)]) -> u64
    requires { AreWeights components.now }
    ensures { result ≡ sum_by (λ c. natural c.1) components.now }
{
    let mut all = 0;
    for (_, weight) in components {
        all += weight.unsigned_abs();
    }
    all
}

/// The part of a component in a fund of so many cents.
fn part(cents: u64, share: ByWeight) -> u64
    requires held { cents ≤ MAX_HELD }
    requires share { IsShare (shown share) }
    ensures value { result ≡ part_of cents (shown share) }
{
    first_part(cents, share.through, share.all) - first_part(cents, share.before, share.all)
}

/// What components of these weights have together of a fund of so many cents.
fn first_part(cents: u64, weights: u64, all: u64) -> u64
    requires held { cents ≤ MAX_HELD }
    requires some { 0 < all }
    requires within { weights ≤ all }
    requires small { all ≤ 10 ^ 12 }
    ensures value { result ≡ cents * weights / all }
{
    (u128::from(cents) * u128::from(weights) / u128::from(all)) as u64
}
