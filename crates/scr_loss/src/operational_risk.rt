//! Operational risk.

ghost use Rattle.std.specs.Prelude.{◌≡◌, ◌*◌, ◌<◌, ◌≤◌, pos, ◌+ℤ◌, ◌-ℤ◌, ◌≤ℤ◌, unsigned_abs};
ghost use Rattle.scr_num.specs.Figure.{Figure};
ghost use Rattle.scr_num.specs.Enclosure.{Encloses};
ghost use Rattle.scr_num.specs.Rounding.{ends, exact_ends, max_ends, min_ends, scale_ends};
ghost use Rattle.scr_profile.specs.declared.limits.TheConstants.{MAX_AMOUNT};
ghost use Rattle.scr_loss.specs.Operational.{IsWithinLimits, prem_figure, prov_figure, cap_figure, op_figure};
ghost use Rattle.scr_loss.specs.OperationalEnds.{fifths_beyond, counted_ends, or_nil_ends, level_ends, growth_ends, prem_ends, prov_ends, cap_ends, op_ends};

use crate::charges::Operational;
use crate::nil::or_nil;
use scr_num::{Span, add, exact, max, min, scale};
use scr_profile::OpInput;

/// The capital requirement for operational risk, of the Basic Solvency Capital Requirement in
/// grains and of premiums and provisions: Delegated Regulation (EU) 2015/35, Article 204.
pub fn operational(bscr: Span, op: &OpInput) -> Operational
    requires low { unsigned_abs bscr.low ≤ 5_000_000_000_000_000_000 }
    requires high { unsigned_abs bscr.high ≤ 5_000_000_000_000_000_000 }
    requires input { IsWithinLimits op.now }
    ensures prem { ends result.prem ≡ prem_ends op.now }
    ensures prov { ends result.prov ≡ prov_ends op.now }
    ensures cap { ends result.cap ≡ cap_ends (ends bscr) }
    ensures op { ends result.op ≡ op_ends (cap_ends (ends bscr)) (prem_ends op.now)
        (prov_ends op.now) op.now.expul }
    ensures prem_within { Encloses 1000 result.prem.low result.prem.high (prem_figure op.now) }
    ensures prov_within { Encloses 1000 result.prov.low result.prov.high (prov_figure op.now) }
    ensures cap_within { (f : Figure) → Encloses 1000 bscr.low bscr.high f
        → Encloses 1000 result.cap.low result.cap.high (cap_figure f) }
    ensures op_within { (f : Figure) → Encloses 1000 bscr.low bscr.high f
        → Encloses 1000 result.op.low result.op.high
        (op_figure (cap_figure f) (prem_figure op.now) (prov_figure op.now) op.now.expul) }
{
    let prem = prem(op);
    let prov = prov(op);
    let cap = cap(bscr);
    Operational {
        prem,
        prov,
        cap,
        op: self::op(cap, prem, prov, op.expul),
    }
}

/// Operational risk by premiums, in grains (Article 204(3)).
pub fn prem(input: &OpInput) -> Span
    requires { IsWithinLimits input.now }
    ensures ends { ends result ≡ prem_ends input.now }
    ensures encloses { Encloses 1000 result.low result.high (prem_figure input.now) }
    ensures low_size { unsigned_abs result.low ≤ 20_000_000_000_000_000 }
    ensures high_size { unsigned_abs result.high ≤ 20_000_000_000_000_000 }
{
    add(level(input), growth(input))
}

// Of premiums as they are.
fn level(input: &OpInput) -> Span
    requires { IsWithinLimits input.now }
    ensures ends { ends result ≡ level_ends input.now }
    ensures low_size { unsigned_abs result.low ≤ 10_000_000_000_000_000 }
    ensures high_size { unsigned_abs result.high ≤ 10_000_000_000_000_000 }
{
    let life = counted(i128::from(input.el) - i128::from(input.eul), 40);
    add(life, counted(i128::from(input.en), 30))
}

// Of what they have grown beyond 20 percent.
fn growth(input: &OpInput) -> Span
    requires { IsWithinLimits input.now }
    ensures ends { ends result ≡ growth_ends input.now }
    ensures low_size { unsigned_abs result.low ≤ 10_000_000_000_000_000 }
    ensures high_size { unsigned_abs result.high ≤ 10_000_000_000_000_000 }
{
    let life = counted(life_beyond(input), 8);
    let nonlife = counted(beyond(input.en, input.pen), 6);
    add(or_nil(life), or_nil(nonlife))
}

// What those of life are, without the contracts where policyholders bear the investment risk.
fn life_beyond(input: &OpInput) -> i128
    requires { IsWithinLimits input.now }
    ensures value { result
        ≡ fifths_beyond input.now.el input.now.pel -ℤ fifths_beyond input.now.eul input.now.peul }
    ensures size { unsigned_abs result ≤ 120_000_000_000_000 }
{
    beyond(input.el, input.pel) - beyond(input.eul, input.peul)
}

// What premiums are above 1.2 times those of the year before, in fifths of a cent.
fn beyond(now: u64, before: u64) -> i128
    requires now { now ≤ MAX_AMOUNT }
    requires before { before ≤ MAX_AMOUNT }
    ensures value { result ≡ fifths_beyond now before }
    ensures size { unsigned_abs result ≤ 60_000_000_000_000 }
{
    i128::from(now) * 5 - i128::from(before) * 6
}

// So many units, of each of which so many grains count.
fn counted(units: i128, grains: u128) -> Span
    requires units { unsigned_abs units ≤ 120_000_000_000_000 }
    requires grains { grains ≤ 40 }
    ensures ends { ends result ≡ counted_ends units grains }
    ensures low_size { unsigned_abs result.low ≤ 4_800_000_000_000_000 }
    ensures high_size { unsigned_abs result.high ≤ 4_800_000_000_000_000 }
{
    scale(exact(units), grains, 1)
}

/// Operational risk by provisions, in grains (Article 204(4)).
pub fn prov(input: &OpInput) -> Span
    requires { IsWithinLimits input.now }
    ensures ends { ends result ≡ prov_ends input.now }
    ensures encloses { Encloses 1000 result.low result.high (prov_figure input.now) }
    ensures not_negative { pos 0 ≤ℤ result.low }
    ensures low_size { unsigned_abs result.low ≤ 390_000_000_000_000 }
    ensures high_size { unsigned_abs result.high ≤ 390_000_000_000_000 }
{
    let life = provisions(difference(input.tpl, input.tpul), 9, 2);
    add(life, provisions(i128::from(input.tpn), 30, 1))
}

fn difference(a: i64, b: i64) -> i128
    requires a { unsigned_abs a ≤ MAX_AMOUNT }
    requires b { unsigned_abs b ≤ MAX_AMOUNT }
    ensures value { result ≡ a -ℤ b }
    ensures size { unsigned_abs result ≤ 20_000_000_000_000 }
{
    i128::from(a) - i128::from(b)
}

// Of so many cents that are not below 0 that share, in grains.
fn provisions(cents: i128, num: u128, den: u128) -> Span
    requires cents { unsigned_abs cents ≤ 20_000_000_000_000 }
    requires num { num ≤ 30 }
    requires positive { 0 < den }
    ensures ends { ends result ≡ scale_ends (or_nil_ends (exact_ends cents)) num den }
    ensures low_size { unsigned_abs result.low ≤ 600_000_000_000_000 }
    ensures high_size { unsigned_abs result.high ≤ 600_000_000_000_000 }
{
    scale(or_nil(exact(cents)), num, den)
}

/// What operational risk by premiums and provisions is limited to, in grains: 30 percent of the
/// Basic Solvency Capital Requirement (Article 204(1)).
pub fn cap(bscr: Span) -> Span
    requires low { unsigned_abs bscr.low ≤ 5_000_000_000_000_000_000 }
    requires high { unsigned_abs bscr.high ≤ 5_000_000_000_000_000_000 }
    ensures ends { ends result ≡ cap_ends (ends bscr) }
    ensures encloses { (f : Figure) → Encloses 1000 bscr.low bscr.high f
        → Encloses 1000 result.low result.high (cap_figure f) }
    ensures low_size { unsigned_abs result.low ≤ 1_500_000_000_000_000_000 }
    ensures high_size { unsigned_abs result.high ≤ 1_500_000_000_000_000_000 }
{
    scale(bscr, 3, 10)
}

/// Operational risk of its parts, in grains, and of the expenses for contracts where policyholders
/// bear the investment risk, in cents (Article 204(1) and (2)).
pub fn op(cap: Span, prem: Span, prov: Span, expul: u64) -> Span
    requires cap_low { unsigned_abs cap.low ≤ 5_000_000_000_000_000_000 }
    requires cap_high { unsigned_abs cap.high ≤ 5_000_000_000_000_000_000 }
    requires prem_low { unsigned_abs prem.low ≤ 5_000_000_000_000_000_000 }
    requires prem_high { unsigned_abs prem.high ≤ 5_000_000_000_000_000_000 }
    requires prov_low { unsigned_abs prov.low ≤ 5_000_000_000_000_000_000 }
    requires prov_high { unsigned_abs prov.high ≤ 5_000_000_000_000_000_000 }
    requires expul { expul ≤ MAX_AMOUNT }
    ensures ends { ends result ≡ op_ends (ends cap) (ends prem) (ends prov) expul }
    ensures encloses { (f g h : Figure) → Encloses 1000 cap.low cap.high f
        → Encloses 1000 prem.low prem.high g
        → Encloses 1000 prov.low prov.high h
        → Encloses 1000 result.low result.high (op_figure f g h expul) }
    ensures at_most { result.high ≤ℤ (cap.high +ℤ pos (250 * expul)) }
    ensures not_negative { pos 0 ≤ℤ cap.low → pos 0 ≤ℤ prov.low → pos 0 ≤ℤ result.low }
{
    add(limited(cap, prem, prov), expenses(expul))
}

// The greater of both, and no more than the cap.
fn limited(cap: Span, prem: Span, prov: Span) -> Span
    requires cap_low { unsigned_abs cap.low ≤ 5_000_000_000_000_000_000 }
    requires cap_high { unsigned_abs cap.high ≤ 5_000_000_000_000_000_000 }
    requires prem_low { unsigned_abs prem.low ≤ 5_000_000_000_000_000_000 }
    requires prem_high { unsigned_abs prem.high ≤ 5_000_000_000_000_000_000 }
    requires prov_low { unsigned_abs prov.low ≤ 5_000_000_000_000_000_000 }
    requires prov_high { unsigned_abs prov.high ≤ 5_000_000_000_000_000_000 }
    ensures ends { ends result ≡ min_ends (ends cap) (max_ends (ends prem) (ends prov)) }
    ensures low_size { unsigned_abs result.low ≤ 5_000_000_000_000_000_000 }
    ensures high_size { unsigned_abs result.high ≤ 5_000_000_000_000_000_000 }
    ensures at_most { result.high ≤ℤ cap.high }
    ensures not_negative { pos 0 ≤ℤ cap.low → pos 0 ≤ℤ prov.low → pos 0 ≤ℤ result.low }
{
    min(cap, max(prem, prov))
}

// A quarter of so many cents, in grains.
fn expenses(cents: u64) -> Span
    requires { cents ≤ MAX_AMOUNT }
    ensures low { result.low ≡ pos (250 * cents) }
    ensures high { result.high ≡ pos (250 * cents) }
    ensures ends { ends result ≡ exact_ends (pos (250 * cents)) }
{
    exact(i128::from(cents) * 250)
}
