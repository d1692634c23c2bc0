//! The adjustments for loss absorption, and the Solvency Capital Requirement.

ghost use Rattle.std.specs.Prelude.{◌≡◌, ◌*◌, ◌≤◌, pos, ◌+ℤ◌, ◌≤ℤ◌, unsigned_abs};
ghost use Rattle.scr_num.specs.Figure.{Figure};
ghost use Rattle.scr_num.specs.Enclosure.{Encloses};
ghost use Rattle.scr_num.specs.Rounding.{ends};
ghost use Rattle.scr_profile.specs.declared.limits.TheConstants.{MAX_AMOUNT};
ghost use Rattle.scr_loss.specs.Absorption.{adj_tp_figure, adj_dt_figure, scr_figure};
ghost use Rattle.scr_loss.specs.AbsorptionEnds.{absorbed_ends, adj_tp_ends, tax_ends, adj_dt_ends, scr_ends};

use crate::nil::or_nil;
use scr_num::{Span, add, cents, exact, max, min, scale, sub};

/// The adjustment for the loss-absorbing capacity of technical provisions, in grains, thousandths
/// of a cent, of the Basic Solvency Capital Requirement gross and net in grains and of future
/// discretionary benefits in cents: Delegated Regulation (EU) 2015/35, Article 206. It is at most
/// 0.
pub fn adj_tp(bscr: Span, net: Span, fdb: u64) -> Span
    requires bscr_low { unsigned_abs bscr.low ≤ 5_000_000_000_000_000_000 }
    requires bscr_high { unsigned_abs bscr.high ≤ 5_000_000_000_000_000_000 }
    requires net_low { unsigned_abs net.low ≤ 5_000_000_000_000_000_000 }
    requires net_high { unsigned_abs net.high ≤ 5_000_000_000_000_000_000 }
    requires fdb { fdb ≤ MAX_AMOUNT }
    ensures ends { ends result ≡ adj_tp_ends (ends bscr) (ends net) fdb }
    ensures encloses { (f g : Figure) → Encloses 1000 bscr.low bscr.high f
        → Encloses 1000 net.low net.high g
        → Encloses 1000 result.low result.high (adj_tp_figure f g fdb) }
    ensures not_positive { result.high ≤ℤ pos 0 }
    ensures at_most_the_benefits { pos 0 ≤ℤ (result.low +ℤ pos (1000 * fdb)) }
{
    sub(exact(0), absorbed(bscr, net, fdb))
}

// What technical provisions absorb: no more than the benefits, and no less than 0.
fn absorbed(bscr: Span, net: Span, fdb: u64) -> Span
    requires bscr_low { unsigned_abs bscr.low ≤ 5_000_000_000_000_000_000 }
    requires bscr_high { unsigned_abs bscr.high ≤ 5_000_000_000_000_000_000 }
    requires net_low { unsigned_abs net.low ≤ 5_000_000_000_000_000_000 }
    requires net_high { unsigned_abs net.high ≤ 5_000_000_000_000_000_000 }
    requires fdb { fdb ≤ MAX_AMOUNT }
    ensures ends { ends result ≡ absorbed_ends (ends bscr) (ends net) fdb }
    ensures not_negative { pos 0 ≤ℤ result.low }
    ensures at_most { result.high ≤ℤ pos (1000 * fdb) }
{
    let limited = min(sub(bscr, net), cents(fdb));
    max(limited, exact(0))
}

/// The adjustment for the loss-absorbing capacity of deferred taxes, in grains, of the Basic
/// Solvency Capital Requirement, the adjustment for technical provisions and operational risk in
/// grains, and of the rate of tax in millionths and its cap in cents (Article 207). It is at most
/// 0.
pub fn adj_dt(bscr: Span, tp: Span, op: Span, rate: u32, cap: u64) -> Span
    requires bscr_low { unsigned_abs bscr.low ≤ 5_000_000_000_000_000_000 }
    requires bscr_high { unsigned_abs bscr.high ≤ 5_000_000_000_000_000_000 }
    requires tp_low { unsigned_abs tp.low ≤ 5_000_000_000_000_000_000 }
    requires tp_high { unsigned_abs tp.high ≤ 5_000_000_000_000_000_000 }
    requires op_low { unsigned_abs op.low ≤ 5_000_000_000_000_000_000 }
    requires op_high { unsigned_abs op.high ≤ 5_000_000_000_000_000_000 }
    requires rate { rate ≤ 1_000_000 }
    requires cap { cap ≤ MAX_AMOUNT }
    ensures ends { ends result ≡ adj_dt_ends (ends bscr) (ends tp) (ends op) rate cap }
    ensures encloses { (f g h : Figure) → Encloses 1000 bscr.low bscr.high f
        → Encloses 1000 tp.low tp.high g
        → Encloses 1000 op.low op.high h
        → Encloses 1000 result.low result.high (adj_dt_figure f g h rate cap) }
    ensures not_positive { result.high ≤ℤ pos 0 }
    ensures at_most_the_cap { pos 0 ≤ℤ (result.low +ℤ pos (1000 * cap)) }
{
    let loss = or_nil(add(add(bscr, tp), op));
    sub(exact(0), tax(loss, rate, cap))
}

// The tax on a loss that is not below 0, and no more than the cap.
fn tax(loss: Span, rate: u32, cap: u64) -> Span
    requires not_negative { pos 0 ≤ℤ loss.low }
    requires low { unsigned_abs loss.low ≤ 15_000_000_000_000_000_000 }
    requires high { unsigned_abs loss.high ≤ 15_000_000_000_000_000_000 }
    requires rate { rate ≤ 1_000_000 }
    requires cap { cap ≤ MAX_AMOUNT }
    ensures ends { ends result ≡ tax_ends (ends loss) rate cap }
    ensures not_negative { pos 0 ≤ℤ result.low }
    ensures at_most { result.high ≤ℤ pos (1000 * cap) }
{
    min(scale(loss, u128::from(rate), 1_000_000), cents(cap))
}

/// The Solvency Capital Requirement, in grains: the basic one, both adjustments and operational
/// risk (Directive 2009/138/EC, Article 103).
pub fn scr(bscr: Span, tp: Span, dt: Span, op: Span) -> Span
    requires bscr_low { unsigned_abs bscr.low ≤ 5_000_000_000_000_000_000 }
    requires bscr_high { unsigned_abs bscr.high ≤ 5_000_000_000_000_000_000 }
    requires tp_low { unsigned_abs tp.low ≤ 5_000_000_000_000_000_000 }
    requires tp_high { unsigned_abs tp.high ≤ 5_000_000_000_000_000_000 }
    requires dt_low { unsigned_abs dt.low ≤ 5_000_000_000_000_000_000 }
    requires dt_high { unsigned_abs dt.high ≤ 5_000_000_000_000_000_000 }
    requires op_low { unsigned_abs op.low ≤ 5_000_000_000_000_000_000 }
    requires op_high { unsigned_abs op.high ≤ 5_000_000_000_000_000_000 }
    ensures low { result.low ≡ bscr.low +ℤ tp.low +ℤ dt.low +ℤ op.low }
    ensures high { result.high ≡ bscr.high +ℤ tp.high +ℤ dt.high +ℤ op.high }
    ensures ends { ends result ≡ scr_ends (ends bscr) (ends tp) (ends dt) (ends op) }
    ensures encloses { (f g h i : Figure) → Encloses 1000 bscr.low bscr.high f
        → Encloses 1000 tp.low tp.high g
        → Encloses 1000 dt.low dt.high h → Encloses 1000 op.low op.high i
        → Encloses 1000 result.low result.high (scr_figure f g h i) }
{
    add(add(add(bscr, tp), dt), op)
}
