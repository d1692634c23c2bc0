//! The choice among alternative scenarios.

ghost use Rattle.std.specs.Prelude.{◌≡◌, ◌↔◌, ℕ, ◌+◌, ◌^◌, ◌<◌, ◌≤◌, pos, ◌≤ℤ◌, false, length};
ghost use Rattle.std.specs.Prelude.{IsBitSet, IsTrue, IfSome, IfNone, List};
ghost use Rattle.std.specs.List.{AllByRecursion};
ghost use Rattle.scr_num.specs.Figure.{Frac};
ghost use Rattle.scr_num.specs.Enclosure.{Encloses};
ghost use Rattle.scr_num.specs.Narrow.{IsNarrow};
ghost use Rattle.scr_num.specs.Rounding.{ends, hull_ends};
ghost use Rattle.scr_agg.specs.Choice.{Outcome, IsChosen, outcome_at};
ghost use Rattle.scr_agg.specs.Unbeaten as spec;
ghost use Rattle.scr_agg.specs.Unbeaten.{alternative, alternatives, unbeaten, mask_of};
ghost use Rattle.scr_agg.specs.Unbeaten.{chosen_gross, chosen_net, EncloseOutcomes};
ghost use Rattle.scr_agg.specs.Nearness.{HasOpen};

use crate::{Picked, Scenario};
use scr_num::{Span, hull, max};

/// The scenario that decides: the one with the greatest net requirement, then the greatest gross
/// one, then the first listed (Delegated Regulation (EU) 2015/35, Article 206(2)). Where the ends
/// leave it open which one it is, the gross requirement spans those of all that may decide, and the
/// net one is the greatest, end by end. It is left open only between scenarios whose requirements are
/// at most twice as far apart as their own ends.
pub fn pick(list: &[Scenario]) -> Picked
    requires some { 1 ≤ length list.now }
    requires few { length list.now ≤ 8 }
    ensures mask { result.mask ≡ mask_of (alternatives list.now) }
    ensures close { IsTrue result.close ↔ (2 ≤ length (unbeaten (alternatives list.now))) }
    ensures gross { ends result.gross ≡ chosen_gross (alternatives list.now) }
    ensures net { ends result.net ≡ chosen_net (alternatives list.now) }
    ensures bits { (place : ℕ) → place < length list.now
        → IsBitSet result.mask place ↔ (spec.is_beaten (alternatives list.now) place ≡ false) }
    ensures no_other_bits { result.mask < 2 ^ length list.now }
    ensures one_at_least { 1 ≤ result.mask }
    ensures chosen { (unit : ℕ) (outcomes : List Outcome) (place : ℕ)
        → EncloseOutcomes unit (alternatives list.now) outcomes → IsChosen outcomes place
        → IsBitSet result.mask place
        × Encloses unit result.gross.low result.gross.high (Frac (outcome_at outcomes place).gross)
        × Encloses unit result.net.low result.net.high (Frac (outcome_at outcomes place).net) }
    ensures gap { (unit w : ℕ) (outcomes : List Outcome)
        → EncloseOutcomes unit (alternatives list.now) outcomes
        → AllByRecursion (λ a. IsNarrow w a.gross) (alternatives list.now)
        → AllByRecursion (λ a. IsNarrow w a.net) (alternatives list.now) → IsTrue result.close
        → HasOpen unit (w + w) (alternatives list.now) outcomes }
{
    Picked {
        gross: gross_of(list),
        net: net_of(list),
        mask: mask(list),
        close: unbeaten_count(list) >= 2,
    }
}

fn mask(list: &[Scenario]) -> u8
    requires { length list.now ≤ 8 }
    ensures { result ≡ mask_of (alternatives list.now) }
{
    let mut mask = 0;
    for i in 0..list.len() {
        if !is_beaten(list, i) {
            mask += bit(i);
        }
    }
    mask
}

fn bit(place: usize) -> u8
    requires { place < 8 }
    ensures { result ≡ 2 ^ place }
{
    1 << place
}

fn unbeaten_count(list: &[Scenario]) -> usize
    ensures { result ≡ length (unbeaten (alternatives list.now)) }
{
    let mut count = 0;
    for i in 0..list.len() {
        if !is_beaten(list, i) {
            count += 1;
        }
    }
    count
}

fn gross_of(list: &[Scenario]) -> Span
    requires { 1 ≤ length list.now }
    ensures { ends result ≡ chosen_gross (alternatives list.now) }
{
    let mut gross = None;
    for i in 0..list.len() {
        if !is_beaten(list, i) {
            gross = Some(joined(gross, list[i].gross));
        }
    }
    match gross {
        Some(span) => span,
        None => unreachable!(),
    }
}

fn joined(so_far: Option<Span>, next: Span) -> Span
    ensures some { IfSome so_far (λ span. ends result ≡ hull_ends (ends span) (ends next)) }
    ensures none { IfNone so_far (ends result ≡ ends next) }
{
    match so_far {
        Some(span) => hull(span, next),
        None => next,
    }
}

fn net_of(list: &[Scenario]) -> Span
    requires { 1 ≤ length list.now }
    ensures { ends result ≡ chosen_net (alternatives list.now) }
{
    let mut net = list[0].net;
    for i in 1..list.len() {
        net = max(net, list[i].net);
    }
    net
}

// Whether some scenario beats the one at the place.
fn is_beaten(list: &[Scenario], place: usize) -> bool
    requires { place < length list.now }
    ensures { result ≡ spec.is_beaten (alternatives list.now) place }
{
    for j in 0..list.len() {
        if beats(&list[j], &list[place], j < place) {
            return true;
        }
    }
    false
}

// Whatever the exact requirements are, `a` is taken in place of `b`.
fn beats(a: &Scenario, b: &Scenario, earlier: bool) -> bool
    ensures { result ≡ spec.beats earlier (alternative a.now) (alternative b.now) }
{
    a.net.low > b.net.high || (are_one(a.net, b.net) && outweighs(a.gross, b.gross, earlier))
}

// The same by the gross requirements, where the net ones are equal.
fn outweighs(a: Span, b: Span, earlier: bool) -> bool
    ensures { result ≡ spec.outweighs earlier (ends a) (ends b) }
{
    a.low > b.high || (are_one(a, b) && earlier)
}

// Both are known exactly, and are equal.
fn are_one(a: Span, b: Span) -> bool
    ensures { result ≡ spec.are_one (ends a) (ends b) }
{
    a.low == a.high && b.low == b.high && a.low == b.low
}
