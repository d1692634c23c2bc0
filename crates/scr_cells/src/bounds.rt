//! The bounds of a figure, in cents.
ghost use Rattle.std.specs.Prelude.{◌≡◌, ◌<◌, ◌≤ℤ◌, pos, true};
ghost use Rattle.scr_num.specs.Rounding.{ceil_div, ends, floor_div};
ghost use Rattle.scr_nodes.specs.Live.{is_live};
ghost use Rattle.scr_cells.specs.Block.{bounds_at, bounds_of};

use scr_nodes::Node;
use scr_num::Span;
use scr_tree::Engine;

/// So many grains are a cent.
const GRAINS: u64 = 1_000;

/// What 64 bits count up to.
const WORDS: i128 = 1 << 64;

/// The bounds of a figure in cents, and whether it rests on a choice that is left open.
#[derive(Clone, Copy)]
pub(crate) struct Bounds {
    pub(crate) low: i128,
    pub(crate) high: i128,
    pub(crate) close: bool,
}

/// The bounds of a figure in grains, rounded outward to cents.
pub(crate) fn bounds_at(engine: &Engine, node: &Node) -> Bounds
    requires { is_live engine.now.sheet node.now ≡ true }
    ensures { result ≡ bounds_at engine.now.factors engine.now.sheet node.now }
{
    let (grains, close) = engine.told(node);
    bounds_of(grains, close)
}

/// The bounds of a figure in grains, with what is told of its choices.
pub(crate) fn bounds_of(grains: Span, close: bool) -> Bounds
    ensures { result ≡ bounds_of (ends grains) close }
{
    Bounds {
        low: rounded_down(grains.low, GRAINS),
        high: rounded_up(grains.high, GRAINS),
        close,
    }
}

/// So many units, told in one that is `scale` of them and rounded down.
pub fn rounded_down(units: i128, scale: u64) -> i128
    requires { 0 < scale }
    ensures { result ≡ floor_div units scale }
{
    if units < 0 {
        units.div_euclid(i128::from(scale))
    } else {
        divided(units, scale)
    }
}

/// So many units, told in one that is `scale` of them and rounded up.
pub fn rounded_up(units: i128, scale: u64) -> i128
    requires { 0 < scale }
    ensures { result ≡ ceil_div units scale }
{
    if units > 0 {
        divided(units - 1, scale) + 1
    } else {
        units / i128::from(scale)
    }
}

/// The same of units that are not below nothing, rounded down. Most are few enough for that they take no division of a wide number.
fn divided(units: i128, scale: u64) -> i128
    requires some { pos 0 ≤ℤ units }
    requires scale { 0 < scale }
    ensures { result ≡ floor_div units scale }
{
    if units < WORDS {
        return i128::from(units as u64 / scale);
    }
    units / i128::from(scale)
}
