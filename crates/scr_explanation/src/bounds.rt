//! The bounds of a figure in hundredths of what is told of it.
ghost use Rattle.std.specs.Prelude.{◌≡◌, true};
ghost use Rattle.scr_nodes.specs.Live.{is_live};
ghost use Rattle.scr_explanation.specs.Told.{size, told_bounds};

use scr_amounts::Bounds;
use scr_cells::{rounded_down, rounded_up};
use scr_figure_titles::unit_of;
use scr_nodes::Node;
use scr_tree::{Engine, Point};

/// The bounds of a figure of the engine's book in hundredths of what is told of it, rounded outward.
#[tactic(auto, using(crate::proofs::Roundings::scale_positive))]
pub(crate) fn bounds_of(engine: &Engine, node: &Node) -> Bounds
    requires { is_live engine.now.sheet node.now ≡ true }
    ensures { result ≡ told_bounds engine.now.factors engine.now.sheet node.now }
{
    let span = engine.span(Point::Figure(*node));
    let scale = unit_of(node).scale();
    Bounds {
        low: rounded_down(span.low, scale),
        high: rounded_up(span.high, scale),
    }
}

/// How large a figure is, in its unit, without its sign.
pub(crate) fn size_of(engine: &Engine, node: &Node) -> u128
    requires { is_live engine.now.sheet node.now ≡ true }
    ensures { result ≡ size engine.now.factors engine.now.sheet node.now }
{
    engine.span(Point::Figure(*node)).high.unsigned_abs()
}
