//! The stresses of a curve.

/// Which rates are meant: those of the curve, the raised ones (Delegated Regulation (EU) 2015/35, Article 166) or the
/// lowered ones (Article 167).
#[derive(Clone, Copy, Debug, PartialEq, Eq)]
pub enum Tilt {
    Base,
    Up,
    Down,
}
