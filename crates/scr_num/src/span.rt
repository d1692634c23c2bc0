//! A span: two whole numbers that enclose a figure.

ghost use Rattle.std.specs.Prelude.{◌≤ℤ◌};

/// Two whole numbers, in a unit that the reader knows, with the figure that is meant between them.
#[derive(Clone, Copy, Debug, PartialEq, Eq)]
pub struct Span {
    pub low: i128,
    pub high: i128,
    ghost ordered: { low ≤ℤ high },
}
