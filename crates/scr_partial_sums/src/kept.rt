//! A wide figure as a table stores it.
ghost use Rattle.std.specs.Prelude.{◌≡◌, ◌≤ℤ◌};

use crate::Figure;
use crate::end::End;
use scr_num::Span;
use std::marker::Model;

/// A stored figure of 36 bytes, where a `Figure` takes 48. Contracts see the figure.
#[derive(Drop)]
pub(crate) struct KeptFigure {
    low: End,
    high: End,
    close: bool,
    ghost ordered: { low ≤ℤ high },
}

impl Model for KeptFigure {
    ghost use Rattle.scr_partial_sums.specs.declared.figure.Figure.{Figure};

    ghost Value = { Figure };

    ghost use Rattle.scr_partial_sums.specs.KeptFigures.{figure_in};

    ghost view = { figure_in };
}

impl KeptFigure {
    /// The figure in its stored form.
    pub(crate) fn new(figure: Figure) -> KeptFigure
        ensures { result ≡ figure }
    {
        let low = End::new(figure.span.low);
        let high = End::new(figure.span.high);
        KeptFigure {
            low,
            high,
            close: figure.close,
        }
    }

    /// The figure that is stored.
    pub(crate) fn figure(&self) -> Figure
        ensures { result ≡ self.now }
    {
        let span = self.span();
        Figure {
            span,
            close: self.close,
        }
    }

    /// The span of the stored figure.
    pub(crate) fn span(&self) -> Span
        ensures { result ≡ self.now.span }
    {
        let low = self.low.number();
        let high = self.high.number();
        Span { low, high }
    }
}
