//! A scenario's capital requirements, and the one that decides among several.

use scr_num::Span;

/// The capital requirement in one scenario before and after absorption.
#[derive(Clone, Copy, Debug, PartialEq, Eq)]
pub struct Scenario {
    pub gross: Span,
    pub net: Span,
}

/// The capital requirement of the scenario that decides.
#[derive(Clone, Copy, Debug, PartialEq, Eq)]
pub struct Picked {
    pub gross: Span,
    pub net: Span,
    /// Bit i is set where the scenario at place i may decide.
    pub mask: u8,
    /// Two or more scenarios may decide.
    pub close: bool,
}
