//! What operational risk is made of.

use scr_num::Span;

/// The capital requirement for operational risk and what it is made of, in grains: thousandths of a
/// cent.
#[derive(Clone, Copy, Debug, PartialEq, Eq)]
pub struct Operational {
    /// By premiums.
    pub prem: Span,
    /// By provisions.
    pub prov: Span,
    /// What both are limited to.
    pub cap: Span,
    pub op: Span,
}
