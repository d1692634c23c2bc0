//! A place in the code that a test can watch.

/// Passed before each evaluation of a figure. It tells nothing and changes nothing that a clause
/// sees.
pub trait Gate {
    /// The figure of this number is about to be evaluated.
    fn pass(&self, node: u32);
}

/// The gate of the real program, which does nothing.
#[derive(Clone, Copy, Debug, PartialEq, Eq)]
pub struct OpenGate;

impl Gate for OpenGate {
    fn pass(&self, _node: u32) {}
}
